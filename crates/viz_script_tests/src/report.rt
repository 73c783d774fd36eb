//! Lines of each kind, as docs/FORMATS.md spells them.

use std::alloc::Global;
use std::process::Abort;
use std::test::Fail;
use viz_base::{NodeId, Word};
use viz_lex::{FileFault, FileKind};
use viz_network::{Cause, Fault, Refusal};
use viz_report::{Line, Reason, Row, report_text};

fn told(rt: &impl Abort, alloc: Global, line: Line, want: &str) -> Result<(), Fail> {
    let memory = Row {
        actor: 3,
        count: 1,
        line: Line::Memory,
    };
    let rows = [
        memory,
        Row {
            actor: 3,
            count: 2,
            line,
        },
    ];
    let text = report_text(alloc, &rows)?;
    let want = format!(in alloc; "memory 3 1\n{want}\n")?;
    assert!(rt; text.list() == want.as_bytes(), "{want}: {text:?}");
    Ok(())
}

fn fault(cause: Cause) -> Result<Reason, Fail> {
    let node = Word::new(b"src").ok_or("no name")?;
    let fault = Fault {
        node: NodeId(7),
        cause,
    };
    Ok(Reason::Fault { fault, node })
}

fn bad_file(kind: FileKind) -> Cause {
    Cause::BadFile(FileFault { kind, place: 163 })
}

#[test]
fn each_line_is_spelled_so(rt: HostRuntime) -> Result<(), Fail> {
    let alloc = rt.alloc();
    let file = Line::File {
        at: 5,
        cells: 6,
        points: 7,
        ran: 2,
    };
    told(&rt, alloc, Line::Edit { at: 65536 }, "edit 3 2 at 65536")?;
    told(&rt, alloc, file, "file 3 2 at 5 cells 6 points 7 ran 2")?;
    let audit = Line::Audit {
        at: 5,
        sides: 12,
        two: 6,
        lone: 5,
        border: 4,
    };
    let counts = "audit 3 2 at 5 sides 12 two 6 open 5 border 4";
    told(&rt, alloc, audit, counts)?;
    told(&rt, alloc, Line::ReadFault, "fault 3 2 read")?;
    told(&rt, alloc, Line::WriteFault, "fault 3 2 write")?;
    Ok(())
}

// A refusal for each of the reasons is spelled so.
fn refused(rt: &impl Abort, alloc: Global, reason: Reason, want: &str) -> Result<(), Fail> {
    let want = format!(in alloc; "refused 3 2 {want} at 4")?;
    told(rt, alloc, Line::Refused { reason, at: 4 }, &want)
}

#[test]
fn each_reason_is_spelled_so(rt: HostRuntime) -> Result<(), Fail> {
    let alloc = rt.alloc();
    for (reason, want) in [
        (Reason::Edit(Refusal::Exists), "Exists"),
        (Reason::Edit(Refusal::Unknown), "Unknown"),
        (Reason::Edit(Refusal::NoPort), "NoPort"),
        (Reason::Edit(Refusal::NoParam), "NoParam"),
        (Reason::Edit(Refusal::BadValue), "BadValue"),
        (Reason::Edit(Refusal::WouldCycle), "WouldCycle"),
        (Reason::Edit(Refusal::InUse), "InUse"),
        (Reason::Edit(Refusal::TooManyNodes), "TooManyNodes"),
        (Reason::Full, "Full"),
        (Reason::TooLong, "TooLong"),
        (Reason::Unknown, "Unknown"),
    ] {
        refused(&rt, alloc, reason, want)?;
    }
    Ok(())
}

#[test]
fn a_fault_names_its_node(rt: HostRuntime) -> Result<(), Fail> {
    let alloc = rt.alloc();
    for (cause, want) in [
        (Cause::Unconnected(2), "fault:src:Unconnected(2)"),
        (Cause::WrongInput(1), "fault:src:WrongInput(1)"),
        (Cause::NoFile, "fault:src:NoFile"),
        (Cause::EmptyExtent, "fault:src:EmptyExtent"),
        (Cause::GridsDiffer, "fault:src:GridsDiffer"),
        (Cause::TooWide, "fault:src:TooWide"),
        (Cause::TooMany, "fault:src:TooMany"),
    ] {
        refused(&rt, alloc, fault(cause)?, want)?;
    }
    Ok(())
}

#[test]
fn a_bad_file_has_its_kind_and_place(rt: HostRuntime) -> Result<(), Fail> {
    let alloc = rt.alloc();
    for (kind, want) in [
        (FileKind::Magic, "Magic"),
        (FileKind::Title, "Title"),
        (FileKind::Form, "Form"),
        (FileKind::Keyword, "Keyword"),
        (FileKind::Number, "Number"),
        (FileKind::ValueRange, "ValueRange"),
        (FileKind::Count, "Count"),
        (FileKind::Index, "Index"),
        (FileKind::CellType(-4), "CellType(-4)"),
        (FileKind::FloatArray, "FloatArray"),
        (FileKind::NoArray, "NoArray"),
        (FileKind::Spacing, "Spacing"),
        (FileKind::HeaderNumber, "HeaderNumber"),
        (FileKind::TooMany, "TooMany"),
        (FileKind::Truncated, "Truncated"),
        (FileKind::Unsupported, "Unsupported"),
    ] {
        let want = format!(in alloc; "fault:src:BadFile({want},163)")?;
        refused(&rt, alloc, fault(bad_file(kind))?, &want)?;
    }
    Ok(())
}
