//! Updates of networks from scratch, their answers, and the lines of answers, counted by hand.

use crate::story::Story;
use std::alloc::Global;
use std::process::Abort;
use std::test::Fail;
use viz_account::{Answer, AuditAnswer, update_from_scratch};
use viz_base::{Bytes, FILE_LIMIT, FailAt, MemoryPort, Shared, Word};
use viz_network::{ApplyStop, Cause, Edit, Fault, Kind, Net, Param, Value};
use viz_report::{Line, Reason};

// Eight points, of which the last one has the value 9.
const CORNER: &str = "# vtk DataFile Version 5.1\nvtk output\nASCII\nDATASET STRUCTURED_POINTS\n\
    DIMENSIONS 2 2 2\nSPACING 1 1 1\nORIGIN 0 0 0\nPOINT_DATA 8\nSCALARS ImageScalars int\n\
    LOOKUP_TABLE default\n0 0 0 0 0 0 0 9 \nMETADATA\nINFORMATION 0\n\n";

// The contour of the corner at 5.
const SURFACE: &str = "# vtk DataFile Version 3.0\nvizrun fixed 10^-3\nASCII\nDATASET POLYDATA\n\
    POINTS 7 long\n555 555 555\n1000 555 555\n555 1000 555\n1000 1000 555\n555 555 1000\n\
    1000 555 1000\n555 1000 1000\nPOLYGONS 6 24\n3 1 0 3\n3 5 0 1\n3 3 0 2\n3 2 0 6\n3 4 0 5\n\
    3 6 0 4\nPOINT_DATA 7\nSCALARS scalars long 1\nLOOKUP_TABLE default\n5\n5\n5\n5\n5\n5\n5\n";

fn word(text: &str) -> Result<Word, Fail> {
    Ok(Word::new(text.as_bytes()).ok_or("no name")?)
}

fn make(story: &mut Story, edit: Edit) -> Result<(), Fail> {
    match story.apply(&edit) {
        Ok(()) => Ok(()),
        Err(_) => Err("refused".into()),
    }
}

// The corner's contour at 5, and a contour that stands on nothing.
fn corner_story(alloc: Global) -> Result<Story, Fail> {
    let src = word("src")?;
    let iso = word("iso")?;
    let mut story = Story::new(alloc);
    make(
        &mut story,
        Edit::Add {
            kind: Kind::File,
            node: src,
        },
    )?;
    let file = Shared::new(alloc, Bytes::new(CORNER.as_bytes().to_vec(alloc)?))?;
    make(&mut story, Edit::Load { node: src, file })?;
    make(
        &mut story,
        Edit::Add {
            kind: Kind::Contour,
            node: iso,
        },
    )?;
    make(
        &mut story,
        Edit::Connect {
            from: src,
            to: iso,
            port: 1,
        },
    )?;
    let value = Value::Numbers {
        count: 1,
        items: [5, 0, 0, 0, 0, 0, 0, 0],
    };
    make(
        &mut story,
        Edit::Set {
            node: iso,
            param: Param::Levels,
            value,
        },
    )?;
    make(
        &mut story,
        Edit::Add {
            kind: Kind::Contour,
            node: word("bare")?,
        },
    )?;
    Ok(story)
}

// The fault of a node, where ports are counted from 1.
fn fault_of(net: &Net, node: Word, cause: Cause) -> Result<Fault, Fail> {
    let node = net.find(&node).ok_or("no node")?;
    Ok(Fault { node, cause })
}

#[test]
fn updates_from_scratch_are_answered(rt: HostRuntime) -> Result<(), Fail> {
    let alloc = rt.alloc();
    let story = corner_story(alloc)?;
    let fault = fault_of(&story.net, word("bare")?, Cause::Unconnected(1))?;
    let name = word("bare")?;
    let written = Answer::Written {
        at: 6,
        cells: 6,
        points: 7,
        ran: 0,
    };
    for (node, failing, want, file) in [
        ("iso", None, written, Some(SURFACE)),
        ("none", None, Answer::Unknown { at: 6 }, None),
        ("bare", None, Answer::Network { fault, name, at: 6 }, None),
        (
            "iso",
            Some(FailAt { call: 1, kept: 0 }),
            Answer::WriteFault { at: 6 },
            Some(""),
        ),
    ] {
        let mut failures = Vec::new(alloc);
        if let Some(call) = failing {
            failures.push(call)?;
        }
        let mut port = MemoryPort::new(alloc, Vec::new(alloc), FILE_LIMIT, failures);
        let node_name = word(node)?;
        let answer = update_from_scratch(alloc, &story.net, 6, &mut port, &node_name, "o.vtk");
        assert_eq!(rt; answer, want, "{node}");
        let is = match (port.file("o.vtk"), file) {
            (Some(bytes), Some(text)) => bytes.list() == text.as_bytes(),
            (None, None) => true,
            _ => false,
        };
        assert!(rt; is, "{node}");
    }
    Ok(())
}

#[test]
fn answers_have_their_lines(rt: HostRuntime) -> Result<(), Fail> {
    let file = Answer::Written {
        at: 3,
        cells: 1,
        points: 8,
        ran: 2,
    };
    let line = Line::File {
        at: 3,
        cells: 1,
        points: 8,
        ran: 2,
    };
    assert!(rt; file.line() == line);
    let unknown = Line::Refused {
        reason: Reason::Unknown,
        at: 4,
    };
    assert!(rt; Answer::Unknown { at: 4 }.line() == unknown);
    assert!(rt; AuditAnswer::Unknown { at: 4 }.line() == unknown);
    assert!(rt; Answer::WriteFault { at: 4 }.line() == Line::WriteFault);
    assert!(rt; AuditAnswer::Memory.line() == Line::Memory);
    Ok(())
}
