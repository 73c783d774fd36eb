//! Updates and audits over a hub, on one thread.

ghost use Rattle.std.specs.Prelude.{◌≡◌, ◌≤◌, IfOk};

use std::alloc::{AllocError, Global};
use std::process::Abort;
use std::sync::Wait;
use std::test::Fail;
use std::thread::Threads;
use viz_actor::{Answer, AuditAnswer, audit_node, update};
use viz_base::{Bytes, FILE_LIMIT, FailAt, MemoryPort, OpenGate, Shape, Shared, Word};
use viz_batches::Batch;
use viz_history::EditAnswer;
use viz_hub::{Hub, Pass, Sent};
use viz_network::{Cause, Edit, Kind, Param, Value};

// Eight points, of which the last one has the value 9.
pub(crate) const CORNER: &str =
    "# vtk DataFile Version 5.1\nvtk output\nASCII\nDATASET STRUCTURED_POINTS\n\
    DIMENSIONS 2 2 2\nSPACING 1 1 1\nORIGIN 0 0 0\nPOINT_DATA 8\nSCALARS ImageScalars int\n\
    LOOKUP_TABLE default\n0 0 0 0 0 0 0 9 \nMETADATA\nINFORMATION 0\n\n";

const WHOLE: Shape = Shape {
    pieces: 1,
    workers: 1,
};

fn word(text: &str) -> Result<Word, Fail> {
    Ok(Word::new(text.as_bytes()).ok_or("no name")?)
}

fn begin(alloc: Global, limit: u32) -> Result<(Hub, Pass), AllocError>
    requires { limit ≤ 67108863 }
    ensures pass { IfOk result (λ r. r.1.turn ≡ r.0) }
{
    Hub::start(alloc, limit, 16)
}

fn edit<R: Wait>(rt: &R, hub: &Hub, pass: Pass, edit: Edit) -> (Pass, EditAnswer)
    requires belongs { pass.turn ≡ hub.now }
    ensures pass { result.0.turn ≡ hub.now }
{
    let mut pass = pass;
    let answer = hub.edit(rt, &mut pass, Batch::one(edit));
    (pass, answer)
}

fn split<R: Wait>(rt: &R, hub: &Hub, pass: Pass) -> (Pass, Pass)
    requires belongs { pass.turn ≡ hub.now }
    ensures first { result.0.turn ≡ hub.now }
    ensures second { result.1.turn ≡ hub.now }
{
    hub.split(rt, pass)
}

fn write<R: Threads + Wait + Sync>(
    rt: &R,
    alloc: Global,
    hub: &Hub,
    pass: Pass,
    sink: &Word,
    port: &mut MemoryPort,
) -> (Pass, Answer)
    requires belongs { pass.turn ≡ hub.now }
    ensures pass { result.0.turn ≡ hub.now }
{
    update(rt, alloc, hub, pass, sink, "o.vtk", &WHOLE, port, &OpenGate)
}

fn count<R: Threads + Wait + Sync>(
    rt: &R,
    alloc: Global,
    hub: &Hub,
    pass: Pass,
    node: &Word,
) -> (Pass, AuditAnswer)
    requires belongs { pass.turn ≡ hub.now }
    ensures pass { result.0.turn ≡ hub.now }
{
    audit_node(rt, alloc, hub, pass, node, &WHOLE, &OpenGate)
}

fn addition(kind: Kind, node: Word) -> Edit {
    Edit::Add { kind, node }
}

fn loading(alloc: Global, node: Word) -> Result<Edit, Fail> {
    let file = Shared::new(alloc, Bytes::new(CORNER.as_bytes().to_vec(alloc)?))?;
    Ok(Edit::Load { node, file })
}

#[test]
fn a_full_history_still_answers(rt: HostRuntime) -> Result<(), Fail> {
    // history-full
    let alloc = rt.alloc();
    let src = word("src")?;
    let (hub, pass) = begin(alloc, 3)?;
    let (pass, one) = edit(&rt, &hub, pass, addition(Kind::File, src));
    let (pass, two) = edit(&rt, &hub, pass, loading(alloc, src)?);
    let (pass, three) = edit(&rt, &hub, pass, addition(Kind::Contour, word("iso")?));
    let (pass, full) = edit(&rt, &hub, pass, Edit::Remove { node: src });
    assert_eq!(rt; one, EditAnswer::Done { at: 1 });
    assert_eq!(rt; two, EditAnswer::Done { at: 2 });
    assert_eq!(rt; three, EditAnswer::Done { at: 3 });
    assert_eq!(rt; full, EditAnswer::Full { at: 3 });
    let mut port = MemoryPort::new(alloc, Vec::new(alloc), FILE_LIMIT, Vec::new(alloc));
    let (pass, file) = write(&rt, alloc, &hub, pass, &src, &mut port);
    let written = Answer::Written {
        at: 3,
        cells: 1,
        points: 8,
        ran: 1,
    };
    assert_eq!(rt; file, written);
    assert!(rt; port.file("o.vtk").is_some());
    let (_, unknown) = write(&rt, alloc, &hub, pass, &word("none")?, &mut port);
    assert_eq!(rt; unknown, Answer::Unknown { at: 3 });
    Ok(())
}

fn level(node: Word, level: i64) -> Edit {
    Edit::Set {
        node,
        param: Param::Levels,
        value: Value::Numbers {
            count: 1,
            items: [level, 0, 0, 0, 0, 0, 0, 0],
        },
    }
}

// Makes the corner's contour at 5, and a contour that stands on nothing.
fn surface<R: Wait>(rt: &R, alloc: Global, hub: &Hub, pass: Pass) -> Result<Pass, Fail>
    requires belongs { pass.turn ≡ hub.now }
    ensures pass { IfOk result (λ p. p.turn ≡ hub.now) }
{
    let src = word("src")?;
    let iso = word("iso")?;
    let bare = word("bare")?;
    let file = loading(alloc, src)?;
    let wire = Edit::Connect {
        from: src,
        to: iso,
        port: 1,
    };
    let (pass, _) = edit(rt, hub, pass, addition(Kind::File, src));
    let (pass, _) = edit(rt, hub, pass, file);
    let (pass, _) = edit(rt, hub, pass, addition(Kind::Contour, iso));
    let (pass, _) = edit(rt, hub, pass, wire);
    let (pass, _) = edit(rt, hub, pass, level(iso, 5));
    let (pass, _) = edit(rt, hub, pass, addition(Kind::Contour, bare));
    Ok(pass)
}

// Of an update: how many tasks ran, if the file was written; how often the pass has published; and
// of how many entries and in how many pieces last.
type Told = (Option<u64>, u64, Option<(u32, u32)>);

fn told(answer: &Answer, sent: u64, last: Option<Sent>) -> Told {
    let ran = match answer {
        Answer::Written { ran, .. } => Some(*ran),
        _ => None,
    };
    let last = match last {
        Some(Sent { at, sink: _, shape }) => Some((at, shape.pieces)),
        None => None,
    };
    (ran, sent, last)
}

#[test]
fn an_update_publishes_where_its_node_has_a_dataset(rt: HostRuntime) -> Result<(), Fail> {
    // level-changed, sent-and-last
    let alloc = rt.alloc();
    let iso = word("iso")?;
    let (hub, pass) = begin(alloc, 100)?;
    let pass = surface(&rt, alloc, &hub, pass)?;
    let failing = FailAt { call: 3, kept: 0 };
    let failing = vec![in alloc; failing]?;
    let mut port = MemoryPort::new(alloc, Vec::new(alloc), FILE_LIMIT, failing);
    let (pass, one) = write(&rt, alloc, &hub, pass, &iso, &mut port);
    assert_eq!(rt;
        told(&one, pass.sent(), pass.last()),
        (Some(2), 1, Some((6, 1)))
    );
    let (pass, again) = write(&rt, alloc, &hub, pass, &iso, &mut port);
    assert_eq!(rt;
        told(&again, pass.sent(), pass.last()),
        (Some(0), 2, Some((6, 1)))
    );
    let (pass, none) = write(&rt, alloc, &hub, pass, &word("none")?, &mut port);
    assert_eq!(rt; none, Answer::Unknown { at: 6 });
    let (pass, bare) = write(&rt, alloc, &hub, pass, &word("bare")?, &mut port);
    assert_eq!(rt;
        told(&bare, pass.sent(), pass.last()),
        (None, 2, Some((6, 1)))
    );
    let (pass, _) = edit(&rt, &hub, pass, level(iso, 10));
    let (pass, unwritten) = write(&rt, alloc, &hub, pass, &iso, &mut port);
    assert_eq!(rt; unwritten, Answer::WriteFault { at: 7 });
    assert_eq!(rt; (pass.sent(), port.file("o.vtk").is_some()), (3, true));
    let (pass, last) = write(&rt, alloc, &hub, pass, &iso, &mut port);
    assert_eq!(rt;
        told(&last, pass.sent(), pass.last()),
        (Some(0), 4, Some((7, 1)))
    );
    Ok(())
}

#[test]
fn others_edits_are_seen(rt: HostRuntime) -> Result<(), Fail> {
    let alloc = rt.alloc();
    let src = word("src")?;
    let iso = word("iso")?;
    let (hub, pass) = begin(alloc, 100)?;
    let (mine, theirs) = split(&rt, &hub, pass);
    let (theirs, _) = edit(&rt, &hub, theirs, addition(Kind::File, src));
    let (theirs, _) = edit(&rt, &hub, theirs, loading(alloc, src)?);
    let (theirs, _) = edit(&rt, &hub, theirs, addition(Kind::Contour, iso));
    let (mine, unconnected) = count(&rt, alloc, &hub, mine, &iso);
    let AuditAnswer::Network { fault, name, at } = unconnected else {
        return Err("no fault".into());
    };
    assert!(rt; (fault.cause, name, at) == (Cause::Unconnected(1), iso, 3));
    let wire = Edit::Connect {
        from: src,
        to: iso,
        port: 1,
    };
    let (theirs, _) = edit(&rt, &hub, theirs, wire);
    let (_, _) = edit(&rt, &hub, theirs, level(iso, 5));
    let (mine, audited) = count(&rt, alloc, &hub, mine, &iso);
    let AuditAnswer::Counted { at, audit } = audited else {
        return Err("no counts".into());
    };
    assert!(rt; (at, audit.sides, audit.two, audit.lone, audit.border) == (5, 12, 6, 6, 6));
    let (mine, unknown) = count(&rt, alloc, &hub, mine, &word("none")?);
    assert_eq!(rt; unknown, AuditAnswer::Unknown { at: 5 });
    // the file and the contour were kept by the audit, and the file's own publishes once more
    let (mine, flat) = count(&rt, alloc, &hub, mine, &src);
    let AuditAnswer::Network { fault, name, at } = flat else {
        return Err("no fault".into());
    };
    assert!(rt; (fault.cause, name, at) == (Cause::WrongInput(1), src, 5));
    let mut port = MemoryPort::new(alloc, Vec::new(alloc), FILE_LIMIT, Vec::new(alloc));
    let (pass, last) = write(&rt, alloc, &hub, mine, &iso, &mut port);
    assert_eq!(rt;
        told(&last, pass.sent(), pass.last()),
        (Some(0), 3, Some((5, 1)))
    );
    Ok(())
}
