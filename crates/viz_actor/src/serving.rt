//! Commands, one after the other.

ghost use Rattle.std.specs.Prelude.{◌≡◌, ◌+◌, ◌≤◌, ◌∷◌, [], length, vec_capacity, IfOk};
ghost use Rattle.viz_hub.specs.Passes.{at_seen};
ghost use Rattle.viz_network.specs.declared.edit.Edit.TheVariants as edits;
ghost use Rattle.viz_script.specs.Orders.{seen};
ghost use Rattle.viz_account.specs.Served.{Serves};
ghost use Rattle.viz_actor.specs.Serving.{commands_of, edit_line, batch_line, AddsLines};
ghost use Rattle.viz_actor.specs.Serving.{Edits, Batches};
ghost use Rattle.viz_actor.specs.Updating.{IsSamePass};

use crate::copies::{copy_all, copy_of};
use crate::updating::{audit_node, update};
use std::alloc::Global;
use std::sync::Wait;
use std::thread::Threads;
use viz_base::{Bytes, Gate, Port, ReadRefusal, Shape, Shared, Word};
use viz_batches::Batch;
use viz_history::EditAnswer;
use viz_hub::{Hub, Pass};
use viz_network::Edit;
use viz_report::{Line, Reason};
use viz_script::{Order, Step};
use viz_words::FileName;

// The line of an edit's answer.
fn edit_line(answer: EditAnswer) -> Line
    ensures { result ≡ edit_line answer }
{
    match answer {
        EditAnswer::Done { at } => Line::Edit { at },
        EditAnswer::Refused { refusal, at, .. } => Line::Refused {
            reason: Reason::Edit(refusal),
            at,
        },
        EditAnswer::Full { at } => Line::Refused {
            reason: Reason::Full,
            at,
        },
        EditAnswer::Memory => Line::Memory,
    }
}

// The line of a batch's answer: a refusal has its place in the batch.
fn batch_line(answer: EditAnswer) -> Line
    ensures { result ≡ batch_line answer }
{
    match answer {
        EditAnswer::Refused { index, refusal, at } => Line::Refused {
            reason: Reason::Batch { index, refusal },
            at,
        },
        other => edit_line(other),
    }
}

// Makes an edit, as a batch of one.
fn make<R: Wait>(rt: &R, hub: &Hub, pass: &mut Pass, edit: Edit) -> Line
    requires belongs { pass.old.turn ≡ hub.now }
    ensures same { pass.new ≡ at_seen pass.old pass.new.seen }
    ensures edits { Edits hub.now.mark pass.old.number edit result pass.old.seen pass.new.seen }
{
    let answer = hub.edit(rt, pass, Batch::one(edit));
    edit_line(answer)
}

// Makes a batch.
fn make_all<R: Wait>(rt: &R, hub: &Hub, pass: &mut Pass, batch: Batch) -> Line
    requires belongs { pass.old.turn ≡ hub.now }
    ensures same { pass.new ≡ at_seen pass.old pass.new.seen }
    ensures edits { Batches hub.now.mark pass.old.number batch result pass.old.seen
        pass.new.seen }
{
    let answer = hub.edit(rt, pass, batch);
    batch_line(answer)
}

// Makes a copy of the edit.
fn make_copy<R: Wait>(rt: &R, hub: &Hub, pass: &mut Pass, edit: &Edit) -> Line
    requires belongs { pass.old.turn ≡ hub.now }
    ensures same { pass.new ≡ at_seen pass.old pass.new.seen }
    ensures edits { Edits hub.now.mark pass.old.number edit.now result
        pass.old.seen pass.new.seen }
{
    match copy_of(edit) {
        Ok(edit) => make(rt, hub, pass, edit),
        Err(_) => Line::Memory,
    }
}

// Makes a copy of the batch.
fn make_copies<R: Wait>(rt: &R, alloc: Global, hub: &Hub, pass: &mut Pass, batch: &Batch) -> Line
    requires belongs { pass.old.turn ≡ hub.now }
    ensures same { pass.new ≡ at_seen pass.old pass.new.seen }
    ensures edits { Batches hub.now.mark pass.old.number batch.now result
        pass.old.seen pass.new.seen }
{
    match copy_all(alloc, batch) {
        Ok(batch) => make_all(rt, hub, pass, batch),
        Err(_) => Line::Memory,
    }
}

// Makes the edit that gives a node these bytes.
fn store<R: Wait>(
    rt: &R,
    alloc: Global,
    hub: &Hub,
    pass: &mut Pass,
    node: &Word,
    bytes: Bytes,
) -> Line
    requires belongs { pass.old.turn ≡ hub.now }
    ensures same { pass.new ≡ at_seen pass.old pass.new.seen }
    ensures edits { Edits hub.now.mark pass.old.number (edits.Load node.now bytes) result
        pass.old.seen pass.new.seen }
{
    match Shared::new(alloc, bytes) {
        Ok(file) => make(rt, hub, pass, Edit::Load { node: *node, file }),
        Err(_) => Line::Memory,
    }
}

// Reads a file into a node.
fn load<R: Wait, P: Port>(
    rt: &R,
    alloc: Global,
    hub: &Hub,
    pass: &mut Pass,
    port: &mut P,
    node: &Word,
    file: &FileName,
) -> Line
    requires belongs { pass.old.turn ≡ hub.now }
    ensures same { pass.new ≡ at_seen pass.old pass.new.seen }
    ensures serves { Serves P.Port hub.now.mark pass.old.number
        (Rattle.viz_script.specs.Orders.load node.now file.now) result
        pass.old.seen pass.new.seen port.old port.new }
{
    match port.read(alloc, file.text()) {
        Ok(bytes) => store(rt, alloc, hub, pass, node, bytes),
        Err(ReadRefusal::TooLong(_)) => Line::Refused {
            reason: Reason::TooLong,
            at: hub.front(rt, pass),
        },
        Err(ReadRefusal::Failed) => Line::ReadFault,
        Err(ReadRefusal::Memory) => Line::Memory,
    }
}

// Writes the file of a node.
fn write<R: Threads + Wait + Sync, P: Port, G: Gate + Sync>(
    rt: &R,
    alloc: Global,
    hub: &Hub,
    pass: Pass,
    port: &mut P,
    gate: &G,
    node: &Word,
    file: &FileName,
    shape: &Shape,
) -> (Pass, Line)
    requires belongs { pass.turn ≡ hub.now }
    ensures same { IsSamePass pass result.0 }
    ensures serves { Serves P.Port hub.now.mark pass.number
        (Rattle.viz_script.specs.Orders.update node.now file.now shape.now.pieces
        shape.now.workers) result.1 pass.seen result.0.seen port.old port.new }
{
    let (pass, answer) = update(rt, alloc, hub, pass, node, file.text(), shape, port, gate);
    (pass, answer.line())
}

// Audits a node.
fn count<R: Threads + Wait + Sync, P: Port, G: Gate + Sync>(
    rt: &R,
    alloc: Global,
    hub: &Hub,
    pass: Pass,
    port: &P,
    gate: &G,
    node: &Word,
    shape: &Shape,
) -> (Pass, Line)
    requires belongs { pass.turn ≡ hub.now }
    ensures same { IsSamePass pass result.0 }
    ensures serves { Serves P.Port hub.now.mark pass.number
        (Rattle.viz_script.specs.Orders.audit node.now shape.now.pieces shape.now.workers)
        result.1 pass.seen result.0.seen port.now port.now }
{
    let _port = port;
    let (pass, answer) = audit_node(rt, alloc, hub, pass, node, shape, gate);
    (pass, answer.line())
}

/// Serves one command: an edit, and a batch, is an entry of the history, or is refused; a load reads
/// its file first; an update writes once; an audit calls nothing.
pub fn serve_order<R: Threads + Wait + Sync, P: Port, G: Gate + Sync>(
    rt: &R,
    alloc: Global,
    hub: &Hub,
    pass: Pass,
    port: &mut P,
    gate: &G,
    order: &Order,
) -> (Pass, Line)
    requires belongs { pass.turn ≡ hub.now }
    ensures same { IsSamePass pass result.0 }
    ensures serves { Serves P.Port hub.now.mark pass.number (seen order.now) result.1
        pass.seen result.0.seen port.old port.new }
{
    let mut pass = pass;
    match order {
        Order::Do(edit) => {
            let line = make_copy(rt, hub, &mut pass, edit);
            (pass, line)
        }
        Order::DoAll(batch) => {
            let line = make_copies(rt, alloc, hub, &mut pass, batch);
            (pass, line)
        }
        Order::Load { node, file } => {
            let line = load(rt, alloc, hub, &mut pass, port, node, file);
            (pass, line)
        }
        Order::Update { node, file, shape } => {
            write(rt, alloc, hub, pass, port, gate, node, file, shape)
        }
        Order::Audit { node, shape } => count(rt, alloc, hub, pass, port, gate, node, shape),
    }
}

// Serves the step, where it is the actor's, and adds its line.
fn serve_step<R: Threads + Wait + Sync, P: Port, G: Gate + Sync>(
    rt: &R,
    alloc: Global,
    hub: &Hub,
    pass: Pass,
    port: &mut P,
    gate: &G,
    actor: u32,
    step: &Step,
    lines: &mut Vec<Line>,
) -> Pass
    requires belongs { pass.turn ≡ hub.now }
    requires room { length lines.old.items + length (commands_of actor (step.now ∷ []))
        ≤ vec_capacity lines.old }
    ensures same { IsSamePass pass result }
    ensures adds { AddsLines P.Port hub.now.mark pass.number (commands_of actor (step.now ∷ []))
        lines.old.items lines.new.items pass.seen result.seen port.old port.new }
    ensures capacity { vec_capacity lines.new ≡ vec_capacity lines.old }
{
    if step.actor == actor {
        let (pass, line) = serve_order(rt, alloc, hub, pass, port, gate, &step.order);
        lines.push_reserved(line);
        pass
    } else {
        pass
    }
}

/// Serves those of the steps that are the actor's, in order, each whatever became of those before
/// it, and adds a line for each. There is room for the lines.
pub fn serve_steps<R: Threads + Wait + Sync, P: Port, G: Gate + Sync>(
    rt: &R,
    alloc: Global,
    hub: &Hub,
    pass: Pass,
    port: &mut P,
    gate: &G,
    actor: u32,
    steps: &[Step],
    lines: &mut Vec<Line>,
) -> Pass
    requires belongs { pass.turn ≡ hub.now }
    requires room { length lines.old.items + length (commands_of actor steps.now)
        ≤ vec_capacity lines.old }
    ensures same { IsSamePass pass result }
    ensures adds { AddsLines P.Port hub.now.mark pass.number (commands_of actor steps.now)
        lines.old.items lines.new.items pass.seen result.seen port.old port.new }
    ensures capacity { vec_capacity lines.new ≡ vec_capacity lines.old }
{
    let mut pass = pass;
    for step in steps {
        pass = serve_step(rt, alloc, hub, pass, port, gate, actor, step, lines);
    }
    pass
}
