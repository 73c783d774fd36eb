//! A session's turns: the next line is read, and answered before the line behind it.

ghost use Rattle.std.specs.Prelude.{◌≡◌, ◌≤◌, ◌<◌, IfOk, OnOk, OnErr, None};
ghost use Rattle.viz_source.specs.declared.limits.TheConstants.{STREAM_LIMIT};
ghost use Rattle.viz_source.specs.Readers.{Reader, stream_of};
ghost use Rattle.viz_actor.specs.Updating.{IsSamePass};
ghost use Rattle.viz_hub.specs.Passes.{PassKnown};
ghost use Rattle.viz_console.specs.Steps.Serving.{Hears, AnswersAct, IsSoFar, IsEnded, GoesTo};

use crate::acts::{Act, Place};
use crate::ending::End;
use crate::line::{Said, line_in};
use crate::texts::{tell_bad, tell_line};
use std::alloc::Global;
use std::sync::Wait;
use std::thread::Threads;
use viz_actor::serve_order;
use viz_base::{Gate, Out, Port};
use viz_hub::{Hub, Pass};
use viz_source::{LineReader, NextLine, Source, StreamStop};
use viz_words::ScriptRefusal;

// What the next line says by itself, or how the session ends where none comes.
fn hear<S: Source>(
    reader: &mut LineReader,
    source: &mut S,
) -> Result<Result<Said, ScriptRefusal>, End>
    ensures hears { Hears S.Source result (stream_of reader.old (S.left source.old))
        (stream_of reader.new (S.left source.new)) source.old source.new }
    ensures passes { OnOk result (reader.old.passed < reader.new.passed) }
    ensures within { OnOk result (reader.new.passed ≤ STREAM_LIMIT) }
    ensures later { S.faults source.old ≤ S.faults source.new }
{
    match reader.next_line(source) {
        Ok(NextLine::Line) => Ok(line_in(reader.line())),
        Ok(NextLine::LongLine) => Ok(Err(ScriptRefusal::TooLong)),
        Ok(NextLine::End) => Err(End::Closed),
        Err(StreamStop::TooLong) => Err(End::TooLong),
        Err(StreamStop::Failed) => Err(End::Fault),
    }
}

// Does what is to be done for a line, and answers it.
fn answer<R: Threads + Wait + Sync, P: Port, O: Out, G: Gate + Sync>(
    rt: &R,
    alloc: Global,
    hub: &Hub,
    pass: Pass,
    text: &mut Vec<u8>,
    port: &mut P,
    out: &mut O,
    gate: &G,
    act: &Act,
) -> (Pass, Option<End>)
    requires belongs { pass.turn ≡ hub.now }
    ensures same { IsSamePass pass result.0 }
    ensures answers { AnswersAct P.Port O.Out hub.now.mark act.now result.1 pass result.0
        port.old port.new out.old out.new }
    ensures later { O.faults out.old ≤ O.faults out.new }
{
    match act {
        Act::Nothing => (pass, None),
        Act::Quit => (pass, Some(End::Quit)),
        Act::Bad { line, refusal } => (pass, tell_bad(alloc, out, text, *line, refusal)),
        Act::Serve { number, order } => {
            let (pass, line) = serve_order(rt, alloc, hub, pass, port, gate, order);
            (pass, tell_line(alloc, out, text, *number, &line))
        }
    }
}

// Reads the next line and answers it; or says how the session has ended.
fn turn<R: Threads + Wait + Sync, S: Source, P: Port, O: Out, G: Gate + Sync>(
    rt: &R,
    alloc: Global,
    hub: &Hub,
    pass: Pass,
    reader: &mut LineReader,
    place: &mut Place,
    text: &mut Vec<u8>,
    source: &mut S,
    port: &mut P,
    out: &mut O,
    gate: &G,
) -> (Pass, Option<End>)
    requires belongs { pass.turn ≡ hub.now }
    requires counted { place.old.lines ≤ reader.old.passed }
    requires within { reader.old.passed ≤ STREAM_LIMIT }
    ensures same { IsSamePass pass result.0 }
    ensures goes { (root : PassKnown) (first : S) (port_first : P) (out_first : O)
        → IsSamePass root pass
        → IsSoFar S.Source P.Port O.Out hub.now.mark root first port_first out_first
        reader.old place.old pass source.old port.old out.old
        → GoesTo S.Source P.Port O.Out hub.now.mark root first port_first out_first
        result.1 reader.new place.new result.0 source.new port.new out.new }
    ensures counted { result.1 ≡ None → place.new.lines ≤ reader.new.passed }
    ensures within { result.1 ≡ None → reader.new.passed ≤ STREAM_LIMIT }
    ensures passes { result.1 ≡ None → reader.old.passed < reader.new.passed }
{
    let said = match hear(reader, source) {
        Ok(said) => said,
        Err(end) => return (pass, Some(end)),
    };
    match place.take(alloc, said) {
        Ok(act) => answer(rt, alloc, hub, pass, text, port, out, gate, &act),
        Err(_) => (pass, Some(End::Memory)),
    }
}

/// Answers the lines of a source from the start, one after the other.
pub fn serve_lines<R: Threads + Wait + Sync, S: Source, P: Port, O: Out, G: Gate + Sync>(
    rt: &R,
    alloc: Global,
    hub: &Hub,
    pass: Pass,
    reader: LineReader,
    source: &mut S,
    port: &mut P,
    out: &mut O,
    gate: &G,
) -> (Pass, End)
    requires belongs { pass.turn ≡ hub.now }
    requires fresh { reader ≡ Rattle.viz_source.specs.Readers.fresh }
    ensures same { IsSamePass pass result.0 }
    ensures ended { IsEnded S.Source P.Port O.Out hub.now.mark pass source.old port.old out.old
        result.1 result.0 source.new port.new out.new }
{
    let mut pass = pass;
    let mut reader = reader;
    let mut place = Place::start();
    let mut text = Vec::new(alloc);
    'lines: loop {
        let (back, came) = turn(
            rt,
            alloc,
            hub,
            pass,
            &mut reader,
            &mut place,
            &mut text,
            source,
            port,
            out,
            gate,
        );
        pass = back;
        if let Some(end) = came {
            return (pass, end);
        }
    }
}
