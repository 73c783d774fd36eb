//! A volume made and written.

ghost use Rattle.std.specs.Prelude.{◌≡◌, Option};
ghost use Rattle.viz_base.specs.declared.call.WriteAnswer.{WriteAnswer};
ghost use Rattle.viz_make.specs.Make.{IsEndOfMaking, IsMakeRun, written};
ghost use Rattle.viz_make.specs.Views.{make_of};
ghost use Rattle.viz_told.specs.Calls.{IsCalled};

use crate::came::Came;
use crate::made::made_of;
use std::alloc::Global;
use std::thread::Threads;
use viz_base::{Gate, LongText, Port, WriteRefusal};
use viz_extent::Extent;

/// The words of the command.
#[derive(Clone, Copy, Debug)]
pub struct Make<'a> {
    /// The number that the volume is made of.
    pub number: u32,
    /// The extent of the volume.
    pub extent: Extent,
    /// The name of its file.
    pub output: &'a str,
}

/// Makes the volume, audits its contour, and writes the volume with one call.
fn serve_port<R: Threads + Sync, P: Port, G: Gate + Sync>(
    rt: &R,
    alloc: Global,
    command: &Make<'_>,
    port: &mut P,
    gate: &G,
) -> Came
    ensures { (answer : Option WriteAnswer) × IsEndOfMaking (make_of command.now) answer result
        × IsCalled P.Port (written (make_of command.now) answer) port.old port.new }
{
    let Ok((text, made)) = made_of(rt, alloc, command, gate) else {
        return Came::Memory;
    };
    let Ok(text) = LongText::of_shared(alloc, text) else {
        return Came::Memory;
    };
    match port.write(alloc, command.output, &text) {
        Ok(()) => Came::Written(made),
        Err(WriteRefusal::Failed) => Came::Unwritten,
        Err(WriteRefusal::Memory) => Came::Memory,
    }
}

/// The same by the first port.
fn serve_over<R: Threads + Sync, P: Port, G: Gate + Sync>(
    rt: &R,
    alloc: Global,
    command: &Make<'_>,
    ports: &mut [P],
    gate: &G,
) -> Came
    ensures { IsMakeRun P.Port (make_of command.now) result ports.old ports.new }
{
    match ports {
        [] => Came::NoPort,
        [port, ..] => serve_port(rt, alloc, command, port, gate),
    }
}

/// The same over the list of ports.
pub fn serve<R: Threads + Sync, P: Port, G: Gate + Sync>(
    rt: &R,
    alloc: Global,
    command: &Make<'_>,
    ports: &mut Vec<P>,
    gate: &G,
) -> Came
    ensures { IsMakeRun P.Port (make_of command.now) result ports.old.items ports.new.items }
{
    serve_over(rt, alloc, command, ports.as_mut_slice(), gate)
}
