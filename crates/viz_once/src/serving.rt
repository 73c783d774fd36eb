//! One file read, filtered and written.

ghost use Rattle.viz_once.specs.Account.{IsServed, Serves};
ghost use Rattle.viz_once.specs.Commands.{command_view};

use crate::command::Once;
use crate::made::made_of;
use crate::nodes::name_at;
use crate::outcome::{Failed, Outcome};
use std::alloc::Global;
use viz_base::{LongText, Port, ReadRefusal, WriteRefusal};
use viz_network::Stop;
use viz_report::Reason;
use viz_reshape::MadeFile;

/// Reads the command's input, and writes the file that its filter makes.
fn serve<P: Port>(alloc: Global, command: &Once<'_>, port: &mut P) -> Outcome
    ensures { IsServed P.Port (command_view command.now) result port.old port.new }
{
    let bytes = match port.read(alloc, command.input) {
        Ok(bytes) => bytes,
        Err(ReadRefusal::Failed) => return Outcome::Fault(Failed::Read),
        Err(ReadRefusal::TooLong(_)) => return Outcome::Refused(Reason::TooLong),
        Err(ReadRefusal::Memory) => return Outcome::Memory,
    };
    let made = match made_of(alloc, &command.filter, bytes) {
        Ok(made) => made,
        Err(Stop::Fault(fault)) => {
            let node = name_at(fault.node);
            return Outcome::Refused(Reason::Fault { fault, node });
        }
        Err(Stop::Memory) => return Outcome::Memory,
    };
    let MadeFile { text, counts } = made;
    let Ok(text) = LongText::of(alloc, text) else {
        return Outcome::Memory;
    };
    match port.write(alloc, command.output, &text) {
        Ok(()) => Outcome::Written(counts),
        Err(WriteRefusal::Failed) => Outcome::Fault(Failed::Write),
        Err(WriteRefusal::Memory) => Outcome::Memory,
    }
}

/// Serves the command by the first port, and calls no other.
fn serve_first<P: Port>(alloc: Global, command: &Once<'_>, ports: &mut [P]) -> Outcome
    ensures { Serves P.Port (command_view command.now) result ports.old ports.new }
{
    match ports {
        [] => Outcome::NoPort,
        [port, ..] => serve(alloc, command, port),
    }
}

/// The same over the list of ports.
pub fn serve_ports<P: Port>(alloc: Global, command: &Once<'_>, ports: &mut Vec<P>) -> Outcome
    ensures { Serves P.Port (command_view command.now) result ports.old.items ports.new.items }
{
    serve_first(alloc, command, ports.as_mut_slice())
}
