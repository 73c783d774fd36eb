//! One run of a command of one file.

ghost use Rattle.std.specs.Prelude.{◌≡◌, ◌≢◌, ◌⊎◌};
ghost use Rattle.viz_base.specs.Faults.{Rose, one_more};
ghost use Rattle.viz_once.specs.Account.{IsRun};
ghost use Rattle.viz_once.specs.Commands.{command_view};
ghost use Rattle.viz_once.specs.Complete.{IsComplete};
ghost use Rattle.viz_once.specs.Promises.{IsDone, IsFault, IsRefused, IsScript, TellsRefusals};
ghost use Rattle.viz_told.specs.Ports.{FirstRose, OthersStay};

use crate::command::Once;
use crate::serving::serve_ports;
use std::alloc::Global;
use viz_base::{Out, Port};
use viz_reshape::reshapes_are_one;
use viz_scratch::files_are_one;
use viz_told::{Status, tell};

/// Runs a command of one file over the first port, and puts one line.
///
/// `ports` are the actors' ports, the first one's first. The statuses and lines are those of
/// docs/FORMATS.md, "Report".
pub fn run_once<P: Port, O: Out>(
    alloc: Global,
    command: &Once<'_>,
    ports: &mut Vec<P>,
    out: &mut O,
) -> Status
    // What the run was: one outcome of the command, what that did, and the line put of it.
    ensures account { IsRun P.Port O.Out (command_view command.now)
        ports.old.items ports.new.items out.old out.new result }

    // What follows of it for each status.
    ensures usage { result ≢ Status.Usage }
    ensures script { result ≡ Status.Script → IsScript P.Port O.Out
        ports.old.items ports.new.items out.old out.new }
    ensures done { result ≡ Status.Done → IsDone P.Port O.Out (command_view command.now)
        ports.old.items ports.new.items out.old out.new }
    ensures refused { result ≡ Status.Refused → IsRefused P.Port O.Out (command_view command.now)
        ports.old.items ports.new.items out.old out.new }
    ensures refuses { TellsRefusals P.Port O.Out (command_view command.now)
        ports.old.items ports.new.items out.old out.new result }
    ensures complete { IsComplete P.Port O.Out (command_view command.now)
        ports.old.items ports.new.items out.old out.new result }
    ensures fault { result ≡ Status.Fault → IsFault P.Port O.Out (command_view command.now)
        ports.old.items ports.new.items out.old out.new }
    ensures cause { result ≡ Status.Fault → FirstRose P.Port ports.old.items ports.new.items
        ⊎ Rose (O.faults out.old) (O.faults out.new) }

    // What is called and changed, whatever the status.
    ensures others { OthersStay ports.old.items ports.new.items }
    ensures one_put { O.puts out.new ≡ one_more (O.puts out.old) }
{
    files_are_one();
    reshapes_are_one();
    let outcome = serve_ports(alloc, command, ports);
    tell(alloc, out, &outcome)
}
