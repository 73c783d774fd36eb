//! One run of the words `make NUMBER NX NY NZ OUT`.

ghost use Rattle.std.specs.Prelude.{◌≡◌, ◌≢◌, ◌⊎◌};
ghost use Rattle.viz_base.specs.Faults.{Rose, one_more};
ghost use Rattle.viz_make.specs.declared.came.Came.{Came as End};
ghost use Rattle.viz_make.specs.Complete.{IsComplete};
ghost use Rattle.viz_make.specs.Make.{IsMakeRun};
ghost use Rattle.viz_make.specs.Promises.{IsDone, IsFault, IsScript, TellsRefusals};
ghost use Rattle.viz_make.specs.Told.{telling_of};
ghost use Rattle.viz_make.specs.Views.{make_of};
ghost use Rattle.viz_told.specs.Ports.{FirstRose, OthersStay};
ghost use Rattle.viz_told.specs.Told.{IsTold};

use crate::serving::{Make, serve};
use std::alloc::Global;
use std::thread::Threads;
use viz_base::{Gate, Out, Port};
use viz_told::{Status, tell};

/// Makes the volume of a number, writes it by the first port, and puts its numbers and the audit of
/// its contour at 128, which is made as scripts make theirs: by an update of a network, in pieces
/// on workers, whose tasks pass `gate`.
///
/// The statuses and lines are those of docs/FORMATS.md, "Report".
pub fn run_make<R: Threads + Sync, P: Port, O: Out, G: Gate + Sync>(
    rt: &R,
    alloc: Global,
    command: &Make<'_>,
    ports: &mut Vec<P>,
    out: &mut O,
    gate: &G,
) -> Status
    // What the run was: how it ended, and the text put of it.
    ensures account { (came : End) × IsMakeRun P.Port (make_of command.now) came ports.old.items
        ports.new.items × IsTold O.Out (telling_of came) result out.old out.new }

    // What follows of it for each status.
    ensures script { result ≡ Status.Script → IsScript P.Port O.Out
        ports.old.items ports.new.items out.old out.new }
    ensures refuses { TellsRefusals O.Out ports.old.items out.old out.new result }
    ensures complete { IsComplete P.Port O.Out ports.old.items ports.new.items out.old out.new
        result }
    ensures done { result ≡ Status.Done → IsDone P.Port O.Out (make_of command.now)
        ports.old.items ports.new.items out.old out.new }
    ensures fault { result ≡ Status.Fault → IsFault P.Port O.Out (make_of command.now)
        ports.old.items ports.new.items out.old out.new }
    ensures cause { result ≡ Status.Fault → FirstRose P.Port ports.old.items ports.new.items
        ⊎ Rose (O.faults out.old) (O.faults out.new) }
    ensures usage { result ≢ Status.Usage }
    ensures refused { result ≢ Status.Refused }

    // What is called and changed, whatever the status.
    ensures others { OthersStay ports.old.items ports.new.items }
    ensures one_put { O.puts out.new ≡ one_more (O.puts out.old) }
{
    let came = serve(rt, alloc, command, ports, gate);
    tell(alloc, out, &came)
}
