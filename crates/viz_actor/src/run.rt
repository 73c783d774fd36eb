//! One run of a script.

ghost use Rattle.std.specs.Prelude.{◌≡◌, ◌≢◌, ◌⊎◌};
ghost use Rattle.viz_base.specs.Faults.{Rose, one_more};
ghost use Rattle.viz_actor.specs.declared.ran.Ran.{Ran as Came};
ghost use Rattle.viz_actor.specs.Complete.{IsComplete, IsScriptExactly};
ghost use Rattle.viz_actor.specs.Deeds.{IsScriptRun};
ghost use Rattle.viz_actor.specs.Promises.{IsScriptRefused, TellsRefusals, IsReported};
ghost use Rattle.viz_actor.specs.Promises.{IsServedWithFault, IsUnread, IsCutOff, IdleStay};
ghost use Rattle.viz_actor.specs.Promises.{SomeRose};
ghost use Rattle.viz_actor.specs.Told.{telling_of};
ghost use Rattle.viz_told.specs.Told.{IsTold};

use crate::desk::serve;
use std::alloc::Global;
use std::sync::Wait;
use std::thread::Threads;
use viz_account::all_came_are_told;
use viz_base::{Gate, Out, Port};
use viz_told::{Status, tell};

/// Runs the script of this name: reads it from the desk, serves its commands by the ports, writes
/// the journal of the history to the desk, and puts the report.
///
/// `ports` are the actors' ports, the first one's first, and `gate` is what tasks pass. The
/// statuses and texts are those of docs/FORMATS.md, "Report".
pub fn run_script<R: Threads + Wait + Sync, P: Port + Send + Drop, O: Out, G: Gate + Sync>(
    rt: &R,
    alloc: Global,
    script: &str,
    journal: &str,
    desk: &mut P,
    ports: &mut Vec<P>,
    out: &mut O,
    gate: &G,
) -> Status
    // What the run was: how far it came, and the text put of it.
    ensures account { (ran : Came) × IsScriptRun P.Port script.now journal.now ran desk.old desk.new
        ports.old.items ports.new.items × IsTold O.Out (telling_of ran) result out.old out.new }

    // What follows of it for each status.
    ensures script { result ≡ Status.Script → IsScriptRefused P.Port O.Out script.now journal.now
        desk.old desk.new ports.old.items ports.new.items out.old out.new }
    ensures refuses { TellsRefusals P.Port O.Out script.now desk.old desk.new
        ports.old.items ports.new.items out.old out.new result }
    ensures exactly { IsScriptExactly P.Port script.now desk.old desk.new ports.old.items result }
    ensures complete { IsComplete P.Port O.Out script.now journal.now desk.old desk.new
        ports.old.items ports.new.items out.old out.new result }
    ensures done { result ≡ Status.Done → IsReported P.Port O.Out script.now journal.now Status.Done
        desk.old desk.new ports.old.items ports.new.items out.old out.new }
    ensures refused { result ≡ Status.Refused → IsReported P.Port O.Out script.now journal.now
        Status.Refused desk.old desk.new ports.old.items ports.new.items out.old out.new }
    ensures fault { result ≡ Status.Fault
        → IsServedWithFault P.Port O.Out script.now journal.now desk.old desk.new
        ports.old.items ports.new.items out.old out.new
        ⊎ IsUnread P.Port O.Out script.now journal.now desk.old desk.new
        ports.old.items ports.new.items out.old out.new }
    ensures cause { result ≡ Status.Fault → Rose (P.faults desk.old) (P.faults desk.new)
        ⊎ (SomeRose P.Port ports.old.items ports.new.items
        ⊎ Rose (O.faults out.old) (O.faults out.new)) }
    ensures memory { result ≡ Status.Memory → IsCutOff P.Port script.now journal.now
        desk.old desk.new ports.old.items ports.new.items }
    ensures usage { result ≢ Status.Usage }

    // What is called, whatever the status.
    ensures idle { IdleStay P.Port script.now journal.now desk.old desk.new
        ports.old.items ports.new.items }
    ensures one_put { O.puts out.new ≡ one_more (O.puts out.old) }
{
    all_came_are_told::<P>();
    let ran = serve(rt, alloc, script, journal, desk, ports, gate);
    tell(alloc, out, &ran)
}
