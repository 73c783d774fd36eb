//! One run of the words `migrate JOURNAL OUT`.

ghost use Rattle.std.specs.Prelude.{◌≡◌, ◌≢◌, ◌⊎◌};
ghost use Rattle.viz_base.specs.Faults.{Rose, one_more};
ghost use Rattle.viz_migrate.specs.declared.came.Came.{Came as End};
ghost use Rattle.viz_migrate.specs.Complete.{IsComplete};
ghost use Rattle.viz_migrate.specs.Migrate.{IsMigrateRun};
ghost use Rattle.viz_migrate.specs.Promises.{IsDone, IsFault, IsScript, TellsRefusals};
ghost use Rattle.viz_migrate.specs.Told.{telling_of};
ghost use Rattle.viz_migrate.specs.Views.{migrate_view};
ghost use Rattle.viz_told.specs.Ports.{FirstRose, OthersStay};
ghost use Rattle.viz_told.specs.Told.{IsTold};

use crate::serving::{Migrate, serve};
use std::alloc::Global;
use viz_base::{Out, Port};
use viz_journal::what_is_read_is_written_again;
use viz_told::{Status, tell};

/// Reads a journal of either version from the desk, writes its entries in version 2 by the first
/// port, and puts one line.
///
/// The statuses and lines are those of docs/FORMATS.md, "Report".
pub fn run_migrate<P: Port, O: Out>(
    alloc: Global,
    command: &Migrate<'_>,
    desk: &mut P,
    ports: &mut Vec<P>,
    out: &mut O,
) -> Status
    // What the run was: how it ended, and the line put of it.
    ensures account { (came : End) × IsMigrateRun P.Port
        (migrate_view command.now) came desk.old desk.new
        ports.old.items ports.new.items × IsTold O.Out (telling_of came) result out.old out.new }

    // What follows of it for each status.
    ensures script { result ≡ Status.Script → IsScript P.Port O.Out (migrate_view command.now)
        desk.old desk.new ports.old.items ports.new.items out.old out.new }
    ensures refuses { TellsRefusals P.Port O.Out (migrate_view command.now) desk.old desk.new
        ports.old.items ports.new.items out.old out.new result }
    ensures complete { IsComplete P.Port O.Out (migrate_view command.now)
        desk.old desk.new ports.old.items ports.new.items out.old out.new result }
    ensures done { result ≡ Status.Done → IsDone P.Port O.Out (migrate_view command.now)
        desk.old desk.new ports.old.items ports.new.items out.old out.new }
    ensures fault { result ≡ Status.Fault → IsFault P.Port O.Out (migrate_view command.now)
        desk.old desk.new ports.old.items ports.new.items out.old out.new }
    ensures cause { result ≡ Status.Fault → Rose (P.faults desk.old) (P.faults desk.new)
        ⊎ (FirstRose P.Port ports.old.items ports.new.items
        ⊎ Rose (O.faults out.old) (O.faults out.new)) }
    ensures usage { result ≢ Status.Usage }
    ensures refused { result ≢ Status.Refused }

    // What is called and changed, whatever the status.
    ensures others { OthersStay ports.old.items ports.new.items }
    ensures one_put { O.puts out.new ≡ one_more (O.puts out.old) }
{
    what_is_read_is_written_again();
    let came = serve(alloc, command, desk, ports);
    tell(alloc, out, &came)
}
