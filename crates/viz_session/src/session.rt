//! The top call: one run of the program.

ghost use Rattle.std.specs.Prelude.{◌≡◌, ◌≢◌, ◌⊎◌, ◌↔◌, None};
ghost use Rattle.viz_base.specs.Faults.{Rose, one_more};
ghost use Rattle.viz_actor.specs.Promises.{SomeRose};
ghost use Rattle.viz_session.specs.Command.{command_of};
ghost use Rattle.viz_session.specs.Complete.{IsComplete, IsScriptExactly, NeverRises};
ghost use Rattle.viz_session.specs.Runs.{IsRun, IsDone, IsRefused, IsScript, IsFault, IsCutOff};
ghost use Rattle.viz_session.specs.Runs.{OthersStay, Refuses};
ghost use Rattle.viz_told.specs.Lines.{usage_line};
ghost use Rattle.viz_told.specs.Puts.{PutsLine};

use crate::command::{Command, read_command};
use crate::usage::NoCommand;
use std::alloc::Global;
use std::sync::Wait;
use std::thread::Threads;
use viz_actor::run_script;
use viz_base::{Bytes, Gate, Out, Port};
use viz_make::run_make;
use viz_migrate::run_migrate;
use viz_once::run_once;
use viz_replay::run_scratch;
use viz_told::{Status, tell};

/// Runs the command of the words, and puts one text.
///
/// `ports` are the actors' ports, the first one's first, `desk` the port of scripts and journals,
/// and `gate` is what tasks pass. The statuses and texts are those of docs/FORMATS.md, "Report".
pub fn run<R: Threads + Wait + Sync, P: Port + Send + Drop, O: Out, G: Gate + Sync>(
    rt: &R,
    alloc: Global,
    words: &[Bytes],
    desk: &mut P,
    ports: &mut Vec<P>,
    out: &mut O,
    gate: &G,
) -> Status
    // What the run was: the account of its command, and the text put of it.
    ensures account { IsRun P.Port O.Out desk.old desk.new ports.old.items ports.new.items
        out.old out.new (command_of words.now) result }

    // What follows of it for each status.
    ensures usage { (result ≡ Status.Usage) ↔ (command_of words.now ≡ None) }
    ensures usage_line { command_of words.now ≡ None → PutsLine O.Out usage_line out.old out.new }
    ensures script { result ≡ Status.Script → IsScript P.Port O.Out desk.old desk.new
        ports.old.items ports.new.items out.old out.new (command_of words.now) }
    ensures done { result ≡ Status.Done → IsDone P.Port O.Out desk.old desk.new
        ports.old.items ports.new.items out.old out.new (command_of words.now) }
    ensures refused { result ≡ Status.Refused → IsRefused P.Port O.Out desk.old desk.new
        ports.old.items ports.new.items out.old out.new (command_of words.now) }
    ensures refuses { Refuses P.Port O.Out desk.old desk.new ports.old.items ports.new.items
        out.old out.new (command_of words.now) result }
    ensures exactly { IsScriptExactly P.Port desk.old desk.new ports.old.items
        (command_of words.now) result }
    ensures complete { IsComplete P.Port O.Out desk.old desk.new ports.old.items ports.new.items
        out.old out.new (command_of words.now) result }
    ensures never { NeverRises P.faults → (Rose (O.faults out.old) (O.faults out.new) → ⊥)
        → result ≢ Status.Fault }
    ensures fault { result ≡ Status.Fault → IsFault P.Port O.Out desk.old desk.new
        ports.old.items ports.new.items out.old out.new (command_of words.now) }
    ensures memory { result ≡ Status.Memory → IsCutOff P.Port O.Out desk.old desk.new
        ports.old.items ports.new.items out.old out.new (command_of words.now) }
    ensures cause { result ≡ Status.Fault → Rose (P.faults desk.old) (P.faults desk.new)
        ⊎ (SomeRose P.Port ports.old.items ports.new.items
        ⊎ Rose (O.faults out.old) (O.faults out.new)) }

    // What is called and changed, whatever the status.
    ensures usage_stays { command_of words.now ≡ None
        → (desk.new ≡ desk.old) × (ports.new.items ≡ ports.old.items) }
    ensures others { OthersStay P.Port O.Out desk.old desk.new ports.old.items ports.new.items
        out.old out.new (command_of words.now) }
    ensures one_put { O.puts out.new ≡ one_more (O.puts out.old) }
{
    match read_command(words) {
        Some(Command::Once(once)) => run_once(alloc, &once, ports, out),
        Some(Command::Script { script, journal }) => {
            run_script(rt, alloc, script, journal, desk, ports, out, gate)
        }
        Some(Command::Scratch(replay)) => run_scratch(alloc, &replay, desk, ports, out),
        Some(Command::Migrate(migrate)) => run_migrate(alloc, &migrate, desk, ports, out),
        Some(Command::Make(make)) => run_make(rt, alloc, &make, ports, out, gate),
        None => tell(alloc, out, &NoCommand),
    }
}
