//! A script served: all its commands, by all its actors.

ghost use Rattle.std.specs.Prelude.{◌≡◌, ◌≤◌, ℕ, List, All, Ok, IfOk, OnErr, length, map};
ghost use Rattle.viz_script.specs.Script.{script_of, stepped};
ghost use Rattle.viz_actor.specs.Runs.{ports_of, IsIdle, IsSeatedScript};
ghost use Rattle.viz_actor.specs.Served.{AreOfScript, IsServedScript};

use crate::places::Place;
use crate::running::run_phases;
use crate::seating::{reserve_all, seat, unseat};
use std::alloc::{AllocError, Global};
use std::mem;
use std::sync::Wait;
use std::thread::Threads;
use viz_base::{ACTORS, CACHE, Gate, HISTORY, Port};
use viz_entries::Entry;
use viz_hub::Hub;
use viz_report::Row;
use viz_script::Step;

const PHASES: u32 = 64;

/// What the commands of a script came to: the rows of its report, in their order, and the history.
#[derive(Debug, Drop)]
pub struct Served {
    pub rows: Vec<Row>,
    pub history: Vec<Entry>,
}

// Serves the commands over the places of the actors, the first one's first.
fn serve_seated<R: Threads + Wait + Sync, P: Port + Send, G: Gate + Sync>(
    rt: &R,
    alloc: Global,
    steps: &[Step],
    places: &mut [Place<P>],
    gate: &G,
) -> Result<Served, AllocError>
    requires few { length places.old ≤ 8 }
    requires idle { All IsIdle places.old }
    requires script { (bytes : List ℕ)
        × (script_of (length places.old) bytes ≡ Ok (map stepped steps.now)) }
    ensures ok { IfOk result (λ r. IsSeatedScript P.Port (map stepped steps.now) r.rows.items
        r.history.items (ports_of places.old) (ports_of places.new)) }
    ensures err { OnErr result (ports_of places.new ≡ ports_of places.old) }
{
    let total = reserve_all(places, steps, 1)?;
    let mut rows = Vec::with_capacity(alloc, total)?;
    let (hub, root) = Hub::start(alloc, HISTORY, CACHE)?;
    let root = run_phases(
        rt, alloc, &hub, root, places, gate, steps, 1, PHASES, &mut rows,
    );
    let journal = hub.close(rt, root);
    Ok(Served {
        rows,
        history: journal.entries.take(),
    })
}

// Serves the commands over the places of all ports. Those past the actors stay as they are.
fn serve_over<R: Threads + Wait + Sync, P: Port + Send, G: Gate + Sync>(
    rt: &R,
    alloc: Global,
    steps: &[Step],
    places: &mut [Place<P>],
    gate: &G,
) -> Result<Served, AllocError>
    requires idle { All IsIdle places.old }
    requires script { AreOfScript steps.now (ports_of places.old) }
    ensures ok { IfOk result (λ r. IsServedScript P.Port (map stepped steps.now) r.rows.items
        r.history.items (ports_of places.old) (ports_of places.new)) }
    ensures err { OnErr result (ports_of places.new ≡ ports_of places.old) }
{
    let actors = places.len().min(ACTORS as usize);
    let (seated, _) = places.split_at_mut(actors);
    serve_seated(rt, alloc, steps, seated, gate)
}

/// Serves the commands of a script over the ports of its actors, the first one's first. Actors work
/// beside each other within a phase; a phase begins behind the one before. `gate` is what updates
/// and their tasks pass. `Err` is want of memory, before anything is done.
pub fn serve_script<R: Threads + Wait + Sync, P: Port + Send + Drop, G: Gate + Sync>(
    rt: &R,
    alloc: Global,
    steps: &[Step],
    ports: &mut Vec<P>,
    gate: &G,
) -> Result<Served, AllocError>
    requires script { AreOfScript steps.now ports.old.items }
    ensures ok { IfOk result (λ r. IsServedScript P.Port (map stepped steps.now) r.rows.items
        r.history.items ports.old.items ports.new.items) }
    ensures err { OnErr result (ports.new.items ≡ ports.old.items) }
{
    let count = ports.len();
    let mut places = Vec::with_capacity(alloc, count)?;
    let spare = Vec::with_capacity(alloc, count)?;
    seat(alloc, mem::replace(ports, spare), &mut places);
    let served = serve_over(rt, alloc, steps, &mut places, gate);
    unseat(places, ports);
    served
}
