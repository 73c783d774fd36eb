//! A phase: each actor in an activity of its own.

ghost use Rattle.std.specs.Prelude.{◌≡◌, ◌+◌, ◌<◌, ◌≤◌, All, length, vec_capacity};
ghost use Rattle.viz_actor.specs.Places.{work, HaveRoom, IsReady, PlaceServed, EachServed, IsPhase};

use crate::joining::{join_all, split_all};
use crate::places::Place;
use crate::rows::collect_all;
use crate::serving::serve_steps;
use std::alloc::Global;
use std::sync::Wait;
use std::thread;
use std::thread::Threads;
use viz_base::{ACTORS, Gate, Port};
use viz_hub::{Hub, Pass};
use viz_report::Row;
use viz_script::Step;

// Serves the commands of one place.
fn serve_place<R: Threads + Wait + Sync, P: Port, G: Gate + Sync>(
    rt: &R,
    alloc: Global,
    hub: &Hub,
    gate: &G,
    steps: &[Step],
    place: &mut Place<P>,
)
    requires ready { IsReady hub.now steps.now place.old }
    ensures served { PlaceServed P.Port hub.now.mark steps.now place.old place.new }
{
    if let Some(pass) = place.pass.take() {
        let pass = serve_steps(
            rt,
            alloc,
            hub,
            pass,
            &mut place.port,
            gate,
            place.actor,
            steps,
            &mut place.lines,
        );
        place.pass = Some(pass);
    }
}

// Serves the commands of all places beside each other, in at most so many threads; where none can
// be had, one place after the other.
fn serve_places<R: Threads + Wait + Sync, P: Port + Send, G: Gate + Sync>(
    rt: &R,
    alloc: Global,
    hub: &Hub,
    gate: &G,
    steps: &[Step],
    threads: usize,
    places: &mut [Place<P>],
)
    requires threads { 0 < threads }
    requires ready { All (IsReady hub.now steps.now) places.old }
    ensures each { EachServed P.Port hub.now.mark steps.now places.old places.new }
    ensures len { length places.new ≡ length places.old }
{
    thread::for_each_mut(
        rt,
        places,
        threads,
        &|_, place|
            requires ready { IsReady hub.now steps.now place.old }
        { serve_place(rt, alloc, hub, gate, steps, place) },
    );
}

// In how many threads these steps are served: one actor needs none of its own.
fn threads_for(steps: &[Step]) -> usize
    ensures { 0 < result }
{
    match steps {
        [first, rest @ ..] if rest.iter().any(|step| step.actor != first.actor) => ACTORS as usize,
        _ => 1,
    }
}

/// A phase: each place gets a pass, the commands are served, the passes are joined, and the new
/// lines become rows. There is room for lines and rows.
pub fn phase<R: Threads + Wait + Sync, P: Port + Send, G: Gate + Sync>(
    rt: &R,
    alloc: Global,
    hub: &Hub,
    root: Pass,
    places: &mut [Place<P>],
    gate: &G,
    steps: &[Step],
    rows: &mut Vec<Row>,
) -> Pass
    requires belongs { root.turn ≡ hub.now }
    requires few { length places.old ≤ 8 }
    requires room { HaveRoom steps.now 1 places.old }
    requires rows { length rows.old.items + work steps.now 1 (length places.old)
        ≤ vec_capacity rows.old }
    ensures phase { IsPhase P.Port hub.now.mark steps.now root places.old rows.old.items
        places.new rows.new.items result }
    ensures capacity { vec_capacity rows.new ≡ vec_capacity rows.old }
{
    let root = split_all(rt, hub, root, places, 1);
    serve_places(rt, alloc, hub, gate, steps, threads_for(steps), places);
    let root = join_all(hub, root, places);
    collect_all(places, rows);
    root
}
