//! The phases of a script, one after the other.

ghost use Rattle.std.specs.Prelude.{◌≡◌, ◌+◌, ◌≤◌, length, take, drop, vec_capacity};
ghost use Rattle.viz_actor.specs.Groups.{in_front, behind, chunks_from};
ghost use Rattle.viz_actor.specs.Places.{work, HaveRoom};
ghost use Rattle.viz_actor.specs.Runs.{RunsChunk, Runs};

use crate::phases::phase;
use crate::places::Place;
use std::alloc::Global;
use std::sync::Wait;
use std::thread::Threads;
use viz_base::{Gate, Port};
use viz_hub::{Hub, Pass};
use viz_report::Row;
use viz_script::Step;

// How many steps in front are of a phase.
fn front_len(steps: &[Step], phase: u32) -> usize
    ensures within { result ≤ length steps.now }
    ensures front { take result steps.now ≡ in_front phase steps.now }
    ensures behind { drop result steps.now ≡ behind phase steps.now }
{
    for (i, step) in steps.iter().enumerate() {
        if step.phase != phase {
            return i;
        }
    }
    steps.len()
}

// Serves the steps of a phase, if there are any.
fn run_chunk<R: Threads + Wait + Sync, P: Port + Send, G: Gate + Sync>(
    rt: &R,
    alloc: Global,
    hub: &Hub,
    root: Pass,
    places: &mut [Place<P>],
    gate: &G,
    steps: &[Step],
    rows: &mut Vec<Row>,
) -> Pass
    requires belongs { root.turn ≡ hub.now }
    requires few { length places.old ≤ 8 }
    requires room { HaveRoom steps.now 1 places.old }
    requires rows { length rows.old.items + work steps.now 1 (length places.old)
        ≤ vec_capacity rows.old }
    ensures runs { RunsChunk P.Port hub.now.mark steps.now root places.old rows.old.items
        places.new rows.new.items result }
    ensures capacity { vec_capacity rows.new ≡ vec_capacity rows.old }
{
    if steps.is_empty() {
        return root;
    }
    phase(rt, alloc, hub, root, places, gate, steps, rows)
}

/// Serves the steps of so many phases, from this one on. There is room for lines and rows.
pub fn run_phases<R: Threads + Wait + Sync, P: Port + Send, G: Gate + Sync>(
    rt: &R,
    alloc: Global,
    hub: &Hub,
    root: Pass,
    places: &mut [Place<P>],
    gate: &G,
    steps: &[Step],
    phase: u32,
    left: u32,
    rows: &mut Vec<Row>,
) -> Pass
    requires belongs { root.turn ≡ hub.now }
    requires few { length places.old ≤ 8 }
    requires phases { phase + left ≤ 65 }
    requires room { HaveRoom steps.now 1 places.old }
    requires rows { length rows.old.items + work steps.now 1 (length places.old)
        ≤ vec_capacity rows.old }
    ensures runs { Runs P.Port hub.now.mark (chunks_from left phase steps.now) root places.old
        rows.old.items places.new rows.new.items result }
{
    if left == 0 {
        return root;
    }
    let (now, later) = steps.split_at(front_len(steps, phase));
    let root = run_chunk(rt, alloc, hub, root, places, gate, now, rows);
    run_phases(
        rt,
        alloc,
        hub,
        root,
        places,
        gate,
        later,
        phase + 1,
        left - 1,
        rows,
    )
}
