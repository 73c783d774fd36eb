//! Ports are given places for a script, and taken back.

ghost use Rattle.std.specs.Prelude.{◌≡◌, ◌+◌, ◌≤◌, ◌++◌, [], All, IfOk, length, vec_capacity};
ghost use Rattle.viz_actor.specs.Serving.{commands_of};
ghost use Rattle.viz_actor.specs.Places.{work, HasRoom, HaveRoom};
ghost use Rattle.viz_actor.specs.Runs.{ports_of, IsIdle};

use crate::places::Place;
use std::alloc::{AllocError, Global};
use viz_script::Step;

// The place of a port, before its actor does anything.
fn place_of<P>(alloc: Global, port: P) -> Place<P>
    ensures port { result.port ≡ port }
    ensures idle { IsIdle result }
{
    Place {
        actor: 0,
        pass: None,
        port,
        lines: Vec::new(alloc),
        told: 0,
    }
}

/// Gives each port a place. There is room for them.
pub fn seat<P: Drop>(alloc: Global, ports: Vec<P>, places: &mut Vec<Place<P>>)
    requires none { places.old.items ≡ [] }
    requires room { length ports.items ≤ vec_capacity places.old }
    ensures ports { ports_of places.new.items ≡ ports.items }
    ensures idle { All IsIdle places.new.items }
{
    for port in ports {
        places.push_reserved(place_of(alloc, port));
    }
}

/// Takes the ports back. There is room for them.
pub fn unseat<P: Drop>(places: Vec<Place<P>>, ports: &mut Vec<P>)
    requires none { ports.old.items ≡ [] }
    requires room { length places.items ≤ vec_capacity ports.old }
    ensures { ports.new.items ≡ ports_of places.items }
{
    for place in places {
        let Place {
            actor: _,
            pass: _,
            port,
            lines: _,
            told: _,
        } = place;
        ports.push_reserved(port);
    }
}

// How many of the steps are an actor's.
fn command_count(steps: &[Step], actor: u32) -> usize
    ensures { result ≡ length (commands_of actor steps.now) }
{
    let mut count = 0;
    for step in steps {
        if step.actor == actor {
            count += 1;
        }
    }
    count
}

// Makes room for the lines of an actor's commands.
fn reserve<P>(place: &mut Place<P>, steps: &[Step], actor: u32) -> Result<usize, AllocError>
    requires idle { IsIdle place.old }
    ensures room { IfOk result (λ count. HasRoom steps.now actor place.new) }
    ensures count { IfOk result (λ count. count ≡ length (commands_of actor steps.now)) }
    ensures port { place.new.port ≡ place.old.port }
    ensures idle { IsIdle place.new }
{
    let count = command_count(steps, actor);
    place.lines.reserve(count)?;
    Ok(count)
}

/// Makes room for the lines of each place, and counts them all. The first place is of this actor.
pub fn reserve_all<P>(
    places: &mut [Place<P>],
    steps: &[Step],
    actor: u32,
) -> Result<usize, AllocError>
    requires few { actor + length places.old ≤ 9 }
    requires idle { All IsIdle places.old }
    ensures room { IfOk result (λ total. HaveRoom steps.now actor places.new) }
    ensures total { IfOk result (λ total. total ≡ work steps.now actor (length places.old)) }
    ensures ports { ports_of places.new ≡ ports_of places.old }
    ensures idle { All IsIdle places.new }
{
    match places.split_first_mut() {
        None => Ok(0),
        Some((first, rest)) => {
            let count = reserve(first, steps, actor)?;
            let others = reserve_all(rest, steps, actor + 1)?;
            count.checked_add(others).ok_or(AllocError)
        }
    }
}
