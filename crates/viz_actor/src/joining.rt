//! Passes, split off for the actors of a phase and joined behind it.

ghost use Rattle.std.specs.Prelude.{◌≡◌, ◌+◌, ◌≤◌, All, length, map};
ghost use Rattle.viz_actor.specs.Places.{HasPass, Splits, Joins, without};

use crate::places::Place;
use std::sync::Wait;
use viz_hub::{Hub, Pass};

/// Gives each place a pass of its own. The first place is of this actor.
pub fn split_all<R: Wait, P>(
    rt: &R,
    hub: &Hub,
    root: Pass,
    places: &mut [Place<P>],
    actor: u32,
) -> Pass
    requires belongs { root.turn ≡ hub.now }
    requires few { actor + length places.old ≤ 9 }
    ensures { Splits actor root places.old places.new result }
{
    match places.split_first_mut() {
        None => root,
        Some((first, rest)) => {
            let (root, second) = hub.split(rt, root);
            first.actor = actor;
            first.pass = Some(second);
            split_all(rt, hub, root, rest, actor + 1)
        }
    }
}

/// Joins the passes of all places into one.
pub fn join_all<P>(hub: &Hub, root: Pass, places: &mut [Place<P>]) -> Pass
    requires belongs { root.turn ≡ hub.now }
    requires there { All (HasPass hub.now) places.old }
    ensures joins { Joins root places.old result }
    ensures rest { places.new ≡ map without places.old }
{
    match places.split_first_mut() {
        None => root,
        Some((first, rest)) => match first.pass.take() {
            Some(pass) => join_all(hub, hub.join(root, pass), rest),
            None => unreachable!(),
        },
    }
}
