//! What a pass does in a turn of its own.

ghost use Rattle.std.specs.Prelude.{◌≡◌, ◌+◌, [], length, count_by, IfOk, true};
ghost use Rattle.viz_turn.specs.Tales.{once};
ghost use Rattle.viz_kept.specs.True.{AreMadeIn};
ghost use Rattle.viz_entries.specs.History.{network_of};
ghost use Rattle.viz_history.specs.Publishing.{is_stale};
ghost use Rattle.viz_hub.specs.Answers.{Answers};
ghost use Rattle.viz_hub.specs.Passes.{numbers, at_seen, elder, younger, one};
ghost use Rattle.viz_hub.specs.Passes.{GoesFurther, IsFresh, Looks};
ghost use Rattle.viz_hub.specs.Publishing.{Sends};
ghost use Rattle.viz_hub.specs.Steps.Places.{shown};
ghost use Rattle.viz_hub.specs.Steps.Turns.{hub_of, IsPinned};

use crate::place::{NONE, Place, Told};
use crate::sent::Sent;
use std::alloc::{AllocError, Global};
use std::sync::Wait;
use viz_batches::Batch;
use viz_history::{Core, EditAnswer, Kept, Pinned};
use viz_parts::{Key, Stored};
use viz_turn::Turn;

pub(crate) fn front_by<R: Wait>(turn: &Turn<Core>, rt: &R, place: Place) -> (Place, u32)
    requires belongs { (shown place).turn ≡ hub_of turn.now }
    ensures looks { Looks (shown place) (shown result.0) }
    ensures at { result.1 ≡ length (shown result.0).seen }
{
    let Place { pass, count, told } = place;
    let mut held = turn.take(rt, pass);
    let at = held.state().front();
    let pass = turn.give(held);
    (Place { pass, count, told }, at)
}

pub(crate) fn pin_by<R: Wait>(
    turn: &Turn<Core>,
    rt: &R,
    alloc: Global,
    place: Place,
) -> (Place, Result<Pinned, AllocError>)
    requires belongs { (shown place).turn ≡ hub_of turn.now }
    ensures looks { Looks (shown place) (shown result.0) }
    ensures pinned { IfOk result.1 (λ pinned. IsPinned (shown result.0) pinned) }
{
    let Place { pass, count, told } = place;
    let mut held = turn.take(rt, pass);
    let pinned = held.state().pin(alloc);
    let pass = turn.give(held);
    (Place { pass, count, told }, pinned)
}

// The made parts stay true of all that others have added to the history.
pub(crate) fn publish_by<R: Wait>(
    turn: &Turn<Core>,
    rt: &R,
    place: Place,
    sent: Sent,
    used: &[Key],
    made: &[Stored],
) -> (Place, Kept)
    requires belongs { (shown place).turn ≡ hub_of turn.now }
    requires made { AreMadeIn (network_of (shown place).seen) made.now }
    ensures sends { Sends sent (shown place) (shown result.0) }
    ensures count { result.1.kept + result.1.stale + result.1.unkept ≡ length made.now }
    ensures stale { result.1.stale
        ≡ count_by (is_stale (network_of (shown result.0).seen)) made.now }
{
    let Place { pass, count, told } = place;
    let mut held = turn.take(rt, pass);
    let kept = held.state().publish(used, made);
    let pass = turn.give(held);
    let told = Told {
        sent: told.sent.wrapping_add(1),
        last: Some(sent),
    };
    (Place { pass, count, told }, kept)
}

pub(crate) fn edit_by<R: Wait>(
    turn: &Turn<Core>,
    rt: &R,
    place: Place,
    batch: Batch,
) -> (Place, EditAnswer)
    requires belongs { (shown place).turn ≡ hub_of turn.now }
    ensures same { shown result.0 ≡ at_seen (shown place) (shown result.0).seen }
    ensures answers { Answers (shown place) batch result.1 (shown result.0).seen }
    ensures distinct { once (numbers (shown place)) ≡ true }
{
    let Place { pass, count, told } = place;
    let number = pass.number();
    let mut held = turn.take(rt, pass);
    // The count of a pass is at most the number of entries, so the next one fits.
    let _at = held.state().front();
    let next = count + 1;
    let answer = held.state().edit(number, next, batch);
    if let EditAnswer::Done { at: _ } = answer {
        turn.append(&mut held);
        let pass = turn.give(held);
        return (
            Place {
                pass,
                count: next,
                told,
            },
            answer,
        );
    }
    let pass = turn.give(held);
    (Place { pass, count, told }, answer)
}

#[tactic(auto, using(crate::proofs::PassLemmas::own_none))]
pub(crate) fn split_by<R: Wait>(turn: &Turn<Core>, rt: &R, place: Place) -> (Place, Place)
    requires belongs { (shown place).turn ≡ hub_of turn.now }
    ensures first { shown result.0
        ≡ elder (shown result.1).number (shown place) }
    ensures second { shown result.1
        ≡ younger (shown result.1).number (shown place) }
    ensures fresh { IsFresh (shown result.1).number (shown place) }
{
    let Place { pass, count, told } = place;
    let (first, second) = turn.split(rt, pass);
    (
        Place {
            pass: first,
            count,
            told,
        },
        Place {
            pass: second,
            count: 0,
            told: NONE,
        },
    )
}

pub(crate) fn join_by(turn: &Turn<Core>, kept: Place, ended: Place) -> Place
    requires kept_belongs { (shown kept).turn ≡ hub_of turn.now }
    requires ended_belongs { (shown ended).turn ≡ hub_of turn.now }
    ensures joined { shown result ≡ one (shown kept) (shown ended) }
    ensures kept_further { GoesFurther (shown kept) (shown result).seen }
    ensures ended_further { GoesFurther (shown ended) (shown result).seen }
{
    let Place {
        pass: kept,
        count,
        told,
    } = kept;
    let Place {
        pass: ended,
        count: _,
        told: _,
    } = ended;
    let pass = turn.join(kept, ended);
    Place { pass, count, told }
}
