//! The calls on a hub.

ghost use Rattle.std.specs.Prelude.{◌≡◌, ◌+◌, ◌<◌, ◌≤◌, length, count_by, IfOk, IfErr, true};
ghost use Rattle.viz_turn.specs.Tales.{HasNoOther, once};
ghost use Rattle.viz_plan.specs.Published.{AreOfPlan};
ghost use Rattle.viz_kept.specs.True.{AreTrueIn};
ghost use Rattle.viz_entries.specs.History.{by_of, network_of, IsLegal};
ghost use Rattle.viz_history.specs.Publishing.{is_stale};
ghost use Rattle.viz_hub.specs.Answers.{Answers};
ghost use Rattle.viz_hub.specs.Passes.{numbers, first_pass, at_seen, elder, younger, one};
ghost use Rattle.viz_hub.specs.Passes.{IsWhole, GoesFurther, IsFresh, Looks};
ghost use Rattle.viz_hub.specs.Publishing.{publication, Sends};
ghost use Rattle.viz_hub.specs.Steps.Places.{shown};

use crate::hub::{Hub, Journal, Pass, Pin};
use crate::place::{NONE, Place};
use crate::sent::Sent;
use crate::turns::{edit_by, front_by, join_by, pin_by, publish_by, split_by};
use std::alloc::{AllocError, Global};
use std::sync::Wait;
use viz_base::{Items, NodeId, Shape};
use viz_batches::Batch;
use viz_history::{Core, EditAnswer, Kept, Pinned};
use viz_parts::{Key, Stored};
use viz_turn::Turn;

fn place_of(pass: Pass) -> Place
    ensures { shown result ≡ pass }
{
    let Pass { place } = pass;
    match place {
        Some(place) => place,
        None => unreachable!(),
    }
}

fn pass_of(place: Place) -> Pass
    ensures { result ≡ shown place }
{
    Pass { place: Some(place) }
}

impl Hub {
    /// A hub without entries, whose history may have so many, and its first pass. So many parts may
    /// be kept. `Err` is want of memory.
    pub fn start(alloc: Global, limit: u32, capacity: u32) -> Result<(Hub, Pass), AllocError>
        requires limit { limit ≤ 67108863 }
        requires capacity { 0 < capacity }
        ensures limit { IfOk result (λ r. r.0.mark ≡ limit) }
        ensures pass { IfOk result (λ r. r.1 ≡ first_pass r.0) }
    {
        match Turn::start(alloc, Core::new(alloc, limit, capacity)?) {
            Ok((turn, pass)) => {
                let place = Place {
                    pass,
                    count: 0,
                    told: NONE,
                };
                Ok((Hub { turn }, pass_of(place)))
            }
            Err(_) => Err(AllocError),
        }
    }

    /// Makes the batch behind all that the pass has seen and others have added since, or says why
    /// not. The pass then has seen the history up to there.
    pub fn edit<R: Wait>(&self, rt: &R, pass: &mut Pass, batch: Batch) -> EditAnswer
        requires belongs { pass.old.turn ≡ self.now }
        ensures same { pass.new ≡ at_seen pass.old pass.new.seen }
        ensures answers { Answers pass.old batch result pass.new.seen }
        ensures distinct { once (numbers pass.old) ≡ true }
    {
        let Some(place) = pass.place.take() else {
            unreachable!()
        };
        let (place, answer) = edit_by(&self.turn, rt, place, batch);
        pass.place = Some(place);
        answer
    }

    /// The number of entries, all of which the pass then has seen.
    pub fn front<R: Wait>(&self, rt: &R, pass: &mut Pass) -> u32
        requires belongs { pass.old.turn ≡ self.now }
        ensures at { result ≡ length pass.new.seen }
        ensures looks { Looks pass.old pass.new }
    {
        let Some(place) = pass.place.take() else {
            unreachable!()
        };
        let (place, at) = front_by(&self.turn, rt, place);
        pass.place = Some(place);
        at
    }

    /// The network of the whole history, all of which the pass then has seen, and all kept parts.
    /// `Err` is want of memory, and hands the pass back.
    pub fn pin<R: Wait>(&self, rt: &R, alloc: Global, pass: Pass) -> Result<Pin, Pass>
        requires belongs { pass.turn ≡ self.now }
        ensures ok { IfOk result (λ pin. Looks pass pin.pass) }
        ensures true_in { IfOk result (λ pin. AreTrueIn (network_of pin.pass.seen) pin.entries) }
        ensures err { IfErr result (λ back. Looks pass back) }
    {
        let (place, pinned) = pin_by(&self.turn, rt, alloc, place_of(pass));
        let pass = pass_of(place);
        match pinned {
            Ok(pinned) => Ok(Pin { pass, pinned }),
            Err(_) => Err(pass),
        }
    }

    /// Hands in what an update of a node made by its plan in the network of the pin, and the keys
    /// of those of the pin's parts that were used, and gives the pass back. Where memory ran out
    /// for the made parts, none is handed in. The parts are shared, and aren't copied. The history
    /// stays as it is. Of the made parts some are kept, those are stale whose node is gone or was
    /// stamped since, and for the others memory lacked.
    pub fn publish<R: Wait>(
        &self,
        rt: &R,
        pin: Pin,
        sink: NodeId,
        shape: &Shape,
        used: &[Key],
        made: &[Stored],
    ) -> (Pass, Kept)
        requires belongs { pin.pass.turn ≡ self.now }
        requires plan { AreOfPlan (network_of pin.pass.seen) pin.entries sink.0 shape.now.pieces
            used.now made.now }
        ensures sends { Sends (publication pin.pass.seen sink shape.now) pin.pass result.0 }
        ensures count { result.1.kept + result.1.stale + result.1.unkept ≡ length made.now }
        ensures stale { result.1.stale
            ≡ count_by (is_stale (network_of result.0.seen)) made.now }
    {
        let Pin { pass, pinned } = pin;
        let sent = Sent {
            at: pinned.at,
            sink,
            shape: *shape,
        };
        let (place, kept) = publish_by(&self.turn, rt, place_of(pass), sent, used, made);
        (pass_of(place), kept)
    }

    /// Gives the pass of a pin back, and lets its network go.
    pub fn release(&self, pin: Pin) -> Pass
        requires belongs { pin.pass.turn ≡ self.now }
        ensures same { result ≡ pin.pass }
    {
        let Pin { pass, pinned: _ } = pin;
        pass
    }

    /// Two passes of one: the first keeps the number, and the second has a new one, which no entry
    /// that the pass has seen has. Where all numbers were given, it waits forever.
    pub fn split<R: Wait>(&self, rt: &R, pass: Pass) -> (Pass, Pass)
        requires belongs { pass.turn ≡ self.now }
        ensures first { result.0 ≡ elder result.1.number pass }
        ensures second { result.1 ≡ younger result.1.number pass }
        ensures fresh { IsFresh result.1.number pass }
    {
        let (first, second) = split_by(&self.turn, rt, place_of(pass));
        (pass_of(first), pass_of(second))
    }

    /// One pass of two, which has seen what either had. It keeps the number of the first; the
    /// entries of either pass are those that it had seen.
    pub fn join(&self, kept: Pass, ended: Pass) -> Pass
        requires kept_belongs { kept.turn ≡ self.now }
        requires ended_belongs { ended.turn ≡ self.now }
        ensures joined { result ≡ one kept ended }
        ensures kept_further { GoesFurther kept result.seen }
        ensures ended_further { GoesFurther ended result.seen }
    {
        pass_of(join_by(&self.turn, place_of(kept), place_of(ended)))
    }

    /// Hands the whole history out. A whole pass has seen all of it.
    pub fn close<R: Wait>(self, rt: &R, pass: Pass) -> Journal
        requires belongs { pass.turn ≡ self }
        ensures legal { IsLegal result.entries }
        ensures within { length result.entries ≤ self.mark }
        ensures further { GoesFurther pass result.entries }
        ensures whole { IsWhole pass → HasNoOther by_of (numbers pass) result.entries }
        ensures distinct { once (numbers pass) ≡ true }
    {
        let Hub { turn } = self;
        let Place {
            pass,
            count: _,
            told: _,
        } = place_of(pass);
        let core = turn.close(rt, pass);
        Journal {
            entries: Items::new(core.history()),
        }
    }
}

impl Pass {
    /// The number of the pass, which is that of its entries.
    pub fn number(&self) -> u64
        ensures value { result ≡ self.now.number }
    {
        match &self.place {
            Some(place) => place.pass.number(),
            None => unreachable!(),
        }
    }

    /// How often this pass published, modulo 2^64.
    pub fn sent(&self) -> u64
        ensures value { result ≡ self.now.sent }
    {
        match &self.place {
            Some(place) => place.told.sent,
            None => unreachable!(),
        }
    }

    /// What this pass published last.
    pub fn last(&self) -> Option<Sent>
        ensures value { result ≡ self.now.last }
    {
        match &self.place {
            Some(place) => place.told.last,
            None => unreachable!(),
        }
    }
}

impl Pin {
    /// The network of what the pass has seen, the number of its entries, and the kept parts.
    pub fn pinned(&self) -> &Pinned
        ensures at { result.now.at ≡ length self.now.pass.seen }
        ensures network { result.now.net ≡ network_of self.now.pass.seen }
        ensures entries { result.now.entries ≡ self.now.entries }
        ensures true_in { AreTrueIn (network_of self.now.pass.seen) result.now.entries }
    {
        &self.pinned
    }
}
