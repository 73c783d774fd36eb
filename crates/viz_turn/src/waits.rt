//! The steps that are tried until they succeed, and how a thread waits between two tries; the step
//! of
//! `append`, and the end of the table.

ghost use Rattle.std.specs.Prelude.{◌≡◌, ◌+◌, ◌<◌, ◌≤◌, ◌^◌, ◌%◌, length};
ghost use Rattle.viz_turn.specs.Known.{AddsOne};
ghost use Rattle.viz_turn.specs.Passes.{shown};
ghost use Rattle.viz_turn.specs.Steps.Kinds.{appended, Got, IsNew};
ghost use Rattle.viz_turn.specs.Steps.Turns.{wrapped};
ghost use Rattle.viz_turn.specs.Steps.Seats.{IsAtRest, IsInTurn, IsWaiting, IsResting, HasSpare};
ghost use Rattle.viz_turn.specs.Steps.Belongs.{IsSeatOf};

use crate::steps::{Append, Look, Number};
use crate::story::{Picks, Story};
use crate::turn::Turn;
use crate::view::View;
use atomic_table::Seat;
use std::hint::spin_loop;
use std::sync::Wait;

// How often the next in line looks before it sleeps.
const LOOKS: u32 = 1000;

impl<S: Story> Turn<S> {
    // The new number, which is the seat's spare one.
    pub(crate) fn draw_number<R: Wait>(
        &self,
        rt: &R,
        seat: &mut Seat<Option<S>, View<S::Entry>>,
    ) -> u64
        requires { IsSeatOf S.mark self.now seat.old × IsAtRest seat.old.me }
        ensures table { seat.new.table_id ≡ seat.old.table_id }
        ensures spare { HasSpare result seat.old.me seat.new.me }
        ensures new { IsNew S.by result seat.old.me.0 }
    {
        let shared = &self.table.shared;
        let mut next = shared.peek(3);
        for _ in rt.forever() {
            if next == u64::MAX {
                // All numbers were given: nobody ever wakes this thread.
                shared.park(rt, 3, low_half(next));
            } else {
                let found = shared.compare_exchange::<Number>(seat, 3, next, next + 1);
                if found == next {
                    return next;
                }
                next = found;
            }
        }
        unreachable!()
    }

    pub(crate) fn await_turn<R: Wait>(
        &self,
        rt: &R,
        seat: &mut Seat<Option<S>, View<S::Entry>>,
        ticket: u64,
    )
        requires seat { IsSeatOf S.mark self.now seat.old }
        requires waiting { (t : _) × IsWaiting t seat.old.me × (ticket ≡ wrapped t) }
        ensures table { seat.new.table_id ≡ seat.old.table_id }
        ensures got { Got S.tale S.by S.mark seat.old.me seat.new.me }
    {
        let mut left = LOOKS;
        for _ in rt.forever() {
            let served = self.table.shared.load::<Look>(seat, 2);
            if served == ticket {
                return;
            }
            left = self.pause(rt, left, served, ticket);
        }
        unreachable!()
    }

    // A turn is mostly short: so the next in line spins for a while. All others sleep until a turn
    // ends. Gives how often it may still spin.
    fn pause<R: Wait>(&self, rt: &R, left: u32, served: u64, ticket: u64) -> u32
        ensures value { result ≤ left }
    {
        if left > 0 && served.wrapping_add(1) == ticket {
            spin_loop();
            return left - 1;
        }
        self.table.shared.park(rt, 2, low_half(served));
        left
    }

    // Wakes who sleeps after a turn. Where no ticket was drawn behind it there is nobody; who draws
    // one later finds that the turn has ended.
    pub(crate) fn wake_others(&self, served: u64) {
        let shared = &self.table.shared;
        if shared.peek(1) != served.wrapping_add(1) {
            shared.wake_all(2);
        }
    }

    // The state shows the call which tale the step picks.
    pub(crate) fn append_as<P: Picks<S::Entry>>(
        &self,
        state: &S,
        seat: &mut Seat<Option<S>, View<S::Entry>>,
    )
        requires seat { IsSeatOf S.mark self.now seat.old × IsInTurn seat.old.me }
        requires picked { P.tale ≡ S.tale state.now }
        requires entry { AddsOne S.by (shown seat.old.table_id seat.old.me.0) (S.tale state.now) }
        requires room { length seat.old.me.0.seen + 1 < 2 ^ 64 }
        ensures table { seat.new.table_id ≡ seat.old.table_id }
        ensures view { appended (S.tale state.now) seat.old.me seat.new.me }
    {
        self.table.shared.fetch_add::<Append<P>>(seat, 0, 1);
    }

    // Ends the table of a seat that has the turn and whose slot is home.
    pub(crate) fn hand_out(self, seat: Seat<Option<S>, View<S::Entry>>) -> S
        requires seat { IsSeatOf S.mark self seat }
        requires resting { (t : _) × IsResting t seat.me.0 }
        ensures tale { S.tale result ≡ seat.me.0.seen }
        ensures mark { S.mark result ≡ seat.me.0.mark }
    {
        let Turn { table } = self;
        let mut closed = table.close_with(seat);
        let state = closed.take(0).unwrap();
        closed.free();
        state
    }
}

// The bits of a word that a sleep compares.
fn low_half(word: u64) -> u32
    ensures value { result ≡ word % 2 ^ 32 }
{
    (word & 0xffff_ffff) as u32
}
