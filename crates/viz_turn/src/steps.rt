//! The rule, and the kinds of atomic step under it. These types are for the proofs alone.
//!
//! The words are 0, the number of entries; 1, the next ticket; 2, the ticket that is served; and
//! 3, the next number of a pass. The one slot has the state. An exchange of what lies in a slot
//! that is out with a seat is a plain read and write, and no step.

ghost use Rattle.viz_turn.specs.Steps.Rule.{IsRuled};
ghost use Rattle.viz_turn.specs.Steps.Kinds.{first_view, spent_view, elder_view, younger_view};
ghost use Rattle.viz_turn.specs.Steps.Kinds.{joined, numbered, learned, drew, passed, rested};
ghost use Rattle.viz_turn.specs.Steps.Kinds.{appended, looked};

use crate::story::{Picks, Story};
use crate::view::View;
use atomic_table::{Join, Play, Split, TableRule};
use std::marker::PhantomData;
use std::snapshot::Snapshot;

/// The rule that holds between any two steps.
pub struct Order;

impl<S: Story> TableRule<Option<S>, View<S::Entry>, Snapshot<S>> for Order {
    ghost holds = { λ start. IsRuled S.tale S.by S.mark (S.mark start.value) };

    ghost first = { λ start. first_view (S.mark start.value) };
}

/// Compare-exchange on word 3: where it succeeds, the seat has the number found as its spare one.
pub struct Number;

impl<S: Story> Play<Option<S>, View<S::Entry>> for Number {
    ghost then = { numbered S.by };
}

/// A seat is cut in two: the new one has the spare number, and both know the same list.
pub struct SplitSeat;

impl<E> Split<View<E>> for SplitSeat {
    ghost left = { elder_view };

    ghost right = { younger_view };
}

/// Two seats become one, which has the longer list and the numbers of both.
pub struct JoinSeat;

impl<E> Join<View<E>> for JoinSeat {
    ghost both = { joined };

    ghost spent = { spent_view };
}

/// A load of word 0 after a join: what both had seen is true of the longer list.
pub struct Learn;

impl<S: Story> Play<Option<S>, View<S::Entry>> for Learn {
    ghost then = { λ s m r n. learned S.by m n };
}

/// Fetch-add on word 1: the seat has the ticket found.
pub struct Draw;

impl<T, E> Play<T, View<E>> for Draw {
    ghost then = { λ s m r n. drew m r n };
}

/// A load of word 2: where it is the seat's ticket, the slot goes out to it, and it knows the whole
/// tale; else nothing changes.
pub struct Look;

impl<S: Story> Play<Option<S>, View<S::Entry>> for Look {
    ghost then = { λ s m r n. looked S.tale S.by S.mark m r n };
}

/// Fetch-add on word 0: the list gains the entry that the call picks, and its position is fixed.
pub struct Append<P> {
    picks: PhantomData<P>,
}

impl<T, E, P: Picks<E>> Play<T, View<E>> for Append<P> {
    ghost then = { λ s m r n. appended P.tale m n };
}

/// Fetch-add on word 2: the slot comes home with the state, and ticket and turn are given up.
pub struct PassOn;

impl<T, E> Play<T, View<E>> for PassOn {
    ghost then = { λ s m r n. passed m n };
}

/// A load of word 0 before the end: the slot comes home, and the turn is kept.
pub struct Rest;

impl<T, E> Play<T, View<E>> for Rest {
    ghost then = { λ s m r n. rested m n };
}
