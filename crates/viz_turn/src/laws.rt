//! Laws on what passes know. A law is a function that does nothing: its contract holds of the
//! definitions alone.

ghost use Rattle.std.specs.Prelude.{◌≡◌, ℕ, List, [], ◌∷◌, ◌++◌, true};
ghost use Rattle.viz_turn.specs.Tales.{has, once, entries_of, HasNoOther};
ghost use Rattle.viz_turn.specs.Known.{Known, numbers, at_seen, GoesFurther, AddsOne};

use crate::story::Story;

/// Where a tale goes further than a pass knows it, the entries of the pass's numbers are those that
/// the pass knows: of all of them together, and of each.
pub fn own_entries_stay<S: Story>()
    ensures all { (p : Known S.Entry) (tale : List S.Entry) → GoesFurther S.by p tale
        → entries_of S.by (numbers p) tale ≡ entries_of S.by (numbers p) p.seen }
    ensures each { (p : Known S.Entry) (tale : List S.Entry) (n : ℕ) → has n (numbers p) ≡ true
        → GoesFurther S.by p tale
        → entries_of S.by (n ∷ []) tale ≡ entries_of S.by (n ∷ []) p.seen }
{}

/// A pass that took the turn and appended has one entry more of its number, the last of the tale,
/// and none more of its ended numbers.
pub fn append_adds_one_entry<S: Story>()
    ensures own { (p : Known S.Entry) (tale new : List S.Entry) → GoesFurther S.by p tale
        → (one : AddsOne S.by (at_seen p tale) new)
        → entries_of S.by (p.number ∷ []) new
        ≡ entries_of S.by (p.number ∷ []) p.seen ++ one.0 ∷ [] }
    ensures ended { (p : Known S.Entry) (tale new : List S.Entry) (n : ℕ) → once (numbers p) ≡ true
        → has n p.ended ≡ true → GoesFurther S.by p tale → AddsOne S.by (at_seen p tale) new
        → entries_of S.by (n ∷ []) new ≡ entries_of S.by (n ∷ []) p.seen }
{}

/// What goes further than a pass that knows more, goes further.
pub fn further_goes_on<S: Story>()
    ensures law { (p q : Known S.Entry) (tale : List S.Entry)
        → ((n : ℕ) → has n (numbers p) ≡ true → has n (numbers q) ≡ true)
        → GoesFurther S.by p q.seen → GoesFurther S.by q tale → GoesFurther S.by p tale }
{}

/// Where each entry has one of these numbers, those of these numbers are all entries.
pub fn no_other_is_all<S: Story>()
    ensures law { (ns : List ℕ) (tale : List S.Entry) → HasNoOther S.by ns tale
        → entries_of S.by ns tale ≡ tale }
{}
