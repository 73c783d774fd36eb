//! Laws on what passes of a hub have seen. A law is a function that does nothing: its contract
//! holds of the definitions alone.

ghost use Rattle.std.specs.Prelude.{◌≡◌, ℕ, List, [], ◌∷◌, ◌++◌, true};
ghost use Rattle.viz_turn.specs.Tales.{has, once, HasNoOther};
ghost use Rattle.viz_network.specs.declared.edit.Edit.{Edit};
ghost use Rattle.viz_entries.specs.declared.entry.Entry.{Entry};
ghost use Rattle.viz_history.specs.declared.answer.EditAnswer.{EditAnswer};
ghost use Rattle.viz_entries.specs.History.{by_of, own_of};
ghost use Rattle.viz_hub.specs.Answers.{Answers, gained};
ghost use Rattle.viz_hub.specs.Passes.{PassKnown, numbers, GoesFurther};

/// After a batch the entries of the pass's number are those that it had seen and, where the batch
/// was accepted, this one; those of an ended number stay as they were.
pub fn own_gains_this_entry()
    ensures own { (p : PassKnown) (batch : List Edit) (answer : EditAnswer) (seen : List Entry)
        → Answers p batch answer seen
        → own_of p.number seen ≡ own_of p.number p.seen ++ gained p batch answer }
    ensures ended { (p : PassKnown) (batch : List Edit) (answer : EditAnswer) (seen : List Entry)
        (n : ℕ) → once (numbers p) ≡ true → has n p.ended ≡ true → Answers p batch answer seen
        → own_of n seen ≡ own_of n p.seen }
{}

/// The entries of each number of a pass in the journal are those that it had seen, and a whole pass
/// has seen the journal: so every entry is of a pass that was joined, and stands there once.
pub fn journal_is_of_joined_passes()
    ensures each { (p : PassKnown) (journal : List Entry) (n : ℕ) → has n (numbers p) ≡ true
        → GoesFurther p journal → own_of n journal ≡ own_of n p.seen }
    ensures all { (p : PassKnown) (journal : List Entry) → GoesFurther p journal
        → HasNoOther by_of (numbers p) journal → journal ≡ p.seen }
{}
