//! A law on histories. A law is a function that does nothing: its contract holds of the definitions
//! alone.

ghost use Rattle.std.specs.Prelude.{ℕ, List};
ghost use Rattle.viz_entries.specs.declared.entry.Entry.{Entry};
ghost use Rattle.viz_entries.specs.History.{own_of, IsLegal, AreCountedFrom};

/// In a legal history the entries of each pass are counted from 1.
pub fn own_entries_are_counted()
    ensures law { (h : List Entry) (pass : ℕ) → IsLegal h → AreCountedFrom 1 (own_of pass h) }
{}
