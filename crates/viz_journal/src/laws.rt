//! What is read is what is written. A law is a function that does nothing: its contract holds of
//! the definitions alone.

ghost use Rattle.std.specs.Prelude.{◌≡◌, ℕ, List, Ok};
ghost use Rattle.viz_journal.specs.declared.entry.JournalEntry.{JournalEntry as Entry};
ghost use Rattle.viz_journal.specs.declared.version.Version.{Version as Form};
ghost use Rattle.viz_journal.specs.Journal.{journal, journal_in};
ghost use Rattle.viz_journal.specs.Reading.{journal_read};
ghost use Rattle.viz_journal.specs.Fits.{Fits, IsJournalOf};

/// What is read as a journal is the text of its entries in one of the versions, byte for byte, and
/// the network accepts their batches one behind the other.
pub fn nothing_else_is_read()
    ensures only { (bytes : List ℕ) (entries : List Entry) → journal_read bytes ≡ Ok entries
        → IsJournalOf bytes entries }
{}

/// The text, in a version, of entries that a journal of this version can have is read as these
/// entries.
pub fn what_is_written_is_read()
    ensures again { (version : Form) (entries : List Entry) → Fits version entries
        → journal_read (journal_in version entries) ≡ Ok entries }
{}

/// What is read, in either version, is written as a journal that is read as the same entries.
pub fn what_is_read_is_written_again()
    ensures again { (bytes : List ℕ) (entries : List Entry) → journal_read bytes ≡ Ok entries
        → journal_read (journal entries) ≡ Ok entries }
{}
