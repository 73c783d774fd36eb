//! Laws on commands of one file. A law is a function that does nothing: its contract holds of the
//! definitions alone.

ghost use Rattle.viz_once.specs.Laws.{HistoriesAreLegal, WordsHaveNumbers};

/// Each edit of the fixed history is accepted, where the filter's numbers are of 64 bits; those of
/// words are.
pub fn histories_are_legal()
    ensures words { WordsHaveNumbers }
    ensures legal { HistoriesAreLegal }
{}
