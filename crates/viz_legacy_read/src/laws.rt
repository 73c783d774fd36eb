//! What the rules of a file mean. A law is a function that does nothing: its contract holds of the
//! definitions alone.

ghost use Rattle.std.specs.Prelude.{◌⊎◌, ℕ, List};
ghost use Rattle.viz_base.specs.declared.node.Pick.{Pick};
ghost use Rattle.viz_dataset.specs.declared.dataset.Dataset.{Dataset};
ghost use Rattle.viz_lex.specs.declared.fault.FileFault.{FileFault};
ghost use Rattle.viz_lex.specs.Rules.{IsDefinite};
ghost use Rattle.viz_legacy_read.specs.Header.{Heading, header};
ghost use Rattle.viz_legacy_read.specs.File.{file};
ghost use Rattle.viz_legacy_read.specs.Reading.{Reads, Stops, ReadsHeader, StopsInHeader};

/// For all bytes, each pick and each unit there is exactly one answer: a dataset, or a first fault.
/// So it is of the header alone.
pub fn files_are_definite()
    ensures file { (pick : Pick) (unit : ℕ) → IsDefinite (file pick unit) }
    ensures header { IsDefinite header }
{}

/// The header alone is refused exactly where the first fault of the file lies in the header: it is
/// that fault whatever is picked, and a file that is read or has its first fault further on has a
/// header.
pub fn headers_stop_where_files_do()
    ensures stops { (bytes : List ℕ) (pick : Pick) (unit : ℕ) (fault : FileFault)
        → StopsInHeader bytes fault → Stops bytes pick unit fault }
    ensures further { (bytes : List ℕ) (pick : Pick) (unit : ℕ) (fault : FileFault)
        → Stops bytes pick unit fault
        → StopsInHeader bytes fault ⊎ ((h : Heading) × ReadsHeader bytes h) }
    ensures reads { (bytes : List ℕ) (pick : Pick) (unit : ℕ) (d : Dataset)
        → Reads bytes pick unit d → (h : Heading) × ReadsHeader bytes h }
{}
