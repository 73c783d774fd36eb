//! What the rules of attribute parts mean. A law is a function that does nothing: its contract
//! holds of the definitions alone.

ghost use Rattle.std.specs.Prelude.{◌≡◌, ℕ, Bool, List};
ghost use Rattle.viz_lex.specs.Reading.{Reading};
ghost use Rattle.viz_lex.specs.Rules.{Decides, IsDefinite};
ghost use Rattle.viz_attr.specs.declared.types.Stored.{Stored};
ghost use Rattle.viz_attr.specs.Picks.{Given, Part};
ghost use Rattle.viz_attr.specs.Types.{type_word};
ghost use Rattle.viz_attr.specs.Passed.{passed_field};
ghost use Rattle.viz_attr.specs.PassedSteps.{passed_field_at};
ghost use Rattle.viz_attr.specs.Steps.{type_at, attributes_at};
ghost use Rattle.viz_attr.specs.Grammar.{parts, attributes};
ghost use Rattle.viz_attr.specs.Attributes.{KeepsTheFirst, AreWordsAlone, AreBytesAlone};

/// For each text, each number of points and cells and each pick there is exactly one answer: an
/// array or none, or a fault.
pub fn attributes_are_definite()
    ensures definite { (g : Given) → IsDefinite (attributes g) }
{}

/// The picked array is the first that fits the pick: numbers are kept of it alone.
pub fn the_first_that_fits_is_picked()
    ensures first { (g : Given) (old new : Reading) (all : List (List Part))
        → (parts g).is old new all → KeepsTheFirst g all }
{}

/// An array that isn't picked counts by its number of words or bytes alone.
pub fn other_arrays_are_counted()
    ensures words { (stored : Stored) (tuples components : ℕ)
        → AreWordsAlone stored tuples components }
    ensures bytes { (stored : Stored) (tuples components : ℕ)
        → AreBytesAlone stored tuples components }
{}

/// Each reader of this crate decides its rule: it gives just what stands there, and else the fault.
pub fn readers_decide_their_rules()
    ensures type_word { (read : Bool) → Decides (type_word read) (type_at read) }
    ensures field { (binary : Bool) → Decides (passed_field binary) (passed_field_at binary) }
    ensures attributes { (g : Given) → Decides (attributes g) (attributes_at g) }
{}
