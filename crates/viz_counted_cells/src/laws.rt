//! What the rules of counted cells mean. A law is a function that does nothing: its contract holds
//! of the definitions alone.

ghost use Rattle.std.specs.Prelude.{ℕ, Bool, List};
ghost use Rattle.viz_lex.specs.Reading.{Reading};
ghost use Rattle.viz_lex.specs.Rules.{Decides, IsDefinite};
ghost use Rattle.viz_counted_cells.specs.Sections.{section, section_numbers, HaveIndices};
ghost use Rattle.viz_counted_cells.specs.Steps.{section_at};

/// For each text there is exactly one answer: cells, or a fault.
pub fn counted_sections_are_definite()
    ensures section { (binary : Bool) (n : ℕ) → IsDefinite (section binary n) }
{}

/// The reader decides its rule: it gives just what stands there, and else the fault.
pub fn counted_sections_are_decided()
    ensures section { (binary : Bool) (n : ℕ)
        → Decides (section_numbers binary n) (section_at binary n) }
{}

/// Each index of a cell that is read is that of a point.
pub fn counted_indices_are_those_of_points()
    ensures section { (binary : Bool) (n : ℕ) (old new : Reading) (cells : List (List ℕ))
        → (section binary n).is old new cells → HaveIndices n cells }
{}
