//! What the rules of sections of version 5.1 mean. A law is a function that does nothing: its
//! contract holds of the definitions alone.

ghost use Rattle.std.specs.Prelude.{ℕ, Bool, List};
ghost use Rattle.viz_lex.specs.Reading.{Reading};
ghost use Rattle.viz_lex.specs.Rules.{Decides, IsDefinite};
ghost use Rattle.viz_counted_cells.specs.Sections.{HaveIndices};
ghost use Rattle.viz_offset_cells.specs.Offsets.{offset_section, offset_numbers};
ghost use Rattle.viz_offset_cells.specs.Steps.{offset_section_at};

/// For each text there is exactly one answer: cells, or a fault.
pub fn offset_sections_are_definite()
    ensures section { (binary : Bool) (n : ℕ) → IsDefinite (offset_section binary n) }
{}

/// The reader decides its rule: it gives just what stands there, and else the fault.
pub fn offset_sections_are_decided()
    ensures section { (binary : Bool) (n : ℕ)
        → Decides (offset_numbers binary n) (offset_section_at binary n) }
{}

/// Each index of a cell that is read is that of a point.
pub fn indices_are_those_of_points()
    ensures section { (binary : Bool) (n : ℕ) (old new : Reading) (cells : List (List ℕ))
        → (offset_section binary n).is old new cells → HaveIndices n cells }
{}
