//! Meshes that are written with strips are read again. A law is a function that does nothing: its
//! contract holds of the definitions alone.

ghost use Rattle.std.specs.Prelude.{◌≡◌, ℕ, List};
ghost use Rattle.viz_base.specs.declared.node.Pick.TheVariants.{Zero};
ghost use Rattle.viz_dataset.specs.declared.dataset.Dataset.{Dataset};
ghost use Rattle.viz_dataset.specs.declared.dataset.Dataset.TheVariants.{Mesh};
ghost use Rattle.viz_lex.specs.declared.fault.FileFault.{FileFault};
ghost use Rattle.viz_legacy_read.specs.Reading.{Reads, Stops};
ghost use Rattle.viz_sheet.specs.Sheet.{SheetData};
ghost use Rattle.viz_strip_write.specs.StripText.{IsStripText};
ghost use Rattle.viz_strip_trip.specs.StripTrip.{HasSameCells, IsStrippable, StripsAreReadAgain};

/// The text of a mesh with strips is read as a mesh, where no array is asked for and the unit is 3:
/// by the ranks of points it has the vertices and lines that were written, and the oriented
/// triangles, each as often. Its points are the written ones in their order, none of which is
/// dropped, and have the scalar 0.
pub fn strips_are_read_again()
    ensures again { StripsAreReadAgain }
{}

/// Nothing else is read of such a text, no image either, and no fault is met. So of what
/// `strip_text` gave `read` gives such a mesh, or memory ran out.
pub fn nothing_else_is_read_of_strips()
    ensures only { (sheets : List SheetData) (text : List ℕ) (d : Dataset)
        → IsStrippable sheets → IsStripText sheets text → Reads text Zero 3 d
        → (again : List SheetData) × (d ≡ Mesh again) × HasSameCells sheets again }
    ensures no_fault { (sheets : List SheetData) (text : List ℕ) (fault : FileFault)
        → IsStrippable sheets → IsStripText sheets text → ¬ Stops text Zero 3 fault }
{}
