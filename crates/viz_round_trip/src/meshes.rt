//! Meshes that are written are read again. A law is a function that does nothing: its contract
//! holds of the definitions alone.

ghost use Rattle.std.specs.Prelude.{◌≡◌, ◌≢◌, ◌≤◌, ℕ, Bool, List, [], All, length, Some};
ghost use Rattle.viz_base.specs.declared.node.Pick.TheVariants.{First, Zero};
ghost use Rattle.viz_dataset.specs.declared.dataset.Dataset.{Dataset};
ghost use Rattle.viz_dataset.specs.declared.dataset.Dataset.TheVariants.{Mesh};
ghost use Rattle.viz_lex.specs.declared.fault.FileFault.{FileFault};
ghost use Rattle.viz_lex.specs.declared.fault.FileKind.TheVariants.{NoArray};
ghost use Rattle.viz_lex.specs.Reading.{fault_at};
ghost use Rattle.viz_legacy_read.specs.Reading.{Reads, Stops};
ghost use Rattle.viz_mesh_read.specs.Grid.{points_of_type};
ghost use Rattle.viz_mesh_write.specs.Cells.{points_of};
ghost use Rattle.viz_mesh_write.specs.MeshText.{mesh_text, type_of};
ghost use Rattle.viz_round_trip.specs.MeshTrip.{AreWritable, read_of, written_again, empty_mesh};
ghost use Rattle.viz_sheet.specs.Sheet.{SheetData, IsSheet};

/// The text of a mesh that has a point, of version 3.0 or 5.1, in ASCII or in BINARY, is read as
/// the written points and cells, where the first array is picked and the unit is the number of
/// written places. A text without points has no array: it is read as a mesh of nothing where none
/// is picked.
///
/// The read mesh is one sheet, whatever sheets were written, and it has the written points in
/// their order, none of which is dropped. It is the same for both versions. `rule` says that this
/// is the mesh that the rule of files makes of the written numbers.
pub fn written_meshes_are_read_again()
    ensures again { (later binary : Bool) (digits : ℕ) (sheets : List SheetData)
        → AreWritable digits sheets → points_of sheets ≢ []
        → Reads (mesh_text later binary digits sheets) First digits
        (Mesh (written_again digits sheets)) }
    ensures empty { (later binary : Bool) (digits : ℕ) (sheets : List SheetData)
        → AreWritable digits sheets → points_of sheets ≡ []
        → Reads (mesh_text later binary digits sheets) Zero digits (Mesh empty_mesh) }
    ensures rule { (digits : ℕ) (sheets : List SheetData) → All IsSheet sheets
        → read_of digits sheets ≡ written_again digits sheets }
{}

/// Nothing else is read of such a text, no image either, and no fault is met. So of what
/// `write_mesh` gave, of either version and in either form, `read` gives just that mesh, or memory
/// ran out. Of a text without points no array can be picked: the fault lies at its end.
pub fn no_other_mesh_is_read()
    ensures only { (later binary : Bool) (digits : ℕ) (sheets : List SheetData) (d : Dataset)
        → AreWritable digits sheets → points_of sheets ≢ []
        → Reads (mesh_text later binary digits sheets) First digits d
        → d ≡ Mesh (written_again digits sheets) }
    ensures no_fault { (later binary : Bool) (digits : ℕ) (sheets : List SheetData)
        (fault : FileFault) → AreWritable digits sheets → points_of sheets ≢ []
        → ¬ Stops (mesh_text later binary digits sheets) First digits fault }
    ensures no_array { (later binary : Bool) (digits : ℕ) (sheets : List SheetData)
        → AreWritable digits sheets → points_of sheets ≡ []
        → Stops (mesh_text later binary digits sheets) First digits
        (fault_at NoArray (length (mesh_text later binary digits sheets))) }
{}

/// The type that is written of a cell of 1 to 4 points is the one that the reader wants of it.
pub fn written_types_are_wanted()
    ensures law { (n : ℕ) → 1 ≤ n → n ≤ 4 → points_of_type (type_of n) ≡ Some n }
{}
