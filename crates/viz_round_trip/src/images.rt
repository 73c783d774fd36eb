//! Images that are written are read again. A law is a function that does nothing: its contract
//! holds of the definitions alone.

ghost use Rattle.std.specs.Prelude.{◌≡◌, ◌+◌, ℕ, Bool};
ghost use Rattle.viz_base.specs.declared.node.Pick.TheVariants.{First};
ghost use Rattle.viz_extent.specs.Extent.{count_of};
ghost use Rattle.viz_dataset.specs.declared.dataset.Dataset.{Dataset};
ghost use Rattle.viz_dataset.specs.declared.dataset.Dataset.TheVariants.{Image};
ghost use Rattle.viz_dataset.specs.Images.{ImageData, corner, point_at, IsImage, IsOrigin};
ghost use Rattle.viz_lex.specs.declared.fault.FileFault.{FileFault};
ghost use Rattle.viz_legacy_read.specs.Reading.{Reads, Stops};
ghost use Rattle.viz_image_write.specs.ImageText.{image_text};
ghost use Rattle.viz_round_trip.specs.RoundTrip.{moved, BeginsAtZero};

/// The text of an image, of version 3.0 or 5.1, in ASCII or in BINARY, is read as the image that
/// it was written of.
///
/// A file knows no first index but 0, so the points of an extent that begins further on are
/// counted from 0. The unit is one of a mesh's coordinates: an image is the same in each.
pub fn written_images_are_read_again()
    ensures same { (later binary : Bool) (unit : ℕ) (i : ImageData)
        → IsImage i → BeginsAtZero i.extent
        → Reads (image_text later binary i) First unit (Image i) }
    ensures moved { (later binary : Bool) (unit : ℕ) (i : ImageData)
        → IsImage i → IsOrigin (corner i)
        → Reads (image_text later binary i) First unit (Image (moved i)) }
{}

/// Nothing else is read of such a text, no mesh either, and no fault is met. So of what
/// `write_image` gave, of either version and in either form, `read` gives just that image where
/// the first array is picked, or memory ran out.
pub fn nothing_else_is_read()
    ensures only { (later binary : Bool) (unit : ℕ) (i : ImageData) (d : Dataset)
        → IsImage i → IsOrigin (corner i)
        → Reads (image_text later binary i) First unit d → d ≡ Image (moved i) }
    ensures no_fault { (later binary : Bool) (unit : ℕ) (i : ImageData) (fault : FileFault)
        → IsImage i → IsOrigin (corner i)
        → ¬ Stops (image_text later binary i) First unit fault }
{}

/// A point that is counted from 0 stands where it stood, and has the number that it had.
pub fn moved_points_stay()
    ensures point { (i : ImageData) (a b c : ℕ) → point_at (moved i) a b c
        ≡ point_at i (i.extent.x0 + a) (i.extent.y0 + b) (i.extent.z0 + c) }
    ensures count { (i : ImageData) → count_of (moved i).extent ≡ count_of i.extent }
{}
