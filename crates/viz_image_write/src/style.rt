//! How a dataset is written.

ghost use Rattle.std.specs.Prelude.{◌≡◌, ◌≤◌, IsTrue};
ghost use Rattle.viz_image_write.specs.Version.{is_version, is_later};

/// How a dataset is written: in bytes or in words, with how many decimal places, and in a file of
/// which version: 3 for version 3.0, or 5 for version 5.1.
///
/// Only the coordinates of a mesh are written with a number of places; those of an image are
/// written in full.
#[derive(Clone, Copy, Debug)]
pub struct Style {
    pub binary: bool,
    pub digits: u8,
    pub version: u8,
    ghost few: { digits ≤ 9 },
    ghost known: { IsTrue (is_version version) },
}

impl Style {
    /// Whether the file is one of version 5.1.
    pub fn is_later(&self) -> bool
        ensures value { result ≡ is_later self.now.version }
    {
        self.version == 5
    }
}
