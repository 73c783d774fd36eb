//! A text that is put.

use viz_base::Bytes;

/// A text that is put.
#[derive(Debug, Drop)]
pub enum Text {
    /// One that is the same each time, and takes no memory.
    Fixed(&'static [u8]),
    /// One that was made.
    Made(Bytes),
}
