//! The bytes of a file.

ghost use Rattle.std.specs.Prelude.{◌≡◌, IfOk};

use std::alloc::{AllocError, Global};
use std::marker::Model;

/// Bytes on the heap: a file's, or one word of the command line.
#[derive(Debug, Drop)]
pub struct Bytes {
    items: Vec<u8>,
}

impl Model for Bytes {
    ghost use Rattle.std.specs.Prelude.{ℕ, List};

    ghost Value = { List ℕ };

    ghost view = { λ b. b.items.items };
}

impl Bytes {
    /// Holds the bytes that it is given.
    pub fn new(items: Vec<u8>) -> Bytes
        ensures value { result ≡ items.items }
    {
        Bytes { items }
    }

    /// The bytes, in order.
    pub fn list(&self) -> &[u8]
        ensures value { result.now ≡ self.now }
    {
        &self.items
    }
}
