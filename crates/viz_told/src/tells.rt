//! Outcomes of runs, as they are told.

ghost use Rattle.std.specs.Prelude.{◌≡◌, IfOk, IsErr, IsTrue};
ghost use Rattle.viz_told.specs.Told.{Telling, bytes_of};

use crate::status::Status;
use crate::text::Text;
use std::alloc::{AllocError, Global};

/// An outcome of a run, which is told by one text and a status.
pub trait Tells {
    /// What is told of it.
    ghost telling: { Self → Telling };

    /// The status where the whole text is put.
    fn status(&self) -> Status
        ensures value { result ≡ (telling self.now).status };

    /// The text. Memory runs out only where it is made.
    fn text(&self, alloc: Global) -> Result<Text, AllocError>
        ensures value { IfOk result (λ text. bytes_of text ≡ (telling self.now).text) }
        ensures made { IsErr result → IsTrue (telling self.now).is_made };
}
