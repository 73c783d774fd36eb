//! Strips and clips of a file: what is made of its bytes by the rules of a mesh as strips and of a
//! clipped volume, which no kind of node has.
//!
//! Contract: `reshape_file` gives the text of the definition with what is counted of it, or the fault
//! that it names, of the file at one node or of the work at another; there is one of both.
//! Definitions: `specs/Reshape.antt`; the rules are those of docs/FORMATS-OF-OUTPUT.md, "Strips and
//! clips of a file".
#![tactic(auto)]

mod clips;
mod laws;
mod reading;
mod reshape;
mod stop;
mod strips;
mod whole;

pub use laws::reshapes_are_one;
pub use reshape::{FileCounts, MadeFile, Reshape};
pub use whole::reshape_file;
