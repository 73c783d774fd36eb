//! Reading legacy files: the header alone, and a whole file.
//!
//! Contract: `read` gives just what the rules of a file say, or the first fault. Definitions:
//! `specs/Reading.antt` and the files that it names; the rules are those of
//! docs/FORMATS-OF-FILES.md, "Reading".
#![tactic(auto)]

mod front;
mod image;
mod laws;
mod lines;
mod magic;
mod mesh;
mod reading;
mod stop;

pub use laws::{files_are_definite, headers_stop_where_files_do};
pub use reading::{header, read};
pub use stop::ReadStop;
