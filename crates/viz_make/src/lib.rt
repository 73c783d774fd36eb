//! The command that makes a volume: from its words to the status.
//!
//! Contract: a run writes the volume of a number and tells its numbers and the audit of its
//! contour, by which the contour is closed up to the boundary; or it says why not.
//! Definitions: `specs/Make.antt`, `specs/Volume.antt` and the files that they name; the rules are
//! those of docs/FORMATS.md, "Made volumes" and "Report".
#![tactic(auto)]

mod came;
mod contour;
mod laws;
mod made;
mod network;
mod report;
mod run;
mod serving;
mod size;
mod volume;

pub use laws::volumes_are_narrow;
pub use run::run_make;
pub use serving::Make;
pub use size::volume_extent;
