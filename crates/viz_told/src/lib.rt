//! How a run is told: by one text, which is put once, and by the status that belongs to it.
//!
//! Contract: `tell` puts the text of an outcome, or that memory ran out at its making, and answers
//! the status by what the put answered. Definitions: `specs/Told.antt` and the files that it
//! names; what a run did at a port stands in `specs/Calls.antt`. The rules are those of
//! docs/FORMATS.md, "Report".
#![tactic(auto)]

mod lines;
mod report;
mod status;
mod tells;
mod text;

pub use lines::{memory_line, no_port_line, read_fault_line, usage_line, write_fault_line};
pub use report::tell;
pub use status::Status;
pub use tells::Tells;
pub use text::Text;
