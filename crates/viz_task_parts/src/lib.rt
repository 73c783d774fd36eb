//! What the tasks of a plan take and make.
//!
//! Contract: laws. Parts of what feeds a task's node, for what the task asks for, are those that it
//! takes; what the node makes of them is a part that it gives by the exact rule, without a wide
//! number; where a task fails, its file isn't read, or a section of what feeds it has a wide
//! number; and parts go on through writers. Definitions: `specs/Tasks.antt`.
#![tactic(auto)]

mod laws;

pub use laws::{parts_are_passed, tasks_make_parts};
