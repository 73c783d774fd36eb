//! The edit history of a network with the network that it makes: the state that a turn passes on.
//!
//! Contract: a core is seen as its history, which is legal and within its limit; each call replies
//! as the machine of `specs/Machine.antt` does, whose state is the history with its limit, the room
//! for entries, and the kept parts, each true of the history. Definitions: `specs/Machine.antt`,
//! `specs/Publishing.antt`; histories are those of viz_entries, and `true` is that of viz_kept.
#![tactic(auto)]

mod answer;
mod machine;
mod pinned;
mod publishing;

pub use answer::EditAnswer;
pub use machine::Core;
pub use pinned::Pinned;
pub use publishing::Kept;
