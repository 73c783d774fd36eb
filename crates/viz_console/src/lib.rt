//! Consoles: sessions of a command a line and an answer a line, over one hub with its cache.
//!
//! Contract: of a source that tells its bytes, the text put is the answers to its lines, one after
//! the other, which have the account of one actor; the end is the one that the bytes call for,
//! unless a call failed or memory ran out. Definitions: `specs/Sessions.antt` for a whole session,
//! `specs/Ends.antt` for its ends, `specs/Replies.antt` for the text, `specs/Lines.antt` for what
//! lines ask for; the rules are those of docs/FORMATS-OF-SCRIPTS.md, "Sessions".
#![tactic(auto)]

mod acts;
mod console;
mod ending;
mod line;
mod open_batch;
mod session;
mod texts;

pub use console::serve;
pub use ending::End;
