//! Scripts: the commands of actors, in phases.
//!
//! Contract: `parse` gives just the steps that the definition gives, or the first refusal of the
//! first line that has one. Definition: `specs/Script.antt`; the rules are those of
//! docs/FORMATS-OF-SCRIPTS.md, "Scripts".
#![tactic(auto)]

mod line;
mod order;
mod parser;
mod parsing;

pub use line::order_in;
pub use order::{Order, Script, Step};
pub use parsing::parse;
pub use viz_words::{ScriptRefusal, ScriptStop};
