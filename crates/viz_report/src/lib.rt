//! Reports: what each command came to, as rows and as their text.
//!
//! Contract: the text of rows is that of the definition, which also says in what order the lines of
//! several actors and phases stand. Definitions: `specs/Report.antt`, `specs/Words.antt`; the rules
//! are those of docs/FORMATS.md, "Report".
#![tactic(auto)]

mod laws;
mod line;
mod text;
mod words;

pub use laws::one_actor_is_reported_in_order;
pub use line::{Line, Reason, Row};
pub use text::{put_behind, put_number, report_text, word_of};
pub use words::put_reason;
