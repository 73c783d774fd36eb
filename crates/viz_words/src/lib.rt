//! The words of scripts and journals: lines, words, names, numbers, and the tables of commands.
//!
//! Contract: each line, word, name and number is that of its definition, and each command is read
//! as its definition says, or refused with the first refusal that the definition has. Definitions:
//! `specs/Lines.antt`, `specs/Words.antt`, `specs/Tables.antt`, `specs/Commands.antt`; the rules
//! are those of docs/FORMATS-OF-SCRIPTS.md, "Scripts".
#![tactic(auto)]

mod arity;
mod command;
mod edits;
mod files;
mod lines;
mod names;
mod numbers;
mod refusal;
mod scan;
mod table;
mod values;
mod verbs;

pub use arity::{due, four, one, three, two};
pub use command::{Command, Verb};
pub use edits::edit_in;
pub use files::{FileName, name_text};
pub use lines::{is_plain, is_skipped, next_line};
pub use names::{array_name, file_name, node_name};
pub use numbers::{natural, number};
pub use refusal::{ScriptRefusal, ScriptStop, refusal_word, refused_line};
pub use scan::{line_len, next_word};
pub use table::{command_named, command_word, kind_named, kind_word, param_named, param_word};
pub use values::set_in;
pub use verbs::verb_of;
