//! Words, lines, numbers and blocks of a text, read once from the front, and rules of what stands.
//!
//! Contract: each reader gives just what a definition on the bytes gives, or the fault that it
//! gives. A rule says what stands between two places and which first fault is met; laws say that a
//! reader decides it. Definitions: `specs/`, the rules first in `specs/Rules.antt`; they are those
//! of docs/FORMATS-OF-FILES.md, "Reading".
#![tactic(auto)]

mod decimal;
mod fault;
mod laws;
mod laws_decimal;
mod laws_pass;
mod lexer;
mod metadata;
mod number;
mod pass;
mod put;
mod rule_laws;
mod scan;
mod span;
mod steps;
mod written;

pub use fault::{FileFault, FileKind};
pub use laws::{
    ends_lines_only, finds_each_line, finds_each_word, finds_lines_only, finds_words_only,
    reads_each_number, reads_what_is_written,
};
pub use laws_decimal::{reads_each_decimal, reads_written_decimals, writes_each_fraction};
pub use laws_pass::{finds_each_block, passes_over_metadata, passes_over_words};
pub use lexer::Lexer;
pub use put::put_whole;
pub use rule_laws::{
    AnyRule, RuleAmong, RuleKnowing, choices_are_decided, decided_rules_are_definite,
    following_rules_are_decided, items_are_decided, knowing_rules_are_decided,
    repeated_rules_are_decided, rules_to_the_end_are_decided, skipped_rules_are_decided,
    tests_are_decided,
};
pub use span::Span;
pub use steps::{is_word, keyword_fault};
pub use written::put_decimal;
