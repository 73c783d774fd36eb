//! What a node of a network gives: the rules of single nodes, evaluation from scratch over all that
//! lies upstream, and what is known of a dataset before its numbers are.
//!
//! Contract: each rule has one result, and so has evaluation from scratch, which depends on the
//! node's cone alone. Definitions: `specs/Information.antt`, `specs/Data.antt`, `specs/Rules.antt`,
//! `specs/Scratch.antt`; the rules are those of docs/FORMATS-OF-FILTERS.md, "What a node gives".
#![tactic(auto)]

mod information;
mod laws;

pub use information::{Grid, Information, Lengths};
pub use laws::{equal_stamps_give_one, rules_are_one, scratch_is_one};
