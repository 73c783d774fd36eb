//! The attribute parts of a file: the array that is picked, the others passed over.
//!
//! Contract: `attributes` gives just what the rules of the parts say, or the first fault.
//! Definitions: `specs/Attributes.antt`, what the calls promise, and `specs/Grammar.antt` with the
//! files that it names; the rules are those of docs/FORMATS-OF-FILES.md, "Attribute parts".
#![tactic(auto)]

mod all_parts;
mod arrays;
mod counts;
mod field;
mod laws;
mod parts;
mod passed;
mod picks;
mod stop;
mod types;
mod values;

pub use all_parts::attributes;
pub use laws::{
    attributes_are_definite, other_arrays_are_counted, readers_decide_their_rules,
    the_first_that_fits_is_picked,
};
pub use passed::pass_field;
pub use stop::AttrStop;
pub use types::{Stored, is_left_out, stored_of, type_word};
