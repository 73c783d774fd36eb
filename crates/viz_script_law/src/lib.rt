//! Laws over scripts: their grammar, and that what is so spelled is read as what it says.
//!
//! Contract: bytes that spell lines which a script can have are read as the steps of these lines,
//! nothing else is read, and the bytes spell no other lines; an actor's steps are the commands and
//! the batches that its lines are made of. Definitions: `specs/Script.antt`, which is built of the
//! tokens of a line (`specs/Tokens.antt`), their spelling (`specs/Spelling.antt`), what the lines
//! of an actor are made of (`specs/Parts.antt`) and what fits (`specs/Fits.antt`), and knows no
//! reader; the rules are those of docs/FORMATS-OF-SCRIPTS.md, "Scripts".
#![tactic(auto)]

mod laws;

pub use laws::{
    a_batch_is_one_step, a_script_has_one_reading, nothing_else_is_read, plain_spelling_spells,
    what_is_spelled_is_read,
};
