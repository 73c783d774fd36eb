//! Writing the triangles of a mesh as strips: the text of polydata.
//!
//! Contract: `strip_text` gives the text of the definition, or the refusal that it names;
//! `counted_strip_text` gives it with how many strips and triangles it has.
//! Definitions: `specs/StripText.antt`, `specs/FitStrips.antt`; the rule is that of
//! docs/FORMATS-OF-OUTPUT.md, "Written strips".
#![tactic(auto)]

mod cells;
mod heads;
mod points;
mod stop;
mod stripped;
mod text;

pub use stop::StripStop;
pub use stripped::Stripped;
pub use text::{counted_strip_text, strip_text};
