//! The triangles of a grid's section by flags of the edges that it cuts.
//!
//! Contract: `ranked_section` gives the triangles in all tetrahedra of an extent by which of its
//! points are inside, by the ranks of their edges, and the name of each edge. Definitions:
//! `specs/Edges.antt`, `specs/Flags.antt`, `specs/Flagged.antt`.
//!
//! An edge has a flag at its lower leaf, and its rank is the number of flags before.
#![tactic(auto)]

mod cases;
mod cubes;
mod ends;
mod flag_laws;
mod flags;
mod layers;
mod named;
mod ranks;
mod sections;
mod starts;

pub use flag_laws::flags_are_edges;
pub use sections::{Ranked, ranked_section};
