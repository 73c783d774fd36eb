//! How what each node of a network gives is shared out in pieces, by its kind, along its cone.
//!
//! Contract: laws. What a node gives has one division; that of a mesh shares out all cells, for
//! each number of pieces, and the only piece owns them all. What a node gives with its division is
//! what it makes of what feeds it with theirs. Definitions: `specs/Divided.antt` has a row for each
//! kind, over the divisions that filters hand on (viz_piece_divisions).
#![tactic(auto)]

mod laws;

pub use laws::{datasets_are_divided, divided_by_ports, divisions_share_out};
