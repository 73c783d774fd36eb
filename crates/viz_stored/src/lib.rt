//! What a node of a network gives as one kept part, under the node's stamp.
//!
//! Contract: the part is made in the network, as viz_kept says it.
#![tactic(auto)]

mod stored;

pub use stored::stored_whole;
