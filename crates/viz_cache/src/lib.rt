//! A cache of kept parts, of bounded size.
//!
//! Contract: a cache is seen as the list of its entries, the most recently used first; each call
//! says which list it is then, and a refused one leaves it as it was. The stamp of a key stands for
//! the cone of its node: equal stamps are equal cones, as viz_network proves. Definitions:
//! `specs/Cache.antt`, `specs/Keys.antt`.
#![tactic(auto)]

mod cache;
mod laws;

pub use cache::Cache;
pub use laws::same_keys_are_equal;
