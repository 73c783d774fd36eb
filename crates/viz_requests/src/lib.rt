//! Requests on their way upstream: what a node makes for a request, what it asks its inputs for,
//! which kept request serves a wanted one, and the requests of an update in pieces.
//!
//! Contract: each call gives just what its definition says; a request that fits a node's dataset
//! asks only for what fits its inputs' datasets. Definitions: `specs/Upstream.antt`,
//! `specs/Serving.antt`, `specs/Shapes.antt`.
#![tactic(auto)]

mod extents;
mod serving;
mod shapes;
mod upstream;

pub use serving::{serves, serving_is_an_order};
pub use shapes::requests_of;
pub use upstream::{asked, fits, fitting_can_be_asked, widened};
