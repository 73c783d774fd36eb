//! What an update of a node has to make, and what it finds kept.
//!
//! Contract: `inform`, that of viz_inform, tells what is known of all that lies upstream, or the
//! first fault; `demand` gives just the plan of the definitions of `viz_plan_meaning` and the
//! entries that it uses; `sites_of` tells by the places of steps what is known of a network's
//! nodes. Definitions: `specs/Told.antt`, `specs/Sites.antt`; `specs/ByNode.antt` has the words of
//! private contracts.
#![tactic(auto)]

mod by_node;
mod demanding;
mod keys;
mod sites;
mod told;

pub use demanding::{Plan, demand};
pub use sites::{Site, Sites, sites_of};
pub use told::extent_told;
pub use viz_inform::{Told, inform};
