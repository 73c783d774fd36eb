//! Requests for parts of datasets, parts, and what a part is kept under.
//!
//! Contract: the types, what a part of a sheet is seen as, a sheet and the ghost level of each
//! cell, and which request covers which. A part is kept under its node, the node's stamp and the
//! request that it answers. Definitions: `specs/Pieces.antt` says which part answers which request
//! of a dataset, and `specs/Stitching.antt` what all parts of one are; `specs/Seen.antt` has the
//! rule of ghost levels.
#![tactic(auto)]

mod covering;
mod levels;
mod part_sheet;
mod request;
mod stored;

pub use covering::covers;
pub use part_sheet::PartSheet;
pub use request::{Part, Request};
pub use stored::{Key, Stored};
