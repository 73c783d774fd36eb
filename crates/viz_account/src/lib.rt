//! The account of a script: a history, a line for each command, and the calls of each actor's port.
//!
//! Contract: an update and an audit of a network are answered as their lines in the account say. An
//! update goes by its plan, writes what evaluation from scratch gives, and hands out parts to be
//! kept; so does an audit, but for the write; the same update from scratch makes no plan. The audit
//! of a node counts the sides of the surface that a contour makes of an image: what it counts is
//! closed up to the boundary of the image's grid. Definitions: `specs/Account.antt`,
//! `specs/Lines.antt`, `specs/Audited.antt`, `specs/SurfaceLaws.antt`; the rules are those of
//! docs/FORMATS.md, "Report".
#![tactic(auto)]

mod answer;
mod auditing;
mod ground;
mod laws;
mod made;
mod parts;
mod planned;
mod sums;
mod surface;
mod surface_laws;
mod updating;

pub use answer::{Answer, AuditAnswer, Missing};
pub use auditing::audit;
pub use laws::{
    accounts_hold_later, all_came_are_told, audit_lines_are_closed, entries_are_told_once,
    lines_count_edits, updates_say_of_files,
};
pub use parts::UpdateParts;
pub use surface_laws::{audits_are_closed, audits_are_one};
pub use updating::{update, update_from_scratch};
pub use viz_report::{Line, Reason};
pub use viz_surface_law::Counts;
