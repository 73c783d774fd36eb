//! The places of a script's actors.

use viz_hub::Pass;
use viz_report::Line;

/// An actor: its number while it works, its pass while it works, its port, the lines of its
/// commands so far, and how many of these are rows of the report.
#[derive(Drop)]
pub struct Place<P> {
    pub actor: u32,
    pub pass: Option<Pass>,
    pub port: P,
    pub lines: Vec<Line>,
    pub told: usize,
}
