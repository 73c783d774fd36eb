//! How ghost levels are kept.

/// The ghost level of each cell.
#[derive(Debug, Drop)]
pub enum Levels {
    /// 0 for all.
    Own,
    Each(Vec<u32>),
}
