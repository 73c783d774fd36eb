//! Where the indices of a section are cut into cells.

ghost use Rattle.std.specs.Prelude.{◌≡◌, ◌-◌, length};
ghost use Rattle.viz_offset_cells.specs.Blocks.{cuts_of};

/// The offsets at which indices are cut into cells.
#[derive(Drop)]
pub(crate) enum Cuts {
    /// Each a step behind the one before, from 0 on: the step, and how many cells there are.
    Steps(u64, u64),
    /// One by one.
    Listed(Vec<u64>),
}

impl Cuts {
    /// How many cells there are.
    pub(crate) fn cells(&self) -> u64
        ensures { result ≡ length (cuts_of self.now) - 1 }
    {
        match self {
            Cuts::Steps(_, cells) => *cells,
            Cuts::Listed(offsets) => (offsets.len() as u64).saturating_sub(1),
        }
    }
}
