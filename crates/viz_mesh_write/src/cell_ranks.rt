//! The ranks of a cell of any type, as a loop over many cells sees them.

ghost use Rattle.std.specs.Prelude.{◌≡◌, ℕ, List};

use viz_sheet::Mixed;

/// A cell by ranks. A function that is generic in it has no `match` in its loop.
pub(crate) trait CellRanks: Drop {
    ghost list: { Self → List ℕ };

    /// The ranks.
    fn list(&self) -> &[u32]
        ensures { result.now ≡ list self.now };
}

impl CellRanks for [u32; 1] {
    ghost list = { λ c. c };

    fn list(&self) -> &[u32] {
        self.as_slice()
    }
}

impl CellRanks for [u32; 2] {
    ghost list = { λ c. c };

    fn list(&self) -> &[u32] {
        self.as_slice()
    }
}

impl CellRanks for [u32; 3] {
    ghost list = { λ c. c };

    fn list(&self) -> &[u32] {
        self.as_slice()
    }
}

impl CellRanks for [u32; 4] {
    ghost list = { λ c. c };

    fn list(&self) -> &[u32] {
        self.as_slice()
    }
}

impl CellRanks for Mixed {
    ghost list = { λ c. c };

    fn list(&self) -> &[u32] {
        self.ranks()
    }
}
