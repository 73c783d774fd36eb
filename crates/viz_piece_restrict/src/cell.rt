//! The ranks of a cell of any type, as a loop over many cells sees them.

ghost use Rattle.std.specs.Prelude.{◌≡◌, ℕ, List};

use viz_sheet::Mixed;

/// A cell by ranks. A function that is generic in it has no `match` in its loop.
pub(crate) trait RankCell: Drop {
    ghost ranks: { Self → List ℕ };

    /// The ranks.
    fn listed(&self) -> &[u32]
        ensures { result.now ≡ ranks self.now };
}

impl RankCell for [u32; 1] {
    ghost ranks = { λ c. c };

    fn listed(&self) -> &[u32] {
        self.as_slice()
    }
}

impl RankCell for [u32; 2] {
    ghost ranks = { λ c. c };

    fn listed(&self) -> &[u32] {
        self.as_slice()
    }
}

impl RankCell for [u32; 3] {
    ghost ranks = { λ c. c };

    fn listed(&self) -> &[u32] {
        self.as_slice()
    }
}

impl RankCell for [u32; 4] {
    ghost ranks = { λ c. c };

    fn listed(&self) -> &[u32] {
        self.as_slice()
    }
}

impl RankCell for Mixed {
    ghost ranks = { λ c. c };

    fn listed(&self) -> &[u32] {
        self.ranks()
    }
}
