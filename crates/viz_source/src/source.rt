//! Bytes that are pulled piece by piece.

ghost use Rattle.std.specs.Prelude.{◌≡◌, ◌≤◌, ◌<◌, ◌^◌, ◌↔◌, ◌++◌, [], ℕ, Bool, List, take};
ghost use Rattle.std.specs.Prelude.{IsTrue, IfOk, OnErr};
ghost use Rattle.viz_base.specs.Faults.{Rose};

use crate::limits::PIECE;
use viz_base::Failed;

/// A source of bytes. Whether it tells them is said of the type: an adapter to the standard input
/// doesn't.
pub trait Source {
    /// Whether the bytes are told.
    ghost tells_bytes: { Bool };

    /// The bytes that are left.
    ghost left: { Self → List ℕ };

    /// How often a pull failed, up to the greatest u64.
    ghost faults: { Self → ℕ };

    /// Puts the next 1 to 4,096 bytes at the front of the piece and answers their number; 0 at the
    /// end. What stands behind them in the piece, and in all of it after a failure, isn't said.
    fn pull(&mut self, piece: &mut [u8; PIECE]) -> Result<u32, Failed>
        ensures within { IfOk result (λ n. n ≤ PIECE) }
        ensures bytes { IsTrue tells_bytes
            → IfOk result (λ n. left self.old ≡ take n piece.new ++ left self.new) }
        ensures end { IsTrue tells_bytes → IfOk result (λ n. (n ≡ 0) ↔ (left self.old ≡ [])) }

        // The refusal takes no byte.
        ensures failed { OnErr result (Rose (faults self.old) (faults self.new)) }
        ensures err { IsTrue tells_bytes → OnErr result (left self.new ≡ left self.old) }

        // The count.
        ensures later { faults self.old ≤ faults self.new }
        ensures counted { faults self.new < 2 ^ 64 };
}
