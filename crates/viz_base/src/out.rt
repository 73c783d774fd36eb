//! Text that can be appended to.

ghost use Rattle.std.specs.Prelude.{◌≡◌, ℕ, ◌^◌, ◌<◌, ◌≤◌, ◌++◌, Bool, List, OnOk, IsTrue, IsErrOf};
ghost use Rattle.viz_base.specs.Faults.{Rose, one_more, answers_after};
ghost use Rattle.viz_base.specs.Texts.{AppendsPrefix};

use crate::refusal::WriteRefusal;
use std::alloc::Global;

/// An output. Whether it tells its text is said of the type.
pub trait Out {
    /// Whether the text is told.
    ghost tells_text: { Bool };

    /// The text so far.
    ghost text: { Self → List ℕ };

    /// How often `put` was called, up to the greatest u64.
    ghost puts: { Self → ℕ };

    /// How often it was answered otherwise than by want of memory, up to the greatest u64.
    ghost answered: { Self → ℕ };

    /// How often a call failed, up to the greatest u64.
    ghost faults: { Self → ℕ };

    /// Appends the bytes.
    fn put(&mut self, alloc: Global, bytes: &[u8]) -> Result<(), WriteRefusal>
        ensures appended { IsTrue tells_text
            → OnOk result (text self.new ≡ text self.old ++ bytes.now) }

        // The refusals.
        ensures failed { IsErrOf result WriteRefusal.Failed
            → Rose (faults self.old) (faults self.new) }
        ensures prefix { IsTrue tells_text → IsErrOf result WriteRefusal.Failed
            → AppendsPrefix (text self.old) bytes.now (text self.new) }
        ensures err { IsTrue tells_text → IsErrOf result WriteRefusal.Memory
            → text self.new ≡ text self.old }

        // The counts.
        ensures puts { puts self.new ≡ one_more (puts self.old) }
        ensures answered { answered self.new ≡ answers_after (answered self.old) result }
        ensures later { faults self.old ≤ faults self.new }
        ensures counted { faults self.new < 2 ^ 64 };
}
