//! Named files that can be read and replaced.

ghost use Rattle.std.specs.Prelude.{◌≡◌, ℕ, ◌+◌, ◌^◌, ◌<◌, ◌≤◌, ◌⊎◌, ◌++◌, Bool, List, Option};
ghost use Rattle.std.specs.Prelude.{None, Some, IfOk, OnOk, IsTrue, IsErrOf, length};
ghost use Rattle.viz_base.specs.Faults.{Rose};
ghost use Rattle.viz_base.specs.Files.{Files, SameFiles, SameOthers, IsLonger, KeepsPrefix};
ghost use Rattle.viz_base.specs.Calls.{read_calls, write_calls};
ghost use Rattle.viz_base.specs.declared.call.Call.{Call};

use crate::bytes::Bytes;
use crate::long_text::LongText;
use crate::refusal::{ReadRefusal, WriteRefusal};
use std::alloc::Global;

/// A port to named files. What it tells, its files and its calls, is said of the type: an adapter
/// to a real folder tells neither.
pub trait Port {
    /// Whether the files are told.
    ghost tells_files: { Bool };

    /// Whether the calls are told.
    ghost tells_calls: { Bool };

    /// The bytes of each file, by its name.
    ghost files: { Self → Files };

    /// The calls so far, each with its answer, the oldest first.
    ghost calls: { Self → List Call };

    /// The greatest number of bytes of a file that a read gives.
    ghost limit: { Self → ℕ };

    /// How often a call failed, up to the greatest u64.
    ghost faults: { Self → ℕ };

    /// The bytes of the file of this name.
    fn read(&mut self, alloc: Global, name: &str) -> Result<Bytes, ReadRefusal>
        ensures bytes { IsTrue tells_files → IfOk result (λ b. files self.old name.now ≡ Some b) }
        ensures within { IfOk result (λ b. length b ≤ limit self.old) }

        // The refusals. A missing file is a failure, unless memory ran out before.
        ensures missing { IsTrue tells_files → files self.old name.now ≡ None
            → IsErrOf result ReadRefusal.Failed ⊎ IsErrOf result ReadRefusal.Memory }
        ensures failed { IsErrOf result ReadRefusal.Failed
            → Rose (faults self.old) (faults self.new) }
        ensures too_long { (taken : ℕ) → IsErrOf result (ReadRefusal.TooLong taken)
            → taken ≡ limit self.old + 1 }
        ensures longer { IsTrue tells_files → (taken : ℕ)
            → IsErrOf result (ReadRefusal.TooLong taken)
            → IsLonger (files self.old) name.now (limit self.old) }

        // What stays, and the list of calls.
        ensures kept { IsTrue tells_files → SameFiles (files self.old) (files self.new) }
        ensures same_limit { limit self.new ≡ limit self.old }
        ensures told { IsTrue tells_calls
            → calls self.new ≡ calls self.old ++ read_calls name.now result }
        ensures later { faults self.old ≤ faults self.new }
        ensures counted { faults self.new < 2 ^ 64 };

    /// Replaces the file of this name by the text: its parts one after
    /// the other, in one call.
    fn write(&mut self, alloc: Global, name: &str, text: &LongText) -> Result<(), WriteRefusal>
        ensures written { IsTrue tells_files
            → OnOk result (files self.new name.now ≡ Some text.now) }

        // The refusals.
        ensures failed { IsErrOf result WriteRefusal.Failed
            → Rose (faults self.old) (faults self.new) }
        ensures prefix { IsTrue tells_files → IsErrOf result WriteRefusal.Failed
            → KeepsPrefix name.now text.now (files self.new) }
        ensures err { IsTrue tells_files → IsErrOf result WriteRefusal.Memory
            → SameFiles (files self.old) (files self.new) }

        // What stays, and the list of calls.
        ensures kept { IsTrue tells_files → SameOthers name.now (files self.old) (files self.new) }
        ensures same_limit { limit self.new ≡ limit self.old }
        ensures told { IsTrue tells_calls
            → calls self.new ≡ calls self.old ++ write_calls name.now text.now result }
        ensures later { faults self.old ≤ faults self.new }
        ensures counted { faults self.new < 2 ^ 64 };
}
