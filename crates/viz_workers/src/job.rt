//! What is done, as tasks by their numbers.

ghost use Rattle.std.specs.Prelude.{ℕ};

/// Tasks by their numbers, which workers do beside each other: they share the job by reference.
///
/// An item that can't be made is an item too, as its cause; a level goes on behind it.
pub trait Job: Sync {
    /// What a task makes.
    type Item: Send + Drop;

    /// Which tasks may be asked for.
    ghost may: { Self → ℕ → Type 0 };

    /// Which items a task has.
    ghost has: { Self → ℕ → Self.Item → Type 0 };

    /// Does a task.
    fn work(&self, task: u64) -> Self::Item
        requires asked { may self.now task }
        ensures item { has self.now task result };
}
