//! A counter of executed tasks.

ghost use Rattle.std.specs.Prelude.{◌≡◌, ◌+◌, ◌<◌, ◌^◌};

use std::marker::Model;

/// How many tasks were executed, with what the caller keeps beside it; contracts see the count.
#[derive(Debug, Drop)]
pub struct Steps<L> {
    count: u64,
    ledger: L,
}

impl<L> Model for Steps<L> {
    ghost use Rattle.std.specs.Prelude.{ℕ};

    ghost Value = { ℕ };

    ghost view = { λ steps. steps.count };
}

impl<L> Steps<L> {
    /// No step so far.
    pub fn new(ledger: L) -> Steps<L>
        ensures value { result ≡ 0 }
    {
        Steps { count: 0, ledger }
    }

    /// One step more.
    pub fn tick(&mut self)
        requires room { self.old + 1 < 2 ^ 64 }
        ensures value { self.new ≡ self.old + 1 }
    {
        self.count += 1;
    }
}
