//! An output in memory, with calls that fail by a list.

ghost use Rattle.std.specs.Prelude.{◌≡◌, ◌≤◌, ◌<◌, ◌^◌, ◌⊎◌, ◌↔◌, ◌++◌, [], true, Contains, OnOk};
ghost use Rattle.std.specs.Prelude.{OnErr, IsErrOf};
ghost use Rattle.viz_base.specs.Faults.{one_more, write_faults, answers_after};

use crate::out::Out;
use crate::refusal::WriteRefusal;
use std::alloc::Global;
use std::marker::Model;

/// An output that keeps its text. The listed calls, counted from 1 over those that didn't answer
/// Memory, fail and append nothing; each raises the count by one.
#[derive(Debug, Drop)]
pub struct MemoryOut {
    text: Vec<u8>,
    failing: Vec<u64>,
    answered: u64,
    puts: u64,
    faults: u64,
}

impl Model for MemoryOut {
    ghost use Rattle.viz_base.specs.MemoryOut.{Kept};

    ghost Value = { Kept };

    ghost view = { λ o. record {
      text = o.text.items;
      failing = o.failing.items;
      answered = o.answered;
      puts = o.puts;
      faults = o.faults;
    } };
}

impl MemoryOut {
    /// An output without text, with the calls that are to fail.
    pub fn new(alloc: Global, failing: Vec<u64>) -> MemoryOut
        ensures text { ⟦<MemoryOut as Out>⟧.text result ≡ [] }
        ensures faults { ⟦<MemoryOut as Out>⟧.faults result ≡ 0 }
        ensures failing { result.failing ≡ failing.items }
        ensures answered { ⟦<MemoryOut as Out>⟧.answered result ≡ 0 }
        ensures puts { ⟦<MemoryOut as Out>⟧.puts result ≡ 0 }
    {
        MemoryOut {
            text: Vec::new(alloc),
            failing,
            answered: 0,
            puts: 0,
            faults: 0,
        }
    }

    /// The text so far.
    pub fn text(&self) -> &[u8]
        ensures value { result.now ≡ ⟦<MemoryOut as Out>⟧.text self.now }
    {
        &self.text
    }
}

impl Out for MemoryOut {
    ghost tells_text = { true };

    ghost text = { λ out. out.text };

    ghost puts = { λ out. out.puts };

    ghost answered = { λ out. out.answered };

    ghost faults = { λ out. out.faults };

    fn put(&mut self, _alloc: Global, bytes: &[u8]) -> Result<(), WriteRefusal>
        ensures appended { OnOk result (self.new.text ≡ self.old.text ++ bytes.now) }
        ensures fails { IsErrOf result WriteRefusal.Failed
            ↔ Contains self.old.failing (one_more self.old.answered) }

        // What stays, and the counts.
        ensures err { OnErr result (self.new.text ≡ self.old.text) }
        ensures after { IsErrOf result WriteRefusal.Memory ⊎ (self.new ≡ record self.old {
          text = self.new.text;
          answered = one_more self.old.answered;
          puts = one_more self.old.puts;
          faults = write_faults self.old.faults result;
        }) }
        ensures puts { self.new.puts ≡ one_more self.old.puts }
        ensures answered { self.new.answered ≡ answers_after self.old.answered result }
        ensures later { self.old.faults ≤ self.new.faults }
        ensures counted { self.new.faults < 2 ^ 64 }
    {
        let faults = self.faults;
        let number = self.answered.saturating_add(1);
        self.puts = self.puts.saturating_add(1);
        if self.failing.contains(&number) {
            self.answered = number;
            self.faults = faults.saturating_add(1);
            return Err(WriteRefusal::Failed);
        }
        if self.text.extend_from_slice(bytes).is_err() {
            return Err(WriteRefusal::Memory);
        }
        self.answered = number;
        Ok(())
    }
}
