//! The output to a real terminal, file or pipe: a trusted edge, which doesn't tell its text.

ghost use Rattle.std.specs.Prelude.{◌≡◌, ◌<◌, ◌≤◌, ◌^◌, [], false};
ghost use Rattle.viz_base.specs.Faults.{write_faults, answers_after};

use crate::out::Out;
use crate::refusal::WriteRefusal;
use std::alloc::Global;
use std::io::ErrorKind;

/// The standard output of the program. Its count of faults rises at each failure.
#[derive(Drop)]
pub struct StdOut<'a, R: Print> {
    rt: &'a R,
    puts: u64,
    answered: u64,
    faults: u64,
}

// Prints all the bytes, in as many real writes as it takes.
fn print_all<R: Print>(rt: &R, bytes: &[u8]) -> Result<(), WriteRefusal> {
    let mut rest = bytes;
    for _ in 0..u64::MAX {
        if rest.is_empty() {
            return Ok(());
        }
        match rt.write_some(rest) {
            Ok(0) => return Err(WriteRefusal::Failed),
            Ok(n) => rest = &rest[n..],
            Err(e) if e.kind() == ErrorKind::Interrupted => {}
            Err(_) => return Err(WriteRefusal::Failed),
        }
    }
    Err(WriteRefusal::Failed)
}

// The count of answers after this one.
fn answers_after(count: u64, answer: &Result<(), WriteRefusal>) -> u64
    ensures value { result ≡ answers_after count answer.now }
    ensures counted { result < 2 ^ 64 }
{
    match answer {
        Ok(()) | Err(WriteRefusal::Failed) => count.saturating_add(1),
        Err(WriteRefusal::Memory) => count,
    }
}

// The count of faults after this answer.
fn faults_after(count: u64, answer: &Result<(), WriteRefusal>) -> u64
    ensures value { result ≡ write_faults count answer.now }
    ensures later { count ≤ result }
    ensures counted { result < 2 ^ 64 }
{
    match answer {
        Ok(()) | Err(WriteRefusal::Memory) => count,
        Err(WriteRefusal::Failed) => count.saturating_add(1),
    }
}

impl<'a, R: Print> StdOut<'a, R> {
    /// The output of this program.
    pub fn new(rt: &'a R) -> StdOut<'a, R>
        ensures puts { ⟦<StdOut<'a, R> as Out>⟧.puts result ≡ 0 }
        ensures faults { ⟦<StdOut<'a, R> as Out>⟧.faults result ≡ 0 }
    {
        StdOut {
            rt,
            puts: 0,
            answered: 0,
            faults: 0,
        }
    }
}

impl<'a, R: Print> Out for StdOut<'a, R> {
    ghost tells_text = { false };

    ghost text = { λ _. [] };

    ghost puts = { λ out. out.puts };

    ghost answered = { λ out. out.answered };

    ghost faults = { λ out. out.faults };

    fn put(&mut self, _alloc: Global, bytes: &[u8]) -> Result<(), WriteRefusal> {
        let puts = self.puts;
        let answered = self.answered;
        let faults = self.faults;
        self.puts = puts.saturating_add(1);
        let answer = print_all(self.rt, bytes);
        self.answered = answers_after(answered, &answer);
        self.faults = faults_after(faults, &answer);
        answer
    }
}
