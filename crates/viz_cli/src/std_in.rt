//! The input from a real terminal, file or pipe: a trusted edge, which doesn't tell its bytes.

ghost use Rattle.std.specs.Prelude.{◌≡◌, ◌≤◌, [], false, IfOk};

use std::io::{ErrorKind, Read};
use viz_base::Failed;
use viz_source::{PIECE, Source};

/// What stands in front of each line that is waited for, where there is a prompt.
const PROMPT: &str = "> ";

/// The standard input of the program. Its count of faults rises at each failure. Where it has a
/// prompt, that is shown on standard error in front of each pull; a prompt that can't be written is
/// passed over.
#[derive(Drop)]
pub struct StdIn<'a, R: Input + Eprint> {
    rt: &'a R,
    has_prompt: bool,
    faults: u64,
}

// Reads once, and again where it was interrupted.
fn read_some<R: Input>(rt: &R, piece: &mut [u8; PIECE]) -> Result<u32, Failed>
    ensures within { IfOk result (λ n. n ≤ PIECE) }
{
    for _ in 0..u64::MAX {
        match rt.reader().read(piece) {
            Ok(n) => return Ok(n as u32),
            Err(e) if e.kind() == ErrorKind::Interrupted => {}
            Err(_) => return Err(Failed),
        }
    }
    Err(Failed)
}

impl<'a, R: Input + Eprint> StdIn<'a, R> {
    /// The input of this program.
    pub fn new(rt: &'a R, has_prompt: bool) -> StdIn<'a, R>
        ensures faults { ⟦<StdIn<'a, R> as Source>⟧.faults result ≡ 0 }
    {
        StdIn {
            rt,
            has_prompt,
            faults: 0,
        }
    }
}

impl<'a, R: Input + Eprint> Source for StdIn<'a, R> {
    ghost tells_bytes = { false };

    ghost left = { λ _. [] };

    ghost faults = { λ source. source.faults };

    fn pull(&mut self, piece: &mut [u8; PIECE]) -> Result<u32, Failed> {
        let faults = self.faults;
        if self.has_prompt {
            let _ = eprint!(self.rt; "{PROMPT}");
        }
        let answer = read_some(self.rt, piece);
        if answer.is_err() {
            self.faults = faults.saturating_add(1);
        }
        answer
    }
}
