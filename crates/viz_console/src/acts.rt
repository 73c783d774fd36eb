//! What is to be done for a line.

ghost use Rattle.std.specs.Prelude.{◌≡◌, ◌+◌, ◌<◌, ◌^◌, false, option_map, IfOk};
ghost use Rattle.viz_script.specs.Orders.{seen};
ghost use Rattle.viz_console.specs.Lines.{start, stood, served, count_of};
ghost use Rattle.viz_console.specs.Steps.Heard.{heard_result, due_in, quits_by, Acts};

use crate::line::Said;
use crate::open_batch::OpenBatch;
use std::alloc::{AllocError, Global};
use std::marker::Model;
use viz_script::{Order, ScriptRefusal};

/// What is to be done for a line.
#[derive(Debug, Drop)]
pub enum Act {
    /// Nothing.
    Nothing,
    /// The session is quit.
    Quit,
    /// The line of this number is answered as bad.
    Bad { line: u64, refusal: ScriptRefusal },
    /// The command of this number is served and answered.
    Serve { number: u64, order: Order },
}

/// Where a session stands: how many lines were read, how many commands were well formed, and the
/// open batch.
#[derive(Debug, Drop)]
pub struct Place {
    lines: u64,
    commands: u64,
    batch: OpenBatch,
}

impl Model for Place {
    ghost use Rattle.std.specs.Prelude.{◌≤◌};
    ghost use Rattle.viz_console.specs.Lines.{Place as Stand};

    ghost Value = { Stand };

    ghost view = { λ p. record { lines = p.lines; commands = p.commands; batch = p.batch } };

    ghost invariant = { λ p. p.commands ≤ p.lines };
}

impl Place {
    /// Where a session begins.
    pub fn start() -> Place
        ensures { result ≡ start }
    {
        Place {
            lines: 0,
            commands: 0,
            batch: OpenBatch::none(),
        }
    }

    // The act of a command, if there is one, which is counted.
    fn count(&mut self, order: Option<Order>) -> Act
        requires room { self.old.commands < self.old.lines }
        ensures due { due_in result ≡ served (self.old.commands + 1) (option_map seen order) }
        ensures goes_on { quits_by result ≡ false }
        ensures after { self.new ≡ record self.old {
          commands = self.old.commands + count_of (option_map seen order);
        } }
    {
        match order {
            None => Act::Nothing,
            Some(order) => {
                self.commands += 1;
                let number = self.commands;
                Act::Serve { number, order }
            }
        }
    }

    /// Takes what the next line said.
    pub fn take(
        &mut self,
        alloc: Global,
        said: Result<Said, ScriptRefusal>,
    ) -> Result<Act, AllocError>
        requires lines { self.old.lines + 1 < 2 ^ 64 }
        ensures acts { IfOk result (λ act. Acts self.old
            (stood self.old.batch (heard_result said)) act self.new) }
    {
        self.lines += 1;
        let line = self.lines;
        let said = match said {
            Ok(said) => said,
            Err(refusal) => return Ok(Act::Bad { line, refusal }),
        };
        if self.batch.refuses(&said) {
            let refusal = ScriptRefusal::Batch;
            return Ok(Act::Bad { line, refusal });
        }
        if let Said::Quit = said {
            return Ok(Act::Quit);
        }
        let order = self.batch.take(alloc, said)?;
        Ok(self.count(order))
    }
}
