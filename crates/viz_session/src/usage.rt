//! How it is told that words are no command (docs/FORMATS.md, "Words of a command").

use std::alloc::{AllocError, Global};
use viz_told::{Status, Tells, Text, usage_line};

/// The words are no command.
#[derive(Clone, Copy, Debug)]
pub struct NoCommand;

impl Tells for NoCommand {
    ghost use Rattle.viz_session.specs.Runs.{usage_told};

    ghost telling = { λ _. usage_told };

    fn status(&self) -> Status {
        Status::Usage
    }

    fn text(&self, _alloc: Global) -> Result<Text, AllocError> {
        Ok(Text::Fixed(usage_line()))
    }
}
