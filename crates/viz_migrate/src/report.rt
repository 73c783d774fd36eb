//! The line that a run puts, and its status (docs/FORMATS.md, "Report").

ghost use Rattle.std.specs.Prelude.{◌≡◌, IfOk};
ghost use Rattle.viz_migrate.specs.Told.{migrated_line, telling_of};

use crate::came::Came;
use std::alloc::{AllocError, Global};
use viz_base::Bytes;
use viz_lex::put_whole;
use viz_told::{Status, Tells, Text, memory_line, no_port_line, read_fault_line, write_fault_line};
use viz_words::refused_line;

/// The line of a journal that was written, of so many entries.
#[tactic(auto, unfolding(crate::specs::Told::migrated_line))]
fn migrated_line(alloc: Global, count: u64) -> Result<Bytes, AllocError>
    ensures { IfOk result (λ text. text ≡ migrated_line count) }
{
    let mut text = Vec::from_slice(alloc, b"migrated ")?;
    put_whole(&mut text, i128::from(count))?;
    text.push(b'\n')?;
    Ok(Bytes::new(text))
}

impl Tells for Came {
    ghost telling = { telling_of };

    fn status(&self) -> Status {
        match self {
            Came::NoPort | Came::Refused { .. } => Status::Script,
            Came::Unread | Came::Unwritten => Status::Fault,
            Came::Migrated(_) => Status::Done,
            Came::Memory => Status::Memory,
        }
    }

    fn text(&self, alloc: Global) -> Result<Text, AllocError> {
        match self {
            Came::NoPort => Ok(Text::Fixed(no_port_line())),
            Came::Unread => Ok(Text::Fixed(read_fault_line())),
            Came::Refused { line, refusal } => {
                let text = refused_line(alloc, *line, refusal)?;
                Ok(Text::Made(Bytes::new(text)))
            }
            Came::Migrated(count) => Ok(Text::Made(migrated_line(alloc, *count)?)),
            Came::Unwritten => Ok(Text::Fixed(write_fault_line())),
            Came::Memory => Ok(Text::Fixed(memory_line())),
        }
    }
}
