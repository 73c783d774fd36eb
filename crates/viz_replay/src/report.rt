//! The line that a run puts, and its status (docs/FORMATS.md, "Report").

ghost use Rattle.std.specs.Prelude.{◌≡◌, IfOk, IsErr, IsTrue};
ghost use Rattle.viz_replay.specs.Told.{file_line, refused_line, update_line, update_status};
ghost use Rattle.viz_replay.specs.Told.{is_made_line, telling_of};
ghost use Rattle.viz_told.specs.Told.{bytes_of};

use crate::came::Came;
use std::alloc::{AllocError, Global};
use viz_base::Bytes;
use viz_lex::put_whole;
use viz_report::{Line, Reason, put_reason};
use viz_told::{Status, Tells, Text, memory_line, no_port_line, read_fault_line, write_fault_line};
use viz_words::refused_line as refused_journal;

/// The line of a written file.
#[tactic(auto, unfolding(crate::specs::Told::file_line))]
fn file_line(alloc: Global, at: u32, cells: u64, points: u64) -> Result<Bytes, AllocError>
    ensures { IfOk result (λ text. text ≡ file_line at cells points) }
{
    let mut text = Vec::from_slice(alloc, b"file at ")?;
    put_whole(&mut text, i128::from(at))?;
    text.extend_from_slice(b" cells ")?;
    put_whole(&mut text, i128::from(cells))?;
    text.extend_from_slice(b" points ")?;
    put_whole(&mut text, i128::from(points))?;
    text.push(b'\n')?;
    Ok(Bytes::new(text))
}

/// The line of a sink without a file.
#[tactic(auto, unfolding(crate::specs::Told::refused_line))]
fn refused_line(alloc: Global, reason: &Reason, at: u32) -> Result<Bytes, AllocError>
    ensures { IfOk result (λ text. text ≡ refused_line reason.now at) }
{
    let mut text = Vec::from_slice(alloc, b"refused ")?;
    put_reason(&mut text, reason)?;
    text.extend_from_slice(b" at ")?;
    put_whole(&mut text, i128::from(at))?;
    text.push(b'\n')?;
    Ok(Bytes::new(text))
}

/// The status of an update.
fn update_status(line: &Line) -> Status
    ensures { result ≡ update_status line.now }
{
    match line {
        Line::File { .. } => Status::Done,
        Line::Refused { .. } => Status::Refused,
        Line::WriteFault => Status::Fault,
        Line::Edit { .. } | Line::Audit { .. } | Line::ReadFault | Line::Memory => Status::Memory,
    }
}

/// The line of an update.
fn update_text(alloc: Global, line: &Line) -> Result<Text, AllocError>
    ensures value { IfOk result (λ text. bytes_of text ≡ update_line line.now) }
    ensures made { IsErr result → IsTrue (is_made_line line.now) }
{
    match line {
        Line::File {
            at,
            cells,
            points,
            ..
        } => Ok(Text::Made(file_line(alloc, *at, *cells, *points)?)),
        Line::Refused { reason, at } => Ok(Text::Made(refused_line(alloc, reason, *at)?)),
        Line::WriteFault => Ok(Text::Fixed(write_fault_line())),
        Line::Edit { .. } | Line::Audit { .. } | Line::ReadFault | Line::Memory => {
            Ok(Text::Fixed(memory_line()))
        }
    }
}

impl Tells for Came {
    ghost telling = { telling_of };

    fn status(&self) -> Status {
        match self {
            Came::NoPort | Came::Refused { .. } => Status::Script,
            Came::Unread => Status::Fault,
            Came::Updated(line) => update_status(line),
            Came::Memory => Status::Memory,
        }
    }

    fn text(&self, alloc: Global) -> Result<Text, AllocError> {
        match self {
            Came::NoPort => Ok(Text::Fixed(no_port_line())),
            Came::Unread => Ok(Text::Fixed(read_fault_line())),
            Came::Refused { line, refusal } => {
                let text = refused_journal(alloc, *line, refusal)?;
                Ok(Text::Made(Bytes::new(text)))
            }
            Came::Updated(line) => update_text(alloc, line),
            Came::Memory => Ok(Text::Fixed(memory_line())),
        }
    }
}
