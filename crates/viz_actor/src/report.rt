//! The text that a run of a script puts, and its status (docs/FORMATS.md, "Report").

ghost use Rattle.std.specs.Prelude.{◌≡◌, IfOk};
ghost use Rattle.viz_actor.specs.Told.{is_memory, is_fault, is_refused, has_memory, has_fault};
ghost use Rattle.viz_actor.specs.Told.{has_refused, served_status, telling_of};

use crate::ran::Ran;
use std::alloc::{AllocError, Global};
use viz_base::Bytes;
use viz_report::{Line, Row, report_text};
use viz_told::{Status, Tells, Text, memory_line, read_fault_line};
use viz_words::refused_line;

fn is_memory(line: &Line) -> bool
    ensures { result ≡ is_memory line.now }
{
    matches!(line, Line::Memory)
}

fn is_fault(line: &Line) -> bool
    ensures { result ≡ is_fault line.now }
{
    matches!(line, Line::ReadFault | Line::WriteFault)
}

fn is_refused(line: &Line) -> bool
    ensures { result ≡ is_refused line.now }
{
    matches!(line, Line::Refused { .. })
}

fn has_memory(rows: &[Row]) -> bool
    ensures { result ≡ has_memory rows.now }
{
    rows.iter().any(|row| is_memory(&row.line))
}

fn has_fault(rows: &[Row]) -> bool
    ensures { result ≡ has_fault rows.now }
{
    rows.iter().any(|row| is_fault(&row.line))
}

fn has_refused(rows: &[Row]) -> bool
    ensures { result ≡ has_refused rows.now }
{
    rows.iter().any(|row| is_refused(&row.line))
}

fn served_status(rows: &[Row], kept: bool) -> Status
    ensures { result ≡ served_status rows.now kept }
{
    if has_memory(rows) {
        Status::Memory
    } else if has_fault(rows) || !kept {
        Status::Fault
    } else if has_refused(rows) {
        Status::Refused
    } else {
        Status::Done
    }
}

impl Tells for Ran {
    ghost telling = { telling_of };

    fn status(&self) -> Status {
        match self {
            Ran::Unread => Status::Fault,
            Ran::Refused { .. } => Status::Script,
            Ran::Served { rows, kept } => served_status(rows.list(), *kept),
            Ran::Memory => Status::Memory,
        }
    }

    fn text(&self, alloc: Global) -> Result<Text, AllocError> {
        match self {
            Ran::Unread => Ok(Text::Fixed(read_fault_line())),
            Ran::Refused { line, refusal } => {
                let text = refused_line(alloc, *line, refusal)?;
                Ok(Text::Made(Bytes::new(text)))
            }
            Ran::Served { rows, .. } => Ok(Text::Made(report_text(alloc, rows.list())?)),
            Ran::Memory => Ok(Text::Fixed(memory_line())),
        }
    }
}
