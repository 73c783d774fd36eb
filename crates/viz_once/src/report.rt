//! The line that a run puts, and its status (docs/FORMATS.md, "Report").

ghost use Rattle.std.specs.Prelude.{◌≡◌, IfOk};
ghost use Rattle.viz_once.specs.Report.{counts_line, file_line, refused_line, strips_line};
ghost use Rattle.viz_once.specs.Report.{telling_of};

use crate::outcome::{Failed, Outcome};
use std::alloc::{AllocError, Global};
use viz_base::Bytes;
use viz_lex::put_whole;
use viz_report::{Reason, put_reason};
use viz_reshape::FileCounts;
use viz_told::{Status, Tells, Text, memory_line, no_port_line, read_fault_line, write_fault_line};

/// The line of a refusal.
#[tactic(auto, unfolding(crate::specs::Report::refused_line))]
fn refused_line(alloc: Global, why: &Reason) -> Result<Bytes, AllocError>
    ensures { IfOk result (λ text. text ≡ refused_line why.now) }
{
    let mut text = Vec::from_slice(alloc, b"refused ")?;
    put_reason(&mut text, why)?;
    text.push(b'\n')?;
    Ok(Bytes::new(text))
}

/// The line of a written file of cells.
#[tactic(auto, unfolding(crate::specs::Report::file_line))]
fn file_line(alloc: Global, cells: u64, points: u64) -> Result<Bytes, AllocError>
    ensures { IfOk result (λ text. text ≡ file_line cells points) }
{
    let mut text = Vec::from_slice(alloc, b"file cells ")?;
    put_whole(&mut text, i128::from(cells))?;
    text.extend_from_slice(b" points ")?;
    put_whole(&mut text, i128::from(points))?;
    text.push(b'\n')?;
    Ok(Bytes::new(text))
}

/// The line of a written file with strips.
#[tactic(auto, unfolding(crate::specs::Report::strips_line))]
fn strips_line(alloc: Global, strips: u64, triangles: u64, points: u64) -> Result<Bytes, AllocError>
    ensures { IfOk result (λ text. text ≡ strips_line strips triangles points) }
{
    let mut text = Vec::from_slice(alloc, b"strips ")?;
    put_whole(&mut text, i128::from(strips))?;
    text.extend_from_slice(b" triangles ")?;
    put_whole(&mut text, i128::from(triangles))?;
    text.extend_from_slice(b" points ")?;
    put_whole(&mut text, i128::from(points))?;
    text.push(b'\n')?;
    Ok(Bytes::new(text))
}

/// The line of a written file.
fn counts_line(alloc: Global, counts: &FileCounts) -> Result<Bytes, AllocError>
    ensures { IfOk result (λ text. text ≡ counts_line counts.now) }
{
    match counts {
        FileCounts::Cells { cells, points } => file_line(alloc, *cells, *points),
        FileCounts::Strips {
            strips,
            triangles,
            points,
        } => strips_line(alloc, *strips, *triangles, *points),
    }
}

impl Tells for Outcome {
    ghost telling = { telling_of };

    fn status(&self) -> Status {
        match self {
            Outcome::NoPort => Status::Script,
            Outcome::Written(_) => Status::Done,
            Outcome::Refused(_) => Status::Refused,
            Outcome::Fault(_) => Status::Fault,
            Outcome::Memory => Status::Memory,
        }
    }

    fn text(&self, alloc: Global) -> Result<Text, AllocError> {
        match self {
            Outcome::NoPort => Ok(Text::Fixed(no_port_line())),
            Outcome::Written(counts) => Ok(Text::Made(counts_line(alloc, counts)?)),
            Outcome::Refused(why) => Ok(Text::Made(refused_line(alloc, why)?)),
            Outcome::Fault(Failed::Read) => Ok(Text::Fixed(read_fault_line())),
            Outcome::Fault(Failed::Write) => Ok(Text::Fixed(write_fault_line())),
            Outcome::Memory => Ok(Text::Fixed(memory_line())),
        }
    }
}
