//! The text that a run puts, and its status (docs/FORMATS.md, "Report").

ghost use Rattle.std.specs.Prelude.{◌≡◌, ◌++◌, IfOk, OnOk};
ghost use Rattle.viz_make.specs.Told.{audit_text, made_lines, made_text, telling_of};
ghost use Rattle.viz_report.specs.Report.{and_number, counts_text};

use crate::came::Came;
use crate::made::Made;
use std::alloc::{AllocError, Global};
use viz_base::Bytes;
use viz_lex::put_whole;
use viz_told::{Status, Tells, Text, memory_line, no_port_line, write_fault_line};

/// Adds a word and a number behind it.
fn put_number(text: &mut Vec<u8>, word: &[u8], n: u64) -> Result<(), AllocError>
    ensures { OnOk result (text.new.items ≡ text.old.items ++ and_number word.now n) }
{
    text.extend_from_slice(word)?;
    put_whole(text, i128::from(n))?;
    Ok(())
}

/// Adds the numbers of a made volume.
fn put_made(text: &mut Vec<u8>, made: &Made) -> Result<(), AllocError>
    ensures { OnOk result (text.new.items ≡ text.old.items ++ made_text made.now) }
{
    put_number(text, b"made points ", made.points)?;
    put_number(text, b" sum ", made.sum)?;
    Ok(())
}

/// Adds the counts of its sides.
fn put_counts(text: &mut Vec<u8>, made: &Made) -> Result<(), AllocError>
    ensures { OnOk result (text.new.items
        ≡ text.old.items ++ counts_text made.now.sides made.now.two made.now.lone made.now.border) }
{
    put_number(text, b" sides ", made.sides)?;
    put_number(text, b" two ", made.two)?;
    put_number(text, b" open ", made.lone)?;
    put_number(text, b" border ", made.border)?;
    Ok(())
}

/// Adds the numbers of its audit.
fn put_audit(text: &mut Vec<u8>, made: &Made) -> Result<(), AllocError>
    ensures { OnOk result (text.new.items ≡ text.old.items ++ audit_text made.now) }
{
    put_number(text, b"audit cells ", made.cells)?;
    put_counts(text, made)?;
    Ok(())
}

/// The lines of a made volume.
fn made_lines(alloc: Global, made: &Made) -> Result<Bytes, AllocError>
    ensures { IfOk result (λ text. text ≡ made_lines made.now) }
{
    let mut text = Vec::new(alloc);
    put_made(&mut text, made)?;
    text.push(b'\n')?;
    put_audit(&mut text, made)?;
    text.push(b'\n')?;
    Ok(Bytes::new(text))
}

impl Tells for Came {
    ghost telling = { telling_of };

    fn status(&self) -> Status {
        match self {
            Came::NoPort => Status::Script,
            Came::Written(_) => Status::Done,
            Came::Unwritten => Status::Fault,
            Came::Memory => Status::Memory,
        }
    }

    fn text(&self, alloc: Global) -> Result<Text, AllocError> {
        match self {
            Came::NoPort => Ok(Text::Fixed(no_port_line())),
            Came::Written(made) => Ok(Text::Made(made_lines(alloc, made)?)),
            Came::Unwritten => Ok(Text::Fixed(write_fault_line())),
            Came::Memory => Ok(Text::Fixed(memory_line())),
        }
    }
}
