//! The text of rows.

ghost use Rattle.std.specs.Prelude.{◌≡◌, ◌++◌, IfOk, OnOk};
ghost use Rattle.viz_report.specs.Report.{and_number, heading, at_text, counts_text, numbers_text};
ghost use Rattle.viz_report.specs.Report.{behind, word_of, row_text, rows_text};

use crate::line::{Line, Row};
use crate::words::put_reason;
use std::alloc::{AllocError, Global};
use viz_base::Bytes;
use viz_lex::put_whole;

/// Puts a word and a number behind it.
pub fn put_number(text: &mut Vec<u8>, word: &[u8], n: u64) -> Result<(), AllocError>
    ensures value { OnOk result (text.new.items ≡ text.old.items ++ and_number word.now n) }
{
    text.extend_from_slice(word)?;
    put_whole(text, i128::from(n))?;
    Ok(())
}

fn put_heading(text: &mut Vec<u8>, word: &[u8], actor: u32, count: u64) -> Result<(), AllocError>
    ensures { OnOk result (text.new.items ≡ text.old.items ++ heading word.now actor count) }
{
    text.extend_from_slice(word)?;
    put_number(text, b" ", u64::from(actor))?;
    put_number(text, b" ", count)?;
    Ok(())
}

fn put_at(text: &mut Vec<u8>, at: u32) -> Result<(), AllocError>
    ensures { OnOk result (text.new.items ≡ text.old.items ++ at_text at) }
{
    put_number(text, b" at ", u64::from(at))
}

fn put_numbers(text: &mut Vec<u8>, cells: u64, points: u64, ran: u64) -> Result<(), AllocError>
    ensures { OnOk result (text.new.items ≡ text.old.items ++ numbers_text cells points ran) }
{
    put_number(text, b" cells ", cells)?;
    put_number(text, b" points ", points)?;
    put_number(text, b" ran ", ran)?;
    Ok(())
}

fn put_counts(
    text: &mut Vec<u8>,
    sides: u64,
    two: u64,
    lone: u64,
    border: u64,
) -> Result<(), AllocError>
    ensures { OnOk result (text.new.items
        ≡ text.old.items ++ counts_text sides two lone border) }
{
    put_number(text, b" sides ", sides)?;
    put_number(text, b" two ", two)?;
    put_number(text, b" open ", lone)?;
    put_number(text, b" border ", border)?;
    Ok(())
}

/// Puts what stands behind the number of a line's command: its position, cause and counts.
pub fn put_behind(text: &mut Vec<u8>, line: &Line) -> Result<(), AllocError>
    ensures value { OnOk result (text.new.items ≡ text.old.items ++ behind line.now) }
{
    match line {
        Line::Edit { at } => put_at(text, *at),
        Line::File {
            at,
            cells,
            points,
            ran,
        } => {
            put_at(text, *at)?;
            put_numbers(text, *cells, *points, *ran)
        }
        Line::Audit {
            at,
            sides,
            two,
            lone,
            border,
        } => {
            put_at(text, *at)?;
            put_counts(text, *sides, *two, *lone, *border)
        }
        Line::Refused { reason, at } => {
            text.push(b' ')?;
            put_reason(text, reason)?;
            put_at(text, *at)
        }
        Line::ReadFault => text.extend_from_slice(b" read"),
        Line::WriteFault => text.extend_from_slice(b" write"),
        Line::Memory => Ok(()),
    }
}

/// The word that a line begins with.
pub fn word_of(line: &Line) -> &'static str
    ensures value { result.now ≡ word_of line.now }
{
    match line {
        Line::Edit { .. } => "edit",
        Line::File { .. } => "file",
        Line::Audit { .. } => "audit",
        Line::Refused { .. } => "refused",
        Line::ReadFault | Line::WriteFault => "fault",
        Line::Memory => "memory",
    }
}

fn put_row(text: &mut Vec<u8>, row: &Row) -> Result<(), AllocError>
    ensures { OnOk result (text.new.items ≡ text.old.items ++ row_text row.now) }
{
    put_heading(text, word_of(&row.line).as_bytes(), row.actor, row.count)?;
    put_behind(text, &row.line)?;
    text.push(b'\n')?;
    Ok(())
}

/// The text of rows.
pub fn report_text(alloc: Global, rows: &[Row]) -> Result<Bytes, AllocError>
    ensures value { IfOk result (λ text. text ≡ rows_text rows.now) }
{
    let mut text = Vec::new(alloc);
    for row in rows {
        put_row(&mut text, row)?;
    }
    Ok(Bytes::new(text))
}
