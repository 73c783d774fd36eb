//! The words of a refused command.

ghost use Rattle.std.specs.Prelude.{◌≡◌, ◌++◌, OnOk, codes};
ghost use Rattle.std.specs.Fmt.{decimal, signed_decimal};
ghost use Rattle.viz_report.specs.Words.{refusal_text, numbered, kind_text, file_text, cause_text};
ghost use Rattle.viz_report.specs.Words.{reason_text};
ghost use Rattle.viz_report.specs.Steps.Plain.{IsPlainKind, IsPlainCause};

use crate::line::Reason;
use std::alloc::AllocError;
use viz_base::Word;
use viz_lex::{FileFault, FileKind, put_whole};
use viz_network::{Cause, Refusal};

fn refusal_word(refusal: Refusal) -> &'static str
    ensures { result.now ≡ refusal_text refusal }
{
    match refusal {
        Refusal::Exists => "Exists",
        Refusal::Unknown => "Unknown",
        Refusal::NoPort => "NoPort",
        Refusal::NoParam => "NoParam",
        Refusal::BadValue => "BadValue",
        Refusal::WouldCycle => "WouldCycle",
        Refusal::InUse => "InUse",
        Refusal::TooManyNodes => "TooManyNodes",
    }
}

// Puts a word with a number in brackets.
fn put_numbered(text: &mut Vec<u8>, word: &[u8], number: &i128) -> Result<(), AllocError>
    ensures { OnOk result (text.new.items
        ≡ text.old.items ++ numbered word.now (signed_decimal number.now)) }
{
    text.extend_from_slice(word)?;
    text.push(b'(')?;
    put_whole(text, *number)?;
    text.push(b')')?;
    Ok(())
}

// The word of a kind, but for the number of one that has a number.
fn kind_word(kind: &FileKind) -> &'static str
    ensures { IsPlainKind kind.now → result.now ≡ kind_text kind.now }
{
    match kind {
        FileKind::Magic => "Magic",
        FileKind::Title => "Title",
        FileKind::Form => "Form",
        FileKind::Keyword => "Keyword",
        FileKind::Number => "Number",
        FileKind::ValueRange => "ValueRange",
        FileKind::Count => "Count",
        FileKind::Index => "Index",
        FileKind::CellType(_) => "CellType",
        FileKind::FloatArray => "FloatArray",
        FileKind::NoArray => "NoArray",
        FileKind::Spacing => "Spacing",
        FileKind::HeaderNumber => "HeaderNumber",
        FileKind::TooMany => "TooMany",
        FileKind::Truncated => "Truncated",
        FileKind::Unsupported => "Unsupported",
    }
}

fn put_kind(text: &mut Vec<u8>, kind: &FileKind) -> Result<(), AllocError>
    ensures { OnOk result (text.new.items ≡ text.old.items ++ kind_text kind.now) }
{
    if let FileKind::CellType(number) = kind {
        return put_numbered(text, b"CellType", number);
    }
    text.extend_from_slice(kind_word(kind).as_bytes())?;
    Ok(())
}

fn put_file_fault(text: &mut Vec<u8>, fault: &FileFault) -> Result<(), AllocError>
    ensures { OnOk result (text.new.items ≡ text.old.items ++ file_text fault.now) }
{
    text.extend_from_slice(b"BadFile(")?;
    put_kind(text, &fault.kind)?;
    text.push(b',')?;
    put_whole(text, i128::from(fault.place))?;
    text.push(b')')?;
    Ok(())
}

// The word of a cause without a number.
fn cause_word(cause: &Cause) -> &'static str
    ensures { IsPlainCause cause.now → result.now ≡ cause_text cause.now }
{
    match cause {
        Cause::Unconnected(_) => "Unconnected",
        Cause::WrongInput(_) => "WrongInput",
        Cause::NoFile => "NoFile",
        Cause::BadFile(_) => "BadFile",
        Cause::EmptyExtent => "EmptyExtent",
        Cause::GridsDiffer => "GridsDiffer",
        Cause::TooWide => "TooWide",
        Cause::TooMany => "TooMany",
    }
}

// Puts a word with a port in brackets.
fn put_port(text: &mut Vec<u8>, word: &[u8], port: u8) -> Result<(), AllocError>
    ensures { OnOk result (text.new.items
        ≡ text.old.items ++ numbered word.now (decimal port)) }
{
    text.extend_from_slice(word)?;
    text.push(b'(')?;
    put_whole(text, i128::from(port))?;
    text.push(b')')?;
    Ok(())
}

fn put_cause(text: &mut Vec<u8>, cause: &Cause) -> Result<(), AllocError>
    ensures { OnOk result (text.new.items ≡ text.old.items ++ cause_text cause.now) }
{
    match cause {
        Cause::Unconnected(port) => put_port(text, b"Unconnected", *port),
        Cause::WrongInput(port) => put_port(text, b"WrongInput", *port),
        Cause::BadFile(fault) => put_file_fault(text, fault),
        _ => text.extend_from_slice(cause_word(cause).as_bytes()),
    }
}

// Puts a fault of the node of this name.
fn put_fault(text: &mut Vec<u8>, node: &Word, cause: &Cause) -> Result<(), AllocError>
    ensures { OnOk result (text.new.items
        ≡ text.old.items ++ (codes "fault:" ++ node.now ++ codes ":" ++ cause_text cause.now)) }
{
    text.extend_from_slice(b"fault:")?;
    text.extend_from_slice(node.bytes())?;
    text.push(b':')?;
    put_cause(text, cause)?;
    Ok(())
}

// Puts a place in a batch and the word of the refusal there.
fn put_refusal_at(text: &mut Vec<u8>, index: u32, refusal: Refusal) -> Result<(), AllocError>
    ensures { OnOk result (text.new.items
        ≡ text.old.items ++ (decimal index ++ codes ":" ++ refusal_text refusal)) }
{
    put_whole(text, i128::from(index))?;
    text.push(b':')?;
    text.extend_from_slice(refusal_word(refusal).as_bytes())?;
    Ok(())
}

/// Puts the words of a reason.
pub fn put_reason(text: &mut Vec<u8>, reason: &Reason) -> Result<(), AllocError>
    ensures value { OnOk result (text.new.items ≡ text.old.items ++ reason_text reason.now) }
{
    match reason {
        Reason::Edit(refusal) => text.extend_from_slice(refusal_word(*refusal).as_bytes()),
        Reason::Batch { index, refusal } => put_refusal_at(text, *index, *refusal),
        Reason::Full => text.extend_from_slice(b"Full"),
        Reason::TooLong => text.extend_from_slice(b"TooLong"),
        Reason::Unknown => text.extend_from_slice(b"Unknown"),
        Reason::Fault { fault, node } => put_fault(text, node, &fault.cause),
    }
}
