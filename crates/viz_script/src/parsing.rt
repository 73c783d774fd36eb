//! The steps of a script.

ghost use Rattle.std.specs.Prelude.{◌≡◌, ◌≤◌, [], IfOk, map, length};
ghost use Rattle.viz_words.specs.Lines.{lines_of};
ghost use Rattle.viz_script.specs.Script.{stepped, lines_behind, told, script_of};
ghost use Rattle.viz_script.specs.Script.{NamesFiles, Reads};
ghost use Rattle.viz_script.specs.Steps.Parser.{ReadsSteps};

use crate::line::line_in;
use crate::order::{Script, Step};
use crate::parser::Parser;
use std::alloc::Global;
use viz_words::{ScriptRefusal, ScriptStop, next_line};

/// The greatest number of bytes of a script.
const BYTES: usize = 1_048_576;

/// The greatest number of lines of a script.
const LINES: usize = 65_536;

/// The number of lines.
fn line_count(text: &[u8]) -> usize
    ensures { result ≡ length (lines_of text.now) }
{
    let mut n = 0;
    let mut rest = text;
    while let Some((_, behind)) = next_line(rest) {
        n += 1;
        rest = behind;
    }
    n
}

/// The steps of all lines.
fn steps_of(alloc: Global, text: &[u8], actors: u32, lines: usize) -> Result<Vec<Step>, ScriptStop>
    requires count { lines ≡ length (lines_of text.now) }
    requires few { lines ≤ LINES }
    ensures { ReadsSteps (λ steps. map stepped steps.items) result
        (told (lines_behind actors [] (lines_of text.now))) }
{
    let mut parser = Parser::new(alloc, lines)?;
    let mut line = 0;
    let mut rest = text;
    while let Some((front, behind)) = next_line(rest) {
        line += 1;
        parser.take(line, line_in(front, actors))?;
        rest = behind;
    }
    if parser.has_open() {
        return Err(ScriptStop::Refused {
            line,
            refusal: ScriptRefusal::Batch,
        });
    }
    let steps = parser.into_steps()?;
    Ok(steps)
}

/// The script of a text, with the commands of so many actors.
///
/// # Errors
///
/// The refusals of docs/FORMATS-OF-SCRIPTS.md, "Scripts": TooLong with line 0, before all others;
/// else the first refusal of the first line that has one. Want of memory may come in place of a
/// result.
#[tactic(auto, using(crate::proofs::NameLemmas::read_names))]
pub fn parse(alloc: Global, bytes: &[u8], actors: u32) -> Result<Script, ScriptStop>
    ensures reads { Reads result (script_of actors bytes.now) }
    ensures names { IfOk result NamesFiles }
{
    if bytes.len() > BYTES {
        return Err(too_long());
    }
    let lines = line_count(bytes);
    if lines > LINES {
        return Err(too_long());
    }
    let steps = steps_of(alloc, bytes, actors, lines)?;
    Ok(Script { steps })
}

fn too_long() -> ScriptStop
    ensures { result ≡ ScriptStop.Refused 0 ScriptRefusal.TooLong }
{
    ScriptStop::Refused {
        line: 0,
        refusal: ScriptRefusal::TooLong,
    }
}
