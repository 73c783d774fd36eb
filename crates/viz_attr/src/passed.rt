//! A FIELD among the lines of a file's geometry, which is passed over without memory.

ghost use Rattle.std.specs.Prelude.{◌≡◌, ◌*◌, ◌<◌, ◌≤◌, ◌^◌, true};
ghost use Rattle.viz_lex.specs.Reading.{Reads};
ghost use Rattle.viz_attr.specs.Types.{bytes_of};
ghost use Rattle.viz_attr.specs.PassedSteps.{line_passed_at, values_passed_at, passed_values_at};
ghost use Rattle.viz_attr.specs.PassedSteps.{passed_array_at, passed_arrays_at, passed_field_at};

use crate::counts::count_from;
use crate::types::{Stored, type_word};
use crate::values::{line_bytes, pass_tuples};
use viz_lex::{FileFault, FileKind, Lexer, is_word};

/// The values of so many tuples in BINARY.
#[tactic(auto, unfolding(crate::specs::PassedSteps::line_passed_at))]
fn pass_line(lexer: &mut Lexer<'_>, tuples: u64, width: u64) -> Result<(), FileFault>
    ensures { Reads (λ done. done) result lexer.new (line_passed_at (tuples * width) lexer.old) }
{
    line_bytes(lexer, tuples, width)?;
    Ok(())
}

/// The values of so many tuples.
#[tactic(auto, unfolding(crate::specs::PassedSteps::values_passed_at))]
fn pass_values(
    lexer: &mut Lexer<'_>,
    binary: bool,
    stored: Stored,
    tuples: u64,
    components: u64,
) -> Result<(), FileFault>
    requires { components < 2 ^ 31 }
    ensures { Reads (λ done. done) result lexer.new
        (values_passed_at binary stored tuples components lexer.old) }
{
    if binary {
        return pass_line(lexer, tuples, components * stored.bytes());
    }
    pass_tuples(lexer, tuples, components)
}

/// c t type and the values, and METADATA, which may stand behind them.
#[tactic(auto, unfolding(crate::specs::PassedSteps::passed_values_at))]
fn pass_named(lexer: &mut Lexer<'_>, binary: bool) -> Result<(), FileFault>
    ensures { Reads (λ done. done) result lexer.new (passed_values_at binary lexer.old) }
{
    let components = count_from(lexer, 1)?;
    let tuples = count_from(lexer, 0)?;
    let stored = type_word(lexer, false)?;
    pass_values(lexer, binary, stored, tuples, components)?;
    lexer.any_metadata()
}

/// An array, whose name isn't METADATA where it isn't the first.
#[tactic(auto, unfolding(crate::specs::PassedSteps::passed_array_at))]
fn pass_array(lexer: &mut Lexer<'_>, binary: bool, first: bool) -> Result<(), FileFault>
    ensures { Reads (λ done. done) result lexer.new (passed_array_at binary first lexer.old) }
{
    let (place, name) = lexer.due_word()?;
    if !first && is_word(name, b"METADATA") {
        return Err(FileFault {
            kind: FileKind::Keyword,
            place,
        });
    }
    pass_named(lexer, binary)
}

/// So many arrays.
fn pass_arrays(lexer: &mut Lexer<'_>, binary: bool, count: u64) -> Result<(), FileFault>
    ensures { Reads (λ done. done) result lexer.new (passed_arrays_at binary true count lexer.old) }
{
    let mut first = true;
    for _ in 0..count {
        pass_array(lexer, binary, first)?;
        first = false;
    }
    Ok(())
}

/// Passes over a FIELD that stands among the lines of a file's geometry, behind the word FIELD,
/// with the METADATA of its arrays. It takes no memory.
#[tactic(auto, unfolding(crate::specs::PassedSteps::passed_field_at))]
pub fn pass_field(lexer: &mut Lexer<'_>, binary: bool) -> Result<(), FileFault>
    ensures exact { Reads (λ done. done) result lexer.new (passed_field_at binary lexer.old) }
{
    lexer.due_word()?;
    let count = count_from(lexer, 0)?;
    pass_arrays(lexer, binary, count)
}
