//! The arrays of a FIELD.

ghost use Rattle.std.specs.Prelude.{◌≡◌, ◌<◌, ◌≤◌, true};
ghost use Rattle.viz_attr.specs.Grammar.{field_head};
ghost use Rattle.viz_attr.specs.Steps.{field_values_at, field_array_at, field_arrays_at, field_at};
ghost use Rattle.viz_attr.specs.Reads.{known_of, given_of, Adds, Knows};

use crate::arrays::array;
use crate::counts::count_from;
use crate::parts::{Association, Files, Named, Progress, Sort};
use crate::picks::is_wanted;
use crate::stop::AttrStop;
use crate::types::type_word;
use std::alloc::Global;
use viz_lex::{FileFault, FileKind, Lexer, is_word};

/// c t type and the values, behind the name of an array.
#[tactic(auto, unfolding(crate::specs::Steps::field_values_at))]
fn field_values(
    alloc: Global,
    lexer: &mut Lexer<'_>,
    files: &Files<'_>,
    progress: &mut Progress,
    association: Association,
    name: &[u8],
) -> Result<(), AttrStop>
    ensures { Adds files.now result progress.old progress.new lexer.new
        (field_values_at (given_of files.now) (known_of progress.old) association name.now
        lexer.old) }
{
    let components = count_from(lexer, 1)?;
    let tuples = count_from(lexer, 0)?;
    let head = Named {
        association,
        sort: Sort::Field,
        name,
        tuples,
    };
    let stored = type_word(lexer, is_wanted(files, progress, &head))?;
    array(alloc, lexer, files, progress, &head, stored, components)
}

/// name c t type and the values: an array, whose name isn't METADATA where it isn't the first.
#[tactic(auto, unfolding(crate::specs::Steps::field_array_at))]
fn field_array(
    alloc: Global,
    lexer: &mut Lexer<'_>,
    files: &Files<'_>,
    progress: &mut Progress,
    association: Association,
    first: bool,
) -> Result<(), AttrStop>
    ensures { Adds files.now result progress.old progress.new lexer.new
        (field_array_at (given_of files.now) (known_of progress.old) association first lexer.old) }
{
    let (place, name) = lexer.due_word()?;
    if !first && is_word(name, b"METADATA") {
        return Err(AttrStop::File(FileFault {
            kind: FileKind::Keyword,
            place,
        }));
    }
    field_values(alloc, lexer, files, progress, association, name)
}

/// So many arrays, of which the first is the FIELD's first.
fn field_arrays(
    alloc: Global,
    lexer: &mut Lexer<'_>,
    files: &Files<'_>,
    progress: &mut Progress,
    association: Association,
    count: u64,
) -> Result<(), AttrStop>
    ensures { Knows result progress.new lexer.new
        (field_arrays_at (given_of files.now) (known_of progress.old) association true count
        lexer.old) }
{
    let mut first = true;
    for _ in 0..count {
        field_array(alloc, lexer, files, progress, association, first)?;
        first = false;
    }
    Ok(())
}

/// FIELD name k, then k arrays.
#[tactic(auto, unfolding(crate::specs::Steps::field_at))]
pub(crate) fn field(
    alloc: Global,
    lexer: &mut Lexer<'_>,
    files: &Files<'_>,
    progress: &mut Progress,
    association: Association,
) -> Result<(), AttrStop>
    ensures { Knows result progress.new lexer.new
        (field_at (given_of files.now) (known_of progress.old) association lexer.old) }
{
    lexer.due_word()?;
    let count = count_from(lexer, 0)?;
    field_arrays(alloc, lexer, files, progress, association, count)
}
