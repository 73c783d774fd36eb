//! The arrays of an attribute part, one function a keyword.

ghost use Rattle.std.specs.Prelude.{◌≡◌, ◌<◌, ◌≤◌, ◌^◌, true};
ghost use Rattle.viz_column.specs.Kinds.{size_of};
ghost use Rattle.viz_attr.specs.declared.types.Stored.TheVariants.{Whole};
ghost use Rattle.viz_attr.specs.Types.{bytes_of};
ghost use Rattle.viz_attr.specs.Values.{kind_of};
ghost use Rattle.viz_attr.specs.Grammar.{head_in, scalars_head, field_head};
ghost use Rattle.viz_attr.specs.Steps.{is_wanted, array_at, association_at, scalars_at};
ghost use Rattle.viz_attr.specs.Steps.{vectors_at, texture_at, colors_at, table_at};
ghost use Rattle.viz_attr.specs.Reads.{known_of, head_of, given_of, Adds};

use crate::counts::{components, count_from, dimension, same_count};
use crate::parts::{Association, Files, Named, Progress, Sort};
use crate::picks::{count_of, is_wanted};
use crate::stop::AttrStop;
use crate::types::{Stored, type_word};
use crate::values::values;
use std::alloc::Global;
use viz_column::{Column, Kind8};
use viz_lex::Lexer;

/// An array behind its head: its values, and METADATA, which may stand behind them.
#[tactic(auto, unfolding(crate::specs::Steps::array_at))]
pub(crate) fn array(
    alloc: Global,
    lexer: &mut Lexer<'_>,
    files: &Files<'_>,
    progress: &mut Progress,
    head: &Named<'_>,
    stored: Stored,
    components: u64,
) -> Result<(), AttrStop>
    requires some { 1 ≤ components }
    requires few { components < 2 ^ 31 }
    requires whole { is_wanted (given_of files.now) (known_of progress.old) (head_of head.now)
        ≡ true → bytes_of stored ≡ size_of (kind_of stored) }
    ensures { Adds files.now result progress.old progress.new lexer.new
        (array_at (given_of files.now) (known_of progress.old) (head_of head.now) stored
        (head_of head.now).tuples components lexer.old) }
{
    let wanted = is_wanted(files, progress, head);
    let tuples = head.tuples;
    let column = values(
        alloc,
        lexer,
        files.binary,
        wanted,
        stored,
        tuples,
        components,
    )?;
    lexer.any_metadata()?;
    if wanted {
        progress.found = true;
        progress.picked = column;
    }
    Ok(())
}

/// SCALARS name type [c], then LOOKUP_TABLE name.
#[tactic(auto, unfolding(crate::specs::Steps::scalars_at))]
pub(crate) fn scalars(
    alloc: Global,
    lexer: &mut Lexer<'_>,
    files: &Files<'_>,
    progress: &mut Progress,
    association: Association,
) -> Result<(), AttrStop>
    ensures { Adds files.now result progress.old progress.new lexer.new
        (scalars_at (given_of files.now) (known_of progress.old) association lexer.old) }
{
    let (_, name) = lexer.due_word()?;
    let head = Named {
        association,
        sort: Sort::Scalars,
        name,
        tuples: count_of(files, association),
    };
    let stored = type_word(lexer, is_wanted(files, progress, &head))?;
    let components = components(lexer)?;
    lexer.due_keyword(b"LOOKUP_TABLE")?;
    lexer.due_word()?;
    array(alloc, lexer, files, progress, &head, stored, components)
}

/// VECTORS, NORMALS or TENSORS name type, of so many components.
#[tactic(auto, unfolding(crate::specs::Steps::vectors_at))]
pub(crate) fn vectors(
    alloc: Global,
    lexer: &mut Lexer<'_>,
    files: &Files<'_>,
    progress: &mut Progress,
    association: Association,
    components: u64,
) -> Result<(), AttrStop>
    requires some { 1 ≤ components }
    requires few { components < 2 ^ 31 }
    ensures { Adds files.now result progress.old progress.new lexer.new
        (vectors_at (given_of files.now) (known_of progress.old) association components lexer.old) }
{
    let (_, name) = lexer.due_word()?;
    let stored = type_word(lexer, false)?;
    let head = other(files, association, name);
    array(alloc, lexer, files, progress, &head, stored, components)
}

/// TEXTURE_COORDINATES name d type.
#[tactic(auto, unfolding(crate::specs::Steps::texture_at))]
pub(crate) fn texture(
    alloc: Global,
    lexer: &mut Lexer<'_>,
    files: &Files<'_>,
    progress: &mut Progress,
    association: Association,
) -> Result<(), AttrStop>
    ensures { Adds files.now result progress.old progress.new lexer.new
        (texture_at (given_of files.now) (known_of progress.old) association lexer.old) }
{
    let (_, name) = lexer.due_word()?;
    let components = dimension(lexer)?;
    let stored = type_word(lexer, false)?;
    let head = other(files, association, name);
    array(alloc, lexer, files, progress, &head, stored, components)
}

/// COLOR_SCALARS name c, of a byte each.
#[tactic(auto, unfolding(crate::specs::Steps::colors_at))]
pub(crate) fn colors(
    alloc: Global,
    lexer: &mut Lexer<'_>,
    files: &Files<'_>,
    progress: &mut Progress,
    association: Association,
) -> Result<(), AttrStop>
    ensures { Adds files.now result progress.old progress.new lexer.new
        (colors_at (given_of files.now) (known_of progress.old) association lexer.old) }
{
    let (_, name) = lexer.due_word()?;
    let components = count_from(lexer, 1)?;
    let head = other(files, association, name);
    let stored = Stored::Whole(Kind8::U8);
    array(alloc, lexer, files, progress, &head, stored, components)
}

/// LOOKUP_TABLE name size, of four bytes each.
#[tactic(auto, unfolding(crate::specs::Steps::table_at))]
pub(crate) fn table(
    alloc: Global,
    lexer: &mut Lexer<'_>,
    files: &Files<'_>,
    progress: &mut Progress,
    association: Association,
) -> Result<(), AttrStop>
    ensures { Adds files.now result progress.old progress.new lexer.new
        (table_at (given_of files.now) (known_of progress.old) association lexer.old) }
{
    let (_, name) = lexer.due_word()?;
    let tuples = count_from(lexer, 0)?;
    let head = Named {
        association,
        sort: Sort::Other,
        name,
        tuples,
    };
    let stored = Stored::Whole(Kind8::U8);
    array(alloc, lexer, files, progress, &head, stored, 4)
}

/// POINT_DATA n or CELL_DATA n.
#[tactic(auto, unfolding(crate::specs::Steps::association_at))]
pub(crate) fn association(
    lexer: &mut Lexer<'_>,
    files: &Files<'_>,
    progress: &mut Progress,
    association: Association,
) -> Result<(), AttrStop>
    ensures { Adds files.now result progress.old progress.new lexer.new
        (association_at (given_of files.now) association lexer.old) }
{
    same_count(lexer, count_of(files, association))?;
    progress.association = Some(association);
    Ok(())
}

/// The head of an array that no pick names.
fn other<'a>(files: &Files<'_>, association: Association, name: &'a [u8]) -> Named<'a>
    ensures { head_of result ≡ head_in (given_of files.now) association name.now }
{
    Named {
        association,
        sort: Sort::Other,
        name,
        tuples: count_of(files, association),
    }
}
