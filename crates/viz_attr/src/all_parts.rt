//! All attribute parts.

ghost use Rattle.std.specs.Prelude.{◌≡◌, ◌+◌, ◌||◌, ℕ, List, length, None, IfOk};
ghost use Rattle.viz_attr.specs.Attributes.{Meets, IsPicked};
ghost use Rattle.viz_attr.specs.Grammar.{is_zero, attributes};
ghost use Rattle.viz_attr.specs.Steps.{arrays_at, arrays_in_at, behind_at, part_at, parts_at};
ghost use Rattle.viz_attr.specs.Steps.{picked_at, attributes_at, start};
ghost use Rattle.viz_attr.specs.Reads.{known_of, given_of, Adds, Knows, ReadsUnlessMemory};

use crate::arrays::{association, colors, scalars, table, texture, vectors};
use crate::field::field;
use crate::parts::{Association, Files, Progress};
use crate::stop::AttrStop;
use std::alloc::Global;
use viz_base::Pick;
use viz_column::Column;
use viz_lex::{FileFault, FileKind, Lexer, is_word, keyword_fault};

/// What stands behind the keyword of an array.
#[tactic(auto, unfolding(crate::specs::Steps::arrays_at))]
fn arrays(
    alloc: Global,
    lexer: &mut Lexer<'_>,
    files: &Files<'_>,
    progress: &mut Progress,
    association: Association,
    place: u64,
    key: &[u8],
) -> Result<(), AttrStop>
    ensures { Knows result progress.new lexer.new
        (arrays_at (given_of files.now) (known_of progress.old) association (place, key.now)
        lexer.old) }
{
    if is_word(key, b"SCALARS") {
        return scalars(alloc, lexer, files, progress, association);
    }
    if is_word(key, b"VECTORS") || is_word(key, b"NORMALS") {
        return vectors(alloc, lexer, files, progress, association, 3);
    }
    if is_word(key, b"TENSORS") {
        return vectors(alloc, lexer, files, progress, association, 9);
    }
    if is_word(key, b"TEXTURE_COORDINATES") {
        return texture(alloc, lexer, files, progress, association);
    }
    if is_word(key, b"COLOR_SCALARS") {
        return colors(alloc, lexer, files, progress, association);
    }
    if is_word(key, b"LOOKUP_TABLE") {
        return table(alloc, lexer, files, progress, association);
    }
    if is_word(key, b"FIELD") {
        return field(alloc, lexer, files, progress, association);
    }
    Err(AttrStop::File(keyword_fault(place, key)))
}

/// An array stands in an association alone.
#[tactic(auto, unfolding(crate::specs::Steps::arrays_in_at))]
fn arrays_in(
    alloc: Global,
    lexer: &mut Lexer<'_>,
    files: &Files<'_>,
    progress: &mut Progress,
    place: u64,
    key: &[u8],
) -> Result<(), AttrStop>
    ensures { Knows result progress.new lexer.new
        (arrays_in_at (given_of files.now) (known_of progress.old) progress.old.association
        (place, key.now) lexer.old) }
{
    match progress.association {
        Some(association) => arrays(alloc, lexer, files, progress, association, place, key),
        None => Err(AttrStop::File(keyword_fault(place, key))),
    }
}

/// What stands behind a keyword.
#[tactic(auto, unfolding(crate::specs::Steps::behind_at))]
fn behind(
    alloc: Global,
    lexer: &mut Lexer<'_>,
    files: &Files<'_>,
    progress: &mut Progress,
    place: u64,
    key: &[u8],
) -> Result<(), AttrStop>
    ensures { Knows result progress.new lexer.new
        (behind_at (given_of files.now) (known_of progress.old) (place, key.now) lexer.old) }
{
    if is_word(key, b"POINT_DATA") {
        return association(lexer, files, progress, Association::Points);
    }
    if is_word(key, b"CELL_DATA") {
        return association(lexer, files, progress, Association::Cells);
    }
    arrays_in(alloc, lexer, files, progress, place, key)
}

/// One part.
#[tactic(auto, unfolding(crate::specs::Steps::part_at))]
fn part(
    alloc: Global,
    lexer: &mut Lexer<'_>,
    files: &Files<'_>,
    progress: &mut Progress,
) -> Result<(), AttrStop>
    ensures { Knows result progress.new lexer.new
        (part_at (given_of files.now) (known_of progress.old) lexer.old) }
{
    let (place, key) = lexer.due_word()?;
    behind(alloc, lexer, files, progress, place, key)
}

/// All parts to the end, at most so many: each takes a byte at least.
fn parts(
    alloc: Global,
    lexer: &mut Lexer<'_>,
    files: &Files<'_>,
    progress: &mut Progress,
    most: u64,
) -> Result<(), AttrStop>
    ensures { Knows result progress.new lexer.new
        (parts_at (given_of files.now) (known_of progress.old) most lexer.old) }
{
    for _ in 0..most {
        if lexer.is_done() {
            return Ok(());
        }
        part(alloc, lexer, files, progress)?;
    }
    Ok(())
}

/// The picked array, behind all parts.
#[tactic(auto, unfolding(crate::specs::Steps::picked_at))]
fn picked(
    lexer: &Lexer<'_>,
    files: &Files<'_>,
    progress: Progress,
) -> Result<Option<Column>, AttrStop>
    ensures { ReadsUnlessMemory (λ c. c) result lexer.now
        (picked_at (given_of files.now) (known_of progress) lexer.now) }
{
    if matches!(files.pick, Pick::Zero) || progress.found {
        return Ok(progress.picked);
    }
    Err(AttrStop::File(FileFault {
        kind: FileKind::NoArray,
        place: lexer.bytes().len() as u64,
    }))
}

/// The attributes, by steps.
#[tactic(auto, unfolding(crate::specs::Steps::attributes_at))]
fn all(alloc: Global, lexer: &mut Lexer<'_>, files: &Files<'_>) -> Result<Option<Column>, AttrStop>
    ensures { ReadsUnlessMemory (λ c. c) result lexer.new
        (attributes_at (given_of files.now) lexer.old) }
{
    let mut progress = Progress {
        association: None,
        found: false,
        picked: None,
    };
    let most = lexer.bytes().len() as u64 + 1;
    parts(alloc, lexer, files, &mut progress, most)?;
    picked(lexer, files, progress)
}

/// Reads all attribute parts to the end of the bytes, and gives the numbers of the picked array: of
/// several components the first. The place is in front of the first part.
///
/// `points` and `cells` are how many of them the file has, `binary` is the form of its values. None
/// comes exactly for `Pick::Zero`. File has the first fault and its place: NoArray, at the length,
/// where all is well formed and no array fits the pick.
pub fn attributes(
    alloc: Global,
    lexer: &mut Lexer<'_>,
    binary: bool,
    points: u64,
    cells: u64,
    pick: &Pick,
) -> Result<Option<Column>, AttrStop>
    ensures rules { Meets
        (attributes (record { binary = binary; points = points; cells = cells; pick = pick.now }))
        result lexer.old lexer.new }
    ensures picked { IfOk result (IsPicked
        (record { binary = binary; points = points; cells = cells; pick = pick.now })) }
    ensures exact { ReadsUnlessMemory (λ column. column) result lexer.new
        (attributes_at (record { binary = binary; points = points; cells = cells; pick = pick.now })
        lexer.old) }
{
    let files = Files {
        binary,
        points,
        cells,
        pick,
    };
    all(alloc, lexer, &files)
}
