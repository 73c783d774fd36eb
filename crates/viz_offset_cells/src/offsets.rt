//! The offsets at which the indices of a section are cut into cells.

ghost use Rattle.std.specs.Prelude.{◌≡◌, ◌<◌, ◌^◌, [], true, IfOk};
ghost use Rattle.viz_lex.specs.Reading.{Reads};
ghost use Rattle.viz_lex.specs.Readers.{known_at};
ghost use Rattle.viz_attr.specs.Reads.{ReadsUnlessMemory};
ghost use Rattle.viz_offset_cells.specs.Offsets.{is_offset};
ghost use Rattle.viz_offset_cells.specs.Blocks.{cuts_of};
ghost use Rattle.viz_offset_cells.specs.Steps.{offset_at, offsets_at, AreAllCuts};

use crate::blocks::pass;
use crate::cuts::Cuts;
use crate::kinds::index_type;
use crate::numbers::typed_number;
use crate::steps::next_step;
use std::alloc::Global;
use viz_attr::AttrStop;
use viz_column::Kind8;
use viz_counted_cells::section_start;
use viz_lex::{FileFault, FileKind, Lexer};

/// Whether a number is an offset behind those before, of so many that end at so many indices.
#[inline(always)]
fn is_offset(most: u64, indices: u64, before: &[u64], n: &i128) -> bool
    ensures { result ≡ is_offset most indices before.now n.now }
{
    let in_order = match before.last() {
        Some(last) => *n >= i128::from(*last),
        None => *n == 0,
    };
    in_order && (before.len() as u64 + 1 != most || *n == i128::from(indices))
}

/// An offset behind those before: else Count.
#[tactic(auto, unfolding(crate::specs::Steps::offset_at))]
#[inline(always)]
fn offset(
    lexer: &mut Lexer<'_>,
    binary: bool,
    kind: Kind8,
    most: u64,
    indices: u64,
    before: &[u64],
) -> Result<u64, FileFault>
    ensures { Reads (λ n. n) result lexer.new
        (offset_at binary kind most indices before.now lexer.old) }
{
    let (place, n) = typed_number(lexer, binary, kind)?;
    if !is_offset(most, indices, before, &n) {
        return Err(FileFault {
            kind: FileKind::Count,
            place,
        });
    }
    Ok(n as u64)
}

/// So many offsets, one by one.
fn listed_offsets(
    alloc: Global,
    lexer: &mut Lexer<'_>,
    binary: bool,
    kind: Kind8,
    most: u64,
    indices: u64,
) -> Result<Vec<u64>, AttrStop>
    ensures { ReadsUnlessMemory (λ v. v.items) result lexer.new
        (known_at (offset_at binary kind most indices) most [] lexer.old) }
{
    let left = lexer.bytes().len() as u64 - lexer.place();
    let room = most.min(left);
    let mut offsets = Vec::with_capacity(alloc, room as usize)?;
    for _ in 0..most {
        offsets.push(offset(lexer, binary, kind, most, indices, &offsets)?)?;
    }
    Ok(offsets)
}

/// So many offsets in BINARY.
fn block_offsets(
    alloc: Global,
    lexer: &mut Lexer<'_>,
    kind: Kind8,
    most: u64,
    indices: u64,
) -> Result<Cuts, AttrStop>
    requires few { most < 2 ^ 31 }
    requires within { indices < 2 ^ 31 }
    ensures { ReadsUnlessMemory cuts_of result lexer.new
        (known_at (offset_at true kind most indices) most [] lexer.old) }
{
    if let Some(step) = next_step(lexer, kind, most, indices) {
        pass(lexer, 8 * most);
        return Ok(Cuts::Steps(step, most - 1));
    }
    let offsets = listed_offsets(alloc, lexer, true, kind, most, indices)?;
    Ok(Cuts::Listed(offsets))
}

/// So many offsets.
fn all_offsets(
    alloc: Global,
    lexer: &mut Lexer<'_>,
    binary: bool,
    kind: Kind8,
    most: u64,
    indices: u64,
) -> Result<Cuts, AttrStop>
    requires few { most < 2 ^ 31 }
    requires within { indices < 2 ^ 31 }
    requires none { most ≡ 0 → indices ≡ 0 }
    ensures read { ReadsUnlessMemory cuts_of result lexer.new
        (known_at (offset_at binary kind most indices) most [] lexer.old) }
    ensures cuts { IfOk result (λ c. AreAllCuts (cuts_of c) indices) }
{
    if binary {
        return block_offsets(alloc, lexer, kind, most, indices);
    }
    let offsets = listed_offsets(alloc, lexer, binary, kind, most, indices)?;
    Ok(Cuts::Listed(offsets))
}

/// OFFSETS type, and so many offsets into so many indices.
#[tactic(auto, unfolding(crate::specs::Steps::offsets_at))]
pub(crate) fn offsets(
    alloc: Global,
    lexer: &mut Lexer<'_>,
    binary: bool,
    most: u64,
    indices: u64,
) -> Result<Cuts, AttrStop>
    requires few { most < 2 ^ 31 }
    requires within { indices < 2 ^ 31 }
    requires none { most ≡ 0 → indices ≡ 0 }
    ensures read { ReadsUnlessMemory cuts_of result lexer.new
        (offsets_at binary most indices lexer.old) }
    ensures cuts { IfOk result (λ c. AreAllCuts (cuts_of c) indices) }
{
    lexer.due_keyword(b"OFFSETS")?;
    let kind = index_type(lexer)?;
    section_start(lexer, binary)?;
    all_offsets(alloc, lexer, binary, kind, most, indices)
}
