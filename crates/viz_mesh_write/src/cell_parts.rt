//! The rows of cells, made in parts by workers.

ghost use Rattle.std.specs.Prelude.{◌≡◌, ◌≤◌, ◌<◌, ◌*◌, ◌++◌, All, OnOk, length};
ghost use Rattle.std.specs.List.{flat_map};
ghost use Rattle.viz_sheet.specs.Arrays.{ranks_in};
ghost use Rattle.viz_workers.specs.Level.{AreItems};
ghost use Rattle.viz_mesh_write.specs.Steps.Parts.{IsCellPart};
ghost use Rattle.viz_mesh_write.specs.Steps.Passes.{IsMovable};

use crate::cell_passes::put_cells;
use crate::cell_ranks::CellRanks;
use crate::cell_rows::CellRow;
use crate::parts::{part_at, parts_of};
use crate::point_parts::push_part;
use std::alloc::{AllocError, Global};
use std::mem;
use std::thread::Threads;
use viz_base::{Bytes, LongText, OpenGate};
use viz_image_write::Block;
use viz_sheet::Ranks;
use viz_workers::{Job, run_level};

/// So many bytes are reserved for each row of cells; a text grows past them.
const ROOM: usize = 32;

/// The rows of cells in parts, with so many points in front: the task t makes those of the part t.
#[derive(Clone, Copy)]
struct CellParts<'a, R, C> {
    alloc: Global,
    binary: bool,
    what: &'a R,
    first: u32,
    cells: &'a [C],
}

/// The rows of one part.
fn part_rows<R: CellRow, C: CellRanks>(
    alloc: Global,
    binary: bool,
    what: &R,
    first: u32,
    cells: &[C],
    part: u64,
) -> Result<Bytes, AllocError>
    requires there { part * 16384 < length cells.now }
    requires movable { All (λ cell. IsMovable first (C.list cell)) cells.now }
    ensures { IsCellPart (λ cell. R.written what.now binary first (C.list cell)) cells.now part
        result }
{
    let rows = part_at(cells, part);
    let mut block = Block::new(alloc)?;
    let mut text = Vec::with_capacity(alloc, rows.len().saturating_mul(ROOM))?;
    put_cells(&mut text, &mut block, binary, what, first, rows)?;
    Ok(Bytes::new(text))
}

impl<R: CellRow + Sync, C: CellRanks + Sync> Job for CellParts<'_, R, C> {
    type Item = Result<Bytes, AllocError>;

    ghost may = { λ job part. (part * 16384 < length job.cells.now)
        × All (λ cell. IsMovable job.first (C.list cell)) job.cells.now };

    ghost has = { λ job part item. IsCellPart
        (λ cell. R.written job.what.now job.binary job.first (C.list cell)) job.cells.now part item };

    fn work(&self, part: u64) -> Result<Bytes, AllocError> {
        part_rows(
            self.alloc,
            self.binary,
            self.what,
            self.first,
            self.cells,
            part,
        )
    }
}

/// Takes the rows of a part; want of memory is left in their place.
fn taken<R: CellRow, C: CellRanks>(
    _binary: bool,
    _what: &R,
    _first: u32,
    _cells: &[C],
    parts: &mut [Result<Bytes, AllocError>],
    part: usize,
) -> Result<Bytes, AllocError>
    requires there { part < length parts.old }
    requires parts { AreItems (IsCellPart (λ cell. R.written _what.now _binary _first (C.list cell))
        _cells.now) 0 parts.old }
    ensures part { IsCellPart (λ cell. R.written _what.now _binary _first (C.list cell)) _cells.now
        part result }
    ensures parts { AreItems (IsCellPart (λ cell. R.written _what.now _binary _first (C.list cell))
        _cells.now) 0 parts.new }
    ensures len { length parts.new ≡ length parts.old }
{
    mem::replace(&mut parts[part], Err(AllocError))
}

/// Puts all parts behind a text, in their order.
fn push_all<R: CellRow, C: CellRanks>(
    alloc: Global,
    text: &mut LongText,
    binary: bool,
    what: &R,
    first: u32,
    cells: &[C],
    parts: &mut [Result<Bytes, AllocError>],
) -> Result<(), AllocError>
    requires parts { AreItems (IsCellPart (λ cell. R.written what.now binary first (C.list cell))
        cells.now) 0 parts.old }
    requires enough { length cells.now ≤ length parts.old * 16384 }
    ensures { OnOk result (text.new ≡ text.old
        ++ flat_map (λ cell. R.written what.now binary first (C.list cell)) cells.now) }
{
    for part in 0..parts.len() {
        let rows = taken(binary, what, first, cells, parts, part)?;
        push_part(alloc, text, rows)?;
    }
    Ok(())
}

/// Puts the rows of cells of one type behind a text, made in parts by so many workers.
fn put_cell_parts<H: Threads + Sync, R: CellRow + Sync, C: CellRanks + Sync>(
    rt: &H,
    alloc: Global,
    text: &mut LongText,
    binary: bool,
    what: &R,
    first: u32,
    cells: &[C],
    workers: u32,
) -> Result<(), AllocError>
    requires workers { 0 < workers }
    requires movable { All (λ cell. IsMovable first (C.list cell)) cells.now }
    ensures { OnOk result (text.new ≡ text.old
        ++ flat_map (λ cell. R.written what.now binary first (C.list cell)) cells.now) }
{
    let job = CellParts {
        alloc,
        binary,
        what,
        first,
        cells,
    };
    let count = parts_of(cells.len());
    let mut parts = run_level(rt, alloc, &job, 0, count, workers, &OpenGate)?;
    push_all(
        alloc,
        text,
        binary,
        what,
        first,
        cells,
        parts.as_mut_slice(),
    )
}

/// Puts the rows of cells by ranks behind a text, made in parts by so many workers.
pub(crate) fn put_rank_parts<H: Threads + Sync, R: CellRow + Sync>(
    rt: &H,
    alloc: Global,
    text: &mut LongText,
    binary: bool,
    what: &R,
    first: u32,
    ranks: &Ranks,
    workers: u32,
) -> Result<(), AllocError>
    requires workers { 0 < workers }
    requires movable { All (IsMovable first) (ranks_in ranks.now) }
    ensures { OnOk result (text.new
        ≡ text.old ++ flat_map (R.written what.now binary first) (ranks_in ranks.now)) }
{
    match ranks {
        Ranks::Vertices(cells) => {
            put_cell_parts(rt, alloc, text, binary, what, first, cells, workers)
        }
        Ranks::Lines(cells) => put_cell_parts(rt, alloc, text, binary, what, first, cells, workers),
        Ranks::Triangles(cells) => {
            put_cell_parts(rt, alloc, text, binary, what, first, cells, workers)
        }
        Ranks::Tetrahedra(cells) => {
            put_cell_parts(rt, alloc, text, binary, what, first, cells, workers)
        }
        Ranks::Any(cells) => put_cell_parts(rt, alloc, text, binary, what, first, cells, workers),
    }
}
