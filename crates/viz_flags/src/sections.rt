//! The triangles of a section by ranks, and the names of their edges.

ghost use Rattle.std.specs.Prelude.{◌≡◌, ◌+◌, ◌*◌, ◌<◌, ◌≤◌, ◌^◌, length, map, IfOk};
ghost use Rattle.viz_extent.specs.Extent.{count_of};
ghost use Rattle.viz_grid_section.specs.Edges.{edges_of, rank_of};
ghost use Rattle.viz_grid_section.specs.GridSection.{grid_cells};
ghost use Rattle.viz_flags.specs.Edges.{leaves_from};

use crate::ends::Ends;
use crate::flags::flags_of;
use crate::layers::section;
use crate::named::names_of;
use crate::starts::{Starts, starts_of};
use std::alloc::{AllocError, Global};
use viz_extent::Extent;
use viz_lanes::Bits;

/// The names of edges, each once, ascending: both leaves of each, the lesser first. And triangles
/// by the ranks of their edges.
#[derive(Debug, Drop)]
pub struct Ranked {
    pub names: Vec<[u32; 2]>,
    pub triangles: Vec<[u32; 3]>,
}

/// Of fewer leaves the numbers of edges, eight to a leaf, fit 32 bits.
const MOST_SHORT: u64 = 1 << 29;

/// The triangles in all tetrahedra of a window of whole planes, by which of its points are inside,
/// where its first leaf has this number.
///
/// More names than ranks of 32 bits can tell apart are want of memory.
pub fn ranked_section(
    alloc: Global,
    window: &Extent,
    first: u32,
    inside: &Bits,
) -> Result<Ranked, AllocError>
    requires full { length inside.now ≡ count_of window.now }
    requires within { first + length inside.now < 2 ^ 31 }
    ensures names { IfOk result (λ r. r.names.items
        ≡ map (leaves_from first) (edges_of (grid_cells window.now inside.now))) }
    ensures ranks { IfOk result (λ r. r.triangles.items
        ≡ map (map (rank_of (edges_of (grid_cells window.now inside.now))))
        (grid_cells window.now inside.now)) }
    ensures few { IfOk result (λ r. length r.names.items < 2 ^ 32) }
{
    if inside.len() < MOST_SHORT {
        ranked_in::<[u32; 3]>(alloc, window, first, inside)
    } else {
        ranked_in::<[usize; 3]>(alloc, window, first, inside)
    }
}

/// The same, with the numbers of edges in one type or another.
fn ranked_in<T: Ends>(
    alloc: Global,
    window: &Extent,
    first: u32,
    inside: &Bits,
) -> Result<Ranked, AllocError>
    requires full { length inside.now ≡ count_of window.now }
    requires within { first + length inside.now < 2 ^ 31 }
    requires fits { 8 * length inside.now ≤ T.limit }
    ensures names { IfOk result (λ r. r.names.items
        ≡ map (leaves_from first) (edges_of (grid_cells window.now inside.now))) }
    ensures ranks { IfOk result (λ r. r.triangles.items
        ≡ map (map (rank_of (edges_of (grid_cells window.now inside.now))))
        (grid_cells window.now inside.now)) }
    ensures few { IfOk result (λ r. length r.names.items < 2 ^ 32) }
{
    let numbers = section::<T>(alloc, window, inside)?;
    if numbers.is_empty() {
        return Ok(Ranked {
            names: Vec::new(alloc),
            triangles: Vec::new(alloc),
        });
    }
    let [x0, x1, y0, y1, _, _] = window.bounds();
    let row = x1 - x0 + 1;
    let plane = row * (y1 - y0 + 1);
    let flags = flags_of(alloc, inside.len() as usize, &numbers)?;
    let Starts { before, count } = starts_of(alloc, &flags)?;
    let triangles = T::ranked(alloc, numbers, &flags, &before)?;
    drop(before);
    let names = names_of(alloc, &flags, count as usize, first, row, plane)?;
    Ok(Ranked { names, triangles })
}
