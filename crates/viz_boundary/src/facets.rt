//! The marked facets of cells, in turn.

ghost use Rattle.std.specs.Prelude.{◌≡◌, ◌+◌, ◌<◌, ◌≤◌, ◌++◌, [], ◌∷◌, All, IfOk, OnOk, drop};
ghost use Rattle.std.specs.Prelude.{false, length, slice_index_or, take, if◌then◌else◌};
ghost use Rattle.std.specs.List.{flat_map};
ghost use Rattle.viz_sheet.specs.Arrays.{ranks_in};
ghost use Rattle.viz_sheet.specs.Kept.{kept, kept_rank};
ghost use Rattle.viz_mesh_meaning.specs.Facets.{facets_of};

use std::alloc::{AllocError, Global};
use viz_sheet::{Mixed, Ranks};

/// The marked ones of all facets of cells.
pub(crate) fn marked_facets(
    alloc: Global,
    marks: &[bool],
    ranks: &Ranks,
) -> Result<Ranks, AllocError>
    requires most { All (λ cell. length cell ≤ 4) (ranks_in ranks.now) }
    requires matched { length marks.now ≡ length (flat_map facets_of (ranks_in ranks.now)) }
    ensures value { IfOk result (λ r.
        ranks_in r ≡ kept marks.now (flat_map facets_of (ranks_in ranks.now))) }
{
    let count = marked_count(marks);
    match ranks {
        Ranks::Vertices(cells) => Ok(Ranks::Vertices(no_facets(alloc, marks, cells))),
        Ranks::Lines(cells) => Ok(Ranks::Vertices(line_facets(alloc, count, marks, cells)?)),
        Ranks::Triangles(cells) => Ok(Ranks::Lines(triangle_facets(alloc, count, marks, cells)?)),
        Ranks::Tetrahedra(cells) => {
            Ok(Ranks::Triangles(tetrahedron_facets(alloc, count, marks, cells)?))
        }
        Ranks::Any(cells) => Ok(Ranks::Any(mixed_facets(alloc, count, marks, cells)?)),
    }
}

/// How many are marked.
#[tactic(auto, using(viz_sheet::proofs::KeptLemmas::more))]
fn marked_count(marks: &[bool]) -> usize
    ensures { result ≡ kept_rank marks.now (length marks.now) }
{
    let mut count = 0;
    for mark in marks {
        if *mark {
            count += 1;
        }
    }
    count
}

/// Vertices have no facets.
fn no_facets(alloc: Global, marks: &[bool], cells: &[[u32; 1]]) -> Vec<[u32; 1]>
    requires matched { length marks.now ≡ length (flat_map facets_of cells.now) }
    ensures { result.items ≡ kept marks.now (flat_map facets_of cells.now) }
{
    let _count = cells.len();
    Vec::new(alloc)
}

/// The marked ends of lines, with room for so many.
fn line_facets(
    alloc: Global,
    room: usize,
    marks: &[bool],
    cells: &[[u32; 2]],
) -> Result<Vec<[u32; 1]>, AllocError>
    requires matched { length marks.now ≡ length (flat_map facets_of cells.now) }
    ensures { IfOk result (λ v. v.items ≡ kept marks.now (flat_map facets_of cells.now)) }
{
    let mut out = Vec::with_capacity(alloc, room)?;
    let mut at = 0;
    for cell in cells {
        push_ends(&mut out, marks, at, cell)?;
        at += 2;
    }
    Ok(out)
}

/// The marked sides of triangles, with room for so many.
fn triangle_facets(
    alloc: Global,
    room: usize,
    marks: &[bool],
    cells: &[[u32; 3]],
) -> Result<Vec<[u32; 2]>, AllocError>
    requires matched { length marks.now ≡ length (flat_map facets_of cells.now) }
    ensures { IfOk result (λ v. v.items ≡ kept marks.now (flat_map facets_of cells.now)) }
{
    let mut out = Vec::with_capacity(alloc, room)?;
    let mut at = 0;
    for cell in cells {
        push_edges(&mut out, marks, at, cell)?;
        at += 3;
    }
    Ok(out)
}

/// The marked sides of tetrahedra, with room for so many.
fn tetrahedron_facets(
    alloc: Global,
    room: usize,
    marks: &[bool],
    cells: &[[u32; 4]],
) -> Result<Vec<[u32; 3]>, AllocError>
    requires matched { length marks.now ≡ length (flat_map facets_of cells.now) }
    ensures { IfOk result (λ v. v.items ≡ kept marks.now (flat_map facets_of cells.now)) }
{
    let mut out = Vec::with_capacity(alloc, room)?;
    let mut at = 0;
    for cell in cells {
        push_sides(&mut out, marks, at, cell)?;
        at += 4;
    }
    Ok(out)
}

/// The marked facets of cells of any size, with room for so many.
fn mixed_facets(
    alloc: Global,
    room: usize,
    marks: &[bool],
    cells: &[Mixed],
) -> Result<Vec<Mixed>, AllocError>
    requires most { All (λ cell. length cell ≤ 4) cells.now }
    requires matched { length marks.now ≡ length (flat_map facets_of cells.now) }
    ensures { IfOk result (λ v. v.items ≡ kept marks.now (flat_map facets_of cells.now)) }
{
    let mut out = Vec::with_capacity(alloc, room)?;
    let mut at = 0;
    for cell in cells {
        let ranks = cell.ranks();
        push_mixed(&mut out, marks, at, ranks)?;
        at += facet_count(ranks);
    }
    Ok(out)
}

/// How many facets a cell has.
pub(crate) fn facet_count(cell: &[u32]) -> usize
    requires { length cell.now ≤ 4 }
    ensures { result ≡ length (facets_of cell.now) }
{
    match cell {
        [_, _] => 2,
        [_, _, _] => 3,
        [_, _, _, _] => 4,
        _ => 0,
    }
}

/// Adds an item if it is marked.
fn push_if<T: Drop>(out: &mut Vec<T>, mark: bool, item: T) -> Result<(), AllocError>
    ensures { OnOk result
        (out.new.items ≡ out.old.items ++ (if mark then item ∷ [] else [])) }
{
    if mark {
        out.push(item)?;
    }
    Ok(())
}

/// Adds the marked ends of a line.
fn push_ends(
    out: &mut Vec<[u32; 1]>,
    marks: &[bool],
    at: usize,
    cell: &[u32; 2],
) -> Result<(), AllocError>
    requires room { at + 2 ≤ length marks.now }
    ensures { OnOk result (out.new.items
        ≡ out.old.items ++ kept (take 2 (drop at marks.now)) (facets_of cell.now)) }
{
    let [a, b] = *cell;
    push_if(out, marks[at], [b])?;
    push_if(out, marks[at + 1], [a])?;
    Ok(())
}

/// Adds the marked sides of a triangle.
fn push_edges(
    out: &mut Vec<[u32; 2]>,
    marks: &[bool],
    at: usize,
    cell: &[u32; 3],
) -> Result<(), AllocError>
    requires room { at + 3 ≤ length marks.now }
    ensures { OnOk result (out.new.items
        ≡ out.old.items ++ kept (take 3 (drop at marks.now)) (facets_of cell.now)) }
{
    let [a, b, c] = *cell;
    push_if(out, marks[at], [b, c])?;
    push_if(out, marks[at + 1], [c, a])?;
    push_if(out, marks[at + 2], [a, b])?;
    Ok(())
}

/// Adds the marked sides of a tetrahedron.
fn push_sides(
    out: &mut Vec<[u32; 3]>,
    marks: &[bool],
    at: usize,
    cell: &[u32; 4],
) -> Result<(), AllocError>
    requires room { at + 4 ≤ length marks.now }
    ensures { OnOk result (out.new.items
        ≡ out.old.items ++ kept (take 4 (drop at marks.now)) (facets_of cell.now)) }
{
    let [a, b, c, d] = *cell;
    push_if(out, marks[at], [b, c, d])?;
    push_if(out, marks[at + 1], [c, a, d])?;
    push_if(out, marks[at + 2], [a, b, d])?;
    push_if(out, marks[at + 3], [b, a, c])?;
    Ok(())
}

/// Adds the marked facets of a cell of any size.
fn push_mixed(
    out: &mut Vec<Mixed>,
    marks: &[bool],
    at: usize,
    cell: &[u32],
) -> Result<(), AllocError>
    requires most { length cell.now ≤ 4 }
    requires room { at + length (facets_of cell.now) ≤ length marks.now }
    ensures { OnOk result (out.new.items ≡ out.old.items
        ++ kept (take (length (facets_of cell.now)) (drop at marks.now)) (facets_of cell.now)) }
{
    match cell {
        [a, b] => push_mixed_ends(out, marks, at, *a, *b),
        [a, b, c] => push_mixed_edges(out, marks, at, *a, *b, *c),
        [a, b, c, d] => push_mixed_sides(out, marks, at, [*a, *b, *c, *d]),
        _ => Ok(()),
    }
}

/// The same of a line.
fn push_mixed_ends(
    out: &mut Vec<Mixed>,
    marks: &[bool],
    at: usize,
    a: u32,
    b: u32,
) -> Result<(), AllocError>
    requires room { at + 2 ≤ length marks.now }
    ensures { OnOk result (out.new.items
        ≡ out.old.items ++ kept (take 2 (drop at marks.now)) (facets_of (a ∷ b ∷ []))) }
{
    push_if(out, marks[at], Mixed::new(1, [b, 0, 0, 0]))?;
    push_if(out, marks[at + 1], Mixed::new(1, [a, 0, 0, 0]))?;
    Ok(())
}

/// The same of a triangle.
fn push_mixed_edges(
    out: &mut Vec<Mixed>,
    marks: &[bool],
    at: usize,
    a: u32,
    b: u32,
    c: u32,
) -> Result<(), AllocError>
    requires room { at + 3 ≤ length marks.now }
    ensures { OnOk result (out.new.items
        ≡ out.old.items ++ kept (take 3 (drop at marks.now)) (facets_of (a ∷ b ∷ c ∷ []))) }
{
    push_if(out, marks[at], Mixed::new(2, [b, c, 0, 0]))?;
    push_if(out, marks[at + 1], Mixed::new(2, [c, a, 0, 0]))?;
    push_if(out, marks[at + 2], Mixed::new(2, [a, b, 0, 0]))?;
    Ok(())
}

/// The same of a tetrahedron.
fn push_mixed_sides(
    out: &mut Vec<Mixed>,
    marks: &[bool],
    at: usize,
    cell: [u32; 4],
) -> Result<(), AllocError>
    requires room { at + 4 ≤ length marks.now }
    ensures { OnOk result (out.new.items
        ≡ out.old.items ++ kept (take 4 (drop at marks.now)) (facets_of cell)) }
{
    let [a, b, c, d] = cell;
    push_if(out, marks[at], Mixed::new(3, [b, c, d, 0]))?;
    push_if(out, marks[at + 1], Mixed::new(3, [c, a, d, 0]))?;
    push_if(out, marks[at + 2], Mixed::new(3, [a, b, d, 0]))?;
    push_if(out, marks[at + 3], Mixed::new(3, [b, a, c, 0]))?;
    Ok(())
}
