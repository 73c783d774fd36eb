//! The tetrahedra that are kept, cell by cell, by the numbers of their vertices.
ghost use Rattle.std.specs.Prelude.{◌≡◌, ◌≤◌, ◌++◌, [], ◌∷◌, All, IfOk, OnOk, length};
ghost use Rattle.std.specs.List.{flat_map};
ghost use Rattle.viz_sheet.specs.Arrays.{ranks_in};
ghost use Rattle.viz_clip_meaning.specs.Rows.{rows};
ghost use Rattle.viz_clip.specs.Steps.Corners.{first_corners, last_corners};
ghost use Rattle.viz_clip.specs.Steps.Keys.{IsTet};
ghost use Rattle.viz_clip.specs.Steps.Numbers.{CanCut, CanNumber, corner_number, cut_number};
ghost use Rattle.viz_clip.specs.Steps.Numbers.{numbered_in};

use crate::corners::{Corners, corners_of};
use crate::numbers::Numbers;
use std::alloc::{AllocError, Global};
use viz_sheet::Ranks;

/// How many tetrahedra are kept of one with so many inside corners.
const KEPT: [u8; 5] = [0, 1, 3, 3, 1];

/// The tetrahedra that are kept of all cells.
pub(crate) fn tets(
    alloc: Global,
    inside: &[bool],
    numbers: &Numbers,
    ranks: &Ranks,
) -> Result<Vec<[u32; 4]>, AllocError>
    requires cells { All (IsTet (length inside.now)) (ranks_in ranks.now) }
    requires numbers { CanNumber inside.now (ranks_in ranks.now) numbers.now }
    ensures value { IfOk result (λ v.
        v.items ≡ flat_map (numbered_in inside.now numbers.now) (ranks_in ranks.now)) }
{
    let mut out = Vec::with_capacity(alloc, kept_count(inside, ranks))?;
    for i in 0..ranks.len() {
        let corners = corners_of(inside, ranks.get(i));
        push_tets(&mut out, numbers, &corners)?;
    }
    Ok(out)
}

/// How many tetrahedra are kept of all cells: room alone.
fn kept_count(inside: &[bool], ranks: &Ranks) -> usize {
    let mut count: usize = 0;
    for i in 0..ranks.len() {
        let kept = KEPT[inside_corners(inside, ranks.get(i))];
        count = count.saturating_add(usize::from(kept));
    }
    count
}

/// How many of the first four corners of a cell are inside.
fn inside_corners(inside: &[bool], cell: &[u32]) -> usize
    ensures { result ≤ 4 }
{
    let mut count = 0;
    for rank in cell {
        if count < 4 && inside.get(*rank as usize) == Some(&true) {
            count += 1;
        }
    }
    count
}

/// Adds the tetrahedra that are kept of a cell.
fn push_tets(
    out: &mut Vec<[u32; 4]>,
    numbers: &Numbers,
    corners: &Corners,
) -> Result<(), AllocError>
    requires can { CanCut numbers.now (first_corners corners.now) (last_corners corners.now) }
    requires most { corners.now.inside ≤ 4 }
    ensures { OnOk result (out.new.items ≡ out.old.items
        ++ rows (corner_number numbers.now) (cut_number numbers.now)
        (first_corners corners.now) (last_corners corners.now)) }
{
    let count = corners.inside;
    if count == 1 {
        return push_one(out, numbers, corners);
    }
    if count == 2 {
        return push_two(out, numbers, corners);
    }
    if count == 3 {
        return push_three(out, numbers, corners);
    }
    if count == 4 {
        return push_four(out, numbers, corners);
    }
    Ok(())
}

/// Adds the row of one inside corner: the corner and its cuts.
fn push_one(out: &mut Vec<[u32; 4]>, numbers: &Numbers, at: &Corners) -> Result<(), AllocError>
    requires { CanCut numbers.now (at.now.a ∷ []) (at.now.b ∷ at.now.c ∷ at.now.d ∷ []) }
    ensures { OnOk result (out.new.items ≡ out.old.items
        ++ rows (corner_number numbers.now) (cut_number numbers.now)
        (at.now.a ∷ []) (at.now.b ∷ at.now.c ∷ at.now.d ∷ [])) }
{
    let a = numbers.corner(at.a);
    let ab = numbers.cut(at.a, at.b);
    let ac = numbers.cut(at.a, at.c);
    let ad = numbers.cut(at.a, at.d);
    out.push([a, ab, ac, ad])?;
    Ok(())
}

/// Adds the row of two inside corners: a prism, whose last two tetrahedra go by their order.
fn push_two(out: &mut Vec<[u32; 4]>, numbers: &Numbers, at: &Corners) -> Result<(), AllocError>
    requires { CanCut numbers.now (at.now.a ∷ at.now.b ∷ []) (at.now.c ∷ at.now.d ∷ []) }
    ensures { OnOk result (out.new.items ≡ out.old.items
        ++ rows (corner_number numbers.now) (cut_number numbers.now)
        (at.now.a ∷ at.now.b ∷ []) (at.now.c ∷ at.now.d ∷ [])) }
{
    let a = numbers.corner(at.a);
    let b = numbers.corner(at.b);
    let ac = numbers.cut(at.a, at.c);
    let ad = numbers.cut(at.a, at.d);
    let bc = numbers.cut(at.b, at.c);
    let bd = numbers.cut(at.b, at.d);
    out.push([a, b, bc, bd])?;
    if at.a < at.c {
        push_both(out, [a, ac, ad, bd], [a, ac, bc, bd])
    } else {
        push_both(out, [a, ac, bc, bd], [a, ac, ad, bd])
    }
}

/// Adds the row of three inside corners: a prism.
fn push_three(out: &mut Vec<[u32; 4]>, numbers: &Numbers, at: &Corners) -> Result<(), AllocError>
    requires { CanCut numbers.now (at.now.a ∷ at.now.b ∷ at.now.c ∷ []) (at.now.d ∷ []) }
    ensures { OnOk result (out.new.items ≡ out.old.items
        ++ rows (corner_number numbers.now) (cut_number numbers.now)
        (at.now.a ∷ at.now.b ∷ at.now.c ∷ []) (at.now.d ∷ [])) }
{
    let a = numbers.corner(at.a);
    let b = numbers.corner(at.b);
    let c = numbers.corner(at.c);
    let ad = numbers.cut(at.a, at.d);
    let bd = numbers.cut(at.b, at.d);
    let cd = numbers.cut(at.c, at.d);
    out.push([a, b, c, cd])?;
    push_both(out, [a, b, bd, cd], [a, ad, bd, cd])
}

/// Adds the row of four inside corners: the whole tetrahedron.
fn push_four(out: &mut Vec<[u32; 4]>, numbers: &Numbers, at: &Corners) -> Result<(), AllocError>
    requires { CanCut numbers.now (at.now.a ∷ at.now.b ∷ at.now.c ∷ at.now.d ∷ []) [] }
    ensures { OnOk result (out.new.items ≡ out.old.items
        ++ rows (corner_number numbers.now) (cut_number numbers.now)
        (at.now.a ∷ at.now.b ∷ at.now.c ∷ at.now.d ∷ []) []) }
{
    let a = numbers.corner(at.a);
    let b = numbers.corner(at.b);
    let c = numbers.corner(at.c);
    let d = numbers.corner(at.d);
    out.push([a, b, c, d])?;
    Ok(())
}

/// Adds two tetrahedra.
fn push_both(out: &mut Vec<[u32; 4]>, first: [u32; 4], last: [u32; 4]) -> Result<(), AllocError>
    ensures { OnOk result (out.new.items ≡ out.old.items ++ first ∷ last ∷ []) }
{
    out.push(first)?;
    out.push(last)?;
    Ok(())
}
