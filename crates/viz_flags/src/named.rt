//! The names of flagged edges.

ghost use Rattle.std.specs.Prelude.{◌≡◌, ◌+◌, ◌<◌, ◌^◌, ◌++◌, ◌==◌, [], ◌∷◌, OnOk, IfOk, length};
ghost use Rattle.std.specs.Prelude.{map, if◌then◌else◌};
ghost use Rattle.std.specs.Int.{bit_at};
ghost use Rattle.viz_flags.specs.Edges.{leaves_from};
ghost use Rattle.viz_flags.specs.Flags.{flags as bits_of, flags_of};
ghost use Rattle.viz_flags.specs.Flagged.{flagged};
ghost use Rattle.viz_flags.specs.Steps.Named.{eight_names, name_up};
ghost use Rattle.viz_sheet.specs.Kept.{kept};

use std::alloc::{AllocError, Global};

/// The names of flagged edges, ascending, with room for so many: both leaves of each, where the
/// first leaf has this number.
pub(crate) fn names_of(
    alloc: Global,
    flags: &[u8],
    count: usize,
    first: u32,
    row: u32,
    plane: u32,
) -> Result<Vec<[u32; 2]>, AllocError>
    requires few { first + length flags.now + plane + row + 2 < 2 ^ 32 }
    ensures { IfOk result (λ v.
        v.items ≡ map (leaves_from first) (flagged row plane (bits_of flags.now))) }
{
    let mut names = Vec::with_capacity(alloc, count)?;
    for (leaf, mask) in flags.iter().enumerate() {
        push_some(&mut names, *mask, first + leaf as u32, row, plane)?;
    }
    Ok(names)
}

/// The names of a leaf's flagged edges, where it has some.
fn push_some(
    names: &mut Vec<[u32; 2]>,
    mask: u8,
    leaf: u32,
    row: u32,
    plane: u32,
) -> Result<(), AllocError>
    requires { leaf + plane + row + 2 < 2 ^ 32 }
    ensures { OnOk result (names.new.items
        ≡ names.old.items ++ kept (flags_of mask) (eight_names leaf row plane)) }
{
    if mask == 0 {
        return Ok(());
    }
    push_names(names, mask, leaf, row, plane)?;
    Ok(())
}

/// The names of a leaf's flagged edges.
fn push_names(
    names: &mut Vec<[u32; 2]>,
    mask: u8,
    leaf: u32,
    row: u32,
    plane: u32,
) -> Result<(), AllocError>
    requires { leaf + plane + row + 2 < 2 ^ 32 }
    ensures { OnOk result (names.new.items
        ≡ names.old.items ++ kept (flags_of mask) (eight_names leaf row plane)) }
{
    push_name(names, is_set(mask, 0), leaf, 1)?;
    push_name(names, is_set(mask, 1), leaf, row)?;
    push_name(names, is_set(mask, 2), leaf, row + 1)?;
    push_name(names, is_set(mask, 3), leaf, plane)?;
    push_name(names, is_set(mask, 4), leaf, plane + 1)?;
    push_name(names, is_set(mask, 5), leaf, plane + row)?;
    push_name(names, is_set(mask, 6), leaf, plane + row + 1)?;
    push_name(names, is_set(mask, 7), leaf, plane + row + 2)?;
    Ok(())
}

/// The name of an edge, where it is flagged.
fn push_name(
    names: &mut Vec<[u32; 2]>,
    is_set: bool,
    leaf: u32,
    step: u32,
) -> Result<(), AllocError>
    requires { leaf + step < 2 ^ 32 }
    ensures { OnOk result (names.new.items
        ≡ names.old.items ++ (if is_set then name_up leaf step ∷ [] else [])) }
{
    if is_set {
        names.push([leaf, leaf + step])?;
    }
    Ok(())
}

/// Whether a bit is set.
fn is_set(mask: u8, bit: u32) -> bool
    requires { bit < 8 }
    ensures { result ≡ (bit_at mask bit == 1) }
{
    mask >> bit & 1 == 1
}
