//! The places of all points, with their indices behind them.

ghost use Rattle.std.specs.Prelude.{◌≡◌, ◌+◌, ◌<◌, ◌^◌, ◌++◌, ◌∷◌, [], IfOk, OnOk, length, pos};
ghost use Rattle.viz_sheet.specs.Arrays.{points_in};
ghost use Rattle.viz_mesh_meaning.specs.Merge.{all_points};
ghost use Rattle.viz_merge.specs.Steps.Leads.{key_of, keys_from};

use std::alloc::{AllocError, Global};
use viz_fraction::{Point5, place};
use viz_sheet::{Places, Sheet};

/// The keys of the points of all sheets, in turn; want of memory where there are 2^32 or more.
pub(crate) fn all_keys(alloc: Global, sheets: &[Sheet]) -> Result<Vec<[i128; 5]>, AllocError>
    ensures value { IfOk result (λ v. v.items ≡ keys_from 0 (all_points sheets.now)) }
    ensures few { IfOk result (λ v. length v.items < 2 ^ 32) }
{
    let mut keys = Vec::new(alloc);
    for sheet in sheets {
        push_keys(&mut keys, sheet.places())?;
    }
    Ok(keys)
}

/// Adds the keys of a sheet's points.
fn push_keys(keys: &mut Vec<[i128; 5]>, places: &Places) -> Result<(), AllocError>
    requires few { length keys.old.items < 2 ^ 32 }
    ensures value { OnOk result (keys.new.items
        ≡ keys.old.items ++ keys_from (length keys.old.items) (points_in places.now)) }
    ensures few { OnOk result (length keys.new.items < 2 ^ 32) }
{
    if places.len() >= (1 << 32) - keys.len() {
        return Err(AllocError);
    }
    keys.reserve(places.len())?;
    for rank in 0..places.len() {
        push_key(keys, &places.get(rank))?;
    }
    Ok(())
}

/// Adds the key of the next point.
fn push_key(keys: &mut Vec<[i128; 5]>, point: &Point5) -> Result<(), AllocError>
    requires few { length keys.old.items < 2 ^ 32 }
    ensures { OnOk result (keys.new.items
        ≡ keys.old.items ++ key_of (length keys.old.items) point.now ∷ []) }
{
    let at = keys.len() as u32;
    keys.push(key_of(point, at))?;
    Ok(())
}

/// The place of a point, and behind it the point's index.
fn key_of(point: &Point5, at: u32) -> [i128; 5]
    ensures value { result ≡ key_of at point.now }
{
    let [x, y, z, w] = place(point);
    [x, y, z, w, i128::from(at)]
}
