//! The values of a form at the points of a sheet, and which points are inside.
ghost use Rattle.std.specs.Prelude.{◌≡◌, ◌↔◌, ◌<◌, All, IfOk, IsOk, OnOk, length, map, pos};
ghost use Rattle.std.specs.Prelude.{int_le};
ghost use Rattle.viz_fraction.specs.Forms.{IsNarrowValue, value_of};
ghost use Rattle.viz_sheet.specs.Arrays.{points_in};

use std::alloc::{AllocError, Global};
use viz_fraction::{Form, is_inside, value};
use viz_meaning::WorkStop;
use viz_sheet::Places;

/// The form's value at each point.
///
/// # Errors
///
/// `TooWide` exactly where a value is wide.
pub(crate) fn values(alloc: Global, form: &Form, places: &Places) -> Result<Vec<i128>, WorkStop>
    ensures value { IfOk result (λ v. v.items ≡ map (value_of form.now) (points_in places.now)) }
    ensures ok { OnOk result (All (IsNarrowValue form.now) (points_in places.now)) }
    ensures too_wide { result ≡ Err WorkStop.TooWide
        → All (IsNarrowValue form.now) (points_in places.now) → ⊥ }
{
    let mut values = Vec::with_capacity(alloc, places.len())?;
    for rank in 0..places.len() {
        values.push(value(form, &places.get(rank))?)?;
    }
    Ok(values)
}

/// Whether each value is that of an inside point.
pub(crate) fn insides(alloc: Global, values: &[i128]) -> Result<Vec<bool>, AllocError>
    ensures { IfOk result (λ v. v.items ≡ map (int_le (pos 0)) values.now) }
{
    let mut inside = Vec::with_capacity(alloc, values.len())?;
    for value in values {
        inside.push(is_at_least_0(value))?;
    }
    Ok(inside)
}

/// A value at an inside point.
pub(crate) fn is_at_least_0(value: &i128) -> bool
    ensures { result ≡ int_le (pos 0) value.now }
{
    is_inside(*value)
}
