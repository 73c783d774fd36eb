//! Which points of a sheet are inside.
ghost use Rattle.std.specs.Prelude.{◌≡◌, ◌↔◌, ◌<◌, All, IfOk, IsOk, OnOk, length, map, pos};
ghost use Rattle.std.specs.Prelude.{int_le, slice_index_or};
ghost use Rattle.viz_fraction.specs.Forms.{IsNarrowValue, value_of};
ghost use Rattle.viz_sheet.specs.Arrays.{points_in};
ghost use Rattle.viz_meaning.specs.Section.{is_inside_at, zero_point};

use std::alloc::Global;
use viz_fraction::{Form, Point5, TooWide, is_inside, value};
use viz_meaning::WorkStop;
use viz_sheet::Places;

/// Whether each point is inside: the form's value there is at least 0.
///
/// # Errors
///
/// `TooWide` exactly where a value is wide.
pub fn insides(alloc: Global, form: &Form, places: &Places) -> Result<Vec<bool>, WorkStop>
    ensures value { IfOk result (λ v.
        v.items ≡ map (is_inside_at form.now) (points_in places.now)) }
    ensures ok { OnOk result (All (IsNarrowValue form.now) (points_in places.now)) }
    ensures too_wide { result ≡ Err WorkStop.TooWide
        → All (IsNarrowValue form.now) (points_in places.now) → ⊥ }
{
    let mut inside = Vec::with_capacity(alloc, places.len())?;
    for rank in 0..places.len() {
        inside.push(is_inside_at(form, &places.get(rank))?)?;
    }
    Ok(inside)
}

/// A point is inside.
fn is_inside_at(form: &Form, point: &Point5) -> Result<bool, TooWide>
    ensures value { IfOk result (λ b. b ≡ is_inside_at form.now point.now) }
    ensures succeeds { IsOk result ↔ IsNarrowValue form.now point.now }
{
    let above = value(form, point)?;
    Ok(is_at_least_0(&above))
}

/// A value at an inside point.
pub fn is_at_least_0(value: &i128) -> bool
    ensures { result ≡ int_le (pos 0) value.now }
{
    is_inside(*value)
}
