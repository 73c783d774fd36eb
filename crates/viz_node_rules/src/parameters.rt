//! Parameters of nodes as the filters take them: what lies outside of a range is its nearer end.

ghost use Rattle.std.specs.Prelude.{◌≡◌, ◌≤◌, IfOk, map, min, take};
ghost use Rattle.viz_extent.specs.Parts.{IsRate, rate_of};
ghost use Rattle.viz_fraction.specs.Forms.{contour_form, plane_form};
ghost use Rattle.viz_node_meaning.specs.Data.{contour_forms, op_with, radius_with, unit_with};
ghost use Rattle.viz_node_meaning.specs.Information.{rate_with, within};

use std::alloc::{AllocError, Global};
use viz_fraction::Form;
use viz_kinds::Op;

// A number of a parameter, or the nearer end of the parameter's range.
fn within(least: u32, most: u32, n: u32) -> u32
    ensures { result ≡ within least most n }
{
    least.max(most.min(n))
}

/// The rate of a sample, each from 1 to 1,024.
pub fn rate_with(x: u32, y: u32, z: u32) -> [u32; 3]
    ensures value { rate_of result ≡ rate_with x y z }
    ensures valid { IsRate (rate_of result) }
{
    [within(1, 1024, x), within(1, 1024, y), within(1, 1024, z)]
}

/// The radius of a mean, at most 8.
pub fn radius_with(radius: u32) -> u32
    ensures value { result ≡ radius_with radius }
{
    within(0, 8, radius)
}

/// The decimals of a file's coordinates, at most 9.
pub fn unit_with(unit: u8) -> u8
    ensures value { result ≡ unit_with unit }
    ensures most { result ≤ 9 }
{
    if unit < 9 { unit } else { 9 }
}

/// What arith reckons.
pub fn op_with(op: Op) -> viz_meaning::Op
    ensures value { result ≡ op_with op }
{
    match op {
        Op::Add => viz_meaning::Op::Add,
        Op::Sub => viz_meaning::Op::Sub,
        Op::Min => viz_meaning::Op::Min,
        Op::Max => viz_meaning::Op::Max,
    }
}

/// The form of a plane: how far a x + b y + c z lies above r.
pub fn plane_form(a: &i64, b: &i64, c: &i64, r: &i64) -> Form
    ensures value { result ≡ plane_form a.now b.now c.now r.now }
{
    Form {
        a: *a,
        b: *b,
        c: *c,
        q: 0,
        r: *r,
    }
}

// The form of a contour: how far the scalar lies above the level.
fn contour_form(level: &i64) -> Form
    ensures { result ≡ contour_form level.now }
{
    Form {
        a: 0,
        b: 0,
        c: 0,
        q: 1,
        r: *level,
    }
}

/// The form of a contour at each level.
pub fn forms_of(alloc: Global, levels: &[i64]) -> Result<Vec<Form>, AllocError>
    ensures { IfOk result (λ forms. forms.items ≡ map contour_form levels.now) }
{
    let mut forms = Vec::with_capacity(alloc, levels.len())?;
    for level in levels {
        forms.push(contour_form(level))?;
    }
    Ok(forms)
}

/// The first levels of eight.
pub fn first_levels(count: u8, levels: &[i64; 8]) -> &[i64]
    ensures { result.now ≡ take (min count 8) levels.now }
{
    if count < 8 {
        &levels[..count as usize]
    } else {
        levels
    }
}

/// The forms of a contour's first levels: how far the scalar lies above each.
pub fn contour_forms(alloc: Global, count: u8, levels: &[i64; 8]) -> Result<Vec<Form>, AllocError>
    ensures value { IfOk result (λ forms. forms.items ≡ contour_forms count levels.now) }
{
    forms_of(alloc, first_levels(count, levels))
}
