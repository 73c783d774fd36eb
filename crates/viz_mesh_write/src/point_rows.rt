//! The coordinates or the scalar of a point, as a row in front of what stands at the end of a block.

ghost use Rattle.std.specs.Prelude.{◌≡◌, ◌≤◌, ◌+◌, ◌++◌, ◌↔◌, ℤ, List, OnOk, IfOk, IsOk, IsErrOf};
ghost use Rattle.std.specs.Prelude.{FitsSigned, length, drop};
ghost use Rattle.std.specs.Int.{w64};
ghost use Rattle.viz_column.specs.declared.kind.Kind8.TheVariants.{I64};
ghost use Rattle.viz_fraction.specs.Points.{Point};
ghost use Rattle.viz_fraction.specs.Decimals.{fixed_of};
ghost use Rattle.viz_mesh_write.specs.Fits.{FitsRow};
ghost use Rattle.viz_mesh_write.specs.MeshText.{coordinates, scalar, scalars};
ghost use Rattle.viz_mesh_write.specs.Rows.{row_of};

use crate::numbers::{left_one, left_three};
use viz_fraction::{Point5, SmallPoint, TooWide, fixed};
use viz_image_write::WriteStop;

/// A point of either width, made wide.
pub(crate) trait WidePoint {
    ghost point: { Self → Point };

    /// The same point.
    fn wide(&self) -> Point5
        ensures { result ≡ point self.now };
}

impl WidePoint for SmallPoint {
    ghost point = { λ p. p };

    #[inline(always)]
    fn wide(&self) -> Point5 {
        small_wide(self)
    }
}

impl WidePoint for Point5 {
    ghost point = { λ p. p };

    #[inline(always)]
    fn wide(&self) -> Point5 {
        *self
    }
}

/// A small point, made wide.
#[inline(always)]
fn small_wide(p: &SmallPoint) -> Point5
    ensures { result ≡ p.now }
{
    p.wide()
}

/// What is written of each point. A function that is generic in it has no `match` in its loop.
pub(crate) trait PointNumbers {
    ghost numbers: { Self → Point → List ℤ };

    /// Puts the row of a point in front of what stands from `end` on, and returns where it begins.
    fn put_left(
        &self,
        block: &mut [u8],
        end: usize,
        binary: bool,
        p: &Point5,
    ) -> Result<usize, WriteStop>
        requires room { 128 ≤ end }
        requires within { end ≤ length block.old }
        ensures ok { IfOk result (λ at. drop at block.new
            ≡ row_of binary I64 (numbers self.now p.now) ++ drop end block.old) }
        ensures at { IfOk result (λ at. at ≤ end) }
        ensures most { IfOk result (λ at. end ≤ at + 128) }
        ensures fits { OnOk result (FitsRow (numbers self.now p.now)) }
        ensures too_wide { IsErrOf result WriteStop.TooWide → ¬ FitsRow (numbers self.now p.now) }
        ensures few { ¬ IsErrOf result WriteStop.TooMany };
}

/// The coordinates, at so many places.
#[derive(Clone, Copy)]
pub(crate) struct Coordinates {
    pub(crate) digits: u8,
    ghost few: { digits ≤ 9 },
}

impl PointNumbers for Coordinates {
    ghost numbers = { λ c p. coordinates c.digits p };

    #[inline(always)]
    fn put_left(
        &self,
        block: &mut [u8],
        end: usize,
        binary: bool,
        p: &Point5,
    ) -> Result<usize, WriteStop> {
        left_coordinates(block, end, binary, self.digits, p)
    }
}

/// The scalar.
#[derive(Clone, Copy)]
pub(crate) struct Scalar;

impl PointNumbers for Scalar {
    ghost numbers = { λ _ p. scalars p };

    #[inline(always)]
    fn put_left(
        &self,
        block: &mut [u8],
        end: usize,
        binary: bool,
        p: &Point5,
    ) -> Result<usize, WriteStop> {
        left_scalar(block, end, binary, p)
    }
}

/// What is written of points: the rows of one kind.
#[derive(Clone, Copy)]
pub(crate) enum OfPoints {
    Coordinates(Coordinates),
    Scalar(Scalar),
}

/// The coordinate along x, counted in the last place.
fn written_x(p: &Point5, digits: u8) -> Result<i64, TooWide>
    requires { digits ≤ 9 }
    ensures value { IfOk result (λ n. n ≡ fixed_of p.now.x p.now.w digits) }
    ensures succeeds { IsOk result ↔ FitsSigned w64 (fixed_of p.now.x p.now.w digits) }
{
    fixed(p.x(), p.w(), digits)
}

/// The coordinate along y, counted in the last place.
fn written_y(p: &Point5, digits: u8) -> Result<i64, TooWide>
    requires { digits ≤ 9 }
    ensures value { IfOk result (λ n. n ≡ fixed_of p.now.y p.now.w digits) }
    ensures succeeds { IsOk result ↔ FitsSigned w64 (fixed_of p.now.y p.now.w digits) }
{
    fixed(p.y(), p.w(), digits)
}

/// The coordinate along z, counted in the last place.
fn written_z(p: &Point5, digits: u8) -> Result<i64, TooWide>
    requires { digits ≤ 9 }
    ensures value { IfOk result (λ n. n ≡ fixed_of p.now.z p.now.w digits) }
    ensures succeeds { IsOk result ↔ FitsSigned w64 (fixed_of p.now.z p.now.w digits) }
{
    fixed(p.z(), p.w(), digits)
}

/// The scalar, rounded down.
fn written_scalar(p: &Point5) -> Result<i64, TooWide>
    ensures value { IfOk result (λ n. n ≡ scalar p.now) }
    ensures succeeds { IsOk result ↔ FitsSigned w64 (scalar p.now) }
{
    fixed(p.s(), p.w(), 0)
}

/// The row of a point's coordinates.
#[inline(always)]
fn left_coordinates(
    block: &mut [u8],
    end: usize,
    binary: bool,
    digits: u8,
    p: &Point5,
) -> Result<usize, WriteStop>
    requires digits { digits ≤ 9 }
    requires room { 128 ≤ end }
    requires within { end ≤ length block.old }
    ensures ok { IfOk result (λ at. drop at block.new
        ≡ row_of binary I64 (coordinates digits p.now) ++ drop end block.old) }
    ensures at { IfOk result (λ at. at ≤ end) }
    ensures most { IfOk result (λ at. end ≤ at + 128) }
    ensures fits { OnOk result (FitsRow (coordinates digits p.now)) }
    ensures too_wide { IsErrOf result WriteStop.TooWide → ¬ FitsRow (coordinates digits p.now) }
    ensures few { ¬ IsErrOf result WriteStop.TooMany }
{
    let x = written_x(p, digits)?;
    let y = written_y(p, digits)?;
    let z = written_z(p, digits)?;
    Ok(left_three(block, end, binary, &x, &y, &z))
}

/// The row of a point's scalar.
#[inline(always)]
fn left_scalar(block: &mut [u8], end: usize, binary: bool, p: &Point5) -> Result<usize, WriteStop>
    requires room { 128 ≤ end }
    requires within { end ≤ length block.old }
    ensures ok { IfOk result (λ at. drop at block.new
        ≡ row_of binary I64 (scalars p.now) ++ drop end block.old) }
    ensures at { IfOk result (λ at. at ≤ end) }
    ensures most { IfOk result (λ at. end ≤ at + 128) }
    ensures fits { OnOk result (FitsRow (scalars p.now)) }
    ensures too_wide { IsErrOf result WriteStop.TooWide → ¬ FitsRow (scalars p.now) }
    ensures few { ¬ IsErrOf result WriteStop.TooMany }
{
    let scalar = written_scalar(p)?;
    Ok(left_one(block, end, binary, &scalar))
}
