//! Means in a window that moves over the points of an image, by running sums.

ghost use Rattle.std.specs.Prelude.{◌≡◌, ℕ, ◌+◌, ◌-◌, ◌*◌, ◌^◌, ◌<◌, ◌≤◌, ◌++◌, pos, length, map};
ghost use Rattle.std.specs.Prelude.{slice_index_or, OnOk};
ghost use Rattle.viz_extent.specs.Extent.{size_of, size_x, size_y};
ghost use Rattle.viz_meaning.specs.ImageFilters.{sum_of, floor_of};
ghost use Rattle.viz_image_ops.specs.Joined.{joined, run_of, values_on};
ghost use Rattle.viz_image_ops.specs.Sums.{AreReaches, AreSumsOf, HasRoom, IsReach, IsWithin};
ghost use Rattle.viz_image_ops.specs.Sums.{place_mean, plane_mean, reach_above, reach_below};
ghost use Rattle.viz_image_ops.specs.Sums.{row_mean};

use crate::bounded::own;
use crate::divisor::Divisor;
use crate::sums::{move_numbers, move_terms};
use crate::window::{Axes, Axis};
use std::alloc::AllocError;
use viz_column::Number;
use viz_extent::Extent;

/// Adds the means of all planes.
pub(crate) fn push_planes<T: Number>(
    means: &mut Vec<T>,
    numbers: &[T],
    plane: &mut [i128],
    row: &mut [i128],
    axes: &Axes,
    out: &Extent,
) -> Result<(), AllocError>
    requires reaches { AreReaches axes.now out.now }
    requires numbers { length numbers.now
        ≡ axes.now.x.places * axes.now.y.places * axes.now.z.places }
    requires plane { length plane.old ≡ axes.now.x.places * axes.now.y.places }
    requires zeros { (p : ℕ) → slice_index_or plane.old p (pos 0) ≡ pos 0 }
    requires row { length row.old ≡ axes.now.x.places }
    requires range { AreSumsOf T.kind 1 (map T.value numbers.now) }
    ensures { OnOk result (map T.value means.new.items ≡ map T.value means.old.items
        ++ values_on (place_mean (map T.value numbers.now) axes.now) out.now) }
{
    let [_, _, _, _, z0, z1] = out.bounds();
    let mut first = 0;
    let mut behind = 0;
    for k in z0..z1 + 1 {
        let (next, next_behind) = axes.z.window(k);
        move_numbers(plane, numbers, first, behind, next, next_behind);
        first = next;
        behind = next_behind;
        push_plane(means, plane, row, (behind - first) as u64, axes, out)?;
    }
    Ok(())
}

/// Adds the means of a plane, whose numbers are sums of so many each.
fn push_plane<T: Number>(
    means: &mut Vec<T>,
    plane: &[i128],
    row: &mut [i128],
    planes: u64,
    axes: &Axes,
    out: &Extent,
) -> Result<(), AllocError>
    requires reaches { AreReaches axes.now out.now }
    requires plane { length plane.now ≡ axes.now.x.places * axes.now.y.places }
    requires row { length row.old ≡ axes.now.x.places }
    requires some { 0 < planes }
    requires few { planes ≤ axes.now.z.places }
    requires range { AreSumsOf T.kind planes plane.now }
    ensures { OnOk result (map T.value means.new.items ≡ map T.value means.old.items
        ++ joined (λ j. run_of (λ i. plane_mean plane.now planes axes.now i j)
        out.now.x0 (size_x out.now)) out.now.y0 (size_y out.now)) }
{
    let [x0, x1, y0, y1, _, _] = out.bounds();
    clear(row);
    let mut first = 0;
    let mut behind = 0;
    for j in y0..y1 + 1 {
        let (next, next_behind) = axes.y.window(j);
        move_terms(row, plane, first, behind, next, next_behind);
        first = next;
        behind = next_behind;
        push_row(
            means,
            row,
            planes * (behind - first) as u64,
            &axes.x,
            x0,
            x1,
        )?;
    }
    Ok(())
}

/// Makes each sum one of nothing.
fn clear(sums: &mut [i128])
    ensures { (p : ℕ) → p < length sums.new → slice_index_or sums.new p (pos 0) ≡ pos 0 }
{
    for sum in sums.iter_mut() {
        *sum = 0;
    }
}

/// Adds the means of a row, whose numbers are sums of so many each. Windows that the whole doesn't
/// clip are taken by themselves, since those have one size.
fn push_row<T: Number>(
    means: &mut Vec<T>,
    row: &[i128],
    rows: u64,
    axis: &Axis,
    first_index: u32,
    last_index: u32,
) -> Result<(), AllocError>
    requires reach { IsReach axis.now first_index last_index }
    requires order { first_index ≤ last_index }
    requires row { length row.now ≡ axis.now.places }
    requires some { 0 < rows }
    requires few { rows * length row.now < 2 ^ 31 }
    requires range { AreSumsOf T.kind rows row.now }
    ensures { OnOk result (map T.value means.new.items ≡ map T.value means.old.items
        ++ run_of (row_mean row.now rows axis.now) first_index
        (size_of first_index last_index)) }
{
    let before = first_index.max(axis.lower.saturating_add(axis.radius));
    let last = last_index.min(axis.upper.saturating_sub(axis.radius));
    if before >= last {
        return push_any(means, row, rows, axis, first_index, last_index);
    }
    push_any(means, row, rows, axis, first_index, before)?;
    push_whole(means, row, rows, axis, before, last)?;
    if last == last_index {
        return Ok(());
    }
    push_any(means, row, rows, axis, last + 1, last_index)?;
    Ok(())
}

/// The same for windows of any size.
fn push_any<T: Number>(
    means: &mut Vec<T>,
    row: &[i128],
    rows: u64,
    axis: &Axis,
    first_index: u32,
    last_index: u32,
) -> Result<(), AllocError>
    requires reach { IsReach axis.now first_index last_index }
    requires order { first_index ≤ last_index }
    requires row { length row.now ≡ axis.now.places }
    requires some { 0 < rows }
    requires few { rows * length row.now < 2 ^ 31 }
    requires range { AreSumsOf T.kind rows row.now }
    ensures { OnOk result (map T.value means.new.items ≡ map T.value means.old.items
        ++ run_of (row_mean row.now rows axis.now) first_index
        (size_of first_index last_index)) }
{
    let mut sum = 0;
    let mut first = 0;
    let mut behind = 0;
    let mut count = Divisor::new(1);
    for i in first_index..last_index + 1 {
        let (next, next_behind) = axis.window(i);
        sum = moved(&sum, row, first, behind, next, next_behind);
        first = next;
        behind = next_behind;
        count = count.renewed(rows * (behind - first) as u64);
        means.push(mean(&sum, &count))?;
    }
    Ok(())
}

/// The same for windows that are not clipped: those of the indices behind one, up to a last one.
fn push_whole<T: Number>(
    means: &mut Vec<T>,
    row: &[i128],
    rows: u64,
    axis: &Axis,
    before: u32,
    last_index: u32,
) -> Result<(), AllocError>
    requires reach { IsReach axis.now before last_index }
    requires order { before ≤ last_index }
    requires low { axis.now.lower + axis.now.radius ≤ before }
    requires high { last_index + axis.now.radius ≤ axis.now.upper }
    requires row { length row.now ≡ axis.now.places }
    requires some { 0 < rows }
    requires few { rows * length row.now < 2 ^ 31 }
    requires range { AreSumsOf T.kind rows row.now }
    ensures { OnOk result (map T.value means.new.items ≡ map T.value means.old.items
        ++ run_of (row_mean row.now rows axis.now) (before + 1) (last_index - before)) }
{
    let (mut first, mut behind) = axis.window(before);
    let mut sum = moved(&0, row, 0, 0, first, behind);
    let count = Divisor::new(rows * (behind - first) as u64);
    means.reserve((last_index - before) as usize)?;
    for i in before + 1..last_index + 1 {
        sum = moved_by_one(&sum, row, first, behind);
        first += 1;
        behind += 1;
        means.push_reserved(mean(&sum, &count));
    }
    Ok(())
}

/// The sum of a row's numbers in a window that has moved.
fn moved(
    sum: &i128,
    row: &[i128],
    first: usize,
    behind: usize,
    next: usize,
    next_behind: usize,
) -> i128
    requires first { first ≤ next }
    requires behind { behind ≤ next_behind }
    requires some { next ≤ next_behind }
    requires order { first ≤ behind }
    requires within { next_behind ≤ length row.now }
    requires room { HasRoom next_behind row.now }
    requires sum { sum.now ≡ sum_of (λ p. slice_index_or row.now p (pos 0))
        first (behind - first) }
    ensures { result ≡ sum_of (λ p. slice_index_or row.now p (pos 0)) next (next_behind - next) }
{
    let mut moved = *sum;
    for p in behind..next_behind {
        moved += row[p];
    }
    for p in first..next {
        moved -= row[p];
    }
    moved
}

/// The sum in a window that has moved by one.
fn moved_by_one(sum: &i128, row: &[i128], first: usize, behind: usize) -> i128
    requires order { first ≤ behind }
    requires within { behind < length row.now }
    requires room { HasRoom (behind + 1) row.now }
    requires sum { sum.now ≡ sum_of (λ p. slice_index_or row.now p (pos 0))
        first (behind - first) }
    ensures { result ≡ sum_of (λ p. slice_index_or row.now p (pos 0))
        (first + 1) (behind + 1 - (first + 1)) }
{
    let longer = *sum + row[behind];
    longer - row[first]
}

/// The mean of so many numbers of a type, by their sum: the quotient rounded down.
fn mean<T: Number>(sum: &i128, count: &Divisor) -> T
    requires { IsWithin (count.now.number * reach_below T.kind)
        (count.now.number * reach_above T.kind) sum.now }
    ensures { T.value result ≡ floor_of sum.now count.now.number }
{
    own(&count.quotient(sum))
}
