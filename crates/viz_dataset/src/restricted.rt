//! The numbers of an image on a part of its extent.

ghost use Rattle.std.specs.Prelude.{◌≡◌, ◌+◌, ◌*◌, ◌<◌, ◌≤◌, length, map, take, drop, IfOk};
ghost use Rattle.viz_extent.specs.Extent.{size_x, size_y, size_z, count_of};
ghost use Rattle.viz_extent.specs.Parts.{IsPart};
ghost use Rattle.viz_dataset.specs.Rows.{row_start, AreRows, AreRestricted};

use std::alloc::{AllocError, Global};
use viz_column::{Column, Lent, Number};
use viz_extent::Extent;

/// The number of the first point of a row of the part, and one more than that of its last.
fn row_bounds(whole: &Extent, part: &Extent, row: u64) -> (u64, u64)
    requires within { IsPart whole.now part.now }
    requires row { row < size_y part.now * size_z part.now }
    ensures first { result.0 ≡ row_start whole.now part.now row }
    ensures behind { result.1 ≡ row_start whole.now part.now row + size_x part.now }
    ensures below { result.1 ≤ count_of whole.now }
{
    let [x0, x1, y0, y1, z0, _] = part.bounds();
    let height = u64::from(y1 - y0) + 1;
    let j = y0 + (row % height) as u32;
    let k = z0 + (row / height) as u32;
    let last = whole.index_of(x1, j, k);
    prove!(last < whole.count());
    (whole.index_of(x0, j, k), last + 1)
}

/// The numbers of one row of the part.
fn row_of<'a, T: Number>(numbers: &'a [T], whole: &Extent, part: &Extent, row: u64) -> &'a [T]
    requires count { length numbers.now ≡ count_of whole.now }
    requires within { IsPart whole.now part.now }
    requires row { row < size_y part.now * size_z part.now }
    ensures value { result.now
        ≡ take (size_x part.now) (drop (row_start whole.now part.now row) numbers.now) }
    ensures below { row_start whole.now part.now row + size_x part.now ≤ length numbers.now }
{
    let (first, behind) = row_bounds(whole, part, row);
    &numbers[first as usize..behind as usize]
}

/// The numbers of all rows of the part.
fn rows_of<T: Number>(
    alloc: Global,
    numbers: &[T],
    whole: &Extent,
    part: &Extent,
) -> Result<Vec<T>, AllocError>
    requires count { length (map T.value numbers.now) ≡ count_of whole.now }
    requires within { IsPart whole.now part.now }
    ensures { IfOk result (λ v. AreRows whole.now part.now (size_y part.now * size_z part.now)
        (map T.value numbers.now) (map T.value v.items)) }
{
    let [_, _, y0, y1, z0, z1] = part.bounds();
    let rows = (u64::from(y1 - y0) + 1) * (u64::from(z1 - z0) + 1);
    let mut copy = Vec::with_capacity(alloc, part.count() as usize)?;
    for row in 0..rows {
        copy.extend_from_slice(row_of(numbers, whole, part, row))?;
    }
    Ok(copy)
}

/// The numbers of the part, as a column.
fn column_of<T: Number>(
    alloc: Global,
    numbers: &[T],
    whole: &Extent,
    part: &Extent,
) -> Result<Column, AllocError>
    requires count { length (map T.value numbers.now) ≡ count_of whole.now }
    requires within { IsPart whole.now part.now }
    ensures { IfOk result (AreRestricted whole.now part.now
        (record { kind = T.kind; items = map T.value numbers.now })) }
{
    let rows = rows_of(alloc, numbers, whole, part)?;
    Ok(Column::of(rows))
}

/// The numbers of the part, of whatever type they are.
pub(crate) fn restricted(
    alloc: Global,
    column: &Column,
    whole: &Extent,
    part: &Extent,
) -> Result<Column, AllocError>
    requires count { length column.now.items ≡ count_of whole.now }
    requires within { IsPart whole.now part.now }
    ensures { IfOk result (AreRestricted whole.now part.now column.now) }
{
    match column.slice() {
        Lent::I8(numbers) => column_of(alloc, numbers, whole, part),
        Lent::U8(numbers) => column_of(alloc, numbers, whole, part),
        Lent::I16(numbers) => column_of(alloc, numbers, whole, part),
        Lent::U16(numbers) => column_of(alloc, numbers, whole, part),
        Lent::I32(numbers) => column_of(alloc, numbers, whole, part),
        Lent::U32(numbers) => column_of(alloc, numbers, whole, part),
        Lent::I64(numbers) => column_of(alloc, numbers, whole, part),
        Lent::U64(numbers) => column_of(alloc, numbers, whole, part),
    }
}
