//! The image of a file, behind its header.

ghost use Rattle.std.specs.Prelude.{◌≡◌, ◌≤◌, None, IfOk};
ghost use Rattle.viz_dataset.specs.Images.{IsImage};
ghost use Rattle.viz_legacy_read.specs.ImageFile.{cells_along, cells_of, numbers_or_zeros};
ghost use Rattle.viz_legacy_read.specs.Steps.{image_behind_at};
ghost use Rattle.viz_legacy_read.specs.Reads.{image_seen, HasLimits, ReadsUnlessMemory};

use crate::lines::ImageHeader;
use crate::stop::ReadStop;
use std::alloc::{AllocError, Global};
use viz_attr::attributes;
use viz_base::Pick;
use viz_column::Column;
use viz_dataset::Image;
use viz_extent::Extent;
use viz_lex::Lexer;

/// The cells along an axis: one fewer than points, and one where there is one point.
fn cells_along(lower: u32, upper: u32) -> u64
    requires { lower ≤ upper }
    ensures { result ≡ cells_along lower upper }
{
    u64::from((upper - lower).max(1))
}

/// The cells of an extent.
fn cells_of(whole: &Extent) -> u64
    ensures { result ≡ cells_of whole.now }
{
    let bounds = whole.bounds();
    let _count = whole.count();
    let x = cells_along(bounds[0], bounds[1]);
    let y = cells_along(bounds[2], bounds[3]);
    let z = cells_along(bounds[4], bounds[5]);
    x * y * z
}

/// A column of zeros, of a byte each.
#[tactic(auto, using(crate::proofs::ReadLaws::zeros_are))]
fn zeros(alloc: Global, points: u64) -> Result<Column, AllocError>
    ensures { IfOk result (λ c. c ≡ numbers_or_zeros points None) }
{
    let mut zeros: Vec<u8> = Vec::new(alloc);
    let Ok(points) = usize::try_from(points) else {
        return Err(AllocError);
    };
    zeros.resize(points, 0)?;
    Ok(Column::of(zeros))
}

/// The column that was picked, or zeros.
fn column_or_zeros(alloc: Global, picked: Option<Column>, points: u64) -> Result<Column, AllocError>
    ensures { IfOk result (λ c. c ≡ numbers_or_zeros points picked) }
{
    match picked {
        Some(column) => Ok(column),
        None => zeros(alloc, points),
    }
}

/// The image behind its header.
#[tactic(auto, unfolding(crate::specs::Steps::image_behind_at))]
pub(crate) fn image_behind(
    alloc: Global,
    lexer: &mut Lexer<'_>,
    header: &ImageHeader,
    pick: &Pick,
) -> Result<Image, ReadStop>
    requires { HasLimits header.now }
    ensures read { ReadsUnlessMemory (λ i. i) result lexer.new
        (image_behind_at pick.now (image_seen header.now) lexer.old) }
    ensures valid { IfOk result IsImage }
{
    let points = header.whole.count();
    let cells = cells_of(&header.whole);
    let picked = attributes(alloc, lexer, header.binary, points, cells, pick)?;
    let column = column_or_zeros(alloc, picked, points)?;
    Ok(Image::new(header.whole, header.origin, header.spacing, column))
}
