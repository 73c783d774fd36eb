//! Which array is the picked one.

ghost use Rattle.std.specs.Prelude.{◌≡◌};
ghost use Rattle.viz_attr.specs.Picks.{is_of_points, is_scalars, is_field, same_name, names};
ghost use Rattle.viz_attr.specs.Picks.{fits_pick, count_of};
ghost use Rattle.viz_attr.specs.Steps.{is_wanted, with_part};
ghost use Rattle.viz_attr.specs.Reads.{known_of, head_of, given_of};

use crate::parts::{Association, Files, Named, Progress, Sort};
use viz_base::Pick;

fn is_of_points(association: Association) -> bool
    ensures { result ≡ is_of_points association }
{
    match association {
        Association::Points => true,
        Association::Cells => false,
    }
}

fn is_scalars(sort: Sort) -> bool
    ensures { result ≡ is_scalars sort }
{
    match sort {
        Sort::Scalars => true,
        Sort::Field | Sort::Other => false,
    }
}

fn is_field(sort: Sort) -> bool
    ensures { result ≡ is_field sort }
{
    match sort {
        Sort::Field => true,
        Sort::Scalars | Sort::Other => false,
    }
}

fn same_name(a: &[u8], b: &[u8]) -> bool
    ensures { result ≡ same_name a.now b.now }
{
    a == b
}

fn names(pick: &Pick, points: u64, head: &Named<'_>) -> bool
    ensures { result ≡ names pick.now points (head_of head.now) }
{
    match pick {
        Pick::First => is_scalars(head.sort),
        Pick::Zero => false,
        Pick::Named(name) => {
            same_name(name.bytes(), head.name)
                && (is_scalars(head.sort) || (is_field(head.sort) && head.tuples == points))
        }
    }
}

fn fits_pick(files: &Files<'_>, head: &Named<'_>) -> bool
    ensures { result ≡ fits_pick (given_of files.now) (head_of head.now) }
{
    is_of_points(head.association) && names(files.pick, files.points, head)
}

/// Whether an array is the first that fits the pick.
pub(crate) fn is_wanted(files: &Files<'_>, progress: &Progress, head: &Named<'_>) -> bool
    ensures { result ≡ is_wanted (given_of files.now) (known_of progress.now) (head_of head.now) }
{
    fits_pick(files, head) && !progress.found
}

/// How many tuples an attribute of points, or of cells, has.
pub(crate) fn count_of(files: &Files<'_>, association: Association) -> u64
    ensures { result ≡ count_of (given_of files.now) association }
{
    match association {
        Association::Points => files.points,
        Association::Cells => files.cells,
    }
}
