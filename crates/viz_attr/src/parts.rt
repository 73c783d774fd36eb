//! What stands in attribute parts, and what is known of those before.

ghost use Rattle.std.specs.Prelude.{◌≡◌, None, false};

use viz_base::Pick;
use viz_column::Column;

/// Whose attributes these are: VTK's field association.
#[derive(Clone, Copy, PartialEq, Eq, Debug)]
pub enum Association {
    /// Behind POINT_DATA.
    Points,
    /// Behind CELL_DATA.
    Cells,
}

/// Which arrays a pick may name.
#[derive(Clone, Copy, PartialEq, Eq, Debug)]
pub enum Sort {
    /// An array of SCALARS.
    Scalars,
    /// An array of a FIELD.
    Field,
    /// Any other array.
    Other,
}

/// What is known of a file in front of its attribute parts, and which array is asked for.
#[derive(Drop)]
pub(crate) struct Files<'a> {
    pub binary: bool,
    pub points: u64,
    pub cells: u64,
    pub pick: &'a Pick,
}

/// What stands in front of an array's values.
#[derive(Drop)]
pub(crate) struct Named<'a> {
    pub association: Association,
    pub sort: Sort,
    pub name: &'a [u8],
    pub tuples: u64,
}

/// What is known of the parts before: whose attributes stand behind the last POINT_DATA or
/// CELL_DATA, whether an array fitted the pick, and the numbers of the first that did.
#[derive(Drop)]
pub(crate) struct Progress {
    pub association: Option<Association>,
    pub found: bool,
    pub picked: Option<Column>,
}
