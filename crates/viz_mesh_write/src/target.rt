//! Where the text of a mesh goes.

ghost use Rattle.std.specs.Prelude.{◌≡◌, ◌≢◌, ◌++◌, [], ℕ, List, All, Err, OnOk, IsErrOf};
ghost use Rattle.std.specs.List.{flat_map};
ghost use Rattle.viz_sheet.specs.Arrays.{points_in, ranks_in};
ghost use Rattle.viz_mesh_write.specs.Fits.{FitRows};
ghost use Rattle.viz_mesh_write.specs.Steps.Kinds.{numbers_by, written_by};
ghost use Rattle.viz_mesh_write.specs.Steps.Passes.{IsMovable, point_rows};

use crate::cell_rows::OfCells;
use crate::point_rows::OfPoints;
use std::alloc::{AllocError, Global};
use viz_image_write::WriteStop;
use viz_sheet::{Places, Ranks};

/// Where the text of a mesh goes: its rows are made one after the other, or on workers.
pub(crate) trait Target {
    ghost text: { Self → List ℕ };

    /// What rows are made by, as threads: that they may be shared.
    ghost needs: { Type 0 };

    /// Where memory comes from.
    fn alloc(&self) -> Global;

    /// A line that is to be put, still empty.
    fn line(&self) -> Vec<u8>
        ensures { result.items ≡ [] };

    /// Puts a line behind the text.
    fn put(&mut self, line: Vec<u8>) -> Result<(), AllocError>
        ensures { OnOk result (text self.new ≡ text self.old ++ line.items) };

    /// Puts the rows of the points of one sheet behind the text.
    fn put_places(
        &mut self,
        binary: bool,
        what: &OfPoints,
        places: &Places,
    ) -> Result<(), WriteStop>
        requires { needs }
        ensures ok { OnOk result (text self.new
            ≡ text self.old ++ point_rows (numbers_by what.now) binary (points_in places.now)) }
        ensures fits { OnOk result (FitRows (numbers_by what.now) (points_in places.now)) }
        ensures too_wide { IsErrOf result WriteStop.TooWide
            → ¬ FitRows (numbers_by what.now) (points_in places.now) }
        ensures few { result ≢ Err WriteStop.TooMany };

    /// Puts the rows of cells behind the text, with so many points in front.
    fn put_ranks(
        &mut self,
        binary: bool,
        what: &OfCells,
        first: u32,
        ranks: &Ranks,
    ) -> Result<(), AllocError>
        requires needs { needs }
        requires movable { All (IsMovable first) (ranks_in ranks.now) }
        ensures { OnOk result (text self.new
            ≡ text self.old ++ flat_map (written_by what.now binary first) (ranks_in ranks.now)) };
}
