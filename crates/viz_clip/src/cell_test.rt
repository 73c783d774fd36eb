//! Whether the cells of a sheet are tetrahedra.
ghost use Rattle.std.specs.Prelude.{◌≡◌, ◌↔◌, All, IsTrue, length};
ghost use Rattle.viz_sheet.specs.Arrays.{ranks_in};

use viz_sheet::Ranks;

/// Each cell has four ranks.
pub(crate) fn are_tetrahedra(ranks: &Ranks) -> bool
    ensures value { IsTrue result ↔ All (λ cell. length cell ≡ 4) (ranks_in ranks.now) }
{
    for i in 0..ranks.len() {
        if !is_tetrahedron(ranks.get(i)) {
            return false;
        }
    }
    true
}

/// A cell has four ranks.
fn is_tetrahedron(cell: &[u32]) -> bool
    ensures value { IsTrue result ↔ (length cell.now ≡ 4) }
{
    cell.len() == 4
}
