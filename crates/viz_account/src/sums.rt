//! The counts of all sheets.

ghost use Rattle.std.specs.Prelude.{◌≡◌, ◌+◌, All, IfOk};
ghost use Rattle.viz_surface_law.specs.Surfaces.{IsSurface};
ghost use Rattle.viz_account.specs.Audited.{AreSums};
ghost use Rattle.viz_account.specs.Steps.Ground.{IsAdded};

use std::alloc::{AllocError, Global};
use viz_extent::Extent;
use viz_sheet::Sheet;
use viz_surface_law::{Counts, audit};

fn plus(a: u64, b: u64) -> Result<u64, AllocError>
    ensures { IfOk result (λ n. n ≡ a + b) }
{
    match a.checked_add(b) {
        Some(n) => Ok(n),
        None => Err(AllocError),
    }
}

// The numbers of both together. More sides than 64 bits have fit no memory.
fn added(a: &Counts, b: &Counts) -> Result<Counts, AllocError>
    ensures { IfOk result (IsAdded a.now b.now) }
{
    let sides = plus(a.sides, b.sides)?;
    let two = plus(a.two, b.two)?;
    let lone = plus(a.lone, b.lone)?;
    let border = plus(a.border, b.border)?;
    Ok(Counts {
        sides,
        two,
        lone,
        border,
    })
}

/// The counts of all sheets, each of them audited by itself.
pub fn audit_all(alloc: Global, sheets: &[Sheet], whole: &Extent) -> Result<Counts, AllocError>
    requires { All (IsSurface whole.now) sheets.now }
    ensures { IfOk result (AreSums whole.now sheets.now) }
{
    let mut total = Counts {
        sides: 0,
        two: 0,
        lone: 0,
        border: 0,
    };
    for sheet in sheets {
        let counts = audit(alloc, sheet, whole)?;
        total = added(&total, &counts)?;
    }
    Ok(total)
}
