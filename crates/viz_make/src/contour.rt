//! The contour of a made volume, as an update by its plan gives it, and its audit.

ghost use Rattle.std.specs.Prelude.{◌≡◌, ◌+◌, [], ◌∷◌, IfOk, length};
ghost use Rattle.viz_dataset.specs.declared.dataset.Dataset.TheVariants.{Mesh};
ghost use Rattle.viz_surface_law.specs.Audit.{count_sides, count_two, count_lone, count_border};
ghost use Rattle.viz_make.specs.Make.{contour_of, volume_text};
ghost use Rattle.viz_make.specs.Steps.Contouring.{IsWritable, contour_again};
ghost use Rattle.viz_make.specs.Views.{make_of};

use crate::network::{CONTOUR, network_with};
use crate::serving::Make;
use std::alloc::{AllocError, Global};
use std::thread::Threads;
use viz_base::{Bytes, Gate, Shape, Shared};
use viz_dataset::Dataset;
use viz_executive::produce;
use viz_grid_section::contours_are_sections;
use viz_plan_law::plans_fit;
use viz_round_trip::nothing_else_is_read;
use viz_sheet::Sheet;
use viz_surface_law::{Counts, audit, contours_are_closed};

/// In how many pieces the contour is made, and by how many workers.
const SHAPE: Shape = Shape {
    pieces: 8,
    workers: 4,
};

/// What the contour's node gives in the network of the volume's text.
fn contour_given<R: Threads + Sync, G: Gate + Sync>(
    rt: &R,
    alloc: Global,
    _command: &Make<'_>,
    text: Shared<Bytes>,
    gate: &G,
) -> Result<Dataset, AllocError>
    requires text { text ≡ volume_text (make_of _command.now) }
    requires writable { IsWritable (make_of _command.now) }
    ensures { IfOk result (λ d. d ≡ Mesh (contour_again (make_of _command.now) ∷ [])) }
{
    plans_fit();
    nothing_else_is_read();
    let net = network_with(alloc, text)?;
    match produce(rt, alloc, &net, &[], CONTOUR, &SHAPE, gate) {
        Ok(produced) => Ok(produced.dataset),
        // No fault can come, by `nothing_else_is_read` and `volumes_are_narrow`: the text is read,
        // and its contour isn't wide. One would be told as want of memory.
        Err(_) => Err(AllocError),
    }
}

/// The sheet that the contour is.
fn only_sheet<'a>(dataset: &'a Dataset, _command: &Make<'_>) -> &'a Sheet
    requires contour { dataset.now ≡ Mesh (contour_again (make_of _command.now) ∷ []) }
    ensures { result.now ≡ contour_again (make_of _command.now) }
{
    let Dataset::Mesh(mesh) = dataset else {
        unreachable!();
    };
    let [sheet] = mesh.sheets() else {
        unreachable!();
    };
    sheet
}

/// The audit of the contour of a volume at the middle, and how many triangles it has, by its text:
/// the contour is what an update gives, and so it is made as the program makes all contours.
pub fn audited<R: Threads + Sync, G: Gate + Sync>(
    rt: &R,
    alloc: Global,
    command: &Make<'_>,
    text: Shared<Bytes>,
    gate: &G,
) -> Result<(Counts, u64), AllocError>
    requires text { text ≡ volume_text (make_of command.now) }
    requires writable { IsWritable (make_of command.now) }
    ensures cells { IfOk result (λ r. r.1 ≡ length (contour_of (make_of command.now))) }
    ensures sides { IfOk result (λ r. r.0.sides ≡ count_sides (contour_of (make_of command.now))) }
    ensures two { IfOk result (λ r. r.0.two ≡ count_two (contour_of (make_of command.now))) }
    ensures lone { IfOk result (λ r. r.0.lone ≡ count_lone (contour_of (make_of command.now))) }
    ensures border { IfOk result (λ r. r.0.border
        ≡ count_border command.now.extent (contour_of (make_of command.now))) }
    ensures closed { IfOk result (λ r. (r.0.sides ≡ r.0.two + r.0.border)
        × (r.0.lone ≡ r.0.border)) }
{
    contours_are_closed();
    contours_are_sections();
    let dataset = contour_given(rt, alloc, command, text, gate)?;
    let sheet = only_sheet(&dataset, command);
    let counts = audit(alloc, sheet, &command.extent)?;
    Ok((counts, sheet.cell_count() as u64))
}
