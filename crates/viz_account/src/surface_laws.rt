//! What audits keep. A law is a function that does nothing: its contract holds of the definitions
//! alone.

ghost use Rattle.viz_account.specs.SurfaceLaws.{AuditsAreClosed, AuditsAreOne};
ghost use Rattle.viz_account.specs.SurfaceLaws.{CutSurfacesAreClosed, SurfacesAreClosed};

use viz_node_meaning::scratch_is_one;
use viz_surface_law::{contours_are_closed, form_sections_are_closed};

/// Whatever an audit counts is closed up to the boundary of the image's grid, and so is each sheet
/// by itself; likewise each sheet of a plane cut of an image.
pub fn audits_are_closed()
    ensures closed { AuditsAreClosed }
    ensures surfaces { SurfacesAreClosed }
    ensures cuts { CutSurfacesAreClosed }
{
    scratch_is_one();
    contours_are_closed();
    form_sections_are_closed();
}

/// A node has one audit, or one fault of it.
pub fn audits_are_one()
    ensures one { AuditsAreOne }
{
    scratch_is_one();
}
