//! Laws of the facets of a grid and of the sides of a section. A function that calls one may rest
//! on it.

ghost use Rattle.viz_surface_law.specs.Audit.{AuditsAgree};
ghost use Rattle.viz_surface_law.specs.Closed.{SectionsAreClosed};
ghost use Rattle.viz_surface_law.specs.Contours.{ContourSidesAddUp, ContoursAreClosed};
ghost use Rattle.viz_surface_law.specs.Contours.{ContoursAreSurfaces, LoneSidesAreBorders};
ghost use Rattle.viz_surface_law.specs.Facets.{FacetsAreShared};
ghost use Rattle.viz_surface_law.specs.FormSections.{FormSectionsAreClosed, FormSectionsAreOfGrid};
ghost use Rattle.viz_surface_law.specs.FormSections.{FormSectionsAreSurfaces, FormSidesAddUp};
ghost use Rattle.viz_surface_law.specs.FormSections.{LoneFormSidesAreBorders};

/// A facet inside the grid lies in exactly two tetrahedra, one on the boundary in exactly one.
pub fn facets_are_shared()
    ensures shared { FacetsAreShared }
{}

/// Whichever points are inside, each side of a triangle of the section lies in exactly two
/// triangles that run through it in opposite directions, or in exactly one, and in one exactly
/// where its facet lies on the boundary of the grid.
pub fn sections_are_closed()
    ensures closed { SectionsAreClosed }
    ensures audit { AuditsAgree }
{}

/// So it is for the section of an image by each linear form, and its audit says so. A plane cut of
/// an image is one, and so is a contour.
pub fn form_sections_are_closed()
    ensures closed { FormSectionsAreClosed }
    ensures sides { FormSidesAddUp }
    ensures lone { LoneFormSidesAreBorders }
    ensures surface { FormSectionsAreSurfaces }
    ensures grid { FormSectionsAreOfGrid }
{}

/// So it is for the contour of an image at each level, and its audit says so.
pub fn contours_are_closed()
    ensures closed { ContoursAreClosed }
    ensures sides { ContourSidesAddUp }
    ensures lone { LoneSidesAreBorders }
    ensures surface { ContoursAreSurfaces }
{}
