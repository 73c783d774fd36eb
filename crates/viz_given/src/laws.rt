//! Laws of meshes that nodes give. A law is a function that does nothing: its contract holds of the
//! definitions alone.

ghost use Rattle.viz_given.specs.Given.{AllAreFit, AllAreLeveled};

use viz_file_mesh::read_pieces_are_cells;
use viz_kuhn::{corners_are_the_cubes, edges_are_steps};
use viz_meaning::sections_are_sheets;
use viz_mesh_meaning::{
    boundaries_have_facets, filters_fit, merges_are_sheets, selections_are_cell_by_cell,
};

/// Each sheet of a mesh that a node gives has names of one level, and fits.
pub fn given_meshes_are_leveled()
    ensures leveled { AllAreLeveled }
    ensures fit { AllAreFit }
{
    corners_are_the_cubes();
    edges_are_steps();
    read_pieces_are_cells();
    sections_are_sheets();
    selections_are_cell_by_cell();
    boundaries_have_facets();
    merges_are_sheets();
    filters_fit();
}
