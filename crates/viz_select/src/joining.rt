//! Meshes joined.

ghost use Rattle.std.specs.Prelude.{◌≡◌, ◌++◌, IfOk, OnOk};
ghost use Rattle.viz_mesh_meaning.specs.Append.{appended};

use std::alloc::{AllocError, Global};
use viz_sheet::{Mesh, Sheet};

/// The sheets of all meshes, in the order of the meshes. The meshes are given up: no cell and no
/// point is copied. Of a mesh that is only lent, `copied_sheets` makes one first.
pub fn append(alloc: Global, meshes: Vec<Mesh>) -> Result<Mesh, AllocError>
    ensures value { IfOk result (λ mesh. mesh ≡ appended meshes.items) }
{
    let mut sheets = Vec::new(alloc);
    let mut left = meshes;
    left.reverse();
    while let Some(mesh) = left.pop() {
        push_sheets(&mut sheets, mesh)?;
    }
    Ok(Mesh::new(sheets))
}

/// Adds the sheets of one mesh.
fn push_sheets(sheets: &mut Vec<Sheet>, mesh: Mesh) -> Result<(), AllocError>
    ensures { OnOk result (sheets.new.items ≡ sheets.old.items ++ mesh) }
{
    let mut more = mesh.into_sheets();
    sheets.append(&mut more)?;
    Ok(())
}
