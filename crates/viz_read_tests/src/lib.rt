//! Readers of legacy files, against texts by hand: tests alone.
#![tactic(auto)]

#[cfg(test)]
mod file_mesh;
#[cfg(test)]
mod legacy_read;
#[cfg(test)]
mod legacy_read_meshes;
#[cfg(test)]
mod mesh_read;
#[cfg(test)]
mod mesh_read_faults;
