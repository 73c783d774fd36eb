//! Writers of legacy files, against texts by hand, and what is written and read again: tests alone.
#![tactic(auto)]

#[cfg(test)]
mod image_again;
#[cfg(test)]
mod image_write;
#[cfg(test)]
mod image_write_image;
#[cfg(test)]
mod mesh_again;
#[cfg(test)]
mod mesh_later;
#[cfg(test)]
mod mesh_write;
