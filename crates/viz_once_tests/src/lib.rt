//! Commands of one file over files in memory, against texts and counts by hand: tests alone.
#![tactic(auto)]

#[cfg(test)]
mod contour_texts;
#[cfg(test)]
mod contours;
#[cfg(test)]
mod image_files;
#[cfg(test)]
mod mesh_files;
#[cfg(test)]
mod once;
#[cfg(test)]
mod reshapes;
#[cfg(test)]
mod runs;
