//! Filters of images, against values by hand and a plain slow program: tests alone.
#![tactic(auto)]

#[cfg(test)]
mod image_ops;
#[cfg(test)]
mod image_ops_smooth;
#[cfg(test)]
mod image_ops_window;
#[cfg(test)]
mod test_images;
