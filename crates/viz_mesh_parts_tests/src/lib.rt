//! Filters of meshes on parts, by hand and against a plain slow program: tests alone.
#![tactic(auto)]

#[cfg(test)]
mod tests;
