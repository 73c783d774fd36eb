//! Strips of few triangles, and texts with strips, by hand: tests alone.
#![tactic(auto)]

#[cfg(test)]
mod flat;
#[cfg(test)]
mod strips;
#[cfg(test)]
mod texts;
