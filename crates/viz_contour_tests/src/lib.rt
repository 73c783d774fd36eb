//! Contours, their flags, and audits of surfaces, against grids by hand: tests alone.
#![tactic(auto)]

#[cfg(test)]
mod audited_contours;
#[cfg(test)]
mod audits;
#[cfg(test)]
mod contours;
#[cfg(test)]
mod facets;
#[cfg(test)]
mod flags;
