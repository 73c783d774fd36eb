//! The type `Rows`.

ghost use Rattle.std.specs.Prelude.{◌≡◌, ◌<◌, ◌++◌, [], ◌∷◌, IfOk, OnOk, length, slice_index_or};

use std::alloc::{AllocError, Global};
use std::marker::Model;

/// Where a row begins and ends in an array.
#[derive(Clone, Copy, Debug)]
pub(crate) struct Span {
    pub(crate) start: usize,
    pub(crate) end: usize,
}

/// Rows of names, one behind the other in one array. Contracts see a list of rows.
#[derive(Debug, Drop)]
pub struct Rows {
    names: Vec<u32>,
    spans: Vec<Span>,
}

impl Model for Rows {
    ghost use Rattle.std.specs.Prelude.{ℕ, List, All, length, map};
    ghost use Rattle.viz_strip.specs.Steps.Rows.{LiesWithin, row_in};

    ghost Value = { List (List ℕ) };

    ghost view = { λ r. map (row_in r.names.items) r.spans.items };

    ghost invariant = { λ r. All (LiesWithin (length r.names.items)) r.spans.items };
}

impl Rows {
    /// No rows, with room for so many names.
    pub fn with_room(alloc: Global, names: usize) -> Result<Rows, AllocError>
        ensures value { IfOk result (λ r. r ≡ []) }
    {
        Ok(Rows {
            names: Vec::with_capacity(alloc, names)?,
            spans: Vec::new(alloc),
        })
    }

    /// Puts a row behind the others.
    pub fn push(&mut self, row: &[u32]) -> Result<(), AllocError>
        ensures value { OnOk result (self.new ≡ self.old ++ row.now ∷ []) }
    {
        let start = self.names.len();
        self.names.extend_from_slice(row)?;
        let end = self.names.len();
        self.spans.push(Span { start, end })?;
        Ok(())
    }

    /// How many rows.
    pub fn len(&self) -> usize
        ensures value { result ≡ length self.now }
    {
        self.spans.len()
    }

    /// The names of a row.
    pub fn get(&self, index: usize) -> &[u32]
        requires { index < length self.now }
        ensures value { result.now ≡ slice_index_or self.now index [] }
    {
        let span = self.spans[index];
        &self.names[span.start..span.end]
    }
}
