//! The type `Batch`.

ghost use Rattle.std.specs.Prelude.{◌≡◌, ◌↔◌, [], ◌∷◌, IsSome, IfSome};
ghost use Rattle.viz_batches.specs.Batches.{IsBatch};

use std::marker::Model;
use viz_network::Edit;

/// The greatest number of edits of a batch.
const BATCH: usize = 64;

// One edit has no list of its own, so that it costs what it costs alone.
#[derive(Debug, Drop)]
enum Edits {
    One(Edit),
    Several(Vec<Edit>),
}

/// 1 to 64 edits that take effect as one. Contracts see their list, in order.
#[derive(Debug, Drop)]
pub struct Batch {
    edits: Edits,
}

impl Model for Batch {
    ghost use Rattle.std.specs.Prelude.{List};
    ghost use Rattle.viz_network.specs.declared.edit.Edit.{Edit as Item};
    ghost use Rattle.viz_batches.specs.Batches.{IsBatch};
    ghost use Rattle.viz_batches.specs.Steps.Listed.{listed};

    ghost Value = { List Item };

    ghost view = { λ batch. listed batch.edits };

    ghost invariant = { λ batch. IsBatch (listed batch.edits) };
}

impl Batch {
    /// A batch of one edit. It takes no memory.
    pub fn one(edit: Edit) -> Batch
        ensures value { result ≡ edit ∷ [] }
    {
        Batch {
            edits: Edits::One(edit),
        }
    }

    /// A batch of these edits; `None` exactly where there is none, or more than 64.
    pub fn new(edits: Vec<Edit>) -> Option<Batch>
        ensures value { IfSome result (λ batch. batch ≡ edits.items) }
        ensures some { IsSome result ↔ IsBatch edits.items }
    {
        if edits.is_empty() || edits.len() > BATCH {
            return None;
        }
        Some(Batch {
            edits: Edits::Several(edits),
        })
    }

    /// The edits, in order.
    pub fn edits(&self) -> &[Edit]
        ensures value { result.now ≡ self.now }
        ensures sized { IsBatch self.now }
    {
        match &self.edits {
            Edits::One(edit) => std::slice::from_ref(edit),
            Edits::Several(edits) => edits,
        }
    }
}
