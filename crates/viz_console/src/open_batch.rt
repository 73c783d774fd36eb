//! The batch that a session has open.

ghost use Rattle.std.specs.Prelude.{◌≡◌, ◌==◌, false, option_map, IfOk, None};
ghost use Rattle.viz_script.specs.Batches.{is_endless, is_full};
ghost use Rattle.viz_script.specs.Orders.{seen};
ghost use Rattle.viz_console.specs.Lines.{breaks_batch, batch_behind, completed, ends, asks};
ghost use Rattle.viz_console.specs.Steps.Heard.{heard};

use crate::line::Said;
use std::alloc::{AllocError, Global};
use std::marker::Model;
use viz_batches::Batch;
use viz_network::Edit;
use viz_script::Order;

/// The greatest number of edits of a batch.
const BATCH: usize = 64;

/// The edits of the open batch so far, if one is open.
#[derive(Debug, Drop)]
pub struct OpenBatch {
    edits: Option<Vec<Edit>>,
}

impl Model for OpenBatch {
    ghost use Rattle.std.specs.Prelude.{List, Option, option_map};
    ghost use Rattle.viz_network.specs.declared.edit.Edit.{Edit as Item};
    ghost use Rattle.viz_console.specs.Steps.Heard.{IsSized};

    ghost Value = { Option (List Item) };

    ghost view = { λ held. option_map (λ v. v.items) held.edits };

    ghost invariant = { λ held. IsSized (option_map (λ v. v.items) held.edits) };
}

impl OpenBatch {
    /// No batch is open.
    pub fn none() -> OpenBatch
        ensures { result ≡ None }
    {
        OpenBatch { edits: None }
    }

    // Whether there is no batch to be ended: none is open, or it has no edit.
    fn is_endless(&self) -> bool
        ensures { result ≡ is_endless self.now }
    {
        match &self.edits {
            None => true,
            Some(edits) => edits.len() == 0,
        }
    }

    // Whether there is a batch that takes no more edits.
    fn is_full(&self) -> bool
        ensures { result ≡ is_full self.now }
    {
        match &self.edits {
            None => false,
            Some(edits) => edits.len() == BATCH,
        }
    }

    /// Whether this may not be said for the sake of the batch.
    pub fn refuses(&self, said: &Said) -> bool
        ensures { result ≡ breaks_batch self.now (heard said.now) }
    {
        match said {
            Said::Nothing => false,
            Said::Quit | Said::Begin => self.edits.is_some(),
            Said::End => self.is_endless(),
            Said::Order(Order::Do(_)) => self.is_full(),
            Said::Order(_) => self.edits.is_some(),
        }
    }

    // Ends the batch, which is a command.
    fn end(&mut self) -> Option<Order>
        requires batch { is_endless self.old ≡ false }
        ensures order { option_map seen result ≡ completed self.old ends }
        ensures after { self.new ≡ None }
    {
        match self.edits.take() {
            None => None,
            Some(edits) => match Batch::new(edits) {
                Some(batch) => Some(Order::DoAll(batch)),
                None => None,
            },
        }
    }

    // Takes an edit into the batch, where one is open. Else the order is a command.
    fn ask(&mut self, order: Order) -> Result<Option<Order>, AllocError>
        requires may { breaks_batch self.old (asks (seen order)) ≡ false }
        ensures order { IfOk result (λ done. option_map seen done
            ≡ completed self.old (asks (seen order))) }
        ensures after { IfOk result (λ done. self.new
            ≡ batch_behind self.old (asks (seen order))) }
    {
        match (&mut self.edits, order) {
            (None, order) => Ok(Some(order)),
            (Some(edits), Order::Do(edit)) => {
                edits.push(edit)?;
                Ok(None)
            }
            (Some(_), _) => Ok(None),
        }
    }

    /// Takes what was said, and gives the command that it completes.
    pub fn take(&mut self, alloc: Global, said: Said) -> Result<Option<Order>, AllocError>
        requires may { breaks_batch self.old (heard said) ≡ false }
        ensures order { IfOk result (λ done. option_map seen done
            ≡ completed self.old (heard said)) }
        ensures after { IfOk result (λ done. self.new ≡ batch_behind self.old (heard said)) }
    {
        match said {
            Said::Nothing | Said::Quit => Ok(None),
            Said::Begin => {
                self.edits = Some(Vec::new(alloc));
                Ok(None)
            }
            Said::End => Ok(self.end()),
            Said::Order(order) => self.ask(order),
        }
    }
}
