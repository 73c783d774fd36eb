//! Copies of the edits of commands, which the history keeps.

ghost use Rattle.std.specs.Prelude.{◌≡◌, IfOk};

use std::alloc::{AllocError, Global};
use viz_batches::Batch;
use viz_network::Edit;

/// The same edit. A load's bytes are shared.
pub fn copy_of(edit: &Edit) -> Result<Edit, AllocError>
    ensures { IfOk result (λ copy. copy ≡ edit.now) }
{
    match edit {
        Edit::Add { kind, node } => Ok(Edit::Add {
            kind: *kind,
            node: *node,
        }),
        Edit::Remove { node } => Ok(Edit::Remove { node: *node }),
        Edit::Connect { from, to, port } => Ok(Edit::Connect {
            from: *from,
            to: *to,
            port: *port,
        }),
        Edit::Disconnect { to, port } => Ok(Edit::Disconnect {
            to: *to,
            port: *port,
        }),
        Edit::Set { node, param, value } => Ok(Edit::Set {
            node: *node,
            param: *param,
            value: *value,
        }),
        Edit::Load { node, file } => Ok(Edit::Load {
            node: *node,
            file: file.copy()?,
        }),
    }
}

// The same edits.
fn copies_of(alloc: Global, edits: &[Edit]) -> Result<Vec<Edit>, AllocError>
    ensures { IfOk result (λ copies. copies.items ≡ edits.now) }
{
    let mut copies = Vec::with_capacity(alloc, edits.len())?;
    for edit in edits {
        copies.push(copy_of(edit)?)?;
    }
    Ok(copies)
}

/// The same batch.
pub fn copy_all(alloc: Global, batch: &Batch) -> Result<Batch, AllocError>
    ensures { IfOk result (λ copy. copy ≡ batch.now) }
{
    let copies = copies_of(alloc, batch.edits())?;
    Batch::new(copies).ok_or(AllocError)
}
