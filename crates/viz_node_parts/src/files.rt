//! All of what a loaded file is read as, as one part.

ghost use Rattle.std.specs.Prelude.{Err, IfErr, IfOk};
ghost use Rattle.viz_node_meaning.specs.Data.{IsReadingOf, unit_with};
ghost use Rattle.viz_node_parts.specs.Made.{IsFilePart, MayStop};

use std::alloc::Global;
use viz_base::{Bytes, Pick, Shared};
use viz_kept::whole_part;
use viz_node_rules::{OwnStop, file_dataset};
use viz_parts::Part;

/// All of what a loaded file is read as.
pub fn file_part(
    alloc: Global,
    file: &Option<Shared<Bytes>>,
    array: &Pick,
    unit: u8,
) -> Result<Part, OwnStop>
    ensures made { IfOk result (IsFilePart array.now (unit_with unit) file.now) }
    ensures cause { IfErr result (MayStop (λ cause.
        IsReadingOf array.now (unit_with unit) file.now (Err cause))) }
{
    let dataset = file_dataset(alloc, file, array, unit)?;
    let (_, part) = whole_part(alloc, dataset)?;
    Ok(part)
}
