//! Rows in parts, each of which is a task for a worker.

ghost use Rattle.std.specs.Prelude.{◌≡◌, ◌<◌, ◌≤◌, ◌*◌, ℕ, length};
ghost use Rattle.viz_mesh_write.specs.Steps.Parts.{part_of};

/// So many rows are a part.
pub(crate) const PART: usize = 16_384;

/// How many parts so many rows have.
pub(crate) fn parts_of(rows: usize) -> u64
    ensures enough { rows ≤ result * 16384 }
    ensures each { (t : ℕ) → t < result → t * 16384 < rows }
    ensures few { result ≤ rows }
{
    rows.div_ceil(PART) as u64
}

/// The rows of the part of this number.
pub(crate) fn part_at<X>(items: &[X], part: u64) -> &[X]
    requires { part * 16384 < length items.now }
    ensures { result.now ≡ part_of items.now part }
{
    let rest = &items[part as usize * PART..];
    &rest[..PART.min(rest.len())]
}
