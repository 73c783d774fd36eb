//! Offsets in BINARY, straight from their bytes where each is a step behind the one before.

ghost use Rattle.std.specs.Prelude.{◌≡◌, ◌<◌, ◌≤◌, ◌^◌, ◌*◌, ◌+◌, length, true, IfSome};
ghost use Rattle.viz_column.specs.Kinds.{size_of};
ghost use Rattle.viz_offset_cells.specs.Blocks.{AreStepsIn, AreStepsNext};

use crate::blocks::{behind, rest};
use byteorder::{BigEndian, ByteOrder};
use viz_column::Kind8;
use viz_lex::Lexer;

/// Whether so many offsets stand in front of the bytes, each a step behind the one before.
#[inline(never)]
fn are_steps(bytes: &[u8], step: u64, most: u64) -> bool
    requires room { 8 * most ≤ length bytes.now }
    requires within { step * most < 2 ^ 63 }
    ensures { result ≡ true → AreStepsIn 0 step most bytes.now }
{
    let mut left = bytes;
    let mut offset = 0;
    for _ in 0..most {
        if BigEndian::read_u64(left) != offset {
            return false;
        }
        left = behind(left, 8);
        offset += step;
    }
    true
}

/// The step of so many offsets into so many indices, where they are next in 64 bits each, and each
/// is a step behind the one before.
pub(crate) fn next_step(lexer: &Lexer<'_>, kind: Kind8, most: u64, indices: u64) -> Option<u64>
    requires few { most < 2 ^ 31 }
    requires within { indices < 2 ^ 31 }
    ensures { IfSome result (λ step. AreStepsNext kind step most indices lexer.now) }
{
    if kind.size() != 8 || most < 2 || indices % (most - 1) != 0 {
        return None;
    }
    let step = indices / (most - 1);
    let left = rest(lexer);
    if (left.len() as u64) < 8 * most || !are_steps(left, step, most) {
        return None;
    }
    Some(step)
}
