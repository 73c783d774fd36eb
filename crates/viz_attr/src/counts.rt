//! Counts in an attribute part.

ghost use Rattle.std.specs.Prelude.{◌≡◌, ◌<◌, ◌≤◌, ◌^◌, ◌&&◌, IfOk, unsigned_abs};
ghost use Rattle.viz_lex.specs.Reading.{Reads};
ghost use Rattle.viz_attr.specs.Counts.{is_number, is_at_least, is_below};
ghost use Rattle.viz_attr.specs.Steps.{count_from_at, dimension_at, same_count_at, components_at};

use viz_lex::{FileFault, FileKind, Lexer};

/// The largest count.
const MOST: i128 = 2_147_483_647;

fn is_number(count: u64, n: &i128) -> bool
    ensures { result ≡ is_number count n.now }
{
    *n == i128::from(count)
}

fn is_at_least(least: u64, n: &i128) -> bool
    ensures { result ≡ is_at_least least n.now }
{
    *n >= i128::from(least)
}

fn is_below_most(n: &i128) -> bool
    ensures { result ≡ is_below (2 ^ 31) n.now }
{
    *n <= MOST && *n >= -MOST
}

/// A count of at least so much, and of at most 2^31 - 1: Count below, and TooMany above.
#[tactic(auto, unfolding(crate::specs::Steps::count_from_at))]
pub(crate) fn count_from(lexer: &mut Lexer<'_>, least: u64) -> Result<u64, FileFault>
    ensures read { Reads (λ n. n) result lexer.new (count_from_at least lexer.old) }
    ensures some { IfOk result (λ n. least ≤ n) }
    ensures few { IfOk result (λ n. n < 2 ^ 31) }
{
    let (place, n) = lexer.due_number()?;
    if !is_at_least(least, &n) {
        return Err(FileFault {
            kind: FileKind::Count,
            place,
        });
    }
    if !is_below_most(&n) {
        return Err(FileFault {
            kind: FileKind::TooMany,
            place,
        });
    }
    Ok(n as u64)
}

fn is_dimension(n: &i128) -> bool
    ensures { result ≡ is_at_least 1 n.now && is_below 4 n.now }
{
    *n >= 1 && *n <= 3
}

/// A count from 1 to 3: else Count.
#[tactic(auto, unfolding(crate::specs::Steps::dimension_at))]
pub(crate) fn dimension(lexer: &mut Lexer<'_>) -> Result<u64, FileFault>
    ensures read { Reads (λ n. n) result lexer.new (dimension_at lexer.old) }
    ensures some { IfOk result (λ n. 1 ≤ n) }
    ensures few { IfOk result (λ n. n < 2 ^ 31) }
{
    let (place, n) = lexer.due_number()?;
    if !is_dimension(&n) {
        return Err(FileFault {
            kind: FileKind::Count,
            place,
        });
    }
    Ok(n as u64)
}

/// This very count again: else Count.
#[tactic(auto, unfolding(crate::specs::Steps::same_count_at))]
pub(crate) fn same_count(lexer: &mut Lexer<'_>, count: u64) -> Result<(), FileFault>
    ensures { Reads (λ done. done) result lexer.new (same_count_at count lexer.old) }
{
    let (place, n) = lexer.due_number()?;
    if !is_number(count, &n) {
        return Err(FileFault {
            kind: FileKind::Count,
            place,
        });
    }
    Ok(())
}

/// How many components the values of SCALARS have: 1 where no word stands on the same line.
#[tactic(auto, unfolding(crate::specs::Steps::components_at))]
pub(crate) fn components(lexer: &mut Lexer<'_>) -> Result<u64, FileFault>
    ensures read { Reads (λ n. n) result lexer.new (components_at lexer.old) }
    ensures some { IfOk result (λ n. 1 ≤ n) }
    ensures few { IfOk result (λ n. n < 2 ^ 31) }
{
    if lexer.is_beside() {
        let n = count_from(lexer, 1)?;
        return Ok(n);
    }
    Ok(1)
}
