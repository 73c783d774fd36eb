//! Counts of points, of cells and of their numbers.

ghost use Rattle.std.specs.Prelude.{◌≡◌, ◌<◌, ◌^◌, ◌||◌, ◌==◌, not, true, unsigned_abs};
ghost use Rattle.std.specs.Prelude.{IfOk};
ghost use Rattle.viz_lex.specs.Reading.{Reads};
ghost use Rattle.viz_attr.specs.Counts.{is_number, is_at_least, is_below};
ghost use Rattle.viz_attr.specs.Steps.{count_from_at};
ghost use Rattle.viz_counted_cells.specs.Steps.{section_size_at};

use viz_lex::{FileFault, FileKind, Lexer};

/// The largest count.
const MOST: i128 = 2_147_483_647;

fn is_natural(n: &i128) -> bool
    ensures { result ≡ is_at_least 0 n.now }
{
    *n >= 0
}

fn is_zero(n: &i128) -> bool
    ensures { result ≡ is_number 0 n.now }
{
    *n == 0
}

fn is_below_most(n: &i128) -> bool
    ensures { result ≡ is_below (2 ^ 31) n.now }
{
    *n <= MOST && *n >= -MOST
}

/// A count of at most 2^31 - 1: Count below 0, and TooMany above.
#[tactic(auto, unfolding(viz_attr::specs::Steps::count_from_at))]
pub fn count(lexer: &mut Lexer<'_>) -> Result<u64, FileFault>
    ensures read { Reads (λ n. n) result lexer.new (count_from_at 0 lexer.old) }
    ensures few { IfOk result (λ n. n < 2 ^ 31) }
{
    let (place, n) = lexer.due_number()?;
    if !is_natural(&n) {
        return Err(FileFault {
            kind: FileKind::Count,
            place,
        });
    }
    if !is_below_most(&n) {
        return Err(FileFault {
            kind: FileKind::TooMany,
            place,
        });
    }
    Ok(n as u64)
}

fn is_size(cells: u64, n: &i128) -> bool
    ensures value { result ≡ (not (cells == 0) || is_number 0 n.now) }
    ensures none { result ≡ true → cells ≡ 0 → unsigned_abs n.now ≡ 0 }
{
    cells != 0 || is_zero(n)
}

/// How many numbers so many cells have, or how many indices so many offsets cut: at most 2^31 - 1,
/// and Count below 0, and where there is no cell or offset and some number.
#[tactic(auto, unfolding(crate::specs::Steps::section_size_at))]
pub fn section_size(lexer: &mut Lexer<'_>, cells: u64) -> Result<u64, FileFault>
    ensures read { Reads (λ n. n) result lexer.new (section_size_at cells lexer.old) }
    ensures few { IfOk result (λ n. n < 2 ^ 31) }
    ensures none { IfOk result (λ n. cells ≡ 0 → n ≡ 0) }
{
    let (place, n) = lexer.due_number()?;
    if !is_natural(&n) {
        return Err(FileFault {
            kind: FileKind::Count,
            place,
        });
    }
    if !is_below_most(&n) {
        return Err(FileFault {
            kind: FileKind::TooMany,
            place,
        });
    }
    if !is_size(cells, &n) {
        return Err(FileFault {
            kind: FileKind::Count,
            place,
        });
    }
    Ok(n as u64)
}
