//! The three header lines of an image.

ghost use Rattle.std.specs.Prelude.{◌≡◌, ◌≤◌, ◌*◌, ◌^◌, nat_lt, nat_le, if◌then◌else◌, IfOk};
ghost use Rattle.std.specs.Prelude.{IfSome, Some, None, unsigned_abs};
ghost use Rattle.viz_extent.specs.Extent.{IsExtent};
ghost use Rattle.viz_dataset.specs.Images.{vector_of, IsOrigin, IsStep, IsSpacing};
ghost use Rattle.viz_attr.specs.Counts.{is_at_least};
ghost use Rattle.viz_lex.specs.Reading.{Reads};
ghost use Rattle.viz_legacy_read.specs.Header.{whole_of, is_above};
ghost use Rattle.viz_legacy_read.specs.Steps.{size_at, sizes_at, origin_at, step_at, spacing_at};
ghost use Rattle.viz_legacy_read.specs.Steps.{behind_at};
ghost use Rattle.viz_legacy_read.specs.Reads.{lines_of, AreWithin};

use viz_extent::Extent;
use viz_lex::{FileFault, FileKind, Lexer, is_word, keyword_fault};

/// The lines so far: the whole extent, and the origin and the spacing in billionths.
#[derive(Clone, Copy)]
pub(crate) struct Lines {
    pub whole: Option<Extent>,
    pub origin: Option<[i128; 3]>,
    pub spacing: Option<[i128; 3]>,
}

/// What stands in front of the attribute parts.
#[derive(Clone, Copy)]
pub(crate) struct ImageHeader {
    pub binary: bool,
    pub whole: Extent,
    pub origin: [i128; 3],
    pub spacing: [i128; 3],
}

fn is_some(n: &i128) -> bool
    ensures { result ≡ is_at_least 1 n.now }
{
    *n >= 1
}

/// A size of at least 1, with its place: else Count.
#[tactic(auto, unfolding(crate::specs::Steps::size_at))]
fn size(lexer: &mut Lexer<'_>) -> Result<(u64, u128), FileFault>
    ensures read { Reads (λ n. n) result lexer.new (size_at lexer.old) }
    ensures some { IfOk result (λ n. 1 ≤ n.1) }
{
    let (place, n) = lexer.due_number()?;
    if !is_some(&n) {
        return Err(FileFault {
            kind: FileKind::Count,
            place,
        });
    }
    Ok((place, n.unsigned_abs()))
}

/// The extent of so many points along each axis, where there are at most 2^31 - 1.
fn whole(x: u128, y: u128, z: u128) -> Option<Extent>
    requires some_x { 1 ≤ x }
    requires some_y { 1 ≤ y }
    requires some_z { 1 ≤ z }
    ensures { result ≡ (if nat_lt (x * y * z) (2 ^ 31) then Some (whole_of x y z) else None) }
{
    let x = u32::try_from(x).ok()?;
    let y = u32::try_from(y).ok()?;
    let z = u32::try_from(z).ok()?;
    Extent::new([0, x - 1, 0, y - 1, 0, z - 1])
}

/// The whole extent, behind DIMENSIONS.
#[tactic(auto, unfolding(crate::specs::Steps::sizes_at))]
fn sizes(lexer: &mut Lexer<'_>) -> Result<Extent, FileFault>
    ensures { Reads (λ whole. whole) result lexer.new (sizes_at lexer.old) }
{
    let (_, x) = size(lexer)?;
    let (_, y) = size(lexer)?;
    let (place, z) = size(lexer)?;
    match whole(x, y, z) {
        Some(whole) => Ok(whole),
        None => Err(FileFault {
            kind: FileKind::TooMany,
            place,
        }),
    }
}

/// The origin, behind ORIGIN.
#[tactic(auto, unfolding(crate::specs::Steps::origin_at))]
fn origin(lexer: &mut Lexer<'_>) -> Result<[i128; 3], FileFault>
    ensures read { Reads vector_of result lexer.new (origin_at lexer.old) }
    ensures within { IfOk result (λ v. IsOrigin (vector_of v)) }
{
    let (_, x) = lexer.due_decimal()?;
    let (_, y) = lexer.due_decimal()?;
    let (_, z) = lexer.due_decimal()?;
    Ok([x, y, z])
}

/// The greatest step between points, in billionths.
const WIDEST: u128 = 1_000_000_000_000_000_000;

fn is_within(n: &i128) -> bool
    ensures { result ≡ nat_le (unsigned_abs n.now) (10 ^ 18) }
{
    n.unsigned_abs() <= WIDEST
}

fn is_above(n: &i128) -> bool
    ensures { result ≡ is_above n.now }
{
    *n > 0
}

/// One step between points: HeaderNumber past the limit, and then Spacing where it isn't positive.
#[tactic(auto, unfolding(crate::specs::Steps::step_at))]
fn step(lexer: &mut Lexer<'_>) -> Result<i128, FileFault>
    ensures read { Reads (λ n. n) result lexer.new (step_at lexer.old) }
    ensures within { IfOk result IsStep }
{
    let (place, n) = lexer.due_decimal()?;
    if !is_within(&n) {
        return Err(FileFault {
            kind: FileKind::HeaderNumber,
            place,
        });
    }
    if !is_above(&n) {
        return Err(FileFault {
            kind: FileKind::Spacing,
            place,
        });
    }
    Ok(n)
}

/// The steps between points, behind SPACING or ASPECT_RATIO.
#[tactic(auto, unfolding(crate::specs::Steps::spacing_at))]
fn spacing(lexer: &mut Lexer<'_>) -> Result<[i128; 3], FileFault>
    ensures read { Reads vector_of result lexer.new (spacing_at lexer.old) }
    ensures within { IfOk result (λ v. IsSpacing (vector_of v)) }
{
    let x = step(lexer)?;
    let y = step(lexer)?;
    let z = step(lexer)?;
    Ok([x, y, z])
}

/// What stands behind the keyword of a header line: each line stands once.
#[tactic(auto, unfolding(crate::specs::Steps::behind_at))]
pub(crate) fn behind(
    lexer: &mut Lexer<'_>,
    lines: &Lines,
    place: u64,
    key: &[u8],
) -> Result<Lines, FileFault>
    requires { AreWithin lines.now }
    ensures read { Reads lines_of result lexer.new
        (behind_at (lines_of lines.now) (place, key.now) lexer.old) }
    ensures within { IfOk result AreWithin }
{
    if is_word(key, b"DIMENSIONS") && lines.whole.is_none() {
        let whole = Some(sizes(lexer)?);
        return Ok(Lines { whole, ..*lines });
    }
    if is_word(key, b"ORIGIN") && lines.origin.is_none() {
        let origin = Some(origin(lexer)?);
        return Ok(Lines { origin, ..*lines });
    }
    if (is_word(key, b"SPACING") || is_word(key, b"ASPECT_RATIO")) && lines.spacing.is_none() {
        let spacing = Some(spacing(lexer)?);
        return Ok(Lines { spacing, ..*lines });
    }
    Err(keyword_fault(place, key))
}
