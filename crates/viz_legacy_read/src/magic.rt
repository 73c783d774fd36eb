//! The two lines in front of a file.

ghost use Rattle.std.specs.Prelude.{◌≡◌, ◌≤◌, ◌-◌, length, drop, if◌then◌else◌, IfSome};
ghost use Rattle.std.specs.List.{list_all};
ghost use Rattle.viz_lex.specs.Numbers.{digits_value};
ghost use Rattle.viz_lex.specs.Words.{is_blank};
ghost use Rattle.viz_lex.specs.Reading.{Reads};
ghost use Rattle.viz_legacy_read.specs.Magic.{digits_len, has_short_number, leading_number};
ghost use Rattle.viz_legacy_read.specs.Magic.{is_minor, is_version, is_later, magic, is_magic};
ghost use Rattle.viz_legacy_read.specs.Steps.{due_line, two_lines_at};

use viz_lex::{FileFault, FileKind, Lexer};

/// What the first line begins with.
const MAGIC: &[u8] = b"# vtk DataFile Version ";

/// How many digits stand in front.
fn digits(text: &[u8]) -> usize
    ensures value { result ≡ digits_len text.now }
    ensures within { result ≤ length text.now }
{
    for (i, b) in text.iter().enumerate() {
        if !matches!(*b, b'0'..=b'9') {
            return i;
        }
    }
    text.len()
}

/// What a digit stands for.
fn digit(b: u8) -> u32
    ensures value { result ≡ b - 48 }
    ensures small { result ≤ 207 }
{
    u32::from(b.saturating_sub(b'0'))
}

/// The number of up to three digits.
fn short_value(text: &[u8]) -> u32
    requires { length text.now ≤ 3 }
    ensures { result ≡ digits_value text.now }
{
    match text {
        [] => 0,
        [a] => digit(*a),
        [a, b] => digit(*a) * 10 + digit(*b),
        [a, b, c, ..] => (digit(*a) * 10 + digit(*b)) * 10 + digit(*c),
    }
}

/// Whether one to three digits stand in front; then how many, and the number that they represent.
fn short_number(text: &[u8]) -> Option<(usize, u32)>
    ensures value { result ≡ (if has_short_number text.now
        then Some (digits_len text.now, leading_number text.now) else None) }
    ensures within { IfSome result (λ n. n.0 ≤ length text.now) }
{
    let n = digits(text);
    if 1 <= n && n <= 3 {
        Some((n, short_value(&text[..n])))
    } else {
        None
    }
}

fn is_blank_text(text: &[u8]) -> bool
    ensures { result ≡ list_all is_blank text.now }
{
    text.iter().all(|b| matches!(*b, 9..=13 | b' '))
}

/// The part of a version behind its point.
fn minor(text: &[u8]) -> Option<u32>
    ensures { result ≡ (if is_minor text.now
        then Some (leading_number (drop 1 text.now)) else None) }
{
    let (point, behind) = text.split_first()?;
    let (n, number) = short_number(behind)?;
    if *point == b'.' && is_blank_text(&behind[n..]) {
        Some(number)
    } else {
        None
    }
}

/// Whether the version is 5.1 or above, where it is a version.
fn version(text: &[u8]) -> Option<bool>
    ensures { result ≡ (if is_version text.now then Some (is_later text.now) else None) }
{
    let (n, major) = short_number(text)?;
    let minor = minor(&text[n..])?;
    Some(major > 5 || (major == 5 && minor >= 1))
}

/// Whether the version of a file's first line is 5.1 or above.
fn version_of_line(line: &[u8]) -> Option<bool>
    ensures { result ≡ (if is_magic line.now
        then Some (is_later (drop (length magic) line.now)) else None) }
{
    if line.starts_with(MAGIC) {
        version(&line[MAGIC.len()..])
    } else {
        None
    }
}

/// The next line, which is due: else the fault of this kind at its start.
#[tactic(auto, unfolding(crate::specs::Steps::due_line))]
fn line<'a>(lexer: &mut Lexer<'a>, kind: FileKind) -> Result<&'a [u8], FileFault>
    ensures { Reads (λ text. text.now) result lexer.new (due_line kind lexer.old) }
{
    let place = lexer.place();
    match lexer.line() {
        Some(span) => Ok(lexer.text(&span)),
        None => Err(FileFault { kind, place }),
    }
}

/// The line of the version, and the title: whether the version is 5.1 or above.
#[tactic(auto, unfolding(crate::specs::Steps::two_lines_at))]
pub(crate) fn two_lines(lexer: &mut Lexer<'_>) -> Result<bool, FileFault>
    ensures { Reads (λ later. later) result lexer.new (two_lines_at lexer.old) }
{
    let first = line(lexer, FileKind::Magic)?;
    let Some(later) = version_of_line(first) else {
        return Err(FileFault {
            kind: FileKind::Magic,
            place: 0,
        });
    };
    line(lexer, FileKind::Title)?;
    Ok(later)
}
