//! The header of a file.

ghost use Rattle.std.specs.Prelude.{◌≡◌, ◌+◌, ◌^◌, pos, unwrap_or, length, IfOk};
ghost use Rattle.viz_dataset.specs.Images.{vector_of, IsOrigin, IsSpacing};
ghost use Rattle.viz_lex.specs.Reading.{Reads};
ghost use Rattle.viz_lex.specs.Readers.{skip_at};
ghost use Rattle.viz_lex.specs.Steps.{is_next};
ghost use Rattle.viz_legacy_read.specs.Header.{is_left_out_dataset, is_image, whole_of, all_of};
ghost use Rattle.viz_legacy_read.specs.Header.{header_of};
ghost use Rattle.viz_legacy_read.specs.Steps.{form_at, dataset_word_at, dataset_at, preamble_at};
ghost use Rattle.viz_legacy_read.specs.Steps.{one_field_at, fields_at, header_line_at};
ghost use Rattle.viz_legacy_read.specs.Steps.{lines_header_at, image_heading_at};
ghost use Rattle.viz_legacy_read.specs.Steps.{behind_preamble_at, header_at};
ghost use Rattle.viz_legacy_read.specs.Reads.{lines_of, image_seen, header_seen, AreWithin};
ghost use Rattle.viz_legacy_read.specs.Reads.{HasLimits, IsWithin};

use crate::lines::{ImageHeader, Lines, behind};
use crate::magic::two_lines;
use viz_attr::pass_field;
use viz_extent::Extent;
use viz_lex::{FileFault, FileKind, Lexer, is_word, keyword_fault};

/// The dataset of a file, by its word.
#[derive(Clone, Copy, PartialEq, Eq, Debug)]
pub(crate) enum DatasetWord {
    /// STRUCTURED_POINTS.
    Points,
    /// UNSTRUCTURED_GRID.
    Grid,
    /// POLYDATA.
    Polydata,
}

/// What stands in front of the geometry: whether the version is 5.1 or above, whether the form is
/// BINARY, and the dataset.
#[derive(Clone, Copy)]
pub(crate) struct Preamble {
    pub later: bool,
    pub binary: bool,
    pub dataset: DatasetWord,
}

/// The header of a file: that of an image, or what stands in front of a mesh.
#[derive(Clone, Copy)]
pub(crate) enum FileHeader {
    Image(ImageHeader),
    Mesh(Preamble),
}

/// ASCII or BINARY: whether it is the second.
#[tactic(auto, unfolding(crate::specs::Steps::form_at))]
fn form(lexer: &mut Lexer<'_>) -> Result<bool, FileFault>
    ensures { Reads (λ binary. binary) result lexer.new (form_at lexer.old) }
{
    let (place, word) = lexer.due_word()?;
    if is_word(word, b"ASCII") {
        return Ok(false);
    }
    if is_word(word, b"BINARY") {
        return Ok(true);
    }
    Err(FileFault {
        kind: FileKind::Form,
        place,
    })
}

fn is_left_out(word: &[u8]) -> bool
    ensures { result ≡ is_left_out_dataset word.now }
{
    is_word(word, b"STRUCTURED_GRID") || is_word(word, b"RECTILINEAR_GRID")
}

/// DATASET, and the word for a dataset behind it.
#[tactic(auto, unfolding(crate::specs::Steps::dataset_word_at, crate::specs::Steps::dataset_at))]
fn dataset(lexer: &mut Lexer<'_>) -> Result<DatasetWord, FileFault>
    ensures { Reads (λ kind. kind) result lexer.new (dataset_at lexer.old) }
{
    lexer.due_keyword(b"DATASET")?;
    let (place, word) = lexer.due_word()?;
    if is_word(word, b"STRUCTURED_POINTS") {
        return Ok(DatasetWord::Points);
    }
    if is_word(word, b"UNSTRUCTURED_GRID") {
        return Ok(DatasetWord::Grid);
    }
    if is_word(word, b"POLYDATA") {
        return Ok(DatasetWord::Polydata);
    }
    if is_left_out(word) {
        return Err(FileFault {
            kind: FileKind::Unsupported,
            place,
        });
    }
    Err(keyword_fault(place, word))
}

/// The two lines, the form and the word of the dataset.
#[tactic(auto, unfolding(crate::specs::Steps::preamble_at))]
fn all_in_front(lexer: &mut Lexer<'_>) -> Result<Preamble, FileFault>
    ensures { Reads (λ p. p) result lexer.new (preamble_at lexer.old) }
{
    let later = two_lines(lexer)?;
    let binary = form(lexer)?;
    let dataset = dataset(lexer)?;
    Ok(Preamble {
        later,
        binary,
        dataset,
    })
}

/// A FIELD, which is passed over.
#[tactic(auto, unfolding(crate::specs::Steps::one_field_at))]
fn one_field(lexer: &mut Lexer<'_>, binary: bool) -> Result<(), FileFault>
    ensures { Reads (λ done. done) result lexer.new (one_field_at binary lexer.old) }
{
    lexer.due_word()?;
    pass_field(lexer, binary)
}

/// FIELDs, as many as there are, at most so many: each takes a byte at least.
fn fields(lexer: &mut Lexer<'_>, binary: bool, most: u64) -> Result<(), FileFault>
    ensures { Reads (λ done. done) result lexer.new (fields_at binary most lexer.old) }
{
    for _ in 0..most {
        if !lexer.is_next(b"FIELD") {
            return Ok(());
        }
        one_field(lexer, binary)?;
    }
    Ok(())
}

/// A header line, in front of which FIELDs may stand.
#[tactic(auto, unfolding(crate::specs::Steps::header_line_at))]
fn header_line(lexer: &mut Lexer<'_>, binary: bool, lines: &Lines) -> Result<Lines, FileFault>
    requires { AreWithin lines.now }
    ensures read { Reads lines_of result lexer.new
        (header_line_at binary (lines_of lines.now) lexer.old) }
    ensures within { IfOk result AreWithin }
{
    let most = lexer.bytes().len() as u64 + 1;
    fields(lexer, binary, most)?;
    let (place, key) = lexer.due_word()?;
    let lines = behind(lexer, lines, place, key)?;
    Ok(lines)
}

/// The whole extent of these lines, of one point where they have none.
fn whole_of_lines(lines: &Lines) -> Extent
    ensures { result ≡ unwrap_or lines.now.whole (whole_of 1 1 1) }
{
    match lines.whole {
        Some(whole) => whole,
        None => Extent::new([0, 0, 0, 0, 0, 0]).unwrap(),
    }
}

/// The origin of these lines, 0 along each axis where they have none.
fn origin_of_lines(lines: &Lines) -> [i128; 3]
    requires { AreWithin lines.now }
    ensures value { vector_of result ≡ unwrap_or (lines_of lines.now).origin (all_of (pos 0)) }
    ensures within { IsOrigin (vector_of result) }
{
    match lines.origin {
        Some(origin) => origin,
        None => [0, 0, 0],
    }
}

/// A unit, in billionths.
const UNIT: i128 = 1_000_000_000;

/// The spacing of these lines, 1 along each axis where they have none.
fn spacing_of_lines(lines: &Lines) -> [i128; 3]
    requires { AreWithin lines.now }
    ensures value { vector_of result ≡ unwrap_or (lines_of lines.now).spacing
        (all_of (pos (10 ^ 9))) }
    ensures within { IsSpacing (vector_of result) }
{
    match lines.spacing {
        Some(spacing) => spacing,
        None => [UNIT, UNIT, UNIT],
    }
}

/// The header that three lines make.
fn header_of_lines(binary: bool, lines: Lines) -> ImageHeader
    requires { AreWithin lines }
    ensures value { image_seen result ≡ header_of binary (lines_of lines) }
    ensures within { HasLimits result }
{
    ImageHeader {
        binary,
        whole: whole_of_lines(&lines),
        origin: origin_of_lines(&lines),
        spacing: spacing_of_lines(&lines),
    }
}

/// Three header lines, and the header that they make.
#[tactic(auto, unfolding(crate::specs::Steps::lines_at, crate::specs::Steps::lines_header_at))]
fn lines_header(lexer: &mut Lexer<'_>, binary: bool) -> Result<ImageHeader, FileFault>
    ensures read { Reads image_seen result lexer.new (lines_header_at binary lexer.old) }
    ensures within { IfOk result HasLimits }
{
    let none = Lines {
        whole: None,
        origin: None,
        spacing: None,
    };
    let first = header_line(lexer, binary, &none)?;
    let second = header_line(lexer, binary, &first)?;
    let third = header_line(lexer, binary, &second)?;
    Ok(header_of_lines(binary, third))
}

/// The header of an image.
#[tactic(auto, unfolding(crate::specs::Steps::image_heading_at))]
fn image_heading(lexer: &mut Lexer<'_>, binary: bool) -> Result<FileHeader, FileFault>
    ensures read { Reads header_seen result lexer.new (image_heading_at binary lexer.old) }
    ensures within { IfOk result IsWithin }
{
    let header = lines_header(lexer, binary)?;
    Ok(FileHeader::Image(header))
}

fn is_image(preamble: &Preamble) -> bool
    ensures { result ≡ is_image preamble.now }
{
    matches!(preamble.dataset, DatasetWord::Points)
}

/// The header lines of an image; there are none of a mesh.
#[tactic(auto, unfolding(crate::specs::Steps::behind_preamble_at))]
fn behind_preamble(lexer: &mut Lexer<'_>, preamble: Preamble) -> Result<FileHeader, FileFault>
    ensures read { Reads header_seen result lexer.new (behind_preamble_at preamble lexer.old) }
    ensures within { IfOk result IsWithin }
{
    if is_image(&preamble) {
        image_heading(lexer, preamble.binary)
    } else {
        Ok(FileHeader::Mesh(preamble))
    }
}

/// The header of a file.
#[tactic(auto, unfolding(crate::specs::Steps::header_at))]
pub(crate) fn file_header(lexer: &mut Lexer<'_>) -> Result<FileHeader, FileFault>
    ensures read { Reads header_seen result lexer.new (header_at lexer.old) }
    ensures within { IfOk result IsWithin }
{
    let preamble = all_in_front(lexer)?;
    behind_preamble(lexer, preamble)
}
