//! The geometry of polydata.

ghost use Rattle.std.specs.Prelude.{◌≡◌, ◌<◌, ◌^◌, []};
ghost use Rattle.viz_attr.specs.Reads.{ReadsUnlessMemory};
ghost use Rattle.viz_counted_cells.specs.Geometry.{MeetsBy};
ghost use Rattle.viz_counted_cells.specs.Sections.{section_of};
ghost use Rattle.viz_mesh_read.specs.Poly.{for_each, with_kind, kind_named, none_seen, seen_with};
ghost use Rattle.viz_mesh_read.specs.Poly.{is_due, sections_of, polydata_of, polydata_numbers};
ghost use Rattle.viz_mesh_read.specs.PolySteps.{kind_at, sections_at, polydata_at};

use crate::cell_sections::cell_section;
use crate::coordinates::{FilePoints, all_points};
use crate::fields::fields;
use std::alloc::Global;
use viz_attr::AttrStop;
use viz_counted_cells::{CellArrays, CellNumbers, CellSection};
use viz_lex::{Lexer, is_word};

/// A kind of section.
#[derive(Clone, Copy, PartialEq, Eq, Debug)]
pub(crate) enum SectionKind {
    Vertices,
    Lines,
    Polygons,
    Strips,
}

/// Which kinds of sections were read.
#[derive(Clone, Copy, Debug)]
struct Seen {
    vertices: bool,
    lines: bool,
    polygons: bool,
    strips: bool,
}

/// A section with its kind.
#[derive(Debug, Drop)]
struct KindSection {
    kind: SectionKind,
    cells: CellSection,
}

/// The cells of polydata, section by section: a kind that doesn't stand in the file has none.
#[derive(Debug, Drop)]
pub struct PolyCells {
    /// Lists of vertices.
    pub vertices: CellSection,
    /// Polylines.
    pub lines: CellSection,
    pub polygons: CellSection,
    /// Strips of triangles.
    pub strips: CellSection,
}

/// The geometry of polydata: its points and its cells.
#[derive(Debug, Drop)]
pub struct PolyFile {
    pub points: FilePoints,
    pub cells: PolyCells,
}

fn kind_named(word: &[u8]) -> SectionKind
    ensures { result ≡ kind_named word.now }
{
    if is_word(word, b"VERTICES") {
        return SectionKind::Vertices;
    }
    if is_word(word, b"LINES") {
        return SectionKind::Lines;
    }
    if is_word(word, b"POLYGONS") {
        return SectionKind::Polygons;
    }
    SectionKind::Strips
}

fn none_seen() -> Seen
    ensures { result ≡ none_seen }
{
    Seen {
        vertices: false,
        lines: false,
        polygons: false,
        strips: false,
    }
}

fn seen_with(seen: Seen, kind: SectionKind) -> Seen
    ensures { result ≡ seen_with seen kind }
{
    match kind {
        SectionKind::Vertices => Seen {
            vertices: true,
            ..seen
        },
        SectionKind::Lines => Seen {
            lines: true,
            ..seen
        },
        SectionKind::Polygons => Seen {
            polygons: true,
            ..seen
        },
        SectionKind::Strips => Seen {
            strips: true,
            ..seen
        },
    }
}

fn is_due(lexer: &Lexer<'_>, seen: &Seen) -> bool
    ensures { result ≡ is_due seen.now lexer.now }
{
    (lexer.is_next(b"VERTICES") && !seen.vertices)
        || (lexer.is_next(b"LINES") && !seen.lines)
        || (lexer.is_next(b"POLYGONS") && !seen.polygons)
        || (lexer.is_next(b"TRIANGLE_STRIPS") && !seen.strips)
}

fn no_cells(alloc: Global) -> CellSection
    ensures { section_of result ≡ (0, []) }
{
    CellSection {
        count: 0,
        numbers: CellNumbers::of(CellArrays::Mixed(Vec::new(alloc))),
    }
}

fn no_sections(alloc: Global) -> PolyCells
    ensures { sections_of result ≡ for_each (0, []) }
{
    PolyCells {
        vertices: no_cells(alloc),
        lines: no_cells(alloc),
        polygons: no_cells(alloc),
        strips: no_cells(alloc),
    }
}

fn put(all: &mut PolyCells, section: KindSection)
    ensures { sections_of all.new
        ≡ with_kind (sections_of all.old) section.kind (section_of section.cells) }
{
    let KindSection { kind, cells } = section;
    match kind {
        SectionKind::Vertices => all.vertices = cells,
        SectionKind::Lines => all.lines = cells,
        SectionKind::Polygons => all.polygons = cells,
        SectionKind::Strips => all.strips = cells,
    }
}

/// A section with its keyword, which was seen to be one.
#[tactic(auto, unfolding(crate::specs::PolySteps::kind_at))]
fn kind_section(
    alloc: Global,
    lexer: &mut Lexer<'_>,
    binary: bool,
    later: bool,
    points: u64,
) -> Result<KindSection, AttrStop>
    requires { points < 2 ^ 31 }
    ensures { ReadsUnlessMemory (λ s. (s.kind, section_of s.cells)) result lexer.new
        (kind_at binary later points lexer.old) }
{
    let (_, word) = lexer.due_word()?;
    let cells = cell_section(alloc, lexer, later, binary, points)?;
    Ok(KindSection {
        kind: kind_named(word),
        cells,
    })
}

/// At most so many sections, as many as there are.
fn poly_cells(
    alloc: Global,
    lexer: &mut Lexer<'_>,
    binary: bool,
    later: bool,
    points: u64,
    most: u64,
) -> Result<PolyCells, AttrStop>
    requires { points < 2 ^ 31 }
    ensures { ReadsUnlessMemory sections_of result lexer.new
        (sections_at binary later points most none_seen (for_each (0, [])) lexer.old) }
{
    let mut seen = none_seen();
    let mut all = no_sections(alloc);
    for _ in 0..most {
        fields(lexer, binary)?;
        if !is_due(lexer, &seen) {
            return Ok(all);
        }
        let section = kind_section(alloc, lexer, binary, later, points)?;
        seen = seen_with(seen, section.kind);
        put(&mut all, section);
    }
    Ok(all)
}

#[tactic(auto, unfolding(crate::specs::PolySteps::polydata_at))]
fn whole_polydata(
    alloc: Global,
    lexer: &mut Lexer<'_>,
    binary: bool,
    later: bool,
) -> Result<PolyFile, AttrStop>
    ensures { ReadsUnlessMemory polydata_of result lexer.new (polydata_at binary later lexer.old) }
{
    fields(lexer, binary)?;
    let points = all_points(alloc, lexer, binary)?;
    let cells = poly_cells(alloc, lexer, binary, later, points.count, 4)?;
    Ok(PolyFile { points, cells })
}

/// The geometry of polydata: called behind the words DATASET POLYDATA. It ends where the next word
/// is the keyword of no section, or of one that was read. `later` says that the file has version
/// 5.1 or above, where cells are cut at offsets.
pub fn polydata(
    alloc: Global,
    lexer: &mut Lexer<'_>,
    binary: bool,
    later: bool,
) -> Result<PolyFile, AttrStop>
    ensures meets { MeetsBy polydata_of (polydata_numbers binary later) result lexer.old lexer.new }
    ensures exact { ReadsUnlessMemory polydata_of result lexer.new
        (polydata_at binary later lexer.old) }
{
    whole_polydata(alloc, lexer, binary, later)
}
