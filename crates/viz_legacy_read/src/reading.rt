//! Reading a file: its header alone, and all of it.

ghost use Rattle.std.specs.Prelude.{◌≡◌, ◌≤◌, All, IfOk, IfErr};
ghost use Rattle.viz_legacy_read.specs.MeshFile.{is_grid};
ghost use Rattle.viz_legacy_read.specs.Reading.{IsInfo, StopsInHeader, Reads, IsStop, IsSound};
ghost use Rattle.viz_legacy_read.specs.Steps.{mesh_behind_at, contents_at, file_at};
ghost use Rattle.viz_legacy_read.specs.Reads.{header_seen, info_of, IsWithin, ReadsUnlessMemory};
ghost use Rattle.viz_sheet.specs.Sheet.{IsSheet, IsFit};

use crate::front::{DatasetWord, FileHeader, Preamble, file_header};
use crate::image::image_behind;
use crate::mesh::{grid_behind, poly_behind};
use crate::stop::ReadStop;
use std::alloc::Global;
use viz_base::Pick;
use viz_dataset::{Dataset, Info};
use viz_lex::{FileFault, Lexer};
use viz_sheet::Mesh;

/// Reads the header of a file alone: of an image the whole extent, and the origin and the spacing
/// in billionths; of a mesh no more than that it is one. It takes no memory. The fault is the first
/// of the file where it lies in the header.
pub fn header(bytes: &[u8]) -> Result<Info, FileFault>
    ensures found { IfOk result (IsInfo bytes.now) }
    ensures fault { IfErr result (StopsInHeader bytes.now) }
{
    let mut lexer = Lexer::new(bytes);
    let header = file_header(&mut lexer)?;
    Ok(info(&header))
}

/// What is known of a file from its header.
fn info(header: &FileHeader) -> Info
    ensures { result ≡ info_of header.now }
{
    match header {
        FileHeader::Image(header) => Info::Image {
            whole: header.whole,
            origin: header.origin,
            spacing: header.spacing,
        },
        FileHeader::Mesh(_) => Info::Mesh,
    }
}

fn is_grid(preamble: &Preamble) -> bool
    ensures { result ≡ is_grid preamble.now }
{
    matches!(preamble.dataset, DatasetWord::Grid)
}

/// The mesh that stands behind a preamble.
#[tactic(auto, unfolding(crate::specs::Steps::mesh_behind_at))]
fn mesh_behind(
    alloc: Global,
    lexer: &mut Lexer<'_>,
    preamble: &Preamble,
    pick: &Pick,
    unit: u8,
) -> Result<Mesh, ReadStop>
    requires { unit ≤ 9 }
    ensures read { ReadsUnlessMemory (λ m. m) result lexer.new
        (mesh_behind_at pick.now unit preamble.now lexer.old) }
    ensures valid { IfOk result (All IsSheet) }
    ensures fits { IfOk result (All IsFit) }
{
    if is_grid(preamble) {
        grid_behind(alloc, lexer, preamble, pick, unit)
    } else {
        poly_behind(alloc, lexer, preamble, pick, unit)
    }
}

/// What stands behind a header.
#[tactic(auto, unfolding(crate::specs::Steps::contents_at))]
fn contents(
    alloc: Global,
    lexer: &mut Lexer<'_>,
    header: &FileHeader,
    pick: &Pick,
    unit: u8,
) -> Result<Dataset, ReadStop>
    requires unit { unit ≤ 9 }
    requires within { IsWithin header.now }
    ensures read { ReadsUnlessMemory (λ d. d) result lexer.new
        (contents_at pick.now unit (header_seen header.now) lexer.old) }
    ensures valid { IfOk result IsSound }
{
    match header {
        FileHeader::Image(header) => {
            let image = image_behind(alloc, lexer, header, pick)?;
            Ok(Dataset::Image(image))
        }
        FileHeader::Mesh(preamble) => {
            let mesh = mesh_behind(alloc, lexer, preamble, pick, unit)?;
            Ok(Dataset::Mesh(mesh))
        }
    }
}

/// All of a file, from its front.
#[tactic(auto, unfolding(crate::specs::Steps::file_at))]
fn file(alloc: Global, lexer: &mut Lexer<'_>, pick: &Pick, unit: u8) -> Result<Dataset, ReadStop>
    requires { unit ≤ 9 }
    ensures read { ReadsUnlessMemory (λ d. d) result lexer.new
        (file_at pick.now unit lexer.old) }
    ensures valid { IfOk result IsSound }
{
    let header = file_header(lexer)?;
    contents(alloc, lexer, &header, pick, unit)
}

/// Reads a file: its header, and of its attributes the array that is picked. Where none is asked
/// for, the numbers of an image are zeros of a byte each, and the scalars of a mesh are 0. A whole
/// coordinate n of a mesh stands for n by 10^unit. File has the first fault and its place, Memory
/// comes where memory ran out.
pub fn read(alloc: Global, bytes: &[u8], pick: &Pick, unit: u8) -> Result<Dataset, ReadStop>
    requires unit { unit ≤ 9 }
    ensures found { IfOk result (Reads bytes.now pick.now unit) }
    ensures fault { IfErr result (IsStop bytes.now pick.now unit) }
    ensures valid { IfOk result IsSound }
{
    let mut lexer = Lexer::new(bytes);
    file(alloc, &mut lexer, pick, unit)
}
