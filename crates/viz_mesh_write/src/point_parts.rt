//! The rows of points, made in parts by workers.

ghost use Rattle.std.specs.Prelude.{◌≡◌, ◌≢◌, ◌≤◌, ◌<◌, ◌*◌, ◌++◌, Err, OnOk, IsErrOf, length};
ghost use Rattle.viz_sheet.specs.Arrays.{points_in};
ghost use Rattle.viz_workers.specs.Level.{AreItems};
ghost use Rattle.viz_mesh_write.specs.Fits.{FitRows};
ghost use Rattle.viz_mesh_write.specs.Steps.Parts.{IsPointPart, part_of};
ghost use Rattle.viz_mesh_write.specs.Steps.Passes.{point_rows, rows_by, FitBy};

use crate::parts::{part_at, parts_of};
use crate::point_rows::{PointNumbers, WidePoint};
use crate::points::put_width;
use std::alloc::{AllocError, Global};
use std::mem;
use std::thread::Threads;
use viz_base::{Bytes, LongText, OpenGate, Shared};
use viz_image_write::{Block, WriteStop};
use viz_sheet::Places;
use viz_workers::{Job, run_level};

/// So many bytes are reserved for each row of points; a text grows past them.
const ROOM: usize = 32;

/// The rows of points in parts: the task t makes those of the part t.
#[derive(Clone, Copy)]
struct PointParts<'a, N, P> {
    alloc: Global,
    binary: bool,
    what: &'a N,
    points: &'a [P],
}

/// The rows of one part.
fn part_rows<N: PointNumbers, P: WidePoint>(
    alloc: Global,
    binary: bool,
    what: &N,
    points: &[P],
    part: u64,
) -> Result<Bytes, WriteStop>
    requires { part * 16384 < length points.now }
    ensures { IsPointPart P.point (N.numbers what.now) binary points.now part result }
{
    let rows = part_at(points, part);
    let mut block = Block::new(alloc)?;
    let mut text = Vec::with_capacity(alloc, rows.len().saturating_mul(ROOM))?;
    put_width(&mut text, &mut block, binary, what, rows)?;
    Ok(Bytes::new(text))
}

impl<N: PointNumbers + Sync, P: WidePoint + Sync> Job for PointParts<'_, N, P> {
    type Item = Result<Bytes, WriteStop>;

    ghost may = { λ job part. part * 16384 < length job.points.now };

    ghost has = { λ job part item. IsPointPart P.point (N.numbers job.what.now) job.binary
        job.points.now part item };

    fn work(&self, part: u64) -> Result<Bytes, WriteStop> {
        part_rows(self.alloc, self.binary, self.what, self.points, part)
    }
}

/// Puts a part behind a text.
pub(crate) fn push_part(alloc: Global, text: &mut LongText, part: Bytes) -> Result<(), AllocError>
    ensures { OnOk result (text.new ≡ text.old ++ part) }
{
    text.push(Shared::new(alloc, part)?)
}

/// Takes the rows of a part; want of memory is left in their place.
fn taken<N: PointNumbers, P: WidePoint>(
    _binary: bool,
    _what: &N,
    _points: &[P],
    parts: &mut [Result<Bytes, WriteStop>],
    part: usize,
) -> Result<Bytes, WriteStop>
    requires there { part < length parts.old }
    requires parts { AreItems (IsPointPart P.point (N.numbers _what.now) _binary _points.now) 0
        parts.old }
    ensures part { IsPointPart P.point (N.numbers _what.now) _binary _points.now part result }
    ensures parts { AreItems (IsPointPart P.point (N.numbers _what.now) _binary _points.now) 0
        parts.new }
    ensures len { length parts.new ≡ length parts.old }
{
    mem::replace(&mut parts[part], Err(WriteStop::Memory))
}

/// Puts all parts behind a text, in their order.
fn push_all<N: PointNumbers, P: WidePoint>(
    alloc: Global,
    text: &mut LongText,
    binary: bool,
    what: &N,
    points: &[P],
    parts: &mut [Result<Bytes, WriteStop>],
) -> Result<(), WriteStop>
    requires parts { AreItems (IsPointPart P.point (N.numbers what.now) binary points.now) 0
        parts.old }
    requires enough { length points.now ≤ length parts.old * 16384 }
    ensures ok { OnOk result (text.new
        ≡ text.old ++ rows_by P.point (N.numbers what.now) binary points.now) }
    ensures fits { OnOk result (FitBy P.point (N.numbers what.now) points.now) }
    ensures too_wide { IsErrOf result WriteStop.TooWide
        → ¬ FitBy P.point (N.numbers what.now) points.now }
    ensures few { result ≢ Err WriteStop.TooMany }
{
    for part in 0..parts.len() {
        let rows = taken(binary, what, points, parts, part)?;
        push_part(alloc, text, rows)?;
    }
    Ok(())
}

/// Puts the rows of points of one width behind a text, made in parts by so many workers.
fn put_point_parts<R: Threads + Sync, N: PointNumbers + Sync, P: WidePoint + Sync>(
    rt: &R,
    alloc: Global,
    text: &mut LongText,
    binary: bool,
    what: &N,
    points: &[P],
    workers: u32,
) -> Result<(), WriteStop>
    requires { 0 < workers }
    ensures ok { OnOk result (text.new
        ≡ text.old ++ rows_by P.point (N.numbers what.now) binary points.now) }
    ensures fits { OnOk result (FitBy P.point (N.numbers what.now) points.now) }
    ensures too_wide { IsErrOf result WriteStop.TooWide
        → ¬ FitBy P.point (N.numbers what.now) points.now }
    ensures few { result ≢ Err WriteStop.TooMany }
{
    let job = PointParts {
        alloc,
        binary,
        what,
        points,
    };
    let count = parts_of(points.len());
    let mut parts = run_level(rt, alloc, &job, 0, count, workers, &OpenGate)?;
    push_all(alloc, text, binary, what, points, parts.as_mut_slice())
}

/// Puts the rows of the points of one sheet behind a text, made in parts by so many workers.
pub(crate) fn put_place_parts<R: Threads + Sync, N: PointNumbers + Sync>(
    rt: &R,
    alloc: Global,
    text: &mut LongText,
    binary: bool,
    what: &N,
    places: &Places,
    workers: u32,
) -> Result<(), WriteStop>
    requires { 0 < workers }
    ensures ok { OnOk result (text.new
        ≡ text.old ++ point_rows (N.numbers what.now) binary (points_in places.now)) }
    ensures fits { OnOk result (FitRows (N.numbers what.now) (points_in places.now)) }
    ensures too_wide { IsErrOf result WriteStop.TooWide
        → ¬ FitRows (N.numbers what.now) (points_in places.now) }
    ensures few { result ≢ Err WriteStop.TooMany }
{
    match places {
        Places::Small(points) => put_point_parts(rt, alloc, text, binary, what, points, workers),
        Places::Wide(points) => put_point_parts(rt, alloc, text, binary, what, points, workers),
    }
}
