//! A text that is made in parts by workers.

ghost use Rattle.std.specs.Prelude.{◌≡◌, ◌<◌, []};
ghost use Rattle.std.specs.Thread.{IsSync};

use crate::cell_parts::put_rank_parts;
use crate::cell_rows::OfCells;
use crate::point_parts::{push_part, put_place_parts};
use crate::point_rows::OfPoints;
use crate::target::Target;
use std::alloc::{AllocError, Global};
use std::thread::Threads;
use viz_base::{Bytes, LongText};
use viz_image_write::WriteStop;
use viz_sheet::{Places, Ranks};

/// A text in parts, and the workers that make them.
#[derive(Drop)]
pub(crate) struct OnWorkers<'a, H> {
    pub(crate) text: LongText,
    rt: &'a H,
    alloc: Global,
    workers: u32,
    ghost some: { 0 < workers },
}

impl<'a, H: Threads + Sync> OnWorkers<'a, H> {
    /// An empty text that is to be made by so many workers.
    pub(crate) fn new(rt: &'a H, alloc: Global, workers: u32) -> OnWorkers<'a, H>
        requires { 0 < workers }
        ensures { result.text ≡ [] }
    {
        OnWorkers {
            text: LongText::new(alloc),
            rt,
            alloc,
            workers,
        }
    }
}

impl<H: Threads + Sync> Target for OnWorkers<'_, H> {
    ghost text = { λ w. w.text };

    ghost needs = { IsSync H.row };

    fn alloc(&self) -> Global {
        self.alloc
    }

    fn line(&self) -> Vec<u8> {
        Vec::new(self.alloc)
    }

    fn put(&mut self, line: Vec<u8>) -> Result<(), AllocError> {
        push_part(self.alloc, &mut self.text, Bytes::new(line))
    }

    fn put_places(
        &mut self,
        binary: bool,
        what: &OfPoints,
        places: &Places,
    ) -> Result<(), WriteStop> {
        let (rt, alloc, workers) = (self.rt, self.alloc, self.workers);
        let text = &mut self.text;
        match what {
            OfPoints::Coordinates(what) => {
                put_place_parts(rt, alloc, text, binary, what, places, workers)
            }
            OfPoints::Scalar(what) => {
                put_place_parts(rt, alloc, text, binary, what, places, workers)
            }
        }
    }

    fn put_ranks(
        &mut self,
        binary: bool,
        what: &OfCells,
        first: u32,
        ranks: &Ranks,
    ) -> Result<(), AllocError> {
        let (rt, alloc, workers) = (self.rt, self.alloc, self.workers);
        let text = &mut self.text;
        match what {
            OfCells::Numbers(what) => {
                put_rank_parts(rt, alloc, text, binary, what, first, ranks, workers)
            }
            OfCells::Types(what) => {
                put_rank_parts(rt, alloc, text, binary, what, first, ranks, workers)
            }
        }
    }
}
