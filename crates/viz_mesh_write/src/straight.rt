//! A text that is made by one thread, in one list of bytes.

ghost use Rattle.std.specs.Prelude.{◌≡◌, [], IfOk};

use crate::cell_passes::put_ranks;
use crate::cell_rows::OfCells;
use crate::point_rows::OfPoints;
use crate::points::put_sheet_points;
use crate::target::Target;
use std::alloc::{AllocError, Global};
use viz_image_write::{Block, WriteStop};
use viz_sheet::{Places, Ranks};

/// A text in one list, and the block that its rows are made in.
#[derive(Drop)]
pub(crate) struct Straight {
    pub(crate) text: Vec<u8>,
    alloc: Global,
    block: Block,
}

impl Straight {
    /// An empty text with room for so many bytes.
    pub(crate) fn with_room(alloc: Global, room: u64) -> Result<Straight, AllocError>
        ensures { IfOk result (λ s. s.text.items ≡ []) }
    {
        Ok(Straight {
            text: Vec::with_capacity(alloc, room as usize)?,
            alloc,
            block: Block::new(alloc)?,
        })
    }
}

impl Target for Straight {
    ghost text = { λ s. s.text.items };

    ghost needs = { Unit {0} };

    fn alloc(&self) -> Global {
        self.alloc
    }

    fn line(&self) -> Vec<u8> {
        Vec::new(self.alloc)
    }

    fn put(&mut self, line: Vec<u8>) -> Result<(), AllocError> {
        self.text.extend_from_slice(&line)
    }

    fn put_places(
        &mut self,
        binary: bool,
        what: &OfPoints,
        places: &Places,
    ) -> Result<(), WriteStop> {
        let (text, block) = (&mut self.text, &mut self.block);
        match what {
            OfPoints::Coordinates(what) => put_sheet_points(text, block, binary, what, places),
            OfPoints::Scalar(what) => put_sheet_points(text, block, binary, what, places),
        }
    }

    fn put_ranks(
        &mut self,
        binary: bool,
        what: &OfCells,
        first: u32,
        ranks: &Ranks,
    ) -> Result<(), AllocError> {
        let (text, block) = (&mut self.text, &mut self.block);
        match what {
            OfCells::Numbers(what) => put_ranks(text, block, binary, what, first, ranks),
            OfCells::Types(what) => put_ranks(text, block, binary, what, first, ranks),
        }
    }
}
