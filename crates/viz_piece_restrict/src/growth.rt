//! Ghost levels around own cells, a level at a time.

ghost use Rattle.std.specs.Prelude.{◌≡◌, IfOk, length, replicate, false};
ghost use Rattle.viz_piece_restrict.specs.Steps.Levels.{IsGrown};

use crate::marking::mark_level;
use crate::taking::take_level;
use std::alloc::{AllocError, Global};
use viz_sheet::Sheet;

/// Which cells of a sheet are there, and with which levels.
#[derive(Drop)]
pub(crate) struct Grown {
    pub(crate) there: Vec<bool>,
    pub(crate) levels: Vec<u32>,
}

/// The cells around own ones, with so many ghost levels.
pub(crate) fn levels_around(
    alloc: Global,
    sheet: &Sheet,
    own: Vec<bool>,
    ghosts: u32,
) -> Result<Grown, AllocError>
    requires { length own.items ≡ length sheet.now.cells }
    ensures { IfOk result (λ g.
        IsGrown sheet.now own.items ghosts g.there.items g.levels.items) }
{
    let mut marks = vec![in alloc; false; sheet.point_count()]?;
    let mut levels = vec![in alloc; 0; sheet.cell_count()]?;
    let mut there = own;
    grow_levels(sheet, &mut marks, &mut there, &mut levels, ghosts);
    Ok(Grown { there, levels })
}

/// Takes in the cells of one ghost level after the other, until a level has none.
fn grow_levels(
    sheet: &Sheet,
    marks: &mut [bool],
    there: &mut [bool],
    levels: &mut [u32],
    ghosts: u32,
)
    requires marks { marks.old ≡ replicate (length sheet.now.names) false }
    requires there { length there.old ≡ length sheet.now.cells }
    requires levels { levels.old ≡ replicate (length sheet.now.cells) 0 }
    ensures { IsGrown sheet.now there.old ghosts there.new levels.new }
{
    let ranks = sheet.ranks();
    for level in 0..ghosts {
        mark_level(marks, ranks, there, levels, level);
        if !take_level(ranks, marks, there, levels, level + 1) {
            return;
        }
    }
}
