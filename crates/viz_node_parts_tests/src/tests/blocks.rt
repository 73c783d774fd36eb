//! Blocks of images.

use crate::tests::nodes::{Answer, CROP, block, told};
use crate::tests::sources::{BOX, BOX_FILE, source};
use std::test::Fail;
use viz_base::Shared;
use viz_kinds::{Op, Settings};

/// The upper corner of the lower two rows, in the highest plane, with the numbers 38, 40, 44, 46.
const CORNER: [u32; 6] = [1, 2, 0, 1, 2, 2];

/// What is more than 40 becomes 0.
const FEW: Settings = Settings::Threshold { lo: 0, hi: 40 };

#[test]
fn blocks_of_one_image(rt: HostRuntime) -> Result<(), Fail> {
    let image = [Some(source(rt.alloc(), BOX_FILE)?)];
    for (settings, out, want) in [
        (CROP, CORNER, [38, 40, 44, 46]),
        (FEW, CORNER, [38, 40, 0, 0]),
        // The mean of 18 points beside the middle, and that of all 27.
        (
            Settings::Smooth { radius: 1 },
            [0, 1, 1, 1, 1, 1],
            [25, 26, 0, 0],
        ),
    ] {
        let made = block(rt.alloc(), settings, BOX, out, &image);
        assert_eq!(rt; told(made), Answer::Image(out, want), "{settings:?}");
    }
    Ok(())
}

#[test]
fn a_block_of_two_images(rt: HostRuntime) -> Result<(), Fail> {
    let image = source(rt.alloc(), BOX_FILE)?;
    let first = [Some(image.copy()?)];
    let few = block(rt.alloc(), FEW, BOX, CORNER, &first)?;
    let both = [Some(image), Some(Shared::new(rt.alloc(), few)?)];
    let less = Settings::Arith { op: Op::Sub };
    let made = block(rt.alloc(), less, BOX, CORNER, &both);
    assert_eq!(rt; told(made), Answer::Image(CORNER, [0, 0, 44, 46]));
    Ok(())
}
