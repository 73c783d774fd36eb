//! How many may be written, at the limit.

use std::test::Fail;
use viz_image_write::counts_fit;

#[test]
fn counts_are_below_2_to_the_31(rt: HostRuntime) -> Result<(), Fail> {
    for (points, size, want) in [
        (0, 0, true),
        (2_147_483_647, 2_147_483_647, true),
        (2_147_483_648, 0, false),
        (0, 2_147_483_648, false),
        (u64::MAX, u64::MAX, false),
    ] {
        assert_eq!(rt; counts_fit(points, size), want, "{points} {size}");
    }
    Ok(())
}
