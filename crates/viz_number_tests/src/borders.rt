//! Numbers that just fit the ways in 64 bits and that just don't, reckoned by a plain program.
use std::test::Fail;
use viz_fraction::{
    Point5, SmallPoint, crossing, fixed, place, point, small, small_crossing, within,
};

/// The widest number, 2^120.
const T: i128 = 1 << 120;

/// The ends of 32 bits.
const LEAST: i128 = -(1 << 31);

const MOST: i128 = (1 << 31) - 1;

/// A point of five numbers, where they are one.
fn point_of([x, y, z, s, w]: [i128; 5]) -> Option<Point5> {
    if w <= 0 {
        return None;
    }
    match point(x, y, z, s, w) {
        Ok(p) => Some(p),
        Err(_) => None,
    }
}

/// A small point of five numbers, where they are one.
fn small_of(numbers: [i128; 5]) -> Option<SmallPoint> {
    match point_of(numbers) {
        Some(p) => small(&p),
        None => None,
    }
}

/// The five numbers of a point.
fn five(p: &Point5) -> [i128; 5] {
    [p.x(), p.y(), p.z(), p.s(), p.w()]
}

/// The crossing of two ends by its five numbers.
fn crossed(la: i64, a: [i128; 5], lb: i64, b: [i128; 5]) -> Option<[i128; 5]> {
    if la < 0 || lb >= 0 {
        return None;
    }
    let (Some(a), Some(b)) = (point_of(a), point_of(b)) else {
        return None;
    };
    match crossing(i128::from(la), &a, i128::from(lb), &b) {
        Ok(p) => Some(five(&p)),
        Err(_) => None,
    }
}

/// The same of small points.
fn small_crossed(la: i64, a: [i128; 5], lb: i64, b: [i128; 5]) -> Option<[i128; 5]> {
    if la < 0 || lb >= 0 {
        return None;
    }
    let (Some(a), Some(b)) = (small_of(a), small_of(b)) else {
        return None;
    };
    match small_crossing(la, &a, lb, &b) {
        Some(p) => Some(five(&p.wide())),
        None => None,
    }
}

#[test]
fn short_crossings_are_the_same(rt: HostRuntime) {
    let o = [0, 0, 0, 0, 1];
    let x = [1, 0, 0, 0, 1];
    for (la, a, lb, b, want, is_short) in [
        // Weights that together are 2^32 - 1, and 2^32.
        (
            4_294_967_294,
            o,
            -1,
            x,
            [4_294_967_294, 0, 0, 0, 4_294_967_295],
            true,
        ),
        (
            4_294_967_295,
            o,
            -1,
            x,
            [4_294_967_295, 0, 0, 0, 4_294_967_296],
            false,
        ),
        // Values past 32 bits whose weights are 1 and 1, and 0 and 1.
        (
            1 << 33,
            [0, 0, 5, 0, 1],
            -(1 << 33),
            [0, 0, 6, 0, 1],
            [0, 0, 11, 0, 2],
            true,
        ),
        (
            0,
            [7, 8, 9, 4, 3],
            -(1 << 40),
            [1, 1, 1, 1, 1],
            [7, 8, 9, 4, 3],
            true,
        ),
        // Both ends of 32 bits, and one past each of them.
        (
            1,
            [LEAST, 0, 0, 0, 1],
            -1,
            [MOST, 0, 0, 0, 1],
            [-1, 0, 0, 0, 2],
            true,
        ),
        (1, [LEAST, 0, 0, 0, 1], -1, [MOST + 1, 0, 0, 0, 1], o, false),
        (
            1,
            [LEAST - 1, 0, 0, 0, 1],
            -1,
            [MOST, 0, 0, 0, 1],
            [-1, 0, 0, 0, 1],
            false,
        ),
        (
            1,
            [1, 0, 0, 0, MOST],
            -1,
            [2, 0, 0, 0, MOST],
            [3, 0, 0, 0, 2 * MOST],
            true,
        ),
    ] {
        let found = if is_short { Some(want) } else { None };
        assert_eq!(rt; crossed(la, a, lb, b), Some(want), "{la} {a:?} {lb} {b:?}");
        assert_eq!(rt; small_crossed(la, a, lb, b), found, "{la} {a:?} {lb} {b:?}");
    }
}

#[test]
fn short_sums_are_exact(rt: HostRuntime) {
    for (la, a, lb, b, want) in [
        // The least sum of all, -(2^32 - 1) * 2^31.
        (
            4_294_967_294,
            [LEAST, 0, 0, 0, 1],
            -1,
            [LEAST, 1, 0, 0, 1],
            [
                -9_223_372_034_707_292_160,
                4_294_967_294,
                0,
                0,
                4_294_967_295,
            ],
        ),
        // A common divisor with zeros between, and both signs.
        (1, [1, 0, 0, 0, 3], -1, [-1, 2, 0, 4, 3], [0, 1, 0, 2, 3]),
        (
            1,
            [-1, 0, -6, 0, 3],
            -1,
            [-1, 2, 0, -4, 3],
            [-1, 1, -3, -2, 3],
        ),
    ] {
        assert_eq!(rt; crossed(la, a, lb, b), Some(want), "{la} {a:?} {lb} {b:?}");
        assert_eq!(rt;
            small_crossed(la, a, lb, b),
            Some(want),
            "{la} {a:?} {lb} {b:?}"
        );
    }
}

#[test]
fn decimals_at_the_border(rt: HostRuntime) {
    for (n, w, k, want) in [
        // The numerator at three places just fits 64 bits, and just doesn't.
        (9_223_372_036_854_775, 1, 3, Some(9_223_372_036_854_775_000)),
        (9_223_372_036_854_776, 1, 3, None),
        (9_223_372_036_854_776, 2, 3, Some(4_611_686_018_427_388_000)),
        (
            -9_223_372_036_854_775,
            7,
            3,
            Some(-1_317_624_576_693_539_286),
        ),
        (
            -9_223_372_036_854_776,
            3,
            3,
            Some(-3_074_457_345_618_258_667),
        ),
        // The same at nine places.
        (9_223_372_036, 7, 9, Some(1_317_624_576_571_428_571)),
        (9_223_372_037, 7, 9, Some(1_317_624_576_714_285_714)),
        (-9_223_372_037, 7, 9, Some(-1_317_624_576_714_285_715)),
        // A weight of 2^63, and a numerator of 2^63.
        (-1, 1 << 63, 3, Some(-1)),
        (1 << 63, 1 << 62, 9, Some(2_000_000_000)),
    ] {
        assert!(rt;
            w > 0 && w <= T && n <= T && n >= -T && k <= 9,
            "a fraction"
        );
        let got = match fixed(n, w, k) {
            Ok(m) => Some(m),
            Err(_) => None,
        };
        assert_eq!(rt; got, want, "{n} / {w} at {k}");
    }
}

/// The place of five numbers.
fn placed(numbers: [i128; 5]) -> Option<[i128; 4]> {
    match point_of(numbers) {
        Some(p) => Some(place(&p)),
        None => None,
    }
}

#[test]
fn places_leave_out_the_scalar(rt: HostRuntime) {
    for (numbers, want) in [
        ([1, 2, 3, 7, 4], [1, 2, 3, 4]),
        // The scalar alone is odd.
        ([2, 4, 6, 1, 8], [1, 2, 3, 4]),
        ([-3, 0, 9, 1, 6], [-1, 0, 3, 2]),
        ([0, 0, 0, 5, 7], [0, 0, 0, 1]),
        ([T, 0, -T, 1, T], [1, 0, -1, 1]),
    ] {
        assert_eq!(rt; placed(numbers), Some(want), "{numbers:?}");
    }
}

/// Whether a scalar s / w lies between two wholes.
fn between(s: i128, w: i128, lo: i64, hi: i64) -> Option<bool> {
    match point_of([0, 0, 0, s, w]) {
        Some(p) => Some(within(&p, lo, hi)),
        None => None,
    }
}

#[test]
fn scalars_within_wholes(rt: HostRuntime) {
    for (s, w, lo, hi, want) in [
        // 5, and a ninth less and more.
        (45, 9, 5, 5, true),
        (44, 9, 5, 6, false),
        (46, 9, 4, 5, false),
        (44, 9, 4, 5, true),
        // -5/2.
        (-5, 2, -3, -2, true),
        (-5, 2, -2, 0, false),
        (-5, 2, -5, -3, false),
        // A little above 2, and below, by weights of 2^63 - 1 and 2^63.
        ((1 << 64) - 1, (1 << 63) - 1, 2, 2, false),
        ((1 << 64) - 1, (1 << 63) - 1, 2, 3, true),
        ((1 << 64) + 1, 1 << 63, 2, 2, false),
        ((1 << 64) + 1, 1 << 63, 2, 3, true),
        ((1 << 64) - 1, 1 << 63, 2, 3, false),
        // A little past 1 and -1, by the widest numbers.
        (T, T - 1, 0, 1, false),
        (T, T - 1, 1, 2, true),
        (-T, T - 1, -1, 0, false),
        (-T, T - 1, -2, -1, true),
        // The ends of 64 bits.
        (i64::MIN as i128, 1, i64::MIN, i64::MIN, true),
        (1 << 63, 1, 0, i64::MAX, false),
    ] {
        assert_eq!(rt;
            between(s, w, lo, hi),
            Some(want),
            "{s} / {w} in {lo} to {hi}"
        );
    }
}
