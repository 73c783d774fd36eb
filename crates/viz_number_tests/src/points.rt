//! Points, values, crossings and decimals reckoned by hand, up to the widest numbers.
use std::test::Fail;
use viz_fraction::{Form, Point5, TooWide, crossing, fixed, is_inside, point, small, value};

/// The widest number, 2^120.
const T: i128 = 1 << 120;

/// The five numbers of a point.
fn five(p: &Point5) -> [i128; 5] {
    [p.x(), p.y(), p.z(), p.s(), p.w()]
}

/// The crossing of an inside and an outside end, by its five numbers.
fn crossed(la: i128, a: &Point5, lb: i128, b: &Point5) -> Option<Result<[i128; 5], TooWide>> {
    if la > T || lb < -T || !is_inside(la) || is_inside(lb) {
        return None;
    }
    Some(crossing(la, a, lb, b).map(|p| five(&p)))
}

#[test]
fn points_are_in_lowest_terms(rt: HostRuntime) -> Result<(), Fail> {
    for ([x, y, z, s, w], want) in [
        ([1, 2, 3, 4, 1], Ok([1, 2, 3, 4, 1])),
        ([2, -4, 6, 0, 8], Ok([1, -2, 3, 0, 4])),
        ([0, 0, 0, 0, 7], Ok([0, 0, 0, 0, 1])),
        // 3 * 5 * 7 and 2 * 5 * 7 have 35 in common, and the others too.
        ([105, 70, -35, 350, 700], Ok([3, 2, -1, 10, 20])),
        // No common divisor of all, though each two have one.
        ([6, 10, 15, 0, 30], Ok([6, 10, 15, 0, 30])),
        // The widest numbers, and one more.
        ([T, 0, 0, 0, 1], Ok([T, 0, 0, 0, 1])),
        ([T + 1, 0, 0, 0, 1], Err(TooWide)),
        ([0, 0, 0, T, T], Ok([0, 0, 0, 1, 1])),
        ([0, -T, 0, 0, 1], Ok([0, -T, 0, 0, 1])),
        ([0, -T - 1, 0, 0, 1], Err(TooWide)),
        ([0, 0, T + 1, 0, 1], Err(TooWide)),
        ([0, 0, 0, -T - 1, 1], Err(TooWide)),
        ([0, 0, 0, 0, T + 1], Err(TooWide)),
        // Past 64 bits: 3 * 2^100 of each.
        ([3 << 100, 0, 0, 0, 6 << 100], Ok([1, 0, 0, 0, 2])),
    ] {
        assert!(rt; w > 0, "a positive weight");
        let got = point(x, y, z, s, w).map(|p| five(&p));
        assert_eq!(rt; got, want, "{x} {y} {z} {s} {w}");
    }
    Ok(())
}

/// The five numbers of a point that was made small and wide again, where it can be small.
fn small_and_wide([x, y, z, s, w]: [i128; 5]) -> Option<[i128; 5]> {
    if w <= 0 {
        return None;
    }
    let Ok(p) = point(x, y, z, s, w) else {
        return None;
    };
    match small(&p) {
        Some(q) => Some(five(&q.wide())),
        None => None,
    }
}

#[test]
fn small_points_fit_64_bits(rt: HostRuntime) {
    let most = i128::from(i64::MAX);
    let least = i128::from(i64::MIN);
    for (numbers, fits) in [
        ([1, -2, 3, -4, 5], true),
        // The ends of 64 bits.
        ([most, least, most, least, 1], true),
        ([least, most, least, most, most - 1], true),
        // One past an end, by each of the five.
        ([most + 1, 0, 0, 0, 1], false),
        ([0, least - 1, 0, 0, 1], false),
        ([0, 0, most + 1, 0, 1], false),
        ([0, 0, 0, least - 1, 1], false),
        ([1, 0, 0, 0, most + 1], false),
    ] {
        let want = if fits { Some(numbers) } else { None };
        assert_eq!(rt; small_and_wide(numbers), want, "{numbers:?}");
    }
}

#[test]
fn values_are_sums_of_terms(rt: HostRuntime) -> Result<(), Fail> {
    let scalar = Form {
        a: 0,
        b: 0,
        c: 0,
        q: 1,
        r: 0,
    };
    let most = Form {
        a: i64::MAX,
        b: 0,
        c: 0,
        q: 0,
        r: 0,
    };
    for (form, [x, y, z, s, w], want) in [
        // x + 2 y - 3 z + 4 s - 5 w, by hand.
        (
            Form {
                a: 1,
                b: 2,
                c: -3,
                q: 4,
                r: 5,
            },
            [1, 2, 3, 4, 1],
            Ok(7),
        ),
        // A contour at 5, and a plane.
        (Form { r: 5, ..scalar }, [1, 1, 1, 9, 1], Ok(4)),
        (Form { r: 5, ..scalar }, [0, 0, 0, 0, 1], Ok(-5)),
        (
            Form {
                a: 0,
                b: 0,
                c: 1,
                q: 0,
                r: 1,
            },
            [7, 7, -3, 9, 2],
            Ok(-5),
        ),
        // The widest value, and one more.
        (scalar, [0, 0, 0, T, 1], Ok(T)),
        (Form { r: -1, ..scalar }, [0, 0, 0, T, 1], Err(TooWide)),
        (Form { r: 1, ..scalar }, [0, 0, 0, T, 1], Ok(T - 1)),
        // A term of 2^63 - 1 times 2^57 is narrow, one of 2^58 isn't, and neither is one of 2^120.
        (most, [1 << 57, 0, 0, 0, 1], Ok((i64::MAX as i128) << 57)),
        (most, [1 << 58, 0, 0, 0, 1], Err(TooWide)),
        (most, [-T, 0, 0, 0, 1], Err(TooWide)),
        // Two wide terms whose sum is 0.
        (
            Form {
                b: -2,
                a: 2,
                ..scalar
            },
            [T, T, 0, 0, 1],
            Err(TooWide),
        ),
    ] {
        assert!(rt; w > 0, "a positive weight");
        let p = point(x, y, z, s, w)?;
        assert_eq!(rt; value(&form, &p), want, "{form:?} {p:?}");
    }
    Ok(())
}

#[test]
fn crossings_are_weighted_means(rt: HostRuntime) -> Result<(), Fail> {
    for (la, [ax, ay, az, as_, aw], lb, [bx, by, bz, bs, bw], want) in [
        // Level 5 between 9 and 0: five ninths of the way from 0.
        (
            4,
            [1, 1, 1, 9, 1],
            -5,
            [0, 0, 0, 0, 1],
            Ok([5, 5, 5, 45, 9]),
        ),
        // On the inside end.
        (0, [1, 1, 1, 5, 1], -5, [0, 0, 0, 0, 1], Ok([1, 1, 1, 5, 1])),
        // Values 2 and -4: a third of the way from -6 to 3.
        (
            2,
            [-6, 0, 0, 0, 1],
            -4,
            [3, 0, 0, 0, 1],
            Ok([-3, 0, 0, 0, 1]),
        ),
        // The middle of -1/2 and -3/2, with scalars 1/2 and 1/2.
        (
            1,
            [-1, -1, 0, 1, 2],
            -1,
            [-3, -1, 0, 1, 2],
            Ok([-2, -1, 0, 1, 2]),
        ),
        // Steps of 2 along x: the middle of 0 and 2, in lowest terms.
        (3, [0, 4, 0, 6, 1], -3, [2, 4, 0, 0, 1], Ok([1, 4, 0, 3, 1])),
        // Values without a common factor, weights 3 and 2.
        (
            7,
            [0, 0, 1, 0, 3],
            -5,
            [1, 0, 0, 0, 2],
            Ok([7, 0, 5, 0, 29]),
        ),
        // A term of 2^121 is wide, one of 2^120 isn't.
        (T, [0, 0, 0, 0, 1], -1, [2, 0, 0, 0, 1], Err(TooWide)),
        (
            T - 1,
            [0, 0, 0, 0, 1],
            -1,
            [1, 0, 0, 0, 1],
            Ok([T - 1, 0, 0, 0, T]),
        ),
        // A sum of 2^120 + 1 is wide.
        (T, [0, 0, 0, 0, 1], -1, [1, 0, 0, 0, 1], Err(TooWide)),
        // A term of the inside end is wide.
        (1, [T, 0, 0, 0, 1], -2, [0, 0, 0, 0, 1], Err(TooWide)),
    ] {
        assert!(rt; aw > 0, "a positive weight");
        let a = point(ax, ay, az, as_, aw)?;
        assert!(rt; bw > 0, "a positive weight");
        let b = point(bx, by, bz, bs, bw)?;
        let got = crossed(la, &a, lb, &b).ok_or("an inside and an outside end")?;
        assert_eq!(rt; got, want, "{la} {a:?} {lb} {b:?}");
    }
    Ok(())
}

#[test]
fn decimals_are_rounded_down(rt: HostRuntime) -> Result<(), Fail> {
    for (n, w, k, want) in [
        (5, 9, 3, Ok(555)),
        (-5, 9, 3, Ok(-556)),
        (-1, 2, 0, Ok(-1)),
        (-4, 2, 0, Ok(-2)),
        (0, 7, 9, Ok(0)),
        (1, 3, 9, Ok(333_333_333)),
        // Both ends of 64 bits, and one past them.
        (9_223_372_036_854_775_807, 1, 0, Ok(i64::MAX)),
        (9_223_372_036_854_775_808, 1, 0, Err(TooWide)),
        (-9_223_372_036_854_775_808, 1, 0, Ok(i64::MIN)),
        (-9_223_372_036_854_775_809, 1, 0, Err(TooWide)),
        (922_337_203_685_477_580, 1, 1, Ok(9_223_372_036_854_775_800)),
        (922_337_203_685_477_581, 1, 1, Err(TooWide)),
        (-922_337_203_685_477_581, 1, 1, Err(TooWide)),
        (T, 1, 9, Err(TooWide)),
        // The widest numbers, whose product with 10^9 leaves 128 bits: 1/2, 1 and nearly 1.
        (T / 2, T, 9, Ok(500_000_000)),
        (T, T, 9, Ok(1_000_000_000)),
        (T - 1, T, 9, Ok(999_999_999)),
        (1 - T, T, 9, Ok(-1_000_000_000)),
        (-1, T, 9, Ok(-1)),
    ] {
        assert!(rt;
            w > 0 && w <= T && n <= T && n >= -T && k <= 9,
            "a fraction"
        );
        assert_eq!(rt; fixed(n, w, k), want, "{n} / {w} at {k}");
    }
    Ok(())
}
