//! Planes by hand: the indices of their true bits.

use std::alloc::{AllocError, Global};
use std::fmt::Debug;
use std::process::Abort;
use std::test::Fail;
use viz_lanes::{
    Bits, at_least_i8, at_least_i16, at_least_i32, at_least_i64, at_least_u8, at_least_u16,
    at_least_u32, at_least_u64, keep_within_i8, keep_within_i16, keep_within_i32, keep_within_i64,
    keep_within_u8, keep_within_u16, keep_within_u32, keep_within_u64, within_i8, within_i16,
    within_i32, within_i64, within_u8, within_u16, within_u32, within_u64,
};

// How many bits are true.
fn trues(bits: &Bits) -> u64 {
    let mut found: u64 = 0;
    for i in 0..bits.len() {
        if bits.get(i) {
            found = found.saturating_add(1);
        }
    }
    found
}

// Of so many bits just those from the first to the last are true, and so many are.
fn run(
    rt: &impl Abort,
    plane: Result<Bits, AllocError>,
    length: u8,
    [first, last]: [u64; 2],
    count: u64,
) -> Result<(), Fail> {
    let bits = plane?;
    assert_eq!(rt; bits.len(), u64::from(length));
    assert_eq!(rt; trues(&bits), count, "{first} on of {length}");
    for i in 0..bits.len() {
        assert_eq!(rt; bits.get(i), first <= i && i <= last, "bit {i} of {length}");
    }
    Ok(())
}

// The numbers from 0 on.
fn first_numbers(alloc: Global, length: u8) -> Result<Vec<u8>, AllocError> {
    let mut numbers = Vec::new(alloc);
    for n in 0..length {
        numbers.push(n)?;
    }
    Ok(numbers)
}

// So many numbers: the greatest in the first lane, in one within and the last, and at those that
// are left over.
fn mixed<T: Copy>(alloc: Global, length: u64, least: T, most: T) -> Result<Vec<T>, AllocError> {
    let mut numbers = Vec::new(alloc);
    for i in 0..length {
        numbers.push(if is_most(i) { most } else { least })?;
    }
    Ok(numbers)
}

fn is_most(i: u64) -> bool {
    i == 0 || i == 31 || i >= 63
}

// Just the greatest numbers of these are true.
fn only_most(rt: &impl Abort, plane: Result<Bits, AllocError>) -> Result<(), Fail> {
    let bits = plane?;
    assert_eq!(rt; bits.len(), 65);
    for i in 0..bits.len() {
        assert_eq!(rt; bits.get(i), is_most(i), "bit {i}");
    }
    Ok(())
}

// So many are true.
fn many(rt: &impl Abort, plane: Result<Bits, AllocError>, count: u64) -> Result<(), Fail> {
    let bits = plane?;
    assert_eq!(rt; trues(&bits), count);
    Ok(())
}

#[test]
fn planes_have_every_length(rt: HostRuntime) -> Result<(), Fail> {
    let alloc = rt.alloc();
    // How many numbers from 0 on, how many of 3 to 64 are among them, and how many of 40 on. The
    // last row is that of plane-of-67.
    for (length, within, at_least) in [
        (0, 0, 0),
        (1, 0, 0),
        (63, 60, 23),
        (64, 61, 24),
        (65, 62, 25),
        (67, 62, 27),
    ] {
        let numbers = first_numbers(alloc, length)?;
        let plane = within_u8(alloc, &numbers, 3, 64);
        run(&rt, plane, length, [3, 64], within)?;
        let plane = at_least_u8(alloc, &numbers, 40);
        run(&rt, plane, length, [40, 66], at_least)?;
    }
    Ok(())
}

// Each number is its index, so that the place of each that is kept shows.
#[test]
fn numbers_are_kept_where_they_stand(rt: HostRuntime) -> Result<(), Fail> {
    let alloc = rt.alloc();
    for length in [0, 1, 63, 64, 65, 67] {
        let numbers = first_numbers(alloc, length)?;
        let kept = keep_within_u8(alloc, &numbers, 3, 64)?;
        assert_eq!(&rt; kept.len(), length as usize);
        for (i, n) in kept.iter().enumerate() {
            let want = if 3 <= i && i <= 64 { i } else { 0 };
            assert_eq!(&rt; usize::from(*n), want, "{i} of {length}");
        }
    }
    Ok(())
}

/// A type of numbers with its kernels.
trait Lane: Copy + PartialEq + Debug {
    fn at_least(alloc: Global, numbers: &[Self], bound: Self) -> Result<Bits, AllocError>;

    fn within(alloc: Global, numbers: &[Self], lo: Self, hi: Self) -> Result<Bits, AllocError>;

    fn keep(alloc: Global, numbers: &[Self], lo: Self, hi: Self) -> Result<Vec<Self>, AllocError>;
}

impl Lane for i8 {
    fn at_least(alloc: Global, numbers: &[i8], bound: i8) -> Result<Bits, AllocError> {
        at_least_i8(alloc, numbers, bound)
    }

    fn within(alloc: Global, numbers: &[i8], lo: i8, hi: i8) -> Result<Bits, AllocError> {
        within_i8(alloc, numbers, lo, hi)
    }

    fn keep(alloc: Global, numbers: &[i8], lo: i8, hi: i8) -> Result<Vec<i8>, AllocError> {
        keep_within_i8(alloc, numbers, lo, hi)
    }
}

impl Lane for u8 {
    fn at_least(alloc: Global, numbers: &[u8], bound: u8) -> Result<Bits, AllocError> {
        at_least_u8(alloc, numbers, bound)
    }

    fn within(alloc: Global, numbers: &[u8], lo: u8, hi: u8) -> Result<Bits, AllocError> {
        within_u8(alloc, numbers, lo, hi)
    }

    fn keep(alloc: Global, numbers: &[u8], lo: u8, hi: u8) -> Result<Vec<u8>, AllocError> {
        keep_within_u8(alloc, numbers, lo, hi)
    }
}

impl Lane for i16 {
    fn at_least(alloc: Global, numbers: &[i16], bound: i16) -> Result<Bits, AllocError> {
        at_least_i16(alloc, numbers, bound)
    }

    fn within(alloc: Global, numbers: &[i16], lo: i16, hi: i16) -> Result<Bits, AllocError> {
        within_i16(alloc, numbers, lo, hi)
    }

    fn keep(alloc: Global, numbers: &[i16], lo: i16, hi: i16) -> Result<Vec<i16>, AllocError> {
        keep_within_i16(alloc, numbers, lo, hi)
    }
}

impl Lane for u16 {
    fn at_least(alloc: Global, numbers: &[u16], bound: u16) -> Result<Bits, AllocError> {
        at_least_u16(alloc, numbers, bound)
    }

    fn within(alloc: Global, numbers: &[u16], lo: u16, hi: u16) -> Result<Bits, AllocError> {
        within_u16(alloc, numbers, lo, hi)
    }

    fn keep(alloc: Global, numbers: &[u16], lo: u16, hi: u16) -> Result<Vec<u16>, AllocError> {
        keep_within_u16(alloc, numbers, lo, hi)
    }
}

impl Lane for i32 {
    fn at_least(alloc: Global, numbers: &[i32], bound: i32) -> Result<Bits, AllocError> {
        at_least_i32(alloc, numbers, bound)
    }

    fn within(alloc: Global, numbers: &[i32], lo: i32, hi: i32) -> Result<Bits, AllocError> {
        within_i32(alloc, numbers, lo, hi)
    }

    fn keep(alloc: Global, numbers: &[i32], lo: i32, hi: i32) -> Result<Vec<i32>, AllocError> {
        keep_within_i32(alloc, numbers, lo, hi)
    }
}

impl Lane for u32 {
    fn at_least(alloc: Global, numbers: &[u32], bound: u32) -> Result<Bits, AllocError> {
        at_least_u32(alloc, numbers, bound)
    }

    fn within(alloc: Global, numbers: &[u32], lo: u32, hi: u32) -> Result<Bits, AllocError> {
        within_u32(alloc, numbers, lo, hi)
    }

    fn keep(alloc: Global, numbers: &[u32], lo: u32, hi: u32) -> Result<Vec<u32>, AllocError> {
        keep_within_u32(alloc, numbers, lo, hi)
    }
}

impl Lane for i64 {
    fn at_least(alloc: Global, numbers: &[i64], bound: i64) -> Result<Bits, AllocError> {
        at_least_i64(alloc, numbers, bound)
    }

    fn within(alloc: Global, numbers: &[i64], lo: i64, hi: i64) -> Result<Bits, AllocError> {
        within_i64(alloc, numbers, lo, hi)
    }

    fn keep(alloc: Global, numbers: &[i64], lo: i64, hi: i64) -> Result<Vec<i64>, AllocError> {
        keep_within_i64(alloc, numbers, lo, hi)
    }
}

impl Lane for u64 {
    fn at_least(alloc: Global, numbers: &[u64], bound: u64) -> Result<Bits, AllocError> {
        at_least_u64(alloc, numbers, bound)
    }

    fn within(alloc: Global, numbers: &[u64], lo: u64, hi: u64) -> Result<Bits, AllocError> {
        within_u64(alloc, numbers, lo, hi)
    }

    fn keep(alloc: Global, numbers: &[u64], lo: u64, hi: u64) -> Result<Vec<u64>, AllocError> {
        keep_within_u64(alloc, numbers, lo, hi)
    }
}

// Both ends of a type as bounds, and a lower bound above the upper one. Of the type these are the
// least two numbers and the greatest two.
fn ends<T: Lane>(
    rt: &impl Abort,
    alloc: Global,
    [least, second, former, most]: [T; 4],
) -> Result<(), Fail> {
    let numbers = mixed(alloc, 65, least, most)?;
    only_most(rt, T::at_least(alloc, &numbers, most))?;
    only_most(rt, T::within(alloc, &numbers, second, most))?;
    many(rt, T::within(alloc, &numbers, least, former), 61)?;
    many(rt, T::within(alloc, &numbers, most, least), 0)
}

#[test]
fn each_type_has_its_ends_as_bounds(rt: HostRuntime) -> Result<(), Fail> {
    let alloc = rt.alloc();
    ends(&rt, alloc, [i8::MIN, i8::MIN + 1, i8::MAX - 1, i8::MAX])?;
    ends(&rt, alloc, [u8::MIN, u8::MIN + 1, u8::MAX - 1, u8::MAX])?;
    ends(&rt, alloc, [i16::MIN, i16::MIN + 1, i16::MAX - 1, i16::MAX])?;
    ends(&rt, alloc, [u16::MIN, u16::MIN + 1, u16::MAX - 1, u16::MAX])?;
    ends(&rt, alloc, [i32::MIN, i32::MIN + 1, i32::MAX - 1, i32::MAX])?;
    ends(&rt, alloc, [u32::MIN, u32::MIN + 1, u32::MAX - 1, u32::MAX])?;
    ends(&rt, alloc, [i64::MIN, i64::MIN + 1, i64::MAX - 1, i64::MAX])?;
    ends(&rt, alloc, [u64::MIN, u64::MIN + 1, u64::MAX - 1, u64::MAX])?;
    Ok(())
}

// What is left of a type's least numbers and its greatest at each length round a word of 64, where
// the lowest is left out, and where the highest is. Zero stands in the place of what is left out.
fn keeps<T: Lane>(
    rt: &impl Abort,
    alloc: Global,
    [least, zero, one, most]: [T; 4],
) -> Result<(), Fail> {
    for length in [0, 1, 63, 64, 65, 67] {
        let numbers = mixed(alloc, length, least, most)?;
        let high = T::keep(alloc, &numbers, one, most)?;
        let want = mixed(alloc, length, zero, most)?;
        assert_eq!(rt; high.as_slice(), want.as_slice(), "above of {length}");
        let low = T::keep(alloc, &numbers, least, one)?;
        let want = mixed(alloc, length, least, zero)?;
        assert_eq!(rt; low.as_slice(), want.as_slice(), "below of {length}");
    }
    Ok(())
}

// The same of the least number, 1 and the greatest.
fn keeps_one<T: Lane>(
    rt: &impl Abort,
    alloc: Global,
    [least, zero, one, most]: [T; 4],
) -> Result<(), Fail> {
    let high = T::keep(alloc, &[least, one, most], one, most)?;
    assert_eq!(rt; high.as_slice(), [zero, one, most].as_slice());
    let low = T::keep(alloc, &[least, one, most], least, one)?;
    assert_eq!(rt; low.as_slice(), [least, one, zero].as_slice());
    Ok(())
}

#[test]
fn numbers_of_each_type_are_kept(rt: HostRuntime) -> Result<(), Fail> {
    let alloc = rt.alloc();
    keeps(&rt, alloc, [i8::MIN, 0, 1, i8::MAX])?;
    keeps(&rt, alloc, [u8::MIN, 0, 1, u8::MAX])?;
    keeps(&rt, alloc, [i16::MIN, 0, 1, i16::MAX])?;
    keeps(&rt, alloc, [u16::MIN, 0, 1, u16::MAX])?;
    keeps(&rt, alloc, [i32::MIN, 0, 1, i32::MAX])?;
    keeps(&rt, alloc, [u32::MIN, 0, 1, u32::MAX])?;
    keeps(&rt, alloc, [i64::MIN, 0, 1, i64::MAX])?;
    keeps(&rt, alloc, [u64::MIN, 0, 1, u64::MAX])?;
    Ok(())
}

#[test]
fn one_is_kept_at_both_ends(rt: HostRuntime) -> Result<(), Fail> {
    let alloc = rt.alloc();
    keeps_one(&rt, alloc, [i8::MIN, 0, 1, i8::MAX])?;
    keeps_one(&rt, alloc, [u8::MIN, 0, 1, u8::MAX])?;
    keeps_one(&rt, alloc, [i16::MIN, 0, 1, i16::MAX])?;
    keeps_one(&rt, alloc, [u16::MIN, 0, 1, u16::MAX])?;
    keeps_one(&rt, alloc, [i32::MIN, 0, 1, i32::MAX])?;
    keeps_one(&rt, alloc, [u32::MIN, 0, 1, u32::MAX])?;
    keeps_one(&rt, alloc, [i64::MIN, 0, 1, i64::MAX])?;
    keeps_one(&rt, alloc, [u64::MIN, 0, 1, u64::MAX])?;
    Ok(())
}

#[test]
fn bits_are_pushed_across_words(rt: HostRuntime) -> Result<(), Fail> {
    let alloc = rt.alloc();
    let mut bits = Bits::new(alloc);
    assert_eq!(&rt; bits.len(), 0);
    for i in 0..130_u64 {
        bits.push(i % 3 == 2)?;
        assert_eq!(&rt; bits.len(), i + 1);
    }
    assert_eq!(&rt; trues(&bits), 43);
    for i in 0..bits.len() {
        assert_eq!(&rt; bits.get(i), i % 3 == 2, "bit {i}");
    }
    Ok(())
}

#[test]
fn words_begin_at_any_bit(rt: HostRuntime) -> Result<(), Fail> {
    let mut numbers: [u8; 70] = [0; 70];
    for at in [1, 63, 64, 69] {
        numbers[at] = 1;
    }
    let bits = at_least_u8(rt.alloc(), &numbers, 1)?;
    let words: [(u64, u64); 7] = [
        (0, 1 << 63 | 2),
        (1, 1 << 63 | 1 << 62 | 1),
        (63, 64 | 2 | 1),
        (64, 32 | 1),
        (69, 1),
        (70, 0),
        (u64::MAX, 0),
    ];
    for (at, word) in words {
        assert_eq!(rt; bits.word_from(at), word, "{at}");
    }
    Ok(())
}
