//! Ends of ranges by powers of two, bytes in two's complement by hand.

ghost use Rattle.std.specs.Prelude.{◌≡◌};
ghost use Rattle.viz_column.specs.Bytes.{IsBlock};

use std::alloc::Global;
use std::process::Abort;
use std::test::Fail;
use viz_column::{Column, Kind8, Lent, Number};

// The last numbers inside a type, which are kept, and the first ones outside.
fn ends<T: Number>(rt: &impl Abort, kind: Kind8, inside: [i128; 2], outside: [i128; 2]) {
    assert_eq!(rt; T::kind(), kind);
    for n in inside {
        let whole = T::of_whole(n).map(|x| x.whole());
        assert_eq!(rt; whole, Some(n), "{kind:?}");
        assert!(rt; kind.fits(n), "{n} in {kind:?}");
    }
    for n in outside {
        assert!(rt; T::of_whole(n).is_none(), "{n} in {kind:?}");
        assert!(rt; !kind.fits(n), "{n} in {kind:?}");
    }
    assert_eq!(rt; T::zero().whole(), 0);
}

#[test]
fn each_type_has_its_ends(rt: HostRuntime) {
    ends::<i8>(&rt, Kind8::I8, [-128, 127], [-129, 128]);
    ends::<u8>(&rt, Kind8::U8, [0, 255], [-1, 256]);
    ends::<i16>(&rt, Kind8::I16, [-32_768, 32_767], [-32_769, 32_768]);
    ends::<u16>(&rt, Kind8::U16, [0, 65_535], [-1, 65_536]);
    ends::<i32>(
        &rt,
        Kind8::I32,
        [-2_147_483_648, 2_147_483_647],
        [-2_147_483_649, 2_147_483_648],
    );
    ends::<u32>(&rt, Kind8::U32, [0, 4_294_967_295], [-1, 4_294_967_296]);
    ends::<i64>(
        &rt,
        Kind8::I64,
        [-9_223_372_036_854_775_808, 9_223_372_036_854_775_807],
        [-9_223_372_036_854_775_809, 9_223_372_036_854_775_808],
    );
    ends::<u64>(
        &rt,
        Kind8::U64,
        [0, 18_446_744_073_709_551_615],
        [-1, 18_446_744_073_709_551_616],
    );
}

// A block is read as these numbers, and they are written as the block. A column of the same numbers
// one by one, and one of a vector of them, are the same.
fn block<T: Number>(
    rt: &impl Abort,
    alloc: Global,
    bytes: &[u8],
    numbers: [i128; 2],
) -> Result<(), Fail>
    requires { IsBlock T.kind bytes.now }
{
    let kind = T::kind();
    let read = Column::from_be(alloc, kind, bytes)?;
    let mut pushed = Column::with_room(alloc, kind, 2)?;
    let mut items = Vec::new(alloc);
    for n in numbers {
        assert!(rt; pushed.kind().fits(n), "{n} in {kind:?}");
        pushed.push(n)?;
        items.push(T::of_whole(n).ok_or("a number")?)?;
    }
    for column in [read, pushed, Column::of(items)] {
        assert_eq!(rt; column.kind(), kind);
        assert_eq!(rt; column.len(), 2, "{kind:?}");
        assert_eq!(rt; column.get(0), numbers[0], "{kind:?}");
        assert_eq!(rt; column.get(1), numbers[1], "{kind:?}");
        let lent = column.numbers::<T>().ok_or("numbers")?;
        assert_eq!(rt; lent.len(), 2);
        assert_eq!(rt; lent[1].whole(), numbers[1], "{kind:?}");
        let written = column.to_be(alloc)?;
        assert!(rt; written.as_slice() == bytes, "{kind:?}");
    }
    Ok(())
}

#[test]
fn a_block_has_the_highest_byte_first(rt: HostRuntime) -> Result<(), Fail> {
    let alloc = rt.alloc();
    block::<i8>(&rt, alloc, b"\x7f\x80", [127, -128])?;
    block::<u8>(&rt, alloc, b"\x01\xff", [1, 255])?;
    block::<i16>(&rt, alloc, b"\x01\x02\xff\xfe", [258, -2])?;
    block::<u16>(&rt, alloc, b"\x01\x02\xff\xfe", [258, 65_534])?;
    block::<i32>(
        &rt,
        alloc,
        b"\x01\x02\x03\x04\xff\xff\xff\xfe",
        [16_909_060, -2],
    )?;
    block::<u32>(
        &rt,
        alloc,
        b"\x01\x02\x03\x04\xff\xff\xff\xfe",
        [16_909_060, 4_294_967_294],
    )?;
    block::<i64>(
        &rt,
        alloc,
        b"\x01\x02\x03\x04\x05\x06\x07\x08\xff\xff\xff\xff\xff\xff\xff\xfe",
        [72_623_859_790_382_856, -2],
    )?;
    block::<u64>(
        &rt,
        alloc,
        b"\x01\x02\x03\x04\x05\x06\x07\x08\xff\xff\xff\xff\xff\xff\xff\xfe",
        [72_623_859_790_382_856, 18_446_744_073_709_551_614],
    )?;
    Ok(())
}

// The kind of the numbers that are lent, and how many they are.
fn told(lent: &Lent<'_>) -> (Kind8, usize) {
    match lent {
        Lent::I8(s) => (Kind8::I8, s.len()),
        Lent::U8(s) => (Kind8::U8, s.len()),
        Lent::I16(s) => (Kind8::I16, s.len()),
        Lent::U16(s) => (Kind8::U16, s.len()),
        Lent::I32(s) => (Kind8::I32, s.len()),
        Lent::U32(s) => (Kind8::U32, s.len()),
        Lent::I64(s) => (Kind8::I64, s.len()),
        Lent::U64(s) => (Kind8::U64, s.len()),
    }
}

#[test]
fn a_column_lends_its_own_type_alone(rt: HostRuntime) -> Result<(), Fail> {
    let alloc = rt.alloc();
    for (kind, size) in [
        (Kind8::I8, 1),
        (Kind8::U8, 1),
        (Kind8::I16, 2),
        (Kind8::U16, 2),
        (Kind8::I32, 4),
        (Kind8::U32, 4),
        (Kind8::I64, 8),
        (Kind8::U64, 8),
    ] {
        assert_eq!(rt; kind.size(), size, "{kind:?}");
        let column = Column::new(alloc, kind);
        assert_eq!(rt; column.len(), 0);
        let (lent, count) = told(&column.slice());
        assert_eq!(rt; lent, kind);
        assert_eq!(rt; count, 0);
        assert!(rt;
            column.numbers::<u16>().is_some() == (kind == Kind8::U16),
            "{kind:?}"
        );
    }
    Ok(())
}
