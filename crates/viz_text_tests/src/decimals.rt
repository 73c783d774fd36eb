//! Decimals whose values were counted by hand, read and written.

use std::test::Fail;
use viz_lex::*;

/// 1, in billionths.
const ONE: i128 = 1_000_000_000;

const fn refused(place: u64) -> Result<i128, FileFault> {
    Err(FileFault {
        kind: FileKind::HeaderNumber,
        place,
    })
}

#[test]
fn decimals(rt: HostRuntime) {
    for (text, want) in [
        (b"0.33333333333".as_slice(), Ok(333_333_333)),
        (b"1e0", Ok(ONE)),
        (b" -2.5e-3", Ok(-2_500_000)),
        (b".5", Ok(500_000_000)),
        (b"5.", Ok(5 * ONE)),
        (b"+7", Ok(7 * ONE)),
        (b"\t12.25", Ok(12_250_000_000)),
        (b"0.000000001", Ok(1)),
        // truncated toward zero, and never rounded
        (b"-0.0000000001", Ok(0)),
        (b"-0.9999999999", Ok(-999_999_999)),
        (b"1000000000.0000000001", Ok(ONE * ONE)),
        // exponents of either sign, near and far
        (b"1E+2", Ok(100 * ONE)),
        (b"123456e-3", Ok(123_456_000_000)),
        (b"1e-300", Ok(0)),
        (b"0e999999999", Ok(0)),
        (b"1e999999999999999999999999999999999999999999", refused(0)),
        (b"1e-999999999999999999999999999999999999999999", Ok(0)),
        // the limit, and past it
        (b"1e18", Ok(ONE * ONE * ONE)),
        (b"-1e18", Ok(-(ONE * ONE * ONE))),
        (b"1000000000000000000.0000000009", Ok(ONE * ONE * ONE)),
        (b"1000000000000000000.000000001", refused(0)),
        (b" 1e19", refused(1)),
    ] {
        let mut lexer = Lexer::new(text);
        assert_eq!(rt; lexer.decimal(), want, "{text:?}");
        let place = if want.is_ok() { text.len() as u64 } else { 0 };
        assert_eq!(rt; lexer.place(), place, "{text:?}");
    }
}

#[test]
fn decimals_of_many_digits(rt: HostRuntime) {
    for (text, want) in [
        // 10^-57 times 10^60
        (
            b"0.000000000000000000000000000000000000000000000000000000001e60".as_slice(),
            Ok(1000 * ONE),
        ),
        // 60 digits divided by 10^59
        (
            b"123456789012345678901234567890123456789012345678901234567890e-59",
            Ok(1_234_567_890),
        ),
        // 40 digits in front of the point are past 128 bits
        (b"1000000000000000000000000000000000000000.", refused(0)),
        // 64 bytes, and 65
        (
            b"0000000000000000000000000000000000000000000000000000000000000000",
            Ok(0),
        ),
        (
            b"00000000000000000000000000000000000000000000000000000000000000000",
            refused(0),
        ),
    ] {
        let mut lexer = Lexer::new(text);
        assert_eq!(rt; lexer.decimal(), want, "{text:?}");
    }
}

#[test]
fn words_that_are_no_decimals(rt: HostRuntime) {
    for text in [
        b".".as_slice(),
        b"+",
        b"-",
        b"e5",
        b".e5",
        b"1e",
        b"1e+",
        b"1e2.0",
        b"1.2.3",
        b"1x",
        b"+-1",
        b"1,5",
    ] {
        let mut lexer = Lexer::new(text);
        assert_eq!(rt; lexer.decimal(), refused(0), "{text:?}");
        assert_eq!(rt; lexer.place(), 0, "{text:?}");
    }
    let mut blank = Lexer::new(b" \n ");
    let end = FileFault {
        kind: FileKind::Truncated,
        place: 3,
    };
    assert_eq!(rt; blank.decimal(), Err(end));
}

#[test]
fn decimals_are_written(rt: HostRuntime) -> Result<(), Fail> {
    for (nano, want) in [
        (0, b"x 0".as_slice()),
        (ONE, b"x 1"),
        (-ONE, b"x -1"),
        (500_000_000, b"x 0.5"),
        (-2_500_000, b"x -0.0025"),
        (1, b"x 0.000000001"),
        (1_010_000_000, b"x 1.01"),
        (333_333_333, b"x 0.333333333"),
        (ONE * ONE * ONE, b"x 1000000000000000000"),
        (i128::MAX, b"x 170141183460469231731687303715.884105727"),
        (i128::MIN, b"x -170141183460469231731687303715.884105728"),
    ] {
        let mut text = Vec::from_slice(rt.alloc(), b"x ")?;
        put_decimal(&mut text, nano)?;
        assert_eq!(rt; text.as_slice(), want, "{nano}");
    }
    Ok(())
}
