//! Decimals as text.

ghost use Rattle.std.specs.Prelude.{◌≡◌, ◌++◌, ◌<◌, ◌^◌, ◌∷◌, OnOk, OnErr, pos};
ghost use Rattle.viz_lex.specs.Written.{places, fraction_text, magnitude_text, decimal_text};
ghost use Rattle.viz_lex.specs.Written.{IsBegun};

use crate::put::put_whole;
use std::alloc::AllocError;

/// So many billionths make 1.
const BILLION: u128 = 1_000_000_000;

/// Adds the digits of a fraction of so many places, without zeros at the end.
fn put_places(text: &mut Vec<u8>, count: u32, n: u32) -> Result<(), AllocError>
    requires few { count < 10 }
    requires small { n < 10 ^ count }
    ensures ok { OnOk result (text.new.items ≡ text.old.items ++ places count n) }
    ensures err { OnErr result (IsBegun text.old.items text.new.items) }
{
    let mut rest = n;
    let mut place = count;
    while rest != 0 {
        place -= 1;
        let unit = 10_u32.pow(place);
        text.push(b'0' + (rest / unit) as u8)?;
        rest %= unit;
    }
    Ok(())
}

/// Adds a point and the digits of so many billionths, or nothing for 0.
fn put_fraction(text: &mut Vec<u8>, n: u32) -> Result<(), AllocError>
    requires { n < 10 ^ 9 }
    ensures ok { OnOk result (text.new.items ≡ text.old.items ++ fraction_text n) }
    ensures err { OnErr result (IsBegun text.old.items text.new.items) }
{
    if n == 0 {
        return Ok(());
    }
    text.push(b'.')?;
    put_places(text, 9, n)
}

/// Adds the whole part of so many billionths, and their fraction.
fn put_magnitude(text: &mut Vec<u8>, n: u128) -> Result<(), AllocError>
    requires { n < 2 ^ 128 }
    ensures ok { OnOk result (text.new.items ≡ text.old.items ++ magnitude_text n) }
    ensures err { OnErr result (IsBegun text.old.items text.new.items) }
{
    put_whole(text, (n / BILLION) as i128)?;
    put_fraction(text, (n % BILLION) as u32)
}

/// Adds a decimal, or a part of it where memory is wanting.
fn put_signed(text: &mut Vec<u8>, nano: i128) -> Result<(), AllocError>
    ensures ok { OnOk result (text.new.items ≡ text.old.items ++ decimal_text nano) }
    ensures err { OnErr result (IsBegun text.old.items text.new.items) }
{
    if nano >= 0 {
        return put_magnitude(text, nano.unsigned_abs());
    }
    text.push(b'-')?;
    put_magnitude(text, nano.unsigned_abs())
}

/// Adds a number of billionths as a decimal: a minus sign if it is negative, the whole part, and,
/// if the fraction isn't 0, a point and its digits without zeros at the end.
pub fn put_decimal(text: &mut Vec<u8>, nano: i128) -> Result<(), AllocError>
    ensures ok { OnOk result (text.new.items ≡ text.old.items ++ decimal_text nano) }
    ensures err { OnErr result (text.new.items ≡ text.old.items) }
{
    let len = text.len();
    let done = put_signed(text, nano);
    if done.is_err() {
        text.truncate(len);
    }
    done
}
