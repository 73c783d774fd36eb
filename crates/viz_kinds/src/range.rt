//! The values that each parameter may have.

ghost use Rattle.std.specs.Prelude.{◌≡◌, ◌≤◌, ◌&&◌, ◌||◌, take, drop, nat_le, length, int_le, ℤ};
ghost use Rattle.std.specs.Prelude.{pos};
ghost use Rattle.viz_kinds.specs.Values.{numbers_of, fits_range, fits_rest, takes_text};
ghost use Rattle.viz_kinds.specs.Values.{fits_param, is_value, is_ascending, is_normal};

use crate::param::{Param, Value};
use viz_base::Word;

/// How many numbers a parameter takes, and the least and the greatest of each.
#[derive(Clone, Copy, PartialEq, Eq, Debug)]
pub struct Range {
    pub least: u8,
    pub most: u8,
    pub low: i64,
    pub high: i64,
}

/// The numbers that the parameter takes; None where it takes a text. Those of Bounds, Plane and
/// Version have to fit together besides, as `allows` says.
#[rattlefmt::skip]
pub fn range_of(param: Param) -> Option<Range>
    ensures value { result ≡ numbers_of param }
{
    let takes = |least, most, low, high| Some(Range { least, most, low, high });
    match param {
        Param::Unit => takes(1, 1, 0, 9),
        Param::Bounds => takes(6, 6, 0, 2_147_483_647),
        Param::Rate => takes(3, 3, 1, 1024),
        Param::Range => takes(2, 2, i64::MIN, i64::MAX),
        Param::Radius => takes(1, 1, 0, 8),
        Param::Levels => takes(1, 8, i64::MIN, i64::MAX),
        Param::Plane => takes(4, 4, -2_147_483_647, 2_147_483_647),
        Param::Digits => takes(1, 1, 0, 9),
        Param::Release => takes(1, 1, 0, 1),
        Param::Version => takes(1, 1, 3, 5),
        Param::Array | Param::Op | Param::Mode | Param::Style => None,
    }
}

/// Whether the parameter may have the value.
pub fn allows(param: Param, value: &Value) -> bool
    ensures value { result ≡ is_value param value.now }
{
    match value {
        Value::Numbers { count, items } => match range_of(param) {
            Some(range) => fits(&range, *count, items) && is_whole(param, items),
            None => false,
        },
        Value::Text(word) => takes(param, word),
    }
}

fn lies_in(n: &i64, low: &i64, high: &i64) -> bool
    ensures { result ≡ (int_le low.now n.now && int_le n.now high.now) }
{
    *low <= *n && *n <= *high
}

// Whether each of the numbers lies between the two.
fn all_in(numbers: &[i64], low: &i64, high: &i64) -> bool
    ensures { result ≡ fits_range low.now high.now numbers.now }
{
    for n in numbers {
        if !lies_in(n, low, high) {
            return false;
        }
    }
    true
}

// Whether there are as many numbers as the range says, each within it, and zeros behind them.
fn fits(range: &Range, count: u8, items: &[i64; 8]) -> bool
    ensures { result ≡ fits_param range.now count items.now }
{
    if count < range.least || count > range.most || count > 8 {
        return false;
    }
    let (numbers, rest) = items.split_at(count as usize);
    all_in(numbers, &range.low, &range.high) && all_in(rest, &0, &0)
}

// Whether the numbers stand together: bounds ascend, a plane has a normal, a version is 3 or 5.
fn is_whole(param: Param, items: &[i64; 8]) -> bool
    ensures { result ≡ fits_rest param items.now }
{
    match param {
        Param::Bounds => { items[0] <= items[1] && items[2] <= items[3] && items[4] <= items[5] }
        Param::Plane => items[0] != 0 || items[1] != 0 || items[2] != 0,
        Param::Version => items[0] == 3 || items[0] == 5,
        _ => true,
    }
}

fn takes(param: Param, word: &Word) -> bool
    ensures { result ≡ takes_text param word.now }
{
    let text = word.bytes();
    match param {
        Param::Array => true,
        Param::Op => text == b"add".as_slice()
            || text == b"sub".as_slice()
            || text == b"min".as_slice()
            || text == b"max".as_slice(),
        Param::Mode => text == b"all".as_slice() || text == b"any".as_slice(),
        Param::Style => text == b"ascii".as_slice() || text == b"binary".as_slice(),
        _ => false,
    }
}
