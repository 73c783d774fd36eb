//! Values of parameters: read off a node's settings, and put into them.

ghost use Rattle.std.specs.Prelude.{◌≡◌, ◌≤◌, ℕ};
ghost use Rattle.viz_base.specs.Names.{IsName};
ghost use Rattle.viz_kinds.specs.Settings.{natural, pick_of as picked, pick_text as picking};
ghost use Rattle.viz_kinds.specs.Settings.{op_of as reckoned, op_text as reckoning};
ghost use Rattle.viz_kinds.specs.Settings.{with as changed, with_numbers as numbered};
ghost use Rattle.viz_kinds.specs.Settings.{with_text as texted, release_with as released, setting};
ghost use Rattle.viz_kinds.specs.Settings.{value_of, boxed, rated, version_of as versioned};
ghost use Rattle.viz_kinds.specs.Settings.{one as single};
ghost use Rattle.std.specs.Prelude.{codes, if◌then◌else◌, Some};
ghost use Rattle.viz_kinds.specs.declared.param.Value.TheVariants.{Numbers, Text};

use crate::param::{Param, Value};
use crate::settings::{Op, Settings};
use viz_base::{Pick, Word};

// The number, where it is one from 0 to the limit; else 0.
fn small(n: &i64, limit: u32) -> u32
    ensures value { result ≡ natural limit n.now }
    ensures within { result ≤ limit }
{
    if 0 <= *n && *n <= i64::from(limit) {
        *n as u32
    } else {
        0
    }
}

fn digit(n: &i64) -> u8
    ensures { result ≡ natural 9 n.now }
{
    small(n, 9) as u8
}

fn version_of(n: &i64) -> u8
    ensures { result ≡ versioned n.now }
{
    if *n == 5 { 5 } else { 3 }
}

fn index(n: &i64) -> u32
    ensures { result ≡ natural 2147483647 n.now }
{
    small(n, 2_147_483_647)
}

fn spelled(text: &[u8]) -> Word
    requires { IsName text.now }
    ensures { result ≡ text.now }
{
    Word::new(text).unwrap()
}

fn pick_of(word: &Word) -> Pick
    ensures { result ≡ picked word.now }
{
    let text = word.bytes();
    if text == b"*".as_slice() {
        Pick::First
    } else if text == b"-".as_slice() {
        Pick::Zero
    } else {
        Pick::Named(*word)
    }
}

fn pick_text(pick: &Pick) -> Word
    ensures { result ≡ picking pick.now }
{
    match pick {
        Pick::First => spelled(b"*"),
        Pick::Zero => spelled(b"-"),
        Pick::Named(name) => *name,
    }
}

fn op_of(word: &Word) -> Op
    ensures { result ≡ reckoned word.now }
{
    let text = word.bytes();
    if text == b"add".as_slice() {
        Op::Add
    } else if text == b"sub".as_slice() {
        Op::Sub
    } else if text == b"min".as_slice() {
        Op::Min
    } else {
        Op::Max
    }
}

fn op_text(op: Op) -> Word
    ensures { result ≡ reckoning op }
{
    match op {
        Op::Add => spelled(b"add"),
        Op::Sub => spelled(b"sub"),
        Op::Min => spelled(b"min"),
        Op::Max => spelled(b"max"),
    }
}

/// Whether a node has release, after another value of the parameter.
pub fn release_with(release: bool, param: Param, value: &Value) -> bool
    ensures value { result ≡ released release param value.now }
{
    match (param, value) {
        (Param::Release, Value::Numbers { items, .. }) => items[0] == 1,
        _ => release,
    }
}

impl Settings {
    /// The settings with another value of the parameter, where the kind has it and it may have
    /// the value.
    pub fn with(&self, param: Param, value: &Value) -> Settings
        ensures value { result ≡ changed self.now param value.now }
    {
        match value {
            Value::Numbers { count, items } => self.with_numbers(param, *count, items),
            Value::Text(word) => self.with_text(param, word),
        }
    }

    #[rattlefmt::skip]
    fn with_numbers(&self, param: Param, count: u8, n: &[i64; 8]) -> Settings
        ensures { result ≡ numbered self.now param count n.now }
    {
        match (self, param) {
            (Settings::File { array, .. }, Param::Unit) => Settings::File {
                array: *array, unit: digit(&n[0]),
            },
            (Settings::Crop { .. }, Param::Bounds) => bounds(n),
            (Settings::Sample { .. }, Param::Rate) => rates(n),
            (Settings::Threshold { .. }, Param::Range) => Settings::Threshold {
                lo: n[0], hi: n[1],
            },
            (Settings::Smooth { .. }, Param::Radius) => Settings::Smooth {
                radius: small(&n[0], 8),
            },
            (Settings::Select { all, .. }, Param::Range) => Settings::Select {
                lo: n[0], hi: n[1], all: *all,
            },
            (Settings::Contour { .. }, Param::Levels) => Settings::Contour { count, levels: *n },
            (Settings::Cut { .. }, Param::Plane) => Settings::Cut {
                a: n[0], b: n[1], c: n[2], r: n[3],
            },
            (Settings::Writer { binary, version, .. }, Param::Digits) => Settings::Writer {
                binary: *binary, digits: digit(&n[0]), version: *version,
            },
            (Settings::Writer { binary, digits, .. }, Param::Version) => Settings::Writer {
                binary: *binary, digits: *digits, version: version_of(&n[0]),
            },
            _ => *self,
        }
    }

    #[rattlefmt::skip]
    fn with_text(&self, param: Param, word: &Word) -> Settings
        ensures { result ≡ texted self.now param word.now }
    {
        match (self, param) {
            (Settings::File { unit, .. }, Param::Array) => Settings::File {
                array: pick_of(word), unit: *unit,
            },
            (Settings::Arith { .. }, Param::Op) => Settings::Arith { op: op_of(word) },
            (Settings::Select { lo, hi, .. }, Param::Mode) => Settings::Select {
                lo: *lo, hi: *hi, all: word.bytes() == b"all".as_slice(),
            },
            (Settings::Writer { digits, version, .. }, Param::Style) => Settings::Writer {
                binary: word.bytes() == b"binary".as_slice(), digits: *digits, version: *version,
            },
            _ => *self,
        }
    }
}

fn bounds(n: &[i64; 8]) -> Settings
    ensures { result ≡ boxed n.now }
{
    Settings::Crop {
        x0: index(&n[0]),
        x1: index(&n[1]),
        y0: index(&n[2]),
        y1: index(&n[3]),
        z0: index(&n[4]),
        z1: index(&n[5]),
    }
}

fn rates(n: &[i64; 8]) -> Settings
    ensures { result ≡ rated n.now }
{
    Settings::Sample {
        x: small(&n[0], 1024),
        y: small(&n[1], 1024),
        z: small(&n[2], 1024),
    }
}

fn one(n: i64) -> Option<Value>
    ensures { result ≡ single n }
{
    numbers(1, [n, 0, 0, 0, 0, 0, 0, 0])
}

fn numbers(count: u8, items: [i64; 8]) -> Option<Value>
    ensures { result ≡ Some (Numbers count items) }
{
    Some(Value::Numbers { count, items })
}

fn text(word: Word) -> Option<Value>
    ensures { result ≡ Some (Text word) }
{
    Some(Value::Text(word))
}

fn mode_text(all: bool) -> Word
    ensures { result ≡ (if all then codes "all" else codes "any") }
{
    if all {
        spelled(b"all")
    } else {
        spelled(b"any")
    }
}

fn style_text(binary: bool) -> Word
    ensures { result ≡ (if binary then codes "binary" else codes "ascii") }
{
    if binary {
        spelled(b"binary")
    } else {
        spelled(b"ascii")
    }
}

impl Settings {
    /// The value of the parameter of a node with these settings, and with release or without; None
    /// where the kind hasn't the parameter.
    pub fn value(&self, release: bool, param: Param) -> Option<Value>
        ensures value { result ≡ value_of self.now release param }
    {
        match param {
            Param::Release => one(i64::from(release)),
            _ => self.own_value(param),
        }
    }

    #[rattlefmt::skip]
    fn own_value(&self, param: Param) -> Option<Value>
        ensures { result ≡ setting self.now param }
    {
        match (self, param) {
            (Settings::File { array, .. }, Param::Array) => text(pick_text(array)),
            (Settings::File { unit, .. }, Param::Unit) => one(i64::from(*unit)),
            (Settings::Crop { x0, x1, y0, y1, z0, z1 }, Param::Bounds) => numbers(6, [
                i64::from(*x0), i64::from(*x1), i64::from(*y0), i64::from(*y1),
                i64::from(*z0), i64::from(*z1), 0, 0,
            ]),
            (Settings::Sample { x, y, z }, Param::Rate) => numbers(3, [
                i64::from(*x), i64::from(*y), i64::from(*z), 0, 0, 0, 0, 0,
            ]),
            (Settings::Threshold { lo, hi }, Param::Range) => numbers(2, [
                *lo, *hi, 0, 0, 0, 0, 0, 0,
            ]),
            (Settings::Smooth { radius }, Param::Radius) => one(i64::from(*radius)),
            (Settings::Arith { op }, Param::Op) => text(op_text(*op)),
            (Settings::Select { lo, hi, .. }, Param::Range) => numbers(2, [
                *lo, *hi, 0, 0, 0, 0, 0, 0,
            ]),
            (Settings::Select { all, .. }, Param::Mode) => text(mode_text(*all)),
            (Settings::Contour { count, levels }, Param::Levels) => numbers(*count, *levels),
            (Settings::Cut { a, b, c, r }, Param::Plane) => numbers(4, [
                *a, *b, *c, *r, 0, 0, 0, 0,
            ]),
            (Settings::Writer { binary, .. }, Param::Style) => text(style_text(*binary)),
            (Settings::Writer { digits, .. }, Param::Digits) => one(i64::from(*digits)),
            (Settings::Writer { version, .. }, Param::Version) => one(i64::from(*version)),
            _ => None,
        }
    }
}
