//! The parameters of a node, typed by its kind.

ghost use Rattle.std.specs.Prelude.{◌≡◌};
ghost use Rattle.viz_kinds.specs.Settings.{kind_of, defaults};

use crate::kind::Kind;
use viz_base::Pick;

/// What arith reckons.
#[derive(Clone, Copy, PartialEq, Eq, Debug)]
pub enum Op {
    Add,
    Sub,
    Min,
    Max,
}

/// The parameters of a node, by its kind; release stands beside them.
#[derive(Clone, Copy, PartialEq, Eq, Debug)]
pub enum Settings {
    File {
        array: Pick,
        unit: u8,
    },
    Crop {
        x0: u32,
        x1: u32,
        y0: u32,
        y1: u32,
        z0: u32,
        z1: u32,
    },
    Sample {
        x: u32,
        y: u32,
        z: u32,
    },
    Threshold {
        lo: i64,
        hi: i64,
    },
    Smooth {
        radius: u32,
    },
    Arith {
        op: Op,
    },
    Tets,
    Select {
        lo: i64,
        hi: i64,
        all: bool,
    },
    /// The first `count` levels; the others are 0.
    Contour {
        count: u8,
        levels: [i64; 8],
    },
    Cut {
        a: i64,
        b: i64,
        c: i64,
        r: i64,
    },
    Append,
    Boundary,
    Merge,
    Writer {
        binary: bool,
        digits: u8,
        version: u8,
    },
}

impl Settings {
    /// The parameters of a new node.
    #[rattlefmt::skip]
    pub fn new(kind: Kind) -> Settings
        ensures value { result ≡ defaults kind }
    {
        const LAST: u32 = 2_147_483_647;
        match kind {
            Kind::File => Settings::File { array: Pick::First, unit: 0 },
            Kind::Crop => Settings::Crop { x0: 0, x1: LAST, y0: 0, y1: LAST, z0: 0, z1: LAST },
            Kind::Sample => Settings::Sample { x: 1, y: 1, z: 1 },
            Kind::Threshold => Settings::Threshold { lo: i64::MIN, hi: i64::MAX },
            Kind::Smooth => Settings::Smooth { radius: 1 },
            Kind::Arith => Settings::Arith { op: Op::Add },
            Kind::Tets => Settings::Tets,
            Kind::Select => Settings::Select { lo: i64::MIN, hi: i64::MAX, all: true },
            Kind::Contour => Settings::Contour { count: 1, levels: [0; 8] },
            Kind::Cut => Settings::Cut { a: 0, b: 0, c: 1, r: 0 },
            Kind::Append => Settings::Append,
            Kind::Boundary => Settings::Boundary,
            Kind::Merge => Settings::Merge,
            Kind::Writer => Settings::Writer { binary: false, digits: 3, version: 3 },
        }
    }

    /// The kind of the node.
    pub fn kind(&self) -> Kind
        ensures value { result ≡ kind_of self.now }
    {
        match self {
            Settings::File { .. } => Kind::File,
            Settings::Crop { .. } => Kind::Crop,
            Settings::Sample { .. } => Kind::Sample,
            Settings::Threshold { .. } => Kind::Threshold,
            Settings::Smooth { .. } => Kind::Smooth,
            Settings::Arith { .. } => Kind::Arith,
            Settings::Tets => Kind::Tets,
            Settings::Select { .. } => Kind::Select,
            Settings::Contour { .. } => Kind::Contour,
            Settings::Cut { .. } => Kind::Cut,
            Settings::Append => Kind::Append,
            Settings::Boundary => Kind::Boundary,
            Settings::Merge => Kind::Merge,
            Settings::Writer { .. } => Kind::Writer,
        }
    }
}
