//! The table of docs/FORMATS-OF-FILTERS.md, "Kinds of node", typed in again by hand.

use std::test::Fail;
use viz_base::Word;
use viz_kinds::{Kind, Param, Settings, Value, allows, range_of, release_with};

const KINDS: [(Kind, u8); 14] = [
    (Kind::File, 0),
    (Kind::Crop, 1),
    (Kind::Sample, 1),
    (Kind::Threshold, 1),
    (Kind::Smooth, 1),
    (Kind::Arith, 2),
    (Kind::Tets, 1),
    (Kind::Select, 1),
    (Kind::Contour, 1),
    (Kind::Cut, 1),
    (Kind::Append, 8),
    (Kind::Boundary, 1),
    (Kind::Merge, 1),
    (Kind::Writer, 1),
];

const PARAMS: [Param; 14] = [
    Param::Array,
    Param::Unit,
    Param::Bounds,
    Param::Rate,
    Param::Range,
    Param::Radius,
    Param::Op,
    Param::Mode,
    Param::Levels,
    Param::Plane,
    Param::Style,
    Param::Digits,
    Param::Release,
    Param::Version,
];

const LAST: i64 = 2_147_483_647;

fn text(word: &str) -> Result<Value, Fail> {
    Ok(Value::Text(Word::new(word.as_bytes()).ok_or("no name")?))
}

fn numbers(count: u8, items: [i64; 8]) -> Value {
    Value::Numbers { count, items }
}

// The default of the parameter at the kind, None where the kind hasn't it.
fn default_of(kind: Kind, param: Param) -> Result<Option<Value>, Fail> {
    Ok(Some(match (kind, param) {
        (_, Param::Release) => numbers(1, [0; 8]),
        (Kind::File, Param::Array) => text("*")?,
        (Kind::File, Param::Unit) => numbers(1, [0; 8]),
        (Kind::Crop, Param::Bounds) => numbers(6, [0, LAST, 0, LAST, 0, LAST, 0, 0]),
        (Kind::Sample, Param::Rate) => numbers(3, [1, 1, 1, 0, 0, 0, 0, 0]),
        (Kind::Threshold | Kind::Select, Param::Range) => {
            numbers(2, [i64::MIN, i64::MAX, 0, 0, 0, 0, 0, 0])
        }
        (Kind::Smooth, Param::Radius) => numbers(1, [1, 0, 0, 0, 0, 0, 0, 0]),
        (Kind::Arith, Param::Op) => text("add")?,
        (Kind::Select, Param::Mode) => text("all")?,
        (Kind::Contour, Param::Levels) => numbers(1, [0; 8]),
        (Kind::Cut, Param::Plane) => numbers(4, [0, 0, 1, 0, 0, 0, 0, 0]),
        (Kind::Writer, Param::Style) => text("ascii")?,
        (Kind::Writer, Param::Digits | Param::Version) => numbers(1, [3, 0, 0, 0, 0, 0, 0, 0]),
        _ => return Ok(None),
    }))
}

#[test]
fn each_kind_reads_its_defaults_back(rt: HostRuntime) -> Result<(), Fail> {
    for (kind, ports) in KINDS {
        let settings = Settings::new(kind);
        assert_eq!(rt; settings.kind(), kind);
        assert_eq!(rt; kind.ports(), ports, "{kind:?}");
        assert!(rt; !kind.has_port(0) && !kind.has_port(ports + 1), "{kind:?}");
        assert_eq!(rt; kind.has_port(1), ports > 0, "{kind:?}");
        for param in PARAMS {
            let want = default_of(kind, param)?;
            assert_eq!(rt; settings.value(false, param), want, "{kind:?} {param:?}");
            assert_eq!(rt; kind.has(param), want.is_some(), "{kind:?} {param:?}");
            if let Some(value) = want {
                assert!(rt; allows(param, &value), "{kind:?} {param:?}");
            }
        }
    }
    Ok(())
}

#[test]
fn each_parameter_has_its_values(rt: HostRuntime) -> Result<(), Fail> {
    let rows = [
        // Its ends are values, what lies past them isn't.
        (Param::Unit, 1, [9, 0, 0, 0, 0, 0, 0, 0], true),
        (Param::Unit, 1, [10, 0, 0, 0, 0, 0, 0, 0], false),
        (Param::Unit, 1, [-1, 0, 0, 0, 0, 0, 0, 0], false),
        (Param::Bounds, 6, [3, 3, 0, 1, 5, LAST, 0, 0], true),
        (Param::Bounds, 6, [4, 3, 0, 1, 5, LAST, 0, 0], false),
        (Param::Bounds, 6, [3, 3, 0, 1, 6, 5, 0, 0], false),
        (Param::Bounds, 6, [3, 3, 0, 1, 5, LAST + 1, 0, 0], false),
        (Param::Rate, 3, [1, 1024, 1, 0, 0, 0, 0, 0], true),
        (Param::Rate, 3, [1, 1025, 1, 0, 0, 0, 0, 0], false),
        (Param::Rate, 3, [1, 1, 0, 0, 0, 0, 0, 0], false),
        (Param::Range, 2, [5, i64::MIN, 0, 0, 0, 0, 0, 0], true),
        (Param::Radius, 1, [8, 0, 0, 0, 0, 0, 0, 0], true),
        (Param::Radius, 1, [9, 0, 0, 0, 0, 0, 0, 0], false),
        (Param::Levels, 8, [1, -2, 3, 4, 5, 6, 7, i64::MAX], true),
        (Param::Levels, 9, [1, -2, 3, 4, 5, 6, 7, 8], false),
        (Param::Levels, 0, [0; 8], false),
        (Param::Plane, 4, [0, -LAST, 0, LAST, 0, 0, 0, 0], true),
        (Param::Plane, 4, [0, -LAST - 1, 0, 0, 0, 0, 0, 0], false),
        (Param::Plane, 4, [0, 0, 0, 7, 0, 0, 0, 0], false),
        (Param::Digits, 1, [9, 0, 0, 0, 0, 0, 0, 0], true),
        (Param::Digits, 1, [10, 0, 0, 0, 0, 0, 0, 0], false),
        (Param::Release, 1, [1, 0, 0, 0, 0, 0, 0, 0], true),
        (Param::Release, 1, [2, 0, 0, 0, 0, 0, 0, 0], false),
        (Param::Version, 1, [3, 0, 0, 0, 0, 0, 0, 0], true),
        (Param::Version, 1, [5, 0, 0, 0, 0, 0, 0, 0], true),
        (Param::Version, 1, [2, 0, 0, 0, 0, 0, 0, 0], false),
        (Param::Version, 1, [4, 0, 0, 0, 0, 0, 0, 0], false),
        (Param::Version, 1, [6, 0, 0, 0, 0, 0, 0, 0], false),
        // Too few, too many, or something behind them.
        (Param::Range, 1, [5, 0, 0, 0, 0, 0, 0, 0], false),
        (Param::Range, 3, [5, 6, 0, 0, 0, 0, 0, 0], false),
        (Param::Range, 2, [5, 6, 0, 0, 0, 0, 0, 1], false),
        // A number for a text.
        (Param::Op, 1, [0; 8], false),
    ];
    for (param, count, items, want) in rows {
        let got = allows(param, &Value::Numbers { count, items });
        assert_eq!(rt; got, want, "{param:?} {count} {items:?}");
    }
    for (param, word, want) in [
        (Param::Array, "anything", true),
        (Param::Op, "max", true),
        (Param::Op, "Max", false),
        (Param::Mode, "any", true),
        (Param::Mode, "an", false),
        (Param::Style, "binary", true),
        (Param::Style, "binary2", false),
        (Param::Unit, "1", false),
    ] {
        assert_eq!(rt; allows(param, &text(word)?), want, "{param:?} {word}");
    }
    let levels = range_of(Param::Levels).ok_or("no range")?;
    assert_eq!(rt; (levels.least, levels.most), (1, 8));
    assert_eq!(rt; range_of(Param::Mode), None);
    Ok(())
}

#[test]
fn what_is_set_is_read_back(rt: HostRuntime) -> Result<(), Fail> {
    let rows = [
        (Kind::File, Param::Array, text("-")?),
        (Kind::File, Param::Array, text("density")?),
        (
            Kind::File,
            Param::Unit,
            numbers(1, [9, 0, 0, 0, 0, 0, 0, 0]),
        ),
        (
            Kind::Crop,
            Param::Bounds,
            numbers(6, [1, 2, 3, 4, 5, LAST, 0, 0]),
        ),
        (
            Kind::Sample,
            Param::Rate,
            numbers(3, [2, 3, 1024, 0, 0, 0, 0, 0]),
        ),
        (
            Kind::Threshold,
            Param::Range,
            numbers(2, [-7, 8, 0, 0, 0, 0, 0, 0]),
        ),
        (
            Kind::Smooth,
            Param::Radius,
            numbers(1, [8, 0, 0, 0, 0, 0, 0, 0]),
        ),
        (Kind::Arith, Param::Op, text("sub")?),
        (Kind::Arith, Param::Op, text("min")?),
        (Kind::Arith, Param::Op, text("max")?),
        (
            Kind::Select,
            Param::Range,
            numbers(2, [1, -1, 0, 0, 0, 0, 0, 0]),
        ),
        (Kind::Select, Param::Mode, text("any")?),
        (
            Kind::Contour,
            Param::Levels,
            numbers(2, [5, -6, 0, 0, 0, 0, 0, 0]),
        ),
        (
            Kind::Cut,
            Param::Plane,
            numbers(4, [-1, 2, -3, 4, 0, 0, 0, 0]),
        ),
        (Kind::Writer, Param::Style, text("binary")?),
        (Kind::Writer, Param::Digits, numbers(1, [0; 8])),
        (
            Kind::Writer,
            Param::Version,
            numbers(1, [5, 0, 0, 0, 0, 0, 0, 0]),
        ),
    ];
    for (kind, param, value) in rows {
        assert!(rt;
            kind.has(param) && allows(param, &value),
            "{kind:?} {param:?}"
        );
        let settings = Settings::new(kind).with(param, &value);
        assert_eq!(rt; settings.kind(), kind);
        assert_eq!(rt;
            settings.value(false, param),
            Some(value),
            "{kind:?} {param:?}"
        );
    }
    let one = numbers(1, [1, 0, 0, 0, 0, 0, 0, 0]);
    let release = release_with(false, Param::Release, &one);
    assert_eq!(rt;
        Settings::new(Kind::Merge).value(release, Param::Release),
        Some(one)
    );
    assert!(rt; release_with(true, Param::Unit, &one));
    Ok(())
}

#[test]
fn a_writer_keeps_its_other_parameters(rt: HostRuntime) -> Result<(), Fail> {
    let version = numbers(1, [5, 0, 0, 0, 0, 0, 0, 0]);
    let digits = numbers(1, [6, 0, 0, 0, 0, 0, 0, 0]);
    let style = text("binary")?;
    let new = Settings::new(Kind::Writer);
    let versioned = new.with(Param::Version, &version);
    let placed = versioned.with(Param::Digits, &digits);
    let all = placed.with(Param::Style, &style);
    assert_eq!(rt; all.value(false, Param::Version), Some(version));
    assert_eq!(rt; all.value(false, Param::Digits), Some(digits));
    assert_eq!(rt; all.value(false, Param::Style), Some(style));
    let three = numbers(1, [3, 0, 0, 0, 0, 0, 0, 0]);
    let again = all.with(Param::Version, &three);
    assert_eq!(rt; again.value(false, Param::Version), Some(three));
    assert_eq!(rt; again.value(false, Param::Digits), Some(digits));
    assert_eq!(rt; again.value(false, Param::Style), Some(style));
    Ok(())
}
