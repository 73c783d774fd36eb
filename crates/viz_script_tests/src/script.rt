//! Scripts and their refusals. The lines are counted by hand.

use ScriptRefusal::{ActorRange, Arity, Batch, Name, Number, Phase, TooLong, Word};
use std::alloc::Global;
use std::process::Abort;
use std::test::Fail;
use viz_network::{Edit, Value};
use viz_script::{Order, ScriptRefusal, ScriptStop, Step, parse};
use viz_words::{kind_word, param_word};

type Refused = Option<(u32, ScriptRefusal)>;

/// A script for eight actors, and how it is refused.
type Row<'a> = (&'a [u8], Refused);

fn told(alloc: Global, text: &[u8], actors: u32) -> Refused {
    match parse(alloc, text, actors) {
        Ok(_) => None,
        Err(ScriptStop::Refused { line, refusal }) => Some((line, refusal)),
        Err(ScriptStop::Memory) => Some((9, ScriptRefusal::Edit)),
    }
}

fn are_told(rt: &impl Abort, alloc: Global, rows: &[Row]) {
    for (text, want) in rows {
        assert_eq!(rt; told(alloc, text, 8), *want, "{text:?}");
    }
}

const WORDS: [Row; 14] = [
    (b"", None),
    (b"1 remove a\x7f\n", Some((1, Word))),
    (b"1 remove a\x0b\n", Some((1, Word))),
    (b"phases\n", Some((1, Word))),
    (b"+1 remove a\n", Some((1, Word))),
    (b"9223372036854775808 remove a\n", Some((1, Word))),
    (b"1 blend a\n", Some((1, Word))),
    (b"1 audits a 1 1\n", Some((1, Word))),
    (b"1 add glyph a\n", Some((1, Word))),
    (b"1 add glyph\n", Some((1, Word))),
    (b"1 add cut a\n", None),
    (b"1 set a color 1\n", Some((1, Word))),
    (b"9 set a color 1\n", Some((1, Word))),
    (b"1 set a release 1\n", None),
];

const ACTORS: [Row; 5] = [
    (b"0 remove a\n", Some((1, ActorRange))),
    (b"-1 remove\n", Some((1, ActorRange))),
    (b"9 remove a\n", Some((1, ActorRange))),
    (b"8 remove a\n", None),
    (b"08 remove a\n", None),
];

const ARITIES: [Row; 15] = [
    (b"1\n", Some((1, Arity))),
    (b"1 add\n", Some((1, Arity))),
    (b"1 add file\n", Some((1, Arity))),
    (b"1 add file a b\n", Some((1, Arity))),
    (b"1 remove .\n", Some((1, Name))),
    (b"1 remove . .\n", Some((1, Arity))),
    (b"1 connect a b\n", Some((1, Arity))),
    (b"1 disconnect a\n", Some((1, Arity))),
    (b"1 set a\n", Some((1, Arity))),
    (b"1 set a levels\n", Some((1, Arity))),
    (b"1 set a levels 1 2 3 4 5 6 7 8 9\n", Some((1, Arity))),
    (b"1 set a levels 1 2 3 4 5 6 7 8\n", None),
    (b"1 set a box 0 1 2 3 4\n", Some((1, Arity))),
    (b"1 update a f 1\n", Some((1, Arity))),
    (b"phase 1\n", Some((1, Arity))),
];

const NAMES: [Row; 9] = [
    (b"1 connect a b- x\n", Some((1, Name))),
    (b"1 load a -f\n", Some((1, Name))),
    (b"1 load a .f\n", Some((1, Name))),
    (b"1 load a f-.\n", None),
    (b"1 update a- f 0 0\n", Some((1, Name))),
    (b"1 set a op +\n", Some((1, Name))),
    (b"1 set a op mul\n", None),
    (b"1 set a array *-.+\n", None),
    (b"1 set a- levels x\n", Some((1, Name))),
];

const NUMBERS: [Row; 11] = [
    (b"1 connect a b x\n", Some((1, Number))),
    (b"1 connect a b 256\n", Some((1, Number))),
    (b"1 connect a b 255\n", None),
    (b"1 disconnect b -1\n", Some((1, Number))),
    (b"1 disconnect b -0\n", None),
    (b"1 set a levels 9223372036854775808\n", Some((1, Number))),
    (
        b"1 set a range -9223372036854775808 9223372036854775807\n",
        None,
    ),
    (b"1 update a f 0 1\n", Some((1, Number))),
    (b"1 update a f 1 65\n", Some((1, Number))),
    (b"1 update a f 64 64\n", None),
    (b"1 set a unit 1.5\n", Some((1, Number))),
];

const LINES: [Row; 9] = [
    (b"1 remove a\r\n1 remove b\r\n", None),
    (b"1 remove a\r\r\n", Some((1, Word))),
    (b"1 remove a\r", Some((1, Word))),
    (b"\t1\tremove \t a \t\n", None),
    (b"1 remove a", None),
    (b"#\xff\n \t\n\n1 remove\n", Some((4, Arity))),
    (b" # remove\n", Some((1, Word))),
    (b"1 remove\n1 blend\n", Some((1, Arity))),
    (b"1 remove a\n1 blend\n1 remove\n", Some((2, Word))),
];

const BATCHES: [Row; 21] = [
    // A batch that is begun, ended or left open where it may not be.
    (b"1 begin\n1 remove a\n1 begin\n", Some((3, Batch))),
    (b"1 end\n", Some((1, Batch))),
    (b"1 begin\n2 remove a\n2 end\n", Some((3, Batch))),
    (b"1 begin\n1 end\n", Some((2, Batch))),
    (b"1 begin\n1 remove a\n", Some((2, Batch))),
    (b"1 begin", Some((1, Batch))),
    (b"1 begin\n1 remove a\n# no end\n \t\n", Some((4, Batch))),
    // What may not stand in one.
    (b"1 begin\n1 load s f\n", Some((2, Batch))),
    (b"1 begin\n1 update s f 1 1\n1 end\n", Some((2, Batch))),
    (b"1 begin\n1 audit s 1 1\n1 end\n", Some((2, Batch))),
    (b"1 begin\n1 remove a\nphase\n1 end\n", Some((3, Batch))),
    // Other refusals of a line come first.
    (b"begin\n", Some((1, Word))),
    (b"9 begin\n", Some((1, ActorRange))),
    (b"1 begin 1\n", Some((1, Arity))),
    (b"1 end 1\n", Some((1, Arity))),
    (b"1 begin\n1 load s\n", Some((2, Arity))),
    (b"1 begin\nphase 1\n", Some((2, Arity))),
    (b"1 begin\n1 remove a-\n", Some((2, Name))),
    // Batches of two actors, and others' commands in between.
    (
        b"1 begin\n1 remove a\n1 end\n1 begin\n1 remove b\n1 end\nphase\n",
        None,
    ),
    (
        b"1 begin\n2 load s f\n1 remove a\n2 audit s 1 1\n1 end\n",
        None,
    ),
    (
        b"1 begin\n2 begin\n2 remove a\n1 remove b\n1 end\n2 end\n",
        None,
    ),
];

#[test]
fn words_and_actors_are_refused(rt: HostRuntime) -> Result<(), Fail> {
    are_told(&rt, rt.alloc(), &WORDS);
    are_told(&rt, rt.alloc(), &ACTORS);
    assert_eq!(rt; told(rt.alloc(), b"2 remove a", 1), Some((1, ActorRange)));
    assert_eq!(rt; told(rt.alloc(), b"2 remove a", 2), None);
    Ok(())
}

#[test]
fn each_refusal_has_a_neighbour(rt: HostRuntime) -> Result<(), Fail> {
    are_told(&rt, rt.alloc(), &ARITIES);
    are_told(&rt, rt.alloc(), &NAMES);
    are_told(&rt, rt.alloc(), &NUMBERS);
    are_told(&rt, rt.alloc(), &LINES);
    Ok(())
}

#[test]
fn batches_are_refused(rt: HostRuntime) -> Result<(), Fail> {
    are_told(&rt, rt.alloc(), &BATCHES);
    Ok(())
}

/// So many times the piece.
fn times(alloc: Global, piece: &[u8], count: usize) -> Result<Vec<u8>, Fail> {
    let mut text = Vec::new(alloc);
    for _ in 0..count {
        text.extend_from_slice(piece)?;
    }
    Ok(text)
}

#[test]
fn bytes_lines_and_phases_are_bounded(rt: HostRuntime) -> Result<(), Fail> {
    let alloc = rt.alloc();
    let rows: [(&[u8], usize, Refused); 6] = [
        (b"#", 1_048_576, None),
        (b"#", 1_048_577, Some((0, TooLong))),
        (b"x\n", 65_537, Some((0, TooLong))),
        (b"\n", 65_536, None),
        (b"phase\n", 63, None),
        (b"phase\n", 64, Some((64, Phase))),
    ];
    for (piece, count, want) in rows {
        let text = times(alloc, piece, count)?;
        assert_eq!(rt; told(alloc, &text, 8), want, "{piece:?} {count}");
    }
    Ok(())
}

#[test]
fn edits_of_a_batch_are_bounded(rt: HostRuntime) -> Result<(), Fail> {
    let alloc = rt.alloc();
    let rows: [(&[u8], &[u8], usize, &[u8], Refused); 3] = [
        (b"1 begin\n", b"1 remove a\n", 64, b"1 end\n", None),
        (
            b"1 begin\n",
            b"1 remove a\n",
            65,
            b"1 end\n",
            Some((66, Batch)),
        ),
        (b"", b"phase\n", 63, b"1 begin\nphase\n", Some((65, Phase))),
    ];
    for (front, piece, count, behind, want) in rows {
        let mut text = front.to_vec(alloc)?;
        text.extend_from_slice(&times(alloc, piece, count)?)?;
        text.extend_from_slice(behind)?;
        assert_eq!(rt; told(alloc, &text, 8), want, "{piece:?} {count}");
    }
    Ok(())
}

/// The two words of an order, a number and another.
fn order_of(order: &Order) -> (&[u8], &[u8], i64, i64) {
    match order {
        Order::Do(edit) => edit_of(edit),
        Order::DoAll(_) => (b"", b"", -9, 0),
        Order::Load { node, file } => (node.bytes(), file.text().as_bytes(), -1, 0),
        Order::Update { node, file, shape } => (
            node.bytes(),
            file.text().as_bytes(),
            i64::from(shape.pieces),
            i64::from(shape.workers),
        ),
        Order::Audit { node, shape } => (
            node.bytes(),
            b"audit",
            i64::from(shape.pieces),
            i64::from(shape.workers),
        ),
    }
}

fn edit_of(edit: &Edit) -> (&[u8], &[u8], i64, i64) {
    match edit {
        Edit::Add { kind, node } => (kind_word(*kind), node.bytes(), -3, 0),
        Edit::Remove { node } => (node.bytes(), b"", -4, 0),
        Edit::Connect { from, to, port } => (from.bytes(), to.bytes(), i64::from(*port), -5),
        Edit::Disconnect { to, port } => (to.bytes(), b"", i64::from(*port), -6),
        Edit::Set { param, value, .. } => match value {
            Value::Numbers { count, items } => {
                (param_word(*param), b"", i64::from(*count), items[1])
            }
            Value::Text(text) => (param_word(*param), text.bytes(), -7, 0),
        },
        Edit::Load { node, .. } => (node.bytes(), b"", -8, 0),
    }
}

/// The actor, the phase, the line and the order of a step.
type Told<'a> = (u32, u32, u32, (&'a [u8], &'a [u8], i64, i64));

const STEPS: [Told; 9] = [
    (1, 1, 1, (b"smooth", b"s", -3, 0)),
    (2, 1, 3, (b"s", b"t", 7, -5)),
    (2, 2, 5, (b"t", b"", 255, -6)),
    (1, 2, 6, (b"range", b"", 2, -4)),
    (1, 3, 8, (b"op", b"max", -7, 0)),
    (8, 3, 9, (b"s", b"s.vtk", -1, 0)),
    (1, 3, 10, (b"s", b"o", 2, 64)),
    (1, 3, 11, (b"s", b"audit", 64, 3)),
    (1, 3, 12, (b"s", b"", -4, 0)),
];

const SCRIPT: &[u8] = b"1 add smooth s\n# no step\n2 connect s t 007\nphase\n2 disconnect t 255\n\
    1 set s range -9 -4\n phase \r\n1 set s op max\n8 load s s.vtk\n1 update s o 2 64\n\
    1 audit s 64 3\n1 remove s";

fn is_step(rt: &impl Abort, step: &Step, want: &Told) {
    let found = (step.actor, step.phase, step.line, order_of(&step.order));
    assert_eq!(rt; found, *want);
}

#[test]
fn a_script_is_its_steps(rt: HostRuntime) -> Result<(), Fail> {
    let Ok(script) = parse(rt.alloc(), SCRIPT, 8) else {
        return Err("no script")?;
    };
    assert_eq!(rt; script.steps.len(), STEPS.len());
    for (step, want) in script.steps.iter().zip(&STEPS) {
        is_step(&rt, step, want);
    }
    Ok(())
}

/// The actor, the phase, the line and the edits of a step.
type Placed<'a> = (u32, u32, u32, &'a [(&'a [u8], &'a [u8], i64, i64)]);

const PLACED: [Placed; 5] = [
    (1, 1, 1, &[(b"smooth", b"s", -3, 0)]),
    (
        1,
        1,
        2,
        &[
            (b"cut", b"c", -3, 0),
            (b"s", b"c", 1, -5),
            (b"z", b"", -4, 0),
        ],
    ),
    (2, 1, 3, &[(b"a", b"", -4, 0)]),
    (3, 1, 6, &[]),
    (2, 2, 12, &[(b"b", b"", -4, 0)]),
];

const BATCHED: &[u8] = b"1 add smooth s\n1 begin\n2 begin\n1 add cut c\n2 remove a\n\
    3 audit s 1 1\n1 connect s c 1\n2 end\n1 remove z\n1 end\nphase\n2 remove b";

fn edits_of(order: &Order) -> &[Edit] {
    match order {
        Order::Do(edit) => std::slice::from_ref(edit),
        Order::DoAll(batch) => batch.edits(),
        _ => &[],
    }
}

fn are_edits(edits: &[Edit], want: &[(&[u8], &[u8], i64, i64)]) -> bool {
    edits.len() == want.len()
        && edits
            .iter()
            .zip(want)
            .all(|(edit, want)| edit_of(edit) == *want)
}

fn is_placed(step: &Step, want: &Placed) -> bool {
    let found = (step.actor, step.phase, step.line);
    let place = (want.0, want.1, want.2);
    let edits = are_edits(edits_of(&step.order), want.3);
    found == place && edits
}

#[test]
fn a_batch_is_one_step_where_it_begins(rt: HostRuntime) -> Result<(), Fail> {
    let Ok(script) = parse(rt.alloc(), BATCHED, 8) else {
        return Err("no script")?;
    };
    assert_eq!(rt; script.steps.len(), PLACED.len());
    for (step, want) in script.steps.iter().zip(&PLACED) {
        assert!(rt; is_placed(step, want), "{}", step.line);
    }
    Ok(())
}
