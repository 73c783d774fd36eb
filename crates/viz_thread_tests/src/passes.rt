//! Passes on threads, and the numbers of passes. Each test ends by itself, whatever the schedule.

ghost use Rattle.std.specs.Prelude.{◌≡◌, [], All, IfOk, IfSome};
ghost use Rattle.viz_turn.specs.Passes.{IsPassOf};

use std::alloc::Global;
use std::sync::Wait;
use std::test::Fail;
use std::thread;
use std::thread::Threads;
use viz_turn::{Story, Turn, TurnPass};

// The number of its pass, and how many that pass had made before.
#[derive(Clone, Copy)]
struct Note {
    pass: u64,
    count: u32,
}

#[derive(Drop)]
struct Diary {
    limit: u64,
    notes: Vec<Note>,
}

impl Story for Diary {
    type Entry = Note;

    ghost tale = { λ d. d.notes.items };

    ghost by = { λ n. n.pass };

    ghost mark = { λ d. d.limit };
}

// A pass that is to make so many notes, and then stays or is dropped.
#[derive(Drop)]
struct Writer {
    pass: Option<TurnPass<Diary>>,
    count: u32,
    stays: bool,
}

fn begin(alloc: Global) -> Result<(Turn<Diary>, TurnPass<Diary>), Diary>
    ensures pass { IfOk result (λ r. IsPassOf r.0 r.1) }
{
    let diary = Diary {
        limit: 7,
        notes: Vec::new(alloc),
    };
    Turn::start(alloc, diary)
}

fn split<R: Wait>(
    rt: &R,
    turn: &Turn<Diary>,
    pass: TurnPass<Diary>,
) -> (TurnPass<Diary>, TurnPass<Diary>)
    requires belongs { IsPassOf turn.now pass }
    ensures first { IsPassOf turn.now result.0 }
    ensures second { IsPassOf turn.now result.1 }
{
    turn.split(rt, pass)
}

fn join(turn: &Turn<Diary>, kept: TurnPass<Diary>, ended: TurnPass<Diary>) -> TurnPass<Diary>
    requires kept_belongs { IsPassOf turn.now kept }
    requires ended_belongs { IsPassOf turn.now ended }
    ensures pass { IsPassOf turn.now result }
{
    turn.join(kept, ended)
}

// Takes the turn, and makes a note where there is memory for it.
fn make_note<R: Wait>(
    rt: &R,
    turn: &Turn<Diary>,
    pass: TurnPass<Diary>,
    count: u32,
) -> TurnPass<Diary>
    requires belongs { IsPassOf turn.now pass }
    ensures pass { IsPassOf turn.now result }
{
    let number = pass.number();
    let mut held = turn.take(rt, pass);
    let note = Note {
        pass: number,
        count,
    };
    if held.state().notes.push(note).is_ok() {
        turn.append(&mut held);
    }
    turn.give(held)
}

fn write<R: Wait>(rt: &R, turn: &Turn<Diary>, writer: &mut Writer)
    requires belongs { IfSome writer.old.pass (λ p. IsPassOf turn.now p) }
    ensures pass { IfSome writer.new.pass (λ p. IsPassOf turn.now p) }
{
    if let Some(pass) = writer.pass.take() {
        let mut pass = pass;
        for count in 0..writer.count {
            pass = make_note(rt, turn, pass, count);
        }
        if writer.stays {
            writer.pass = Some(pass);
        }
    }
}

fn split_all<R: Wait>(
    rt: &R,
    turn: &Turn<Diary>,
    root: TurnPass<Diary>,
    writers: &mut [Writer],
) -> TurnPass<Diary>
    requires belongs { IsPassOf turn.now root }
    ensures root { IsPassOf turn.now result }
    ensures all { All (λ w. IfSome w.pass (λ p. IsPassOf turn.now p)) writers.new }
{
    match writers.split_first_mut() {
        None => root,
        Some((first, rest)) => {
            let (root, second) = split(rt, turn, root);
            first.pass = Some(second);
            split_all(rt, turn, root, rest)
        }
    }
}

fn write_all<R: Threads + Wait + Sync>(rt: &R, turn: &Turn<Diary>, writers: &mut [Writer])
    requires belongs { All (λ w. IfSome w.pass (λ p. IsPassOf turn.now p)) writers.old }
    ensures all { All (λ w. IfSome w.pass (λ p. IsPassOf turn.now p)) writers.new }
{
    thread::for_each_mut(rt, writers, 8, &|_, writer| write(rt, turn, writer));
}

fn join_all(turn: &Turn<Diary>, root: TurnPass<Diary>, writers: &mut [Writer]) -> TurnPass<Diary>
    requires belongs { IsPassOf turn.now root }
    requires all { All (λ w. IfSome w.pass (λ p. IsPassOf turn.now p)) writers.old }
    ensures root { IsPassOf turn.now result }
{
    match writers.split_first_mut() {
        None => root,
        Some((first, rest)) => match first.pass.take() {
            None => join_all(turn, root, rest),
            Some(pass) => join_all(turn, join(turn, root, pass), rest),
        },
    }
}

// The notes of these writers, who make them in threads of their own. The first pass makes none.
fn written<R: Threads + Wait + Sync>(
    rt: &R,
    alloc: Global,
    writers: &mut [Writer],
) -> Option<Diary> {
    let Ok((turn, root)) = begin(alloc) else {
        return None;
    };
    let root = split_all(rt, &turn, root, writers);
    write_all(rt, &turn, writers);
    let root = join_all(&turn, root, writers);
    Some(turn.close(rt, root))
}

// How many notes each number has, where those of each count from 0 up.
fn tally(notes: &[Note]) -> Option<[u32; 9]> {
    let mut counts = [0; 9];
    for note in notes {
        let number = note.pass as usize;
        if number >= 9 || counts[number] != note.count {
            return None;
        }
        counts[number] = note.count.wrapping_add(1);
    }
    Some(counts)
}

#[test]
fn each_note_stands_once(rt: HostRuntime) -> Result<(), Fail> {
    let all = 10_000;
    for (counts, leaver, want) in [
        // two and eight passes, which all stay
        (2, 9, [0, all, all, 0, 0, 0, 0, 0, 0]),
        (8, 9, [0, all, all, all, all, all, all, all, all]),
        // the third is dropped in mid-run, and the others go on; what is left isn't whole
        (4, 2, [0, all, all, 1_000, all, 0, 0, 0, 0]),
    ] {
        let mut writers = Vec::new(rt.alloc());
        for at in 0..counts {
            writers.push(Writer {
                pass: None,
                count: if at == leaver { 1_000 } else { all },
                stays: at != leaver,
            })?;
        }
        let Some(diary) = written(&rt, rt.alloc(), &mut writers) else {
            return Err("memory")?;
        };
        assert_eq!(rt; diary.limit, 7);
        assert_eq!(rt; tally(&diary.notes), Some(want), "{counts}");
    }
    Ok(())
}

#[test]
fn each_turn_has_numbers_of_its_own(rt: HostRuntime) -> Result<(), Fail> {
    let (Ok((one, mine)), Ok((other, its))) = (begin(rt.alloc()), begin(rt.alloc())) else {
        return Err("memory")?;
    };
    let (mine, child) = split(&rt, &one, mine);
    assert_eq!(rt; (mine.number(), child.number(), its.number()), (0, 1, 0));
    let held = one.take(&rt, mine);
    let its = make_note(&rt, &other, its, 3);
    let mine = one.give(held);
    assert_eq!(rt; one.close(&rt, mine).notes.len(), 0);
    assert_eq!(rt; other.close(&rt, its).notes.len(), 1);
    Ok(())
}

#[test]
fn numbers_are_drawn_in_turn(rt: HostRuntime) -> Result<(), Fail> {
    let Ok((turn, root)) = begin(rt.alloc()) else {
        return Err("memory")?;
    };
    let (root, a) = split(&rt, &turn, root);
    let (a, b) = split(&rt, &turn, a);
    let (root, c) = split(&rt, &turn, root);
    for (pass, want) in [(&root, 0), (&a, 1), (&b, 2), (&c, 3)] {
        assert_eq!(rt; pass.number(), want);
    }
    let b = join(&turn, b, c);
    let b = join(&turn, b, root);
    let (a, d) = split(&rt, &turn, a);
    for (pass, want) in [(&b, 2), (&a, 1), (&d, 4)] {
        assert_eq!(rt; pass.number(), want);
    }
    let d = make_note(&rt, &turn, join(&turn, d, a), 5);
    let b = make_note(&rt, &turn, join(&turn, b, d), 6);
    let diary = turn.close(&rt, b);
    let made: Vec<(u64, u32)> = vec![in rt.alloc(); (4, 5), (2, 6)]?;
    assert_eq!(rt; diary.notes.len(), made.len());
    for (note, want) in diary.notes.iter().zip(made.iter()) {
        assert_eq!(rt; (note.pass, note.count), *want);
    }
    Ok(())
}
