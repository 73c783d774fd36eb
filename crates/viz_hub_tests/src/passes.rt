//! Passes that edit one network, on one thread and on several. Each test ends by itself, whatever
//! the schedule.

ghost use Rattle.std.specs.Prelude.{◌≡◌, ◌≤◌, All, IfOk, IfSome};

use std::alloc::{AllocError, Global};
use std::process::Abort;
use std::sync::Wait;
use std::test::Fail;
use std::thread;
use std::thread::Threads;
use viz_base::{HISTORY, Word};
use viz_batches::Batch;
use viz_entries::Entry;
use viz_history::EditAnswer;
use viz_hub::{Hub, Journal, Pass, Pin};
use viz_kinds::{Kind, Param, Value};
use viz_network::{Edit, Refusal};

// A pass that is to set the radius of a node so many times.
#[derive(Drop)]
struct Writer {
    pass: Option<Pass>,
    step: u32,
    count: u32,
}

pub(crate) fn word(text: &str) -> Result<Word, Fail> {
    Ok(Word::new(text.as_bytes()).ok_or("no name")?)
}

fn addition(node: Word) -> Edit {
    Edit::Add {
        kind: Kind::Smooth,
        node,
    }
}

fn setting(node: Word, radius: i64) -> Edit {
    Edit::Set {
        node,
        param: Param::Radius,
        value: Value::Numbers {
            count: 1,
            items: [radius, 0, 0, 0, 0, 0, 0, 0],
        },
    }
}

// The radius that a writer sets at its edits, from 0 to 8.
fn radius_at(step: u32, index: u32) -> i64 {
    (index.wrapping_mul(step) % 9) as i64
}

pub(crate) fn begin(alloc: Global, limit: u32) -> Result<(Hub, Pass), AllocError>
    requires { limit ≤ 67108863 }
    ensures pass { IfOk result (λ r. r.1.turn ≡ r.0) }
{
    Hub::start(alloc, limit, 1)
}

fn edit<R: Wait>(rt: &R, hub: &Hub, pass: Pass, edit: Edit) -> (Pass, EditAnswer)
    requires belongs { pass.turn ≡ hub.now }
    ensures pass { result.0.turn ≡ hub.now }
{
    let mut pass = pass;
    let answer = hub.edit(rt, &mut pass, Batch::one(edit));
    (pass, answer)
}

pub(crate) fn split<R: Wait>(rt: &R, hub: &Hub, pass: Pass) -> (Pass, Pass)
    requires belongs { pass.turn ≡ hub.now }
    ensures first { result.0.turn ≡ hub.now }
    ensures second { result.1.turn ≡ hub.now }
{
    hub.split(rt, pass)
}

pub(crate) fn join(hub: &Hub, kept: Pass, ended: Pass) -> Pass
    requires kept_belongs { kept.turn ≡ hub.now }
    requires ended_belongs { ended.turn ≡ hub.now }
    ensures pass { result.turn ≡ hub.now }
{
    hub.join(kept, ended)
}

fn front<R: Wait>(rt: &R, hub: &Hub, pass: Pass) -> (Pass, u32)
    requires belongs { pass.turn ≡ hub.now }
    ensures pass { result.0.turn ≡ hub.now }
{
    let mut pass = pass;
    let at = hub.front(rt, &mut pass);
    (pass, at)
}

pub(crate) fn pin<R: Wait>(rt: &R, alloc: Global, hub: &Hub, pass: Pass) -> Option<Pin>
    requires belongs { pass.turn ≡ hub.now }
    ensures pin { IfSome result (λ pin. pin.pass.turn ≡ hub.now) }
{
    match hub.pin(rt, alloc, pass) {
        Ok(pin) => Some(pin),
        Err(_) => None,
    }
}

pub(crate) fn release(hub: &Hub, pin: Pin) -> Pass
    requires belongs { pin.pass.turn ≡ hub.now }
    ensures pass { result.turn ≡ hub.now }
{
    hub.release(pin)
}

fn close<R: Wait>(rt: &R, hub: Hub, pass: Pass) -> Journal
    requires belongs { pass.turn ≡ hub }
{
    hub.close(rt, pass)
}

// The position and the find of a pinned network.
fn pinned_at(pin: &Pin, node: Word) -> (u32, bool) {
    let pinned = pin.pinned();
    (pinned.at, pinned.net.find(&node).is_some())
}

fn set_all<R: Wait>(rt: &R, hub: &Hub, pass: Pass, node: Word, step: u32, count: u32) -> Pass
    requires belongs { pass.turn ≡ hub.now }
    ensures pass { result.turn ≡ hub.now }
{
    let mut pass = pass;
    for index in 0..count {
        let (next, _answer) = edit(rt, hub, pass, setting(node, radius_at(step, index)));
        pass = next;
    }
    pass
}

fn write<R: Wait>(rt: &R, hub: &Hub, node: Word, writer: &mut Writer)
    requires belongs { IfSome writer.old.pass (λ p. p.turn ≡ hub.now) }
    ensures pass { IfSome writer.new.pass (λ p. p.turn ≡ hub.now) }
{
    if let Some(pass) = writer.pass.take() {
        writer.pass = Some(set_all(rt, hub, pass, node, writer.step, writer.count));
    }
}

fn write_all<R: Threads + Wait + Sync>(rt: &R, hub: &Hub, node: Word, writers: &mut [Writer])
    requires belongs { All (λ w. IfSome w.pass (λ p. p.turn ≡ hub.now)) writers.old }
    ensures all { All (λ w. IfSome w.pass (λ p. p.turn ≡ hub.now)) writers.new }
{
    thread::for_each_mut(rt, writers, 8, &|_, writer| write(rt, hub, node, writer));
}

// Each writer but the last has a pass that is split off from the root, and the last the root.
fn deal<R: Wait>(rt: &R, hub: &Hub, root: Pass, writers: &mut [Writer])
    requires belongs { root.turn ≡ hub.now }
    ensures all { All (λ w. IfSome w.pass (λ p. p.turn ≡ hub.now)) writers.new }
{
    match writers.split_first_mut() {
        None => {}
        Some((first, rest)) => {
            if rest.is_empty() {
                first.pass = Some(root);
            } else {
                let (root, second) = split(rt, hub, root);
                first.pass = Some(second);
                deal(rt, hub, root, rest);
            }
        }
    }
}

// The last writer's pass, into which all others are joined.
fn gather(hub: &Hub, writers: &mut [Writer]) -> Option<Pass>
    requires all { All (λ w. IfSome w.pass (λ p. p.turn ≡ hub.now)) writers.old }
    ensures pass { IfSome result (λ p. p.turn ≡ hub.now) }
{
    match writers.split_first_mut() {
        None => None,
        Some((first, rest)) => match (first.pass.take(), gather(hub, rest)) {
            (Some(ended), Some(kept)) => Some(join(hub, kept, ended)),
            (Some(only), None) => Some(only),
            (None, others) => others,
        },
    }
}

// The radius that a batch of one Set gives.
fn radius_of(batch: &Batch) -> Option<i64> {
    let [edit] = batch.edits() else {
        return None;
    };
    match edit {
        Edit::Set {
            node: _,
            param: _,
            value: Value::Numbers { count: _, items },
        } => Some(items[0]),
        _ => None,
    }
}

// How many entries each of two passes has, where the counts of each go up by one from these, and
// the radii are those of its writer.
fn tally(entries: &[Entry], first: u32, second: u32) -> Option<(u32, u32)> {
    let mut one = first;
    let mut two = second;
    for entry in entries {
        if entry.pass == 0 {
            if !is_edit_of(entry, one, first, 2) {
                return None;
            }
            one = entry.count;
        } else {
            if entry.pass != 1 || !is_edit_of(entry, two, second, 4) {
                return None;
            }
            two = entry.count;
        }
    }
    Some((one, two))
}

// Whether the entry is the next behind so many, the first of which a writer of this step made.
fn is_edit_of(entry: &Entry, count: u32, first: u32, step: u32) -> bool {
    let index = count.wrapping_sub(first);
    entry.count == count.wrapping_add(1) && radius_of(&entry.batch) == Some(radius_at(step, index))
}

// The numbers of the entries' passes, as digits.
fn digits(entries: &[Entry]) -> u64 {
    let mut all = 0u64;
    for entry in entries {
        all = all.wrapping_mul(10).wrapping_add(entry.pass);
    }
    all
}

pub(crate) fn wants<R: Wait + Abort>(
    rt: &R,
    hub: &Hub,
    pass: Pass,
    change: Edit,
    want: EditAnswer,
) -> Pass
    requires belongs { pass.turn ≡ hub.now }
    ensures pass { result.turn ≡ hub.now }
{
    let (pass, answer) = edit(rt, hub, pass, change);
    assert!(rt; answer == want, "{answer:?}");
    pass
}

fn wants_front<R: Wait + Abort>(rt: &R, hub: &Hub, pass: Pass, want: u32) -> Pass
    requires belongs { pass.turn ≡ hub.now }
    ensures pass { result.turn ≡ hub.now }
{
    let (pass, at) = front(rt, hub, pass);
    assert!(rt; at == want, "{at}");
    pass
}

// Pins, looks for a node, and gives the pass back.
fn wants_pinned<R: Wait + Abort>(
    rt: &R,
    alloc: Global,
    hub: &Hub,
    pass: Pass,
    node: Word,
    want: (u32, bool),
) -> Option<Pin>
    requires belongs { pass.turn ≡ hub.now }
    ensures pin { IfSome result (λ pin. pin.pass.turn ≡ hub.now) }
{
    let pin = pin(rt, alloc, hub, pass)?;
    let found = pinned_at(&pin, node);
    assert!(rt; found == want, "{found:?}");
    Some(pin)
}

fn two_writers(alloc: Global, count: u32) -> Result<Vec<Writer>, AllocError> {
    let mut writers = Vec::new(alloc);
    for step in [4, 2] {
        writers.push(Writer {
            pass: None,
            step,
            count,
        })?;
    }
    Ok(writers)
}

// The history of a node that is added, and of two passes that set its radius so often each.
fn written<R: Threads + Wait + Sync + Abort>(
    rt: &R,
    alloc: Global,
    node: Word,
    writers: &mut [Writer],
    front: u32,
) -> Option<Journal> {
    let Ok((hub, root)) = begin(alloc, 3000) else {
        return None;
    };
    let root = wants(rt, &hub, root, addition(node), EditAnswer::Done { at: 1 });
    deal(rt, &hub, root, writers);
    write_all(rt, &hub, node, writers);
    let root = gather(&hub, writers)?;
    let root = wants_front(rt, &hub, root, front);
    Some(close(rt, hub, root))
}

#[test]
fn two_passes_make_a_thousand_edits_each(rt: HostRuntime) -> Result<(), Fail> {
    let mut writers = two_writers(rt.alloc(), 1000)?;
    let Some(journal) = written(&rt, rt.alloc(), word("s")?, &mut writers, 2001) else {
        return Err("out of memory")?;
    };
    let entries = journal.entries.list();
    assert_eq!(rt; entries.len(), 2001);
    assert_eq!(rt; tally(&entries[1..], 1, 0), Some((1001, 1000)));
    Ok(())
}

#[test]
fn a_full_history_answers_so_before_it_refuses(rt: HostRuntime) -> Result<(), Fail> {
    let (s, t) = (word("s")?, word("t")?);
    let (hub, pass) = begin(rt.alloc(), 3)?;
    let exists = EditAnswer::Refused {
        index: 1,
        refusal: Refusal::Exists,
        at: 1,
    };
    let pass = wants(&rt, &hub, pass, addition(s), EditAnswer::Done { at: 1 });
    let pass = wants(&rt, &hub, pass, addition(s), exists);
    let pass = wants(&rt, &hub, pass, setting(s, 2), EditAnswer::Done { at: 2 });
    let pass = wants(&rt, &hub, pass, setting(s, 3), EditAnswer::Done { at: 3 });
    // full, also for an unknown node
    let pass = wants(&rt, &hub, pass, setting(s, 4), EditAnswer::Full { at: 3 });
    let pass = wants(&rt, &hub, pass, setting(t, 4), EditAnswer::Full { at: 3 });
    let pass = wants_front(&rt, &hub, pass, 3);
    assert_eq!(rt; close(&rt, hub, pass).entries.list().len(), 3);
    Ok(())
}

#[test]
fn the_history_of_the_program_is_full_at_its_limit(rt: HostRuntime) -> Result<(), Fail> {
    let s = word("s")?;
    let (hub, pass) = begin(rt.alloc(), HISTORY)?;
    let pass = wants(&rt, &hub, pass, addition(s), EditAnswer::Done { at: 1 });
    let pass = set_all(&rt, &hub, pass, s, 2, 65_534);
    let pass = wants(
        &rt,
        &hub,
        pass,
        setting(s, 1),
        EditAnswer::Done { at: 65_536 },
    );
    let pass = wants(
        &rt,
        &hub,
        pass,
        setting(s, 1),
        EditAnswer::Full { at: 65_536 },
    );
    assert_eq!(rt; pass.number(), 0);
    Ok(())
}

#[test]
fn a_pin_stays_while_others_edit(rt: HostRuntime) -> Result<(), Fail> {
    let (s, t) = (word("s")?, word("t")?);
    let (hub, root) = begin(rt.alloc(), 9)?;
    let (mine, its) = split(&rt, &hub, root);
    let mine = wants(&rt, &hub, mine, addition(s), EditAnswer::Done { at: 1 });
    let its = wants_front(&rt, &hub, its, 1);
    let Some(pinned) = wants_pinned(&rt, rt.alloc(), &hub, its, s, (1, true)) else {
        return Err("out of memory")?;
    };
    let mine = wants(&rt, &hub, mine, addition(t), EditAnswer::Done { at: 2 });
    assert_eq!(rt; pinned_at(&pinned, t), (1, false));
    let its = release(&hub, pinned);
    let its = wants(&rt, &hub, its, setting(t, 2), EditAnswer::Done { at: 3 });
    let Some(pinned) = wants_pinned(&rt, rt.alloc(), &hub, mine, t, (3, true)) else {
        return Err("out of memory")?;
    };
    assert_eq!(rt; (its.number(), release(&hub, pinned).number()), (1, 0));
    Ok(())
}

// One edit by a pass.
fn mark<R: Wait>(rt: &R, hub: &Hub, pass: Pass, node: Word) -> Pass
    requires belongs { pass.turn ≡ hub.now }
    ensures pass { result.turn ≡ hub.now }
{
    let (pass, _answer) = edit(rt, hub, pass, setting(node, 3));
    pass
}

// Four passes of one that were split from splits, each of which made an edit before its own splits.
fn four<R: Wait>(rt: &R, hub: &Hub, pass: Pass, node: Word) -> (Pass, Pass, Pass, Pass)
    requires belongs { pass.turn ≡ hub.now }
    ensures a { result.0.turn ≡ hub.now }
    ensures b { result.1.turn ≡ hub.now }
    ensures c { result.2.turn ≡ hub.now }
    ensures d { result.3.turn ≡ hub.now }
{
    let (a, b) = split(rt, hub, pass);
    let (b, c) = split(rt, hub, mark(rt, hub, b, node));
    let (c, d) = split(rt, hub, mark(rt, hub, c, node));
    (a, b, c, d)
}

// One pass of four, the last of them, each of which makes an edit before it is joined.
fn one<R: Wait>(rt: &R, hub: &Hub, passes: (Pass, Pass, Pass, Pass), node: Word) -> Pass
    requires a { passes.0.turn ≡ hub.now }
    requires b { passes.1.turn ≡ hub.now }
    requires c { passes.2.turn ≡ hub.now }
    requires d { passes.3.turn ≡ hub.now }
    ensures pass { result.turn ≡ hub.now }
{
    let (a, b, c, d) = passes;
    let c = join(hub, mark(rt, hub, c, node), mark(rt, hub, a, node));
    let d = join(hub, mark(rt, hub, d, node), c);
    join(hub, d, mark(rt, hub, b, node))
}

#[test]
fn eight_passes_are_split_from_splits_and_joined_in_another_order(
    rt: HostRuntime,
) -> Result<(), Fail> {
    let s = word("s")?;
    let (hub, root) = begin(rt.alloc(), 20)?;
    let root = wants(&rt, &hub, root, addition(s), EditAnswer::Done { at: 1 });
    let (root, other) = split(&rt, &hub, root);
    let mine = four(&rt, &hub, root, s);
    let its = four(&rt, &hub, other, s);
    let last = one(&rt, &hub, mine, s);
    let pass = join(&hub, one(&rt, &hub, its, s), last);
    assert_eq!(rt; pass.number(), 7);
    let journal = close(&rt, hub, pass);
    // By hand: 0 adds; 2 and 3, then 5 and 6 edit before they are split; then 3, 0, 4, 2 and 6, 1,
    // 7, 5 before they are joined.
    assert_eq!(rt; digits(journal.entries.list()), 235_630_426_175);
    Ok(())
}
