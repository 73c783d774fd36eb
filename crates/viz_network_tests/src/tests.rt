//! Networks built by hand, edit by edit.

use std::alloc::Global;
use std::marker::Model;
use std::process::Abort;
use std::test::Fail;
use viz_base::{Bytes, NodeId, Shared, Word};
use viz_network::{ApplyStop, Edit, Kind, Net, Param, Refusal, Value, networks_are_sound};

// A network and the position of its last edit.
#[derive(Drop)]
struct Story {
    net: Net,
    at: u32,
}

impl Model for Story {
    ghost use Rattle.viz_network.specs.Network.{Network};
    ghost use Rattle.viz_network.specs.EqualStamps.{IsSound};

    ghost Value = { Network };

    ghost view = { λ story. story.net };

    ghost invariant = { λ story. IsSound story.at story.net };
}

impl Story {
    fn new(alloc: Global) -> Story {
        Story {
            net: Net::new(alloc),
            at: 0,
        }
    }

    fn apply(&mut self, edit: &Edit) -> Result<(), ApplyStop> {
        if self.at == u32::MAX {
            return Err(ApplyStop::Memory);
        }
        networks_are_sound();
        let at = self.at + 1;
        let answer = self.net.apply(at, edit);
        self.at = at;
        answer
    }
}

// An edit in plain words.
#[derive(Clone, Copy, Debug)]
pub(crate) enum Plan<'a> {
    Add(Kind, &'a str),
    Remove(&'a str),
    Connect(&'a str, &'a str, u8),
    Disconnect(&'a str, u8),
    Set(&'a str, Param, i64),
    SetText(&'a str, Param, &'a str),
    Load(&'a str, &'a str),
}

use Plan::{Add, Connect, Disconnect, Load, Remove, Set, SetText};

type Row<'a> = (Plan<'a>, Option<Refusal>);

pub(crate) fn word(text: &str) -> Result<Word, Fail> {
    Ok(Word::new(text.as_bytes()).ok_or("no name")?)
}

fn one(n: i64) -> Value {
    Value::Numbers {
        count: 1,
        items: [n, 0, 0, 0, 0, 0, 0, 0],
    }
}

fn file_of(alloc: Global, text: &str) -> Result<Shared<Bytes>, Fail> {
    Ok(Shared::new(alloc, Bytes::new(text.as_bytes().to_vec(alloc)?))?)
}

fn addition(kind: Kind, node: &str) -> Result<Edit, Fail> {
    let node = word(node)?;
    Ok(Edit::Add { kind, node })
}

fn removal(node: &str) -> Result<Edit, Fail> {
    let node = word(node)?;
    Ok(Edit::Remove { node })
}

fn connection(from: &str, to: &str, port: u8) -> Result<Edit, Fail> {
    let from = word(from)?;
    let to = word(to)?;
    Ok(Edit::Connect { from, to, port })
}

fn disconnection(to: &str, port: u8) -> Result<Edit, Fail> {
    let to = word(to)?;
    Ok(Edit::Disconnect { to, port })
}

fn setting(node: &str, param: Param, value: Value) -> Result<Edit, Fail> {
    let node = word(node)?;
    Ok(Edit::Set { node, param, value })
}

fn text_setting(node: &str, param: Param, text: &str) -> Result<Edit, Fail> {
    let text = word(text)?;
    setting(node, param, Value::Text(text))
}

fn loading(alloc: Global, node: &str, text: &str) -> Result<Edit, Fail> {
    let node = word(node)?;
    let file = file_of(alloc, text)?;
    Ok(Edit::Load { node, file })
}

pub(crate) fn edit_of(alloc: Global, plan: Plan) -> Result<Edit, Fail> {
    match plan {
        Add(kind, node) => addition(kind, node),
        Remove(node) => removal(node),
        Connect(from, to, port) => connection(from, to, port),
        Disconnect(to, port) => disconnection(to, port),
        Set(node, param, n) => setting(node, param, one(n)),
        SetText(node, param, text) => text_setting(node, param, text),
        Load(node, text) => loading(alloc, node, text),
    }
}

// What the edit is refused with, if it is.
fn answer(alloc: Global, story: &mut Story, plan: Plan) -> Result<Option<Refusal>, Fail> {
    match story.apply(&edit_of(alloc, plan)?) {
        Ok(()) => Ok(None),
        Err(ApplyStop::Refused(refusal)) => Ok(Some(refusal)),
        Err(ApplyStop::Memory) => Err(Fail::from("out of memory")),
    }
}

fn agree(rt: &impl Abort, plan: Plan, got: Option<Refusal>, want: Option<Refusal>) {
    assert!(rt; got == want, "{plan:?}: {got:?}");
}

// Makes each edit, and wants it accepted or refused so.
fn makes(rt: &impl Abort, alloc: Global, story: &mut Story, rows: &[Row]) -> Result<(), Fail> {
    for (plan, want) in rows {
        let got = answer(alloc, story, *plan)?;
        agree(rt, *plan, got, *want);
    }
    Ok(())
}

fn id_of(net: &Net, node: &str) -> Result<NodeId, Fail> {
    Ok(net.find(&word(node)?).ok_or("no node")?)
}

fn stamp_of(net: &Net, node: &str) -> Result<u32, Fail> {
    Ok(net.stamp(id_of(net, node)?).ok_or("no stamp")?)
}

fn input_of(net: &Net, node: &str, port: u8) -> Result<Option<NodeId>, Fail> {
    Ok(net.input(id_of(net, node)?, port))
}

const NODES: [Row; 3] = [
    (Add(Kind::File, "src"), None),
    (Add(Kind::Arith, "sum"), None),
    (Add(Kind::Crop, "box"), None),
];

const REFUSED: [Row; 17] = [
    (Add(Kind::Crop, "src"), Some(Refusal::Exists)),
    (Add(Kind::Crop, "sr"), None),
    // Connect: from, then to, then the port, then a cycle.
    (Connect("no", "sum", 0), Some(Refusal::Unknown)),
    (Connect("src", "no", 0), Some(Refusal::Unknown)),
    (Connect("src", "sum", 0), Some(Refusal::NoPort)),
    (Connect("src", "sum", 3), Some(Refusal::NoPort)),
    (Connect("src", "src", 1), Some(Refusal::NoPort)),
    (Connect("sum", "sum", 2), Some(Refusal::WouldCycle)),
    (Connect("src", "sum", 2), None),
    // An empty port may be emptied.
    (Disconnect("no", 9), Some(Refusal::Unknown)),
    (Disconnect("src", 1), Some(Refusal::NoPort)),
    (Disconnect("sum", 3), Some(Refusal::NoPort)),
    (Disconnect("sum", 1), None),
    // A node that feeds stays.
    (Remove("no"), Some(Refusal::Unknown)),
    (Remove("src"), Some(Refusal::InUse)),
    (Remove("sum"), None),
    (Remove("src"), None),
];

#[test]
fn each_refusal_has_a_neighbour(rt: HostRuntime) -> Result<(), Fail> {
    let mut story = Story::new(rt.alloc());
    makes(&rt, rt.alloc(), &mut story, &NODES)?;
    makes(&rt, rt.alloc(), &mut story, &REFUSED)
}

const BAD_VALUES: [Row; 17] = [
    // The parameter, then its value.
    (Set("no", Param::Op, 1), Some(Refusal::Unknown)),
    (SetText("src", Param::Op, "add"), Some(Refusal::NoParam)),
    (Set("sum", Param::Op, 1), Some(Refusal::BadValue)),
    (SetText("sum", Param::Op, "mul"), Some(Refusal::BadValue)),
    (SetText("sum", Param::Op, "min"), None),
    (SetText("src", Param::Unit, "9"), Some(Refusal::BadValue)),
    (Set("src", Param::Unit, 10), Some(Refusal::BadValue)),
    (Set("src", Param::Unit, 9), None),
    (Set("box", Param::Bounds, 1), Some(Refusal::BadValue)),
    (Set("box", Param::Release, 1), None),
    (Add(Kind::Writer, "out"), None),
    (Set("out", Param::Version, 4), Some(Refusal::BadValue)),
    (Set("out", Param::Version, 5), None),
    (Set("box", Param::Version, 5), Some(Refusal::NoParam)),
    (Load("no", "bytes"), Some(Refusal::Unknown)),
    (Load("box", "bytes"), Some(Refusal::NoParam)),
    (Load("src", "bytes"), None),
];

#[test]
fn values_and_files_are_refused(rt: HostRuntime) -> Result<(), Fail> {
    let mut story = Story::new(rt.alloc());
    makes(&rt, rt.alloc(), &mut story, &NODES)?;
    makes(&rt, rt.alloc(), &mut story, &BAD_VALUES)
}

const MEAN: [Row; 6] = [
    (Add(Kind::File, "src"), None),
    (Add(Kind::Smooth, "mean"), None),
    (Set("mean", Param::Radius, 4), None),
    (Set("mean", Param::Release, 1), None),
    (Load("src", "bytes"), None),
    (Connect("src", "mean", 1), None),
];

#[test]
fn what_an_edit_makes_is_read_back(rt: HostRuntime) -> Result<(), Fail> {
    let mut story = Story::new(rt.alloc());
    makes(&rt, rt.alloc(), &mut story, &MEAN)?;
    let net = &story.net;
    let (src, mean) = (NodeId(1), NodeId(2));
    assert_eq!(rt; net.name(mean), Some(word("mean")?));
    assert_eq!(rt; net.name(NodeId(3)), None);
    assert_eq!(rt; net.kind(mean), Some(Kind::Smooth));
    assert_eq!(rt; net.input(mean, 1), Some(src));
    assert_eq!(rt; net.input(mean, 2), None);
    assert_eq!(rt; net.value(mean, Param::Radius), Some(one(4)));
    assert_eq!(rt; net.value(mean, Param::Release), Some(one(1)));
    assert_eq!(rt; net.value(mean, Param::Unit), None);
    assert_eq!(rt; net.file(src).ok_or("no file")?.list(), b"bytes".as_slice());
    assert!(rt; net.file(mean).is_none());
    assert_eq!(rt; net.node(mean).ok_or("no node")?.stamp, 6);
    Ok(())
}

// Wants this node under the name mean.
fn has_mean(rt: &impl Abort, net: &Net, id: NodeId, kind: Kind) -> Result<(), Fail> {
    assert_eq!(rt; id_of(net, "mean")?, id);
    assert_eq!(rt; net.kind(id), Some(kind));
    Ok(())
}

const AGAIN: [Row; 2] = [(Remove("mean"), None), (Add(Kind::Tets, "mean"), None)];

#[test]
fn a_name_that_is_used_again_has_a_new_node(rt: HostRuntime) -> Result<(), Fail> {
    let mut story = Story::new(rt.alloc());
    makes(&rt, rt.alloc(), &mut story, &MEAN)?;
    let copy = story.net.copy()?;
    makes(&rt, rt.alloc(), &mut story, &AGAIN)?;
    has_mean(&rt, &story.net, NodeId(8), Kind::Tets)?;
    assert_eq!(rt; story.net.kind(NodeId(2)), None);
    // The copy has the nodes of before.
    has_mean(&rt, &copy, NodeId(2), Kind::Smooth)
}

const CYCLES: [Row; 17] = [
    (Add(Kind::Append, "a"), None),
    (Add(Kind::Append, "b"), None),
    (Add(Kind::Append, "c"), None),
    (Add(Kind::Append, "d"), None),
    (Add(Kind::Append, "e"), None),
    // One node, two, five.
    (Connect("a", "a", 8), Some(Refusal::WouldCycle)),
    (Connect("e", "d", 1), None),
    (Connect("d", "e", 1), Some(Refusal::WouldCycle)),
    (Connect("d", "c", 2), None),
    (Connect("c", "b", 3), None),
    (Connect("b", "a", 4), None),
    (Connect("a", "e", 5), Some(Refusal::WouldCycle)),
    // A way beside the chain is no cycle; once the chain is cut, the other way is open.
    (Connect("e", "a", 5), None),
    (Disconnect("a", 4), None),
    (Disconnect("a", 5), None),
    (Connect("a", "e", 5), None),
    (Connect("b", "a", 1), Some(Refusal::WouldCycle)),
];

#[test]
fn a_cycle_of_any_length_is_refused(rt: HostRuntime) -> Result<(), Fail> {
    let mut story = Story::new(rt.alloc());
    makes(&rt, rt.alloc(), &mut story, &CYCLES)
}

const FED: [Row; 6] = [
    (Add(Kind::File, "one"), None),
    (Add(Kind::File, "two"), None),
    (Add(Kind::Arith, "sum"), None),
    (Connect("one", "sum", 1), None),
    (Connect("two", "sum", 1), None),
    (Connect("one", "sum", 2), None),
];

const EMPTIED: [Row; 2] = [(Disconnect("sum", 1), None), (Remove("two"), None)];

// What feeds the two ports of sum.
fn sum_inputs(net: &Net) -> Result<[Option<NodeId>; 2], Fail> {
    Ok([input_of(net, "sum", 1)?, input_of(net, "sum", 2)?])
}

#[test]
fn ports_are_replaced_and_emptied(rt: HostRuntime) -> Result<(), Fail> {
    let mut story = Story::new(rt.alloc());
    makes(&rt, rt.alloc(), &mut story, &FED)?;
    assert_eq!(rt; sum_inputs(&story.net)?, [Some(NodeId(2)), Some(NodeId(1))]);
    makes(&rt, rt.alloc(), &mut story, &EMPTIED)?;
    assert_eq!(rt; sum_inputs(&story.net)?, [None, Some(NodeId(1))]);
    Ok(())
}

const DIAMOND: [Row; 8] = [
    (Add(Kind::File, "src"), None),
    (Add(Kind::Smooth, "left"), None),
    (Add(Kind::Smooth, "right"), None),
    (Add(Kind::Arith, "sum"), None),
    (Connect("left", "sum", 1), None),
    (Connect("right", "sum", 2), None),
    (Connect("src", "left", 1), None),
    (Connect("src", "right", 1), None),
];

// The stamps of src, left, right and sum: two are asked for, and two are of all.
fn diamond_stamps(net: &Net) -> Result<[u32; 4], Fail> {
    let all = net.stamps();
    Ok([
        stamp_of(net, "src")?,
        stamp_of(net, "left")?,
        all.of(id_of(net, "right")?).ok_or("no stamp")?,
        all.of(id_of(net, "sum")?).ok_or("no stamp")?,
    ])
}

// Makes or tries the edit, and wants these stamps.
fn stamps_after(
    rt: &impl Abort,
    alloc: Global,
    story: &mut Story,
    plan: Plan,
    want: [u32; 4],
) -> Result<(), Fail> {
    let _ = answer(alloc, story, plan)?;
    let got = diamond_stamps(&story.net)?;
    assert!(rt; got == want, "{plan:?}: {got:?}");
    Ok(())
}

const STAMPS: [(Plan, [u32; 4]); 7] = [
    (Disconnect("right", 1), [1, 7, 9, 9]),
    (Set("left", Param::Radius, 2), [1, 10, 9, 10]),
    (Connect("src", "right", 1), [1, 10, 11, 11]),
    (Set("src", Param::Unit, 3), [12, 12, 12, 12]),
    // A refused edit stamps nothing.
    (Set("src", Param::Unit, 99), [12, 12, 12, 12]),
    (Set("right", Param::Release, 1), [12, 12, 14, 14]),
    (Load("src", "bytes"), [15, 15, 15, 15]),
];

#[test]
fn stamps_go_through_a_diamond(rt: HostRuntime) -> Result<(), Fail> {
    let mut story = Story::new(rt.alloc());
    makes(&rt, rt.alloc(), &mut story, &DIAMOND)?;
    assert_eq!(rt; diamond_stamps(&story.net)?, [1, 7, 8, 8]);
    for (plan, want) in &STAMPS {
        stamps_after(&rt, rt.alloc(), &mut story, *plan, *want)?;
    }
    assert_eq!(rt; story.net.stamp(NodeId(5)), None);
    assert_eq!(rt; story.net.stamps().of(NodeId(5)), None);
    Ok(())
}

// A chain of so many nodes, n0 first.
fn chain(rt: &impl Abort, alloc: Global, story: &mut Story, count: u32) -> Result<(), Fail> {
    for i in 0..count {
        let name = format!(in alloc; "n{i}")?;
        let before = format!(in alloc; "n{}", i.saturating_sub(1))?;
        let rows = [
            (Add(Kind::Merge, name.as_str()), None),
            (Connect(before.as_str(), name.as_str(), 1), None),
        ];
        makes(rt, alloc, story, &rows[..1 + usize::from(i > 0)])?;
    }
    Ok(())
}

const FULL: [Row; 6] = [
    (Add(Kind::Merge, "more"), Some(Refusal::TooManyNodes)),
    (Add(Kind::Merge, "n7"), Some(Refusal::Exists)),
    (Connect("n255", "n0", 1), Some(Refusal::WouldCycle)),
    (Remove("n255"), None),
    (Add(Kind::Merge, "more"), None),
    (Set("n0", Param::Release, 1), None),
];

#[test]
fn there_is_room_for_256_nodes(rt: HostRuntime) -> Result<(), Fail> {
    let mut story = Story::new(rt.alloc());
    chain(&rt, rt.alloc(), &mut story, 256)?;
    makes(&rt, rt.alloc(), &mut story, &FULL)?;
    // 256 Adds and 255 Connects come before.
    assert_eq!(rt; stamp_of(&story.net, "n254")?, 517);
    assert_eq!(rt; stamp_of(&story.net, "more")?, 516);
    Ok(())
}
