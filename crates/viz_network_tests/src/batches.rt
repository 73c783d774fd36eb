//! Networks built by hand, batch by batch.

use crate::tests::Plan::{self, Add, Connect, Remove, Set};
use crate::tests::{edit_of, word};
use std::alloc::Global;
use std::marker::Model;
use std::process::Abort;
use std::test::Fail;
use viz_base::Word;
use viz_batches::{Batch, BatchStop, apply_all, histories_are_sound};
use viz_network::{Kind, Net, Param, Refusal};

// A network and the position behind its last edit.
#[derive(Drop)]
struct Story {
    net: Net,
    next: u32,
}

impl Model for Story {
    ghost use Rattle.viz_network.specs.Network.{Network};
    ghost use Rattle.viz_batches.specs.AppliesAll.{IsSoundBefore};

    ghost Value = { Network };

    ghost view = { λ story. story.net };

    ghost invariant = { λ story. IsSoundBefore story.next story.net };
}

impl Story {
    fn new(alloc: Global) -> Story {
        histories_are_sound();
        Story {
            net: Net::new(alloc),
            next: 1,
        }
    }

    fn apply_all(&mut self, batch: &Batch) -> Result<(), BatchStop> {
        if self.next > 1_000_000 {
            return Err(BatchStop::Memory);
        }
        histories_are_sound();
        let count = batch.edits().len() as u32;
        let answer = apply_all(&mut self.net, self.next, batch);
        self.next += count;
        answer
    }
}

fn batch_of(alloc: Global, plans: &[Plan<'_>]) -> Result<Batch, Fail> {
    let mut edits = Vec::new(alloc);
    for plan in plans {
        edits.push(edit_of(alloc, *plan)?)?;
    }
    Ok(Batch::new(edits).ok_or("no batch")?)
}

// What the batch is refused with, if it is.
fn answer(
    alloc: Global,
    story: &mut Story,
    plans: &[Plan<'_>],
) -> Result<Option<(u32, Refusal)>, Fail> {
    match story.apply_all(&batch_of(alloc, plans)?) {
        Ok(()) => Ok(None),
        Err(BatchStop::Refused { index, refusal }) => Ok(Some((index, refusal))),
        Err(BatchStop::Memory) => Err(Fail::from("out of memory")),
    }
}

// The position of the node's Add, and its stamp; zeros where it isn't there.
fn node_of(net: &Net, node: Word) -> (u32, u32) {
    let Some(id) = net.find(&node) else {
        return (0, 0);
    };
    (id.0, net.stamp(id).unwrap_or(0))
}

// A batch, what refuses it, and the position and the stamp of iso then.
type Row<'a> = (&'a [Plan<'a>], Option<(u32, Refusal)>, (u32, u32));

// Positions go on by the edits of each batch, refused or not.
const ROWS: [Row<'_>; 10] = [
    (&[Add(Kind::File, "src")], None, (0, 0)),
    (
        &[
            Add(Kind::Contour, "iso"),
            Connect("src", "iso", 1),
            Set("iso", Param::Levels, 5),
        ],
        None,
        (2, 4),
    ),
    // A refused batch leaves nothing of itself.
    (
        &[Set("iso", Param::Levels, 7), Remove("src")],
        Some((2, Refusal::InUse)),
        (2, 4),
    ),
    // Sets alone, and each cause that refuses one.
    (
        &[Set("iso", Param::Levels, 6), Set("iso", Param::Levels, 7)],
        None,
        (2, 8),
    ),
    (
        &[Set("iso", Param::Levels, 8), Set("no", Param::Levels, 1)],
        Some((2, Refusal::Unknown)),
        (2, 8),
    ),
    (
        &[Set("iso", Param::Levels, 8), Set("iso", Param::Radius, 1)],
        Some((2, Refusal::NoParam)),
        (2, 8),
    ),
    (
        &[Set("iso", Param::Release, 1), Set("iso", Param::Release, 2)],
        Some((2, Refusal::BadValue)),
        (2, 8),
    ),
    // A later edit builds on an earlier one.
    (&[Remove("iso"), Add(Kind::Tets, "iso")], None, (16, 16)),
    // One edit.
    (&[Remove("src")], None, (16, 16)),
    (&[Remove("src")], Some((1, Refusal::Unknown)), (16, 16)),
];

// Makes or tries the batch of the row.
fn goes(rt: &impl Abort, alloc: Global, story: &mut Story, row: &Row<'_>) -> Result<(), Fail> {
    let (plans, refusal, node) = *row;
    let got = answer(alloc, story, plans)?;
    assert!(rt; got == refusal, "{plans:?}: {got:?}");
    let got = node_of(&story.net, word("iso")?);
    assert!(rt; got == node, "{plans:?}: {got:?}");
    Ok(())
}

#[test]
fn a_batch_is_made_or_leaves_nothing(rt: HostRuntime) -> Result<(), Fail> {
    let mut story = Story::new(rt.alloc());
    for row in &ROWS {
        goes(&rt, rt.alloc(), &mut story, row)?;
    }
    Ok(())
}

// How many edits a batch of so many has, if it is one.
fn length_of(alloc: Global, count: u32) -> Result<Option<usize>, Fail> {
    let mut edits = Vec::new(alloc);
    for _ in 0..count {
        edits.push(edit_of(alloc, Remove("src"))?)?;
    }
    Ok(Batch::new(edits).map(|batch| batch.edits().len()))
}

const LENGTHS: [(u32, Option<usize>); 4] = [(0, None), (1, Some(1)), (64, Some(64)), (65, None)];

#[test]
fn a_batch_has_one_to_64_edits(rt: HostRuntime) -> Result<(), Fail> {
    for (count, want) in &LENGTHS {
        let got = length_of(rt.alloc(), *count)?;
        assert!(rt; got == *want, "{count}: {got:?}");
    }
    Ok(())
}
