//! Keys that differ in one part, and the entries of a small cache after each call, by hand.

use crate::datasets::image_of;
use std::alloc::Global;
use std::test::Fail;
use viz_base::{NodeId, Shared};
use viz_cache::Cache;
use viz_column::Column;
use viz_dataset::Image;
use viz_extent::Extent;
use viz_parts::{Key, Part, Request, Stored};

/// The most entries that a row lists.
const MOST: usize = 3;

/// Filler behind the entries of a row.
const NONE: (u32, i64) = (0, 0);

/// What stands for the number of a part that was given up.
const GIVEN_UP: i64 = -1;

// What is done with a cache.
#[derive(Clone, Copy, Debug)]
enum Step {
    // The part of this number is put in under this node.
    Put(u32, i64),
    // The part under this node is looked for, and is there or isn't.
    Find(u32, bool),
    // The part under this node is given up.
    GiveUp(u32),
}

// The key of a node's whole mesh.
fn key(node: u32) -> Key {
    Key {
        node: NodeId(node),
        stamp: 7,
        request: Request::Piece {
            p: 0,
            n: 1,
            ghosts: 0,
        },
    }
}

// An image of one point with this number.
fn image(alloc: Global, number: i64) -> Result<Image, Fail> {
    let column = Column::of(vec![in alloc; number]?);
    match Extent::new([0; 6]) {
        Some(extent) => Ok(image_of(extent, [0; 3], [1; 3], column).ok_or("an image")?),
        None => Err("an extent")?,
    }
}

// The part of a node that is such an image.
fn item(alloc: Global, node: u32, number: i64) -> Result<Stored, Fail> {
    let part = Shared::new(alloc, Part::Image(image(alloc, number)?))?;
    Ok(Stored {
        key: key(node),
        part,
    })
}

// The number of a part that is such an image, or what stands for it in a part of no sheets.
fn number_of(part: &Part) -> Option<i128> {
    match part {
        Part::Image(image) => {
            let column = image.column();
            if column.len() == 0 {
                return None;
            }
            Some(column.get(0))
        }
        Part::Mesh(sheets) => {
            if sheets.is_empty() {
                Some(i128::from(GIVEN_UP))
            } else {
                None
            }
        }
    }
}

// Whether an entry, if there is one, has this node and number, and is missing for filler.
fn is_entry(entry: Option<&Stored>, (node, number): (u32, i64)) -> bool {
    match entry {
        Some(entry) => {
            entry.key == key(node) && number_of(entry.part.get()) == Some(i128::from(number))
        }
        None => (node, number) == NONE,
    }
}

// Whether these are the first nodes and numbers, and all others are filler.
fn lists(entries: &[Stored], want: [(u32, i64); MOST]) -> bool {
    for (i, entry) in want.iter().enumerate() {
        if !is_entry(entries.get(i), *entry) {
            return false;
        }
    }
    entries.len() <= MOST
}

// Does a step, which goes as it says.
fn is_done(alloc: Global, cache: &mut Cache, step: Step) -> Result<bool, Fail> {
    match step {
        Step::Put(node, number) => {
            let item = item(alloc, node, number)?;
            cache.put(&item)?;
            Ok(true)
        }
        Step::Find(node, there) => Ok(cache.find(&key(node)) == there),
        Step::GiveUp(node) => {
            cache.give_up(&key(node));
            Ok(true)
        }
    }
}

// Whether a cache tells how many entries it has, and the key of the last one.
fn tells(cache: &Cache, entries: &[Stored]) -> bool {
    let last = match entries.last() {
        Some(item) => Some(item.key),
        None => None,
    };
    cache.len() == entries.len() && cache.last() == last
}

// Does a step, and then compares the entries.
fn takes(
    alloc: Global,
    cache: &mut Cache,
    (step, want): &(Step, [(u32, i64); MOST]),
) -> Result<bool, Fail> {
    let done = is_done(alloc, cache, *step)?;
    let entries = cache.entries(alloc)?;
    Ok(done && tells(cache, &entries) && lists(&entries, *want))
}

#[test]
fn the_entries_are_in_the_order_of_their_last_use(rt: HostRuntime) -> Result<(), Fail> {
    let alloc = rt.alloc();
    let mut cache = Cache::new(alloc, 3)?;
    for row in &[
        (Step::Find(1, false), [NONE, NONE, NONE]),
        (Step::Put(1, 10), [(1, 10), NONE, NONE]),
        (Step::Put(2, 20), [(2, 20), (1, 10), NONE]),
        (Step::Put(3, 30), [(3, 30), (2, 20), (1, 10)]),
        // one that is found goes first, and a key that isn't there changes nothing
        (Step::Find(1, true), [(1, 10), (3, 30), (2, 20)]),
        (Step::Find(1, true), [(1, 10), (3, 30), (2, 20)]),
        (Step::Find(3, true), [(3, 30), (1, 10), (2, 20)]),
        (Step::Find(4, false), [(3, 30), (1, 10), (2, 20)]),
        // a known key takes another part, and drops none
        (Step::Put(2, 21), [(2, 21), (3, 30), (1, 10)]),
        (Step::Put(3, 31), [(3, 31), (2, 21), (1, 10)]),
        // a new one drops the last
        (Step::Put(4, 40), [(4, 40), (3, 31), (2, 21)]),
        (Step::Find(1, false), [(4, 40), (3, 31), (2, 21)]),
    ] {
        assert!(rt; takes(alloc, &mut cache, row)?, "{row:?}");
    }
    Ok(())
}

#[test]
fn a_cache_of_one_entry_keeps_the_last(rt: HostRuntime) -> Result<(), Fail> {
    let alloc = rt.alloc();
    let mut cache = Cache::new(alloc, 1)?;
    for row in &[
        (Step::Put(1, 10), [(1, 10), NONE, NONE]),
        (Step::Put(2, 20), [(2, 20), NONE, NONE]),
        (Step::Put(2, 21), [(2, 21), NONE, NONE]),
        (Step::Find(1, false), [(2, 21), NONE, NONE]),
        (Step::Find(2, true), [(2, 21), NONE, NONE]),
    ] {
        assert!(rt; takes(alloc, &mut cache, row)?, "{row:?}");
    }
    Ok(())
}

#[test]
fn an_entry_whose_part_is_given_up_keeps_its_place(rt: HostRuntime) -> Result<(), Fail> {
    let alloc = rt.alloc();
    let mut cache = Cache::new(alloc, 3)?;
    for row in &[
        (Step::Put(1, 10), [(1, 10), NONE, NONE]),
        (Step::Put(2, 20), [(2, 20), (1, 10), NONE]),
        (Step::Put(3, 30), [(3, 30), (2, 20), (1, 10)]),
        (Step::GiveUp(2), [(3, 30), (2, GIVEN_UP), (1, 10)]),
        // once more, and a key that isn't there
        (Step::GiveUp(2), [(3, 30), (2, GIVEN_UP), (1, 10)]),
        (Step::GiveUp(4), [(3, 30), (2, GIVEN_UP), (1, 10)]),
        // it is found as ever, and its key takes another part
        (Step::Find(2, true), [(2, GIVEN_UP), (3, 30), (1, 10)]),
        (Step::Put(2, 21), [(2, 21), (3, 30), (1, 10)]),
    ] {
        assert!(rt; takes(alloc, &mut cache, row)?, "{row:?}");
    }
    Ok(())
}

#[test]
fn entries_share_their_parts(rt: HostRuntime) -> Result<(), Fail> {
    let alloc = rt.alloc();
    let mut cache = Cache::new(alloc, 1)?;
    let first = is_done(alloc, &mut cache, Step::Put(1, 10))?;
    let held = cache.entries(alloc)?;
    let second = is_done(alloc, &mut cache, Step::Put(2, 20))?;
    // what was handed out stays
    assert!(rt; first && second && lists(&held, [(1, 10), NONE, NONE]));
    Ok(())
}

// The key of a piece of a mesh.
fn key_with(node: u32, stamp: u32, [p, n, ghosts]: [u32; 3]) -> Key {
    Key {
        node: NodeId(node),
        stamp,
        request: Request::Piece { p, n, ghosts },
    }
}

// Whether the key of a row is equal to one, as the row says.
fn is_same((node, stamp, piece, want): &(u32, u32, [u32; 3], bool)) -> bool {
    (key_with(*node, *stamp, *piece) == key_with(1, 3, [0, 2, 1])) == *want
}

#[test]
fn keys_differ_in_each_part(rt: HostRuntime) {
    for row in &[
        (1, 3, [0, 2, 1], true),
        (2, 3, [0, 2, 1], false),
        (1, 4, [0, 2, 1], false),
        (1, 3, [1, 2, 1], false),
        (1, 3, [0, 3, 1], false),
        (1, 3, [0, 2, 2], false),
    ] {
        assert!(rt; is_same(row), "{row:?}");
    }
}

// The key of a request of a node.
fn key_of(request: Request) -> Key {
    Key {
        node: NodeId(1),
        stamp: 7,
        request,
    }
}

// Whether the keys of two blocks of a node are equal, where both are extents.
fn are_equal(bounds: [u32; 6], others: [u32; 6]) -> Option<bool> {
    let a = Extent::new(bounds)?;
    let b = Extent::new(others)?;
    Some(key_of(Request::Block(a)) == key_of(Request::Block(b)))
}

// Whether the key of the block of a row is equal to one, as the row says.
fn is_same_block((bounds, want): &([u32; 6], bool)) -> bool {
    are_equal(*bounds, [1, 2, 1, 2, 1, 2]) == Some(*want)
}

#[test]
fn keys_of_blocks_differ_in_each_bound(rt: HostRuntime) {
    for row in &[
        ([1, 2, 1, 2, 1, 2], true),
        ([0, 2, 1, 2, 1, 2], false),
        ([1, 3, 1, 2, 1, 2], false),
        ([1, 2, 0, 2, 1, 2], false),
        ([1, 2, 1, 3, 1, 2], false),
        ([1, 2, 1, 2, 0, 2], false),
        ([1, 2, 1, 2, 1, 3], false),
    ] {
        assert!(rt; is_same_block(row), "{row:?}");
    }
}
