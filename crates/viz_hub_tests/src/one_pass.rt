//! One pass that edits: what each batch comes to, and what a pin keeps.

ghost use Rattle.std.specs.Prelude.{◌≤◌};

use std::alloc::{AllocError, Global};
use std::marker::Model;
use std::process::Abort;
use std::test::Fail;
use viz_base::{NodeId, Word};
use viz_batches::Batch;
use viz_entries::Entry;
use viz_history::{Core, EditAnswer, Pinned};
use viz_kinds::{Kind, Param, Value};
use viz_network::{Edit, Refusal};

// A core whose entries are all of pass 1.
#[derive(Drop)]
struct Actor {
    core: Core,
}

impl Model for Actor {
    ghost use Rattle.std.specs.Prelude.{◌≡◌};
    ghost use Rattle.viz_entries.specs.History.{own_of};
    ghost use Rattle.viz_history.specs.Machine.{State};

    ghost Value = { State };

    ghost view = { λ actor. actor.core };

    ghost invariant = { λ actor. own_of 1 actor.core.history ≡ actor.core.history };
}

impl Actor {
    fn new(alloc: Global, limit: u32) -> Result<Actor, Fail>
        requires { limit ≤ 67108863 }
    {
        let core = Core::new(alloc, limit, 1)?;
        Ok(Actor { core })
    }

    fn edit(&mut self, batch: Batch) -> EditAnswer {
        let count = self.core.front() + 1;
        let answer = self.core.edit(1, count, batch);
        answer
    }

    fn reserve(&mut self) -> Result<(), AllocError> {
        self.core.reserve()
    }

    fn pin(&self, alloc: Global) -> Result<Pinned, AllocError> {
        self.core.pin(alloc)
    }

    fn find(&self, node: Word) -> Option<NodeId> {
        self.core.net().find(&node)
    }

    fn finish(self) -> (u32, Vec<Entry>) {
        let Actor { core } = self;
        let at = core.front();
        (at, core.history())
    }
}

fn word(text: &str) -> Result<Word, Fail> {
    Ok(Word::new(text.as_bytes()).ok_or("no name")?)
}

fn addition(node: Word) -> Edit {
    Edit::Add {
        kind: Kind::Smooth,
        node,
    }
}

fn radius(node: Word, radius: i64) -> Edit {
    Edit::Set {
        node,
        param: Param::Radius,
        value: Value::Numbers {
            count: 1,
            items: [radius, 0, 0, 0, 0, 0, 0, 0],
        },
    }
}

fn refused(refusal: Refusal, at: u32) -> EditAnswer {
    EditAnswer::Refused {
        index: 1,
        refusal,
        at,
    }
}

fn wants(rt: &impl Abort, actor: &mut Actor, edit: Edit, want: EditAnswer) {
    let got = actor.edit(Batch::one(edit));
    assert!(rt; got == want, "{got:?}");
}

fn wants_both(
    rt: &impl Abort,
    alloc: Global,
    actor: &mut Actor,
    edits: [Edit; 2],
    want: EditAnswer,
) -> Result<(), Fail> {
    let batch = Batch::new(Vec::from_array(alloc, edits)?).ok_or("no batch")?;
    let got = actor.edit(batch);
    assert!(rt; got == want, "{got:?}");
    Ok(())
}

// Whether the entries are of pass 1, counted from 1.
fn are_counted(entries: &[Entry]) -> bool {
    let mut count = 0u32;
    for entry in entries {
        count = count.wrapping_add(1);
        if entry.pass != 1 || entry.count != count {
            return false;
        }
    }
    true
}

#[test]
fn a_full_history_answers_so_before_it_refuses(rt: HostRuntime) -> Result<(), Fail> {
    let (s, t, u) = (word("s")?, word("t")?, word("u")?);
    let mut actor = Actor::new(rt.alloc(), 3)?;
    wants(&rt, &mut actor, addition(s), EditAnswer::Done { at: 1 });
    // the network of the history refuses these
    wants(&rt, &mut actor, addition(s), refused(Refusal::Exists, 1));
    wants(&rt, &mut actor, radius(t, 2), refused(Refusal::Unknown, 1));
    wants(
        &rt,
        &mut actor,
        radius(s, -1),
        refused(Refusal::BadValue, 1),
    );
    wants(&rt, &mut actor, radius(s, 2), EditAnswer::Done { at: 2 });
    wants(&rt, &mut actor, addition(t), EditAnswer::Done { at: 3 });
    // full, also for an unknown node
    wants(&rt, &mut actor, radius(s, 3), EditAnswer::Full { at: 3 });
    wants(&rt, &mut actor, radius(u, 3), EditAnswer::Full { at: 3 });
    let (at, history) = actor.finish();
    assert_eq!(rt; (at, history.len()), (3, 3));
    assert!(rt; are_counted(&history));
    Ok(())
}

#[test]
fn a_pin_stays_as_it_was(rt: HostRuntime) -> Result<(), Fail> {
    let (s, t) = (word("s")?, word("t")?);
    let mut actor = Actor::new(rt.alloc(), 9)?;
    actor.reserve()?;
    wants(&rt, &mut actor, addition(s), EditAnswer::Done { at: 1 });
    let pinned = actor.pin(rt.alloc())?;
    wants(&rt, &mut actor, addition(t), EditAnswer::Done { at: 2 });
    assert_eq!(rt; (pinned.at, pinned.entries.list().len()), (1, 0));
    assert!(rt; pinned.net.find(&s).is_some());
    assert!(rt; pinned.net.find(&t).is_none());
    assert_eq!(rt; actor.find(t), Some(NodeId(2)));
    Ok(())
}

#[test]
fn a_batch_is_one_entry(rt: HostRuntime) -> Result<(), Fail> {
    let (s, t, u) = (word("s")?, word("t")?, word("u")?);
    let mut actor = Actor::new(rt.alloc(), 2)?;
    let nodes = [addition(s), addition(t)];
    wants_both(
        &rt,
        rt.alloc(),
        &mut actor,
        nodes,
        EditAnswer::Done { at: 1 },
    )?;
    let bad = EditAnswer::Refused {
        index: 2,
        refusal: Refusal::BadValue,
        at: 1,
    };
    wants_both(
        &rt,
        rt.alloc(),
        &mut actor,
        [addition(u), radius(s, -1)],
        bad,
    )?;
    assert_eq!(rt; actor.find(u), None);
    // The third edit.
    wants(&rt, &mut actor, addition(u), EditAnswer::Done { at: 2 });
    assert_eq!(rt;
        (actor.find(t), actor.find(u)),
        (Some(NodeId(2)), Some(NodeId(3)))
    );
    let full = EditAnswer::Full { at: 2 };
    wants_both(
        &rt,
        rt.alloc(),
        &mut actor,
        [addition(u), radius(s, -1)],
        full,
    )
}
