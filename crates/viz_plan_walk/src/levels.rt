//! The tasks of a plan with their levels.

ghost use Rattle.std.specs.Prelude.{◌≡◌, ◌+◌, ◌∷◌, [], IfOk, IfSome, OnOk, length, map, max};
ghost use Rattle.std.specs.Prelude.{slice_get};
ghost use Rattle.std.specs.List.{All, range_with_len};
ghost use Rattle.viz_network.specs.declared.steps.Step.{Step};
ghost use Rattle.viz_network.specs.Step.{nodes_of};
ghost use Rattle.viz_plan_meaning.specs.Laws.{inputs_of};
ghost use Rattle.viz_plan_meaning.specs.Levels.{AllUnder, above_first, above_inputs, at_level};
ghost use Rattle.viz_plan_meaning.specs.Levels.{needs_of, with_levels};
ghost use Rattle.viz_plan_walk.specs.TaskSteps.{AreTasks};
ghost use Rattle.viz_plan_walk.specs.Walk.{named};
ghost use Rattle.viz_plan_walk.specs.Finding.{number_of};
ghost use Rattle.viz_plan_walk.specs.Leveling.{IsPushed, PutsTask, above_by, levelled, task_of};
ghost use Rattle.viz_requests.specs.Serving.{serves};

use crate::tasks::Tasks;
use crate::walk::{Asking, Need, inputs_of, number_of};
use std::alloc::{AllocError, Global};
use viz_base::NodeId;
use viz_buckets::{Buckets, Numbered};
use viz_network::{Net, Step};
use viz_parts::Request;
use viz_requests::serves;

/// A task with its level: one more than the highest level of the tasks that its node's inputs use,
/// 0 without such.
#[derive(Clone, Copy, Debug)]
pub struct Levelled {
    pub need: Need,
    pub level: usize,
}

impl Numbered for Levelled {
    ghost number = { λ task. number_of task.need.node.0 task.need.request };

    fn number(&self) -> u64 {
        number_of(self.need.node, &self.need.request)
    }
}

// One more than the level of the first of some tasks of the node that serves the request; 0 where
// none does.
fn above_among(table: &[Levelled], node: NodeId, wanted: &Request) -> Option<usize>
    ensures { IfSome result (λ l. l ≡ above_first serves (levelled table.now) node.0 wanted.now) }
{
    for task in table {
        if task.need.node == node && serves(&task.need.request, wanted) {
            return task.level.checked_add(1);
        }
    }
    Some(0)
}

// So of all tasks.
fn above_first(table: &Buckets<Levelled>, node: NodeId, wanted: &Request) -> Option<usize>
    ensures { IfSome result (λ l. l ≡ above_first serves (levelled table.now) node.0 wanted.now) }
{
    above_among(table.bucket(number_of(node, wanted)), node, wanted)
}

// The level above what feeds a port.
fn above_port<A: Asking>(
    asking: &A,
    steps: &[Step],
    table: &Buckets<Levelled>,
    place: &Option<usize>,
    request: &Request,
) -> Option<usize>
    requires order { A.order asking.now ≡ nodes_of steps.now }
    ensures { IfSome result (λ l. l ≡ above_by serves (A.kept asking.now) (A.widened asking.now)
        (nodes_of steps.now) (levelled table.now) request.now (place.now ∷ [])) }
{
    let Some(place) = place else {
        return Some(0);
    };
    let step = steps.get(*place)?;
    let wanted = asking.widen(*place, step.node, request);
    match asking.find(*place, step.node, &wanted) {
        Some(_) => Some(0),
        None => above_first(table, step.node, &wanted),
    }
}

// The level above what feeds the ports.
fn above_ports<A: Asking>(
    asking: &A,
    steps: &[Step],
    table: &Buckets<Levelled>,
    places: &[Option<usize>],
    request: &Request,
) -> Option<usize>
    requires order { A.order asking.now ≡ nodes_of steps.now }
    ensures { IfSome result (λ l. l ≡ above_by serves (A.kept asking.now) (A.widened asking.now)
        (nodes_of steps.now) (levelled table.now) request.now places.now) }
{
    let mut level = 0;
    for place in places {
        let above = above_port(asking, steps, table, place, request)?;
        level = level.max(above);
    }
    Some(level)
}

// The level of a task, by the levels of those before it.
fn level_of<A: Asking>(
    asking: &A,
    steps: &[Step],
    table: &Buckets<Levelled>,
    need: &Need,
) -> Option<usize>
    requires order { A.order asking.now ≡ nodes_of steps.now }
    ensures { IfSome result (λ l. (s : Step) × (slice_get steps.now need.now.place ≡ Some s)
        × (s.node ≡ need.now.node) × (l ≡ above_by serves (A.kept asking.now) (A.widened asking.now)
        (nodes_of steps.now) (levelled table.now)
        (A.asked asking.now need.now.node.0 need.now.request) s.inputs)) }
{
    let step = steps.get(need.place)?;
    if step.node != need.node {
        return None;
    }
    let asked = asking.ask(need.place, need.node, &need.request)?;
    above_ports(asking, steps, table, inputs_of(step), &asked)
}

// The level of a task of a network, by the levels of those before it.
fn level_in<A: Asking>(
    asking: &A,
    net: &Net,
    tasks: &Tasks,
    table: &Buckets<Levelled>,
    need: &Need,
) -> Option<usize>
    requires tasks { AreTasks net.now
        (A.order asking.now) tasks.now.steps.items tasks.now.sources.items }
    ensures { IfSome result (λ l. l ≡ above_inputs serves (A.kept asking.now)
        (A.widened asking.now) (levelled table.now)
        (A.asked asking.now need.now.node.0 need.now.request) (inputs_of net.now need.now.node.0)) }
{
    level_of(asking, &tasks.steps, table, need)
}

/// The tasks of a plan with their levels.
///
/// `Err` is want of memory, or comes where a task isn't at the place of its node.
pub fn with_levels<A: Asking>(
    alloc: Global,
    asking: &A,
    net: &Net,
    tasks: &Tasks,
    plan: &[Need],
) -> Result<Vec<Levelled>, AllocError>
    requires tasks { AreTasks net.now
        (A.order asking.now) tasks.now.steps.items tasks.now.sources.items }
    ensures value { IfOk result (λ t. levelled t.items ≡ with_levels serves (A.kept asking.now)
        (A.widened asking.now)
        (A.asked asking.now) (inputs_of net.now) [] (named plan.now)) }
{
    let mut table = Buckets::new(alloc, plan.len())?;
    for need in plan {
        let Some(level) = level_in(asking, net, tasks, &table, need) else {
            return Err(AllocError);
        };
        table.push(Levelled { need: *need, level })?;
    }
    Ok(table.into_list())
}

// A number above another and the level of a task.
fn raised(count: usize, task: &Levelled) -> Option<usize>
    ensures { IfSome result (λ n. n ≡ max count (task.now.level + 1)) }
{
    let above = task.level.checked_add(1)?;
    Some(count.max(above))
}

// A number above all levels.
fn count_of(table: &[Levelled]) -> Option<usize>
    ensures { IfSome result (λ n. AllUnder n (levelled table.now)) }
{
    let mut count: usize = 0;
    for task in table {
        count = raised(count, task)?;
    }
    Some(count)
}

// So many empty lists.
fn empty_lists(alloc: Global, count: usize) -> Result<Vec<Vec<Need>>, AllocError>
    ensures count { IfOk result (λ all. length all.items ≡ count) }
    ensures empty { IfOk result (λ all. All (λ list. list.items ≡ []) all.items) }
{
    let mut all = Vec::with_capacity(alloc, count)?;
    for _ in 0..count {
        all.push(Vec::new(alloc))?;
    }
    Ok(all)
}

// Adds an item to the list at a place.
fn push_at<T: Copy>(lists: &mut Vec<Vec<T>>, at: usize, item: T) -> Result<(), AllocError>
    ensures count { OnOk result (length lists.new.items ≡ length lists.old.items) }
    ensures pushed { OnOk result (IsPushed (λ list. list.items) at item lists.old.items
        lists.new.items) }
{
    if at >= lists.len() {
        return Err(AllocError);
    }
    lists[at].push(item)?;
    Ok(())
}

// Adds a task to the list of its level.
fn put_task(lists: &mut Vec<Vec<Need>>, task: &Levelled) -> Result<(), AllocError>
    ensures count { OnOk result (length lists.new.items ≡ length lists.old.items) }
    ensures put { OnOk result (PutsTask (λ list. named list.items) (task_of task.now)
        lists.old.items lists.new.items) }
{
    push_at(lists, task.level, task.need)?;
    Ok(())
}

/// The tasks level by level, in each in the plan's order.
pub fn by_levels(alloc: Global, table: &[Levelled]) -> Result<Vec<Vec<Need>>, AllocError>
    ensures each { IfOk result (λ all. map (λ v. named v.items) all.items
        ≡ map (λ k. needs_of (at_level k (levelled table.now))) (range_with_len 0
        (length all.items))) }
    ensures under { IfOk result (λ all. AllUnder (length all.items) (levelled table.now)) }
{
    let Some(count) = count_of(table) else {
        return Err(AllocError);
    };
    let mut all = empty_lists(alloc, count)?;
    for task in table {
        put_task(&mut all, task)?;
    }
    Ok(all)
}
