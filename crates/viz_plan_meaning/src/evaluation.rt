//! Evaluations of tasks, and what they come to. The functions are laws.

ghost use Rattle.std.specs.Prelude.{ℕ, List, Option, Result};
ghost use Rattle.viz_network.specs.declared.fault.Fault.{Fault};
ghost use Rattle.viz_parts.specs.declared.request.Part.{Part};
ghost use Rattle.viz_parts.specs.declared.request.Request.{Request};
ghost use Rattle.viz_plan_meaning.specs.Known.{Known};
ghost use Rattle.viz_plan_meaning.specs.Laws.{IsSound, IsSpoiling, NoFaultHides, OrdersProduce};
ghost use Rattle.viz_plan_meaning.specs.Laws.{PlansProduce};

use viz_requests::serving_is_an_order;

/// An evaluation of tasks, by what is known of a network: how a part is cut to a request, what a
/// node makes for a request of the parts at its ports, which part is true of a request at a node,
/// and which fault is one of a node. A node may be spoilt, and a request stem from another.
pub trait Evaluation {
    ghost known: { Known };

    ghost restrict: { Request × Part → Request → Part };

    ghost run: { ℕ → Request → List (Option Part) → Result Part Fault };

    ghost is_true: { ℕ → Request → Part → Type 0 };

    ghost faults: { ℕ → Fault → Type 0 };

    ghost spoilt: { ℕ → Type 0 };

    ghost stems: { Request → Request → Type 0 };
}

/// Tasks that each find what they ask for before themselves give true parts, or a node faults.
pub fn orders_produce<E: Evaluation>()
    ensures law { IsSound E.known E.restrict E.run E.is_true E.faults
        → OrdersProduce E.known E.restrict E.run E.is_true E.faults }
{
    serving_is_an_order();
}

/// The plan, level by level, gives true parts for all requests, or a node faults.
pub fn plans_produce<E: Evaluation>()
    ensures law { IsSound E.known E.restrict E.run E.is_true E.faults
        → PlansProduce E.known E.restrict E.run E.is_true E.faults }
{
    serving_is_an_order();
}

/// Where all tasks of a plan came out, each spoilt node that is reached through spoilt ones was
/// asked for each request.
pub fn no_fault_hides<E: Evaluation>()
    ensures law { IsSound E.known E.restrict E.run E.is_true E.faults
        → IsSpoiling E.known E.spoilt E.stems
        → NoFaultHides E.known E.is_true E.spoilt E.stems }
{
    serving_is_an_order();
}
