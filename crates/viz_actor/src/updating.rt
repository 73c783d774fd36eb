//! Updates and audits of a pinned network.

ghost use Rattle.std.specs.Prelude.{◌≡◌, IfSome};
ghost use Rattle.viz_hub.specs.Passes.{GoesFurther};
ghost use Rattle.viz_entries.specs.History.{network_of};
ghost use Rattle.viz_plan.specs.Published.{AreOfPlan};
ghost use Rattle.viz_kept.specs.True.{AreTrueIn};
ghost use Rattle.viz_plan_law.specs.Ports.{HaveOwnPorts};
ghost use Rattle.viz_account.specs.Answers.{
  HandsOut,
  at_of,
  audit_at_of,
  audit_line_of,
  audit_missing_in,
  line_of,
  missing_in,
};
ghost use Rattle.viz_account.specs.Laws.{IsClosedLine};
ghost use Rattle.viz_account.specs.Lines.{TellsAudit};
ghost use Rattle.viz_account.specs.Served.{Updates};
ghost use Rattle.viz_actor.specs.Updating.{IsAudit, IsSamePass, IsUpdate, Publishes};

use std::alloc::Global;
use std::sync::Wait;
use std::thread::Threads;
use viz_account::{Answer, AuditAnswer, UpdateParts};
use viz_base::{Gate, Port, Shape, Word};
use viz_history::Pinned;
use viz_hub::{Hub, Pass, Pin};
use viz_plan_law::plans_fit;

// Writes the file of a node of a pinned network, with what is kept.
fn update_pinned<R: Threads + Sync, P: Port, G: Gate + Sync>(
    rt: &R,
    alloc: Global,
    pinned: &Pinned,
    sink: &Word,
    file: &str,
    shape: &Shape,
    port: &mut P,
    gate: &G,
) -> (Answer, Option<UpdateParts>)
    requires ports { HaveOwnPorts pinned.now.net }
    requires entries { AreTrueIn pinned.now.net pinned.now.entries }
    ensures updates { Updates P.Port pinned.now.net pinned.now.at sink.now file.now
        shape.now.pieces (line_of result.0) port.old port.new }
    ensures at { IfSome (at_of result.0) (λ n. n ≡ pinned.now.at) }
    ensures parts { HandsOut pinned.now.net pinned.now.entries shape.now.pieces sink.now
        (missing_in result.0) result.1 }
{
    viz_account::update(
        rt,
        alloc,
        &pinned.net,
        pinned.entries.list(),
        pinned.at,
        shape,
        port,
        sink,
        file,
        gate,
    )
}

// Publishes what an update of a pinned network handed out, and gives the pass back.
fn hand_in<R: Wait>(rt: &R, hub: &Hub, pin: Pin, shape: &Shape, parts: Option<UpdateParts>) -> Pass
    requires belongs { pin.pass.turn ≡ hub.now }
    requires plan { IfSome parts (λ p. AreOfPlan (network_of pin.pass.seen) pin.entries p.sink.0
        shape.now.pieces p.used.items p.made.items) }
    ensures { Publishes pin.pass.seen shape.now parts pin.pass result }
{
    match parts {
        Some(parts) => {
            let (pass, _) = hub.publish(rt, pin, parts.sink, shape, &parts.used, &parts.made);
            pass
        }
        None => hub.release(pin),
    }
}

// Counts the sides of the surface of a node of a pinned network, with what is kept.
fn audit_pinned<R: Threads + Sync, G: Gate + Sync>(
    rt: &R,
    alloc: Global,
    pinned: &Pinned,
    node: &Word,
    shape: &Shape,
    gate: &G,
) -> (AuditAnswer, Option<UpdateParts>)
    requires ports { HaveOwnPorts pinned.now.net }
    requires entries { AreTrueIn pinned.now.net pinned.now.entries }
    ensures tells { TellsAudit pinned.now.net pinned.now.at node.now (audit_line_of result.0) }
    ensures closed { IsClosedLine (audit_line_of result.0) }
    ensures at { IfSome (audit_at_of result.0) (λ n. n ≡ pinned.now.at) }
    ensures parts { HandsOut pinned.now.net pinned.now.entries shape.now.pieces node.now
        (audit_missing_in result.0) result.1 }
{
    viz_account::audit(
        rt,
        alloc,
        &pinned.net,
        pinned.entries.list(),
        pinned.at,
        shape,
        node,
        gate,
    )
}

/// Writes the file of a node with one call of the port, as the network of the history up to now
/// gives it: of all that the pass had seen, and of what others have added since. The network is
/// updated outside of any turn, by its plan and with what is kept; each task enters the gate. What
/// the tasks made is published, exactly where the node has a dataset.
///
/// `at` of the answer is the number of entries of that history, all of which the pass then has
/// seen, and maybe more. The shape doesn't change the file.
pub fn update<R: Threads + Wait + Sync, P: Port, G: Gate + Sync>(
    rt: &R,
    alloc: Global,
    hub: &Hub,
    pass: Pass,
    sink: &Word,
    file: &str,
    shape: &Shape,
    port: &mut P,
    gate: &G,
) -> (Pass, Answer)
    requires belongs { pass.turn ≡ hub.now }
    ensures same { IsSamePass pass result.0 }
    ensures further { GoesFurther pass result.0.seen }
    ensures updates { IsUpdate P.Port sink.now file.now shape.now result.1 pass result.0
        port.old port.new }
{
    plans_fit();
    let pin = match hub.pin(rt, alloc, pass) {
        Ok(pin) => pin,
        Err(pass) => return (pass, Answer::Memory),
    };
    let (answer, parts) = update_pinned(rt, alloc, pin.pinned(), sink, file, shape, port, gate);
    (hand_in(rt, hub, pin, shape, parts), answer)
}

/// Counts the sides of the surface of a node in the network of the history up to now, as `update`
/// has it, by its plan, and publishes as an update does. A node that is no contour on an image is
/// refused as WrongInput(1), behind the faults of its evaluation.
pub fn audit_node<R: Threads + Wait + Sync, G: Gate + Sync>(
    rt: &R,
    alloc: Global,
    hub: &Hub,
    pass: Pass,
    node: &Word,
    shape: &Shape,
    gate: &G,
) -> (Pass, AuditAnswer)
    requires belongs { pass.turn ≡ hub.now }
    ensures same { IsSamePass pass result.0 }
    ensures further { GoesFurther pass result.0.seen }
    ensures audits { IsAudit node.now shape.now result.1 pass result.0 }
    ensures closed { IsClosedLine (audit_line_of result.1) }
{
    plans_fit();
    let pin = match hub.pin(rt, alloc, pass) {
        Ok(pin) => pin,
        Err(pass) => return (pass, AuditAnswer::Memory),
    };
    let (answer, parts) = audit_pinned(rt, alloc, pin.pinned(), node, shape, gate);
    (hand_in(rt, hub, pin, shape, parts), answer)
}
