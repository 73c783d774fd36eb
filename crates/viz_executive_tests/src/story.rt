//! A network that is edited step by step, and what its updates kept.

ghost use Rattle.std.specs.Prelude.{◌≡◌, IfSome};
ghost use Rattle.viz_entries.specs.History.{network_of};
ghost use Rattle.viz_kept.specs.True.{AreMadeIn, AreTrueIn};
ghost use Rattle.viz_plan_law.specs.Ports.{HaveOwnPorts};

use std::alloc::{AllocError, Global};
use std::marker::Model;
use viz_batches::Batch;
use viz_history::{Core, EditAnswer, Pinned};
use viz_kept::made_is_true;
use viz_network::{Edit, Net};
use viz_parts::{Key, Stored};
use viz_plan_law::plans_fit;

/// A history of one pass, with its network and the parts that are kept.
#[derive(Drop)]
pub(crate) struct Story {
    core: Core,
}

impl Model for Story {
    ghost use Rattle.std.specs.Prelude.{◌≡◌};
    ghost use Rattle.viz_entries.specs.History.{own_of};
    ghost use Rattle.viz_history.specs.Machine.{State};

    ghost Value = { State };

    ghost view = { λ story. story.core };

    ghost invariant = { λ story. own_of 1 story.core.history ≡ story.core.history };
}

impl Story {
    pub(crate) fn new(alloc: Global) -> Result<Story, AllocError> {
        let core = Core::new(alloc, 400, 400)?;
        Ok(Story { core })
    }

    /// Whether the edit was made.
    pub(crate) fn apply(&mut self, edit: Edit) -> bool {
        let count = self.core.front() + 1;
        let answer = self.core.edit(1, count, Batch::one(edit));
        matches!(answer, EditAnswer::Done { .. })
    }

    pub(crate) fn net(&self) -> &Net {
        self.core.net()
    }

    /// The network with what is kept; None where memory ran out.
    pub(crate) fn pin(&self, alloc: Global) -> Option<Pinned>
        ensures network { IfSome result (λ pinned. pinned.net ≡ network_of self.now.history) }
        ensures ports { IfSome result (λ pinned. HaveOwnPorts pinned.net) }
        ensures entries { IfSome result (λ pinned. AreTrueIn pinned.net pinned.entries) }
    {
        plans_fit();
        match self.core.pin(alloc) {
            Ok(pinned) => Some(pinned),
            Err(_) => None,
        }
    }

    /// Keeps what was made.
    pub(crate) fn keep(&mut self, used: &[Key], made: &[Stored])
        requires made { AreMadeIn (network_of self.old.history) made.now }
    {
        keep_in(&mut self.core, used, made);
    }
}

fn keep_in(core: &mut Core, used: &[Key], made: &[Stored])
    requires made { AreMadeIn (network_of core.old.history) made.now }
    ensures same { core.new.history ≡ core.old.history }
{
    made_is_true();
    core.publish(used, made);
}
