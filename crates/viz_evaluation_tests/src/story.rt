//! A network that is edited step by step.

use std::alloc::Global;
use std::marker::Model;
use viz_network::{ApplyStop, Edit, Net, networks_are_sound};

/// A network and the position of its last edit.
#[derive(Drop)]
pub(crate) struct Story {
    pub(crate) net: Net,
    at: u32,
}

impl Model for Story {
    ghost use Rattle.viz_network.specs.Network.{Network};
    ghost use Rattle.viz_network.specs.EqualStamps.{IsSound};

    ghost Value = { Network };

    ghost view = { λ story. story.net };

    ghost invariant = { λ story. IsSound story.at story.net };
}

impl Story {
    pub(crate) fn new(alloc: Global) -> Story {
        Story {
            net: Net::new(alloc),
            at: 0,
        }
    }

    pub(crate) fn apply(&mut self, edit: &Edit) -> Result<(), ApplyStop> {
        if self.at == u32::MAX {
            return Err(ApplyStop::Memory);
        }
        networks_are_sound();
        let at = self.at + 1;
        let answer = self.net.apply(at, edit);
        self.at = at;
        answer
    }
}
