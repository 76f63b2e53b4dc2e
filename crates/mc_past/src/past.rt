// What is kept of a replica's past between reads of it.
use mc_base::Cid;
use mc_live::Live;
use mc_view::View;
use std::alloc::Global;

/// A walk, and the identifier that it is from.
#[derive(Drop)]
pub struct Walk {
    pub(crate) start: Cid,
    pub(crate) view: View,
}

/// What is kept of a replica's past between reads of it: the values after some first blocks, and the last walk. One
/// that fits goes on fitting while the replica only processes more.
#[derive(Drop)]
pub struct Past {
    pub(crate) live: Live,
    // How many first blocks the values are of.
    pub(crate) length: u64,
    pub(crate) walk: Option<Walk>,
}

impl Past {
    ghost use Rattle.std.specs.Prelude.{◌≡◌, ◌≤◌, List as ListOf, Option as Maybe};
    ghost use Rattle.mc_model.specs.declared.block.Block.{Block as B};
    ghost use Rattle.mc_model.specs.Kept.{Kept};
    ghost use Rattle.mc_past.specs.Pasts.{IsPast, PastFits};

    /// Nothing is kept. Takes no memory.
    pub fn new(alloc: Global) -> Past
        ensures { (told : Maybe Kept) → PastFits told result }
    {
        Past {
            live: Live::new(alloc),
            length: 0,
            walk: None,
        }
    }

    /// Forgets all that is kept. Takes no memory.
    pub fn clear(&mut self, alloc: Global)
        ensures { (told : Maybe Kept) → PastFits told self.new }
    {
        *self = Past::new(alloc);
    }

    // Forgets the values where they are of more blocks than these. Takes no memory.
    pub(crate) fn go_back(&mut self, alloc: Global, from: u64)
        ensures fits { (blocks : ListOf B) → IsPast blocks self.old → IsPast blocks self.new }
        ensures length { self.new.length ≤ from }
    {
        if from < self.length {
            self.live = Live::new(alloc);
            self.length = 0;
        }
    }
}
