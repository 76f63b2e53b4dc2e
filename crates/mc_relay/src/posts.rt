// A relay with one of its ends.
ghost use Rattle.std.specs.Arc.{arc_value};
ghost use Rattle.std.specs.Prelude.{◌≡◌, IfErr, IfNone, IfSome, OnOk};
ghost use Rattle.mc_relay.specs.Ends.{IsGiverOf, IsTakerOf, giver_knows, taker_knows};
ghost use Rattle.mc_relay.specs.Items.{AreRight, IsRight};
ghost use Rattle.mc_relay.specs.Passes.{with_empty, with_full, with_pushed, with_taken};
ghost use Rattle.mc_relay.specs.Props.{AreRight-prop};

use crate::ends::{Giver, Taker};
use crate::relay::Relay;
use mc_block::Verified;
use mc_fetch::Naming;
use std::alloc::Global;
use std::sync::{Arc, Wait};

/// One giver of a relay, beside the relay, so that it goes wherever a thread takes it. What it pushed is right.
#[derive(Drop)]
pub struct GiverEnd<J: Naming> {
    pub(crate) relay: Arc<Relay<J>, Global>,
    pub(crate) giver: Giver,
    ghost own: { IsGiverOf (arc_value relay) giver },
    ghost right: { AreRight J.found (giver_knows giver).pushed } by { AreRight-prop J.found (giver_knows giver).pushed },
}

/// The taker of a relay, beside the relay. What it took is right.
#[derive(Drop)]
pub struct TakerEnd<J: Naming> {
    pub(crate) relay: Arc<Relay<J>, Global>,
    pub(crate) taker: Taker,
    ghost own: { IsTakerOf (arc_value relay) taker },
    ghost right: { AreRight J.found (taker_knows taker).taken } by { AreRight-prop J.found (taker_knows taker).taken },
}

impl<J: Naming> GiverEnd<J> {
    /// Pushes an item, as `Relay::push` does. Condition: where `J.found` is a map, the item's bytes are the map's for
    /// its block.
    pub fn push<W: Wait>(&mut self, item: Verified, wait: &W) -> Result<(), Verified>
        requires right { IsRight J.found item }
        ensures pushed { OnOk result (giver_knows self.new.giver ≡ with_pushed (giver_knows self.old.giver) item) }
        ensures back { IfErr result (λ left. left ≡ item) }
        ensures noted { IfErr result (λ left. giver_knows self.new.giver ≡ with_full (giver_knows self.old.giver)) }
    {
        self.relay.push(&mut self.giver, item, wait)
    }
}

impl<J: Naming> TakerEnd<J> {
    /// Pops the item that was pushed first of those that are left, as `Relay::pop` does.
    pub fn pop<W: Wait>(&mut self, wait: &W) -> Option<Verified>
        ensures taken { IfSome result (λ item. taker_knows self.new.taker ≡ with_taken (taker_knows self.old.taker) item) }
        ensures right { IfSome result (IsRight J.found) }
        ensures noted { IfNone result (taker_knows self.new.taker ≡ with_empty (taker_knows self.old.taker)) }
    {
        self.relay.pop(&mut self.taker, wait)
    }
}
