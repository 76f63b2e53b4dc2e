// A relay is closed.
ghost use Rattle.std.specs.Prelude.{◌≡◌, All, List as ListOf, length, map, true};
ghost use Rattle.crossbeam_queue.specs.Passes.{view, IsPassOf};
ghost use Rattle.mc_block.specs.declared.verified.Verified.{Verified as Item};
ghost use Rattle.mc_relay.specs.Ends.{IsGiverOf, IsTakerOf, part_of, taker_knows};
ghost use Rattle.mc_relay.specs.Passes.{IsPassedOn, with_all};

use crate::ends::{Giver, Taker};
use crate::relay::Relay;
use crate::rule::{End, Line, TakesIn, Whole};
use crossbeam_queue::Pass;
use mc_base::List;
use mc_block::Verified;
use mc_fetch::Naming;
use std::sync::Wait;

impl<J: Naming> Relay<J> {
    /// Ends the relay: the number of items that are left in it. What the taker took, followed by what was left, holds
    /// for each giver exactly what it pushed, each item once and in its order, and nothing else. Takes no memory.
    ///
    /// Condition: taker and givers are all those that `new` gave with this relay.
    pub fn close<W: Wait>(self, taker: Taker, givers: List<Giver>, wait: &W) -> u64
        requires own { IsTakerOf self taker }
        requires owned { All (IsGiverOf self) givers }
        requires all { length givers ≡ (taker_knows taker).made }
        ensures { (left : ListOf Item) × (length left ≡ result)
            × IsPassedOn (taker_knows taker).taken left (map part_of givers) }
    {
        let Relay { queue } = self;
        let Taker { pass } = taker;
        let mut pass = pass;
        take_in(&queue, &mut pass, givers.into_vec());
        queue.len_as::<Whole, W>(wait, &mut pass) as u64
    }
}

// The taker takes in all givers.
fn take_in<J: Naming>(queue: &Line<J>, pass: &mut Pass<Verified, End>, givers: Vec<Giver>)
    requires own { IsPassOf queue.now pass.old }
    requires takes { (view pass.old).takes ≡ true }
    requires owned { All (λ giver. IsPassOf queue.now giver.pass) givers.items }
    ensures own { IsPassOf queue.now pass.new }
    ensures known { view pass.new ≡ with_all (view pass.old) (map part_of givers.items) }
{
    let mut rest = givers.into_iter();
    while let Some(giver) = rest.next() {
        let Giver { pass: other } = giver;
        queue.absorb::<TakesIn>(pass, other);
    }
    rest.destroy_empty();
}
