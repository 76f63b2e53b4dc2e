// A relay is made.
ghost use Rattle.std.specs.Prelude.{◌≡◌, ◌≤◌, ◌<◌, [], All, length, IfOk, map, true, vec_capacity};
ghost use Rattle.crossbeam_queue.specs.Passes.{view, IsPassOf, ruled_capacity};
ghost use Rattle.mc_relay.specs.Ends.{IsFreshGiver, IsGiverOf, IsTakerOf, giver_knows, taker_knows};
ghost use Rattle.mc_relay.specs.Passes.{first_view, made_view, giver_view};

use crate::ends::{Giver, Taker};
use crate::relay::Relay;
use crate::rule::{End, Hires, Line};
use crossbeam_queue::Pass;
use mc_base::List;
use mc_block::Verified;
use mc_fetch::Naming;
use std::alloc::{AllocError, Global};

// The most items that wait in a relay.
pub(crate) const ROOM: usize = 64;

impl<J: Naming> Relay<J> {
    /// An empty relay, its taker, and so many givers, 1 to 16, none of which has pushed anything.
    pub fn new(alloc: Global, givers: u64) -> Result<(Relay<J>, Taker, List<Giver>), AllocError>
        requires some { (1 ≤ givers) × (givers ≤ 16) }
        ensures taker { IfOk result (λ made. IsTakerOf made.0 made.1 × (taker_knows made.1 ≡ made_view givers)) }
        ensures givers { IfOk result (λ made. All (IsFreshGiver made.0) made.2) }
        ensures count { IfOk result (λ made. length made.2 ≡ givers) }
    {
        let ends = Vec::with_capacity(alloc, givers as usize)?;
        let (queue, pass) = Line::<J>::ruled(alloc, ROOM)?;
        let relay = Relay { queue };
        let mut pass = pass;
        let mut ends = ends;
        hire(&relay, &mut pass, &mut ends, givers);
        Ok((relay, Taker { pass }, List::from_vec(ends)))
    }
}

// So many givers.
fn hire<J: Naming>(
    relay: &Relay<J>,
    pass: &mut Pass<Verified, End>,
    ends: &mut Vec<Giver>,
    givers: u64,
)
    requires own { IsPassOf relay.now.queue pass.old }
    requires first { view pass.old ≡ first_view }
    requires empty { ends.old.items ≡ [] }
    requires room { givers ≤ vec_capacity ends.old }
    ensures own { IsPassOf relay.now.queue pass.new }
    ensures made { view pass.new ≡ made_view givers }
    ensures givers { All (IsFreshGiver relay.now) ends.new.items }
    ensures count { length ends.new.items ≡ givers }
{
    for _ in 0..givers {
        let pass = relay.queue.another::<Hires>(pass);
        ends.push_reserved(Giver { pass });
    }
}
