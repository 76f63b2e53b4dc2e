// A relay is opened for threads: each of its ends beside it.
ghost use Rattle.std.specs.Arc.{arc_value};
ghost use Rattle.std.specs.Prelude.{◌≡◌, ◌≤◌, [], All, length, IfOk, OnOk, vec_capacity};
ghost use Rattle.crossbeam_queue.specs.Passes.{view, IsPassOf};
ghost use Rattle.mc_relay.specs.Ends.{giver_knows, taker_knows};
ghost use Rattle.mc_relay.specs.Passes.{first_view, made_view};

use crate::ends::{Giver, Taker};
use crate::making::ROOM;
use crate::posts::{GiverEnd, TakerEnd};
use crate::relay::Relay;
use crate::rule::{End, Hires, Line};
use crossbeam_queue::Pass;
use mc_base::List;
use mc_block::Verified;
use mc_fetch::Naming;
use std::alloc::{AllocError, Global};
use std::sync::Arc;

/// An empty relay: the end of its taker, and those of so many givers, 1 to 16, none of which has pushed anything. Each
/// end may go to another thread.
pub fn open_relay<J: Naming>(
    alloc: Global,
    givers: u64,
) -> Result<(TakerEnd<J>, List<GiverEnd<J>>), AllocError>
    requires some { (1 ≤ givers) × (givers ≤ 16) }
    ensures taker { IfOk result (λ made. taker_knows made.0.taker ≡ made_view givers) }
    ensures givers { IfOk result (λ made. All (λ end. (giver_knows end.giver).pushed ≡ []) made.1) }
    ensures count { IfOk result (λ made. length made.1 ≡ givers) }
{
    let mut posts = Vec::with_capacity(alloc, givers as usize)?;
    let (queue, pass) = Line::<J>::ruled(alloc, ROOM)?;
    let relay = Arc::new(alloc, Relay { queue })?;
    let mut pass = pass;
    share(&relay, &mut pass, &mut posts, givers)?;
    Ok((
        TakerEnd {
            relay,
            taker: Taker { pass },
        },
        List::from_vec(posts),
    ))
}

// So many givers, each beside the relay.
fn share<J: Naming>(
    relay: &Arc<Relay<J>, Global>,
    pass: &mut Pass<Verified, End>,
    posts: &mut Vec<GiverEnd<J>>,
    givers: u64,
) -> Result<(), AllocError>
    requires own { IsPassOf (arc_value relay.now).queue pass.old }
    requires first { view pass.old ≡ first_view }
    requires empty { posts.old.items ≡ [] }
    requires room { givers ≤ vec_capacity posts.old }
    ensures own { OnOk result (IsPassOf (arc_value relay.now).queue pass.new) }
    ensures made { OnOk result (view pass.new ≡ made_view givers) }
    ensures givers { OnOk result (All (λ end. (giver_knows end.giver).pushed ≡ []) posts.new.items) }
    ensures count { OnOk result (length posts.new.items ≡ givers) }
{
    for _ in 0..givers {
        let own = Arc::try_clone(relay)?;
        let pass = relay.queue.another::<Hires>(pass);
        posts.push_reserved(GiverEnd {
            relay: own,
            giver: Giver { pass },
        });
    }
    Ok(())
}
