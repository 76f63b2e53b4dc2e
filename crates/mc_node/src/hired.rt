// The seat of a worker.
ghost use Rattle.std.specs.Prelude.{◌≡◌, All, [], None, Some};
ghost use Rattle.mc_fetch.specs.Fits.{JobFits};
ghost use Rattle.mc_node.specs.Props.{Fits-prop};

use crate::node::NodeSeat;
use mc_base::Cid;
use mc_fetch::{Job, Naming};
use mc_keep::Keeper;
use mc_relay::GiverEnd;
use mc_worker::HandEnd;
use std::alloc::Global;

/// What a worker calls a sealed node with, which is its shop: a seat, the number of processed blocks at which the worker
/// ends, and, where it has one, a giver of the node's relay, with which it pushes the blocks that it found.
#[derive(Drop)]
pub struct Hired<T, K: Keeper, J: Naming> {
    pub(crate) seat: NodeSeat<T, K>,
    pub(crate) limit: u64,
    // What it pushes blocks with.
    pub(crate) giver: Option<GiverEnd<J>>,
    // How the latest call that asked for a job or delivered one ended.
    pub(crate) last: Option<HandEnd>,
    // The block of the job that was taken, and neither delivered nor given back.
    pub(crate) out: Option<Cid>,
    // After how many commits more it lets others run before it goes on.
    pub(crate) rests: u64,
    // Jobs that were begun ahead. The last one is handed out next.
    pub(crate) ahead: Vec<Job>,
    ghost fits: { All (JobFits J.found J.kept) ahead.items } by { Fits-prop J.found J.kept ahead.items },
}

impl<T, K: Keeper, J: Naming> Hired<T, K, J> {
    /// A worker's seat of this seat, which has no job out, with this limit and this giver, or none.
    pub fn new(
        alloc: Global,
        seat: NodeSeat<T, K>,
        limit: u64,
        giver: Option<GiverEnd<J>>,
    ) -> Hired<T, K, J>
        ensures seat { result.seat ≡ seat }
        ensures limit { result.limit ≡ limit }
        ensures giver { result.giver ≡ giver }
        ensures last { result.last ≡ None }
        ensures out { result.out ≡ None }
        ensures ahead { result.ahead.items ≡ [] }
    {
        Hired {
            seat,
            limit,
            giver,
            last: None,
            out: None,
            rests: 0,
            ahead: Vec::new(alloc),
        }
    }

    /// The seat alone. Condition: it has no job out, so none is lost. What its giver pushed stays in the relay, and blocks of
    /// jobs that were begun ahead, which a worker has where it was ended by a fault or at its limit, stay in flight until
    /// they are recalled.
    pub fn into_seat(self) -> NodeSeat<T, K>
        requires idle { self.out ≡ None }
        ensures { result ≡ self.seat }
    {
        let Hired {
            seat,
            limit: _,
            giver,
            last: _,
            out: _,
            rests: _,
            ahead,
        } = self;
        drop(giver);
        drop(ahead);
        seat
    }
}
