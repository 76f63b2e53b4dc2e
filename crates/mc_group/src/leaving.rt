// Blocks leave the wanted set.
ghost use Rattle.std.specs.Prelude.{◌≡◌, ◌≤◌};
ghost use Rattle.mc_model.specs.Wanted.{without};
ghost use Rattle.mc_queue.specs.Views.{shown, spare};

use mc_base::Cid;
use mc_queue::Queue;

/// These blocks are processed: each leaves the part of the wanted set that it is in.
pub fn done_all(queue: &mut Queue, cids: &[Cid])
    ensures queue { shown queue.new ≡ without (shown queue.old) cids.now }
    ensures spare { spare queue.old ≤ spare queue.new }
{
    for cid in cids {
        queue.done(cid);
    }
}
