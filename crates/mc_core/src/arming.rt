// A replica over a keeper with a fuse.
ghost use Rattle.std.specs.Prelude.{◌≡◌, ◌≤◌, Some};
ghost use Rattle.mc_core.specs.Exact.{RestSame};

use crate::Replica;
use mc_keep::{Fused, Keeper};

impl<K: Keeper> Replica<Fused<K>> {
    /// Lets the k-th commit of the replica's keeper from now on fail, k at least 1, without its effect, or after it
    /// where `after`. This takes the place of a fuse that was armed before; nothing else changes. It takes no memory
    /// and can't fail.
    pub fn arm(&mut self, k: u64, after: bool)
        requires { 1 ≤ k }
        ensures keeper { self.new.keeper ≡
            record self.old.keeper { fuse = Some (record { commit = k; after = after }) } }
        ensures rest { RestSame self.old self.new }
        ensures wants { self.new.queue ≡ self.old.queue }
        ensures numbers { self.new.numbers ≡ self.old.numbers }
        ensures stops { self.new.stopped ≡ self.old.stopped }
    {
        self.keeper.arm(k, after);
    }
}
