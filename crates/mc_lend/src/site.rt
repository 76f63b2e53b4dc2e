// Where a replica is read.
ghost use Rattle.std.specs.Prelude.{◌≡◌};
ghost use Rattle.mc_lend.specs.Lending.{IsViewOf};

use mc_fetch::{PeerView, Plants};
use mc_keep::Keeper;

/// A replica, and whether it is fetched from: its keeper, and the offers that are planted there.
pub struct Site<'a, K> {
    /// The replica's keeper.
    pub keeper: &'a K,
    /// What is planted at the replica.
    pub planted: &'a Plants,
    /// Whether it is fetched from.
    pub peer: bool,
}

// How it is read through a desk.
pub(crate) fn view_of<'a, K: Keeper>(site: &Site<'a, K>, desk: K::Desk) -> PeerView<'a, K>
    ensures view { IsViewOf site.now result }
    ensures desk { result.desk ≡ desk }
{
    PeerView {
        keeper: site.keeper,
        desk,
        planted: site.planted,
    }
}
