// What holds of all offers, by the definitions.
ghost use Rattle.std.specs.Prelude.{◌≡◌, List, Some, None, cond};
ghost use Rattle.std.specs.List.{flat_map};
ghost use Rattle.mc_base.specs.declared.cid.Cid.{Cid};
ghost use Rattle.mc_model.specs.Found.{PeerOffers, offers_from};
ghost use Rattle.mc_model.specs.Front.{same_cid};
ghost use Rattle.mc_fetch.specs.declared.plants.Planted.{Planted};
ghost use Rattle.mc_fetch.specs.Offers.{listed};
ghost use Rattle.mc_fetch.specs.Peers.{peer_places};
ghost use Rattle.mc_fetch.specs.Plants.{planted_at, planted_with};

/// What the places of some peers offer are, in their order, the offers of these peers: of each one its planted offer,
/// and then its stored block.
pub fn peers_offer_in_order()
    ensures { (peers : List PeerOffers) → listed (flat_map peer_places peers) ≡ offers_from None peers }
{}

/// An offer that is planted is the one for its block from then on, and no other block's is another.
pub fn plants_replace()
    ensures { (offers : List Planted) (offer : Planted) (cid : Cid) → planted_at (planted_with offers offer) cid
        ≡ cond (same_cid cid offer.cid) (Some offer.bytes) (planted_at offers cid) }
{}
