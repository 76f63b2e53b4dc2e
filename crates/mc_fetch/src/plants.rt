// Bytes that are planted at a replica, to be offered to others.
ghost use Rattle.std.specs.Prelude.{◌≡◌, [], OnOk, OnErr};
ghost use Rattle.std.specs.Option.{option_map};
ghost use Rattle.indexmap.specs.IndexMap.{insert_entry};
ghost use Rattle.mc_model.specs.Front.{same_cid};
ghost use Rattle.mc_fetch.specs.Plants.{planted_at, planted_with};

use indexmap::IndexMap;
use mc_base::{Bytes, Cid};
use std::alloc::{AllocError, Global};
use std::marker::Model;

/// Bytes that are offered for a block. They may be anything.
#[derive(Debug, Drop)]
pub struct Planted {
    /// The block's identifier.
    pub cid: Cid,
    /// The bytes.
    pub bytes: Bytes,
}

/// The offers that are planted at a replica, at most one for each block, which a contract sees as the list of them. An
/// offer is found at once, however many there are.
#[derive(Drop)]
pub struct Plants {
    offers: IndexMap<Cid, Bytes>,
}

impl Model for Plants {
    ghost use Rattle.std.specs.Prelude.{List, map};
    ghost use Rattle.mc_fetch.specs.declared.plants.Planted.{Planted};
    ghost use Rattle.mc_fetch.specs.Plants.{planted_of};

    ghost Value = { List Planted };

    ghost view = { λ plants. map planted_of plants.offers.entries };
}

impl Plants {
    /// No offers. Takes no memory.
    pub fn new(alloc: Global) -> Plants
        ensures { result ≡ [] }
    {
        Plants {
            offers: IndexMap::new(alloc),
        }
    }

    /// Plants an offer, in the place of an older one for its block where there is one. A want of memory leaves the
    /// offers as they were.
    pub fn plant(&mut self, offer: Planted) -> Result<(), AllocError>
        ensures ok { OnOk result (self.new ≡ planted_with self.old offer) }
        ensures err { OnErr result (self.new ≡ self.old) }
    {
        put_offer(&mut self.offers, offer)
    }

    /// The bytes that are offered for a block, or none.
    pub fn get(&self, cid: &Cid) -> Option<&[u8]>
        ensures { option_map (λ bytes. bytes.now) result ≡ planted_at self.now cid.now }
    {
        match self.offers.get(cid) {
            Some(bytes) => Some(bytes.as_slice()),
            None => None,
        }
    }
}

// Sets the bytes of a block.
fn put_offer(offers: &mut IndexMap<Cid, Bytes>, offer: Planted) -> Result<(), AllocError>
    ensures ok { OnOk result (offers.new.entries
        ≡ insert_entry same_cid offers.old.entries offer.cid offer.bytes) }
    ensures err { OnErr result (offers.new.entries ≡ offers.old.entries) }
{
    let Planted { cid, bytes } = offer;
    let _older = offers.insert(cid, bytes)?;
    Ok(())
}
