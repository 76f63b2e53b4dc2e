// Blocks that were taken out of an inbox together, the blocks themselves side by side.
ghost use Rattle.std.specs.Prelude.{◌≡◌, ◌≤◌, ◌<◌, ◌+◌, ◌++◌, ◌∷◌, [], true, false, vec_capacity, length, IfOk};
ghost use Rattle.std.specs.Prelude.{Ok};
ghost use Rattle.mc_model.specs.Offer.{offer};
ghost use Rattle.mc_inbox.specs.Waiting.{as_stored};
ghost use Rattle.mc_group.specs.Gathering.{AreHeld, IsHeld, IsPut, blocks_left, items_of, item_of, stores_in};

use mc_base::{Cid, List};
use mc_block::Verified;
use mc_inbox::Inbox;
use mc_model::{Block, Stored};
use std::alloc::{AllocError, Global};
use std::vec::IntoIter;

/// What was taken out of an inbox, at its place.
#[derive(Drop)]
pub enum Slot {
    /// A block that is not taken up.
    Known(Verified),
    /// A block that is processed as it is stored already.
    Held(Verified),
    /// The bytes of a block that is stored and processed; the block stands among those of the group.
    New(Stored),
}

/// What becomes of a block of an inbox.
#[derive(Drop)]
pub(crate) enum Fate {
    /// It is not in flight, or stands in the group already.
    Known,
    /// It is stored as this block.
    Held(Block),
    /// It is not stored.
    New,
}

/// Blocks that were taken out of an inbox, in their order; those that are to be processed, side by side; and the
/// identifiers of these.
#[derive(Drop)]
pub struct Group {
    pub slots: Vec<Slot>,
    pub blocks: Vec<Block>,
    pub cids: Vec<Cid>,
}

impl Group {
    /// No blocks, with room for so many.
    pub fn with_room(alloc: Global, room: usize) -> Result<Group, AllocError>
        ensures none { IfOk result (λ group.
            (group.slots.items ≡ []) × (group.blocks.items ≡ []) × (group.cids.items ≡ [])) }
        ensures slots { IfOk result (λ group. room ≤ vec_capacity group.slots) }
        ensures blocks { IfOk result (λ group. room ≤ vec_capacity group.blocks) }
        ensures cids { IfOk result (λ group. room ≤ vec_capacity group.cids) }
    {
        Ok(Group {
            slots: Vec::with_capacity(alloc, room)?,
            blocks: Vec::with_capacity(alloc, room)?,
            cids: Vec::with_capacity(alloc, room)?,
        })
    }

    // A block comes to the back.
    pub(crate) fn put(&mut self, fate: Fate, item: Verified)
        requires slots { length self.old.slots.items < vec_capacity self.old.slots }
        requires blocks { length self.old.blocks.items < vec_capacity self.old.blocks }
        requires cids { length self.old.cids.items < vec_capacity self.old.cids }
        ensures put { IsPut fate item self.old.slots.items self.old.blocks.items self.old.cids.items
            self.new.slots.items self.new.blocks.items self.new.cids.items }
        ensures slots { vec_capacity self.new.slots ≡ vec_capacity self.old.slots }
        ensures blocks { vec_capacity self.new.blocks ≡ vec_capacity self.old.blocks }
        ensures cids { vec_capacity self.new.cids ≡ vec_capacity self.old.cids }
    {
        match fate {
            Fate::Known => self.slots.push_reserved(Slot::Known(item)),
            Fate::Held(block) => {
                self.cids.push_reserved(item.cid);
                self.blocks.push_reserved(block);
                self.slots.push_reserved(Slot::Held(item));
            }
            Fate::New => {
                let Verified { cid, bytes, block } = item;
                self.cids.push_reserved(cid);
                self.blocks.push_reserved(block);
                self.slots.push_reserved(Slot::New(Stored { cid, bytes }));
            }
        }
    }
}

/// Puts all of a group back into the inbox that it was taken out of, before what is there.
pub fn put_back(inbox: &mut Inbox, slots: Vec<Slot>, blocks: Vec<Block>)
    requires held { AreHeld slots.items blocks.items }
    requires few { length slots.items + length inbox.old.items ≤ 64 }
    requires room { length slots.items + length inbox.old.items ≤ inbox.old.room }
    ensures items { inbox.new.items ≡ items_of slots.items ++ inbox.old.items }
    ensures room { inbox.new.room ≡ inbox.old.room }
{
    let rest = inbox.len();
    add_all(inbox, slots, blocks);
    inbox.turn(rest);
}

// Adds all of a group to an inbox, behind what is there.
fn add_all(inbox: &mut Inbox, slots: Vec<Slot>, blocks: Vec<Block>)
    requires held { AreHeld slots.items blocks.items }
    requires few { length slots.items + length inbox.old.items ≤ 64 }
    requires room { length slots.items + length inbox.old.items ≤ inbox.old.room }
    ensures items { inbox.new.items ≡ inbox.old.items ++ items_of slots.items }
    ensures room { inbox.new.room ≡ inbox.old.room }
{
    let mut blocks = blocks.into_iter();
    let mut rest = slots.into_iter();
    while let Some(slot) = rest.next() {
        add_one(inbox, slot, &mut blocks);
    }
}

// Adds what was taken out, with its block where that was set apart.
fn add_one(inbox: &mut Inbox, slot: Slot, blocks: &mut IntoIter<Block>)
    requires held { IsHeld slot blocks.old.rest.items }
    requires few { length inbox.old.items < 64 }
    requires room { length inbox.old.items < inbox.old.room }
    ensures items { inbox.new.items ≡ inbox.old.items ++ item_of slot ∷ [] }
    ensures room { inbox.new.room ≡ inbox.old.room }
    ensures left { blocks.new.rest.items ≡ blocks_left slot blocks.old.rest.items }
{
    match slot {
        Slot::Known(item) => inbox.put(item),
        Slot::Held(item) => {
            let _block = blocks.next();
            inbox.put(item);
        }
        Slot::New(stored) => {
            if let Some(block) = blocks.next() {
                inbox.put(whole(stored, block));
            }
        }
    }
}

// The bytes of a block, and the block that they are.
fn whole(stored: Stored, block: Block) -> Verified
    requires good { offer stored.cid stored.bytes ≡ Ok block }
    requires named { block.cid ≡ stored.cid }
    ensures { as_stored result ≡ stored }
{
    let Stored { cid, bytes } = stored;
    Verified { cid, bytes, block }
}

/// What of a group is stored, in its order, in a vector with room for all of it.
pub fn stores_of(slots: Vec<Slot>, room: Vec<Stored>) -> List<Stored>
    requires none { room.items ≡ [] }
    requires room { length slots.items ≤ vec_capacity room }
    ensures { result ≡ stores_in slots.items }
{
    let mut stores = room;
    let mut rest = slots.into_iter();
    while let Some(slot) = rest.next() {
        add_store(&mut stores, slot);
    }
    List::from_vec(stores)
}

fn add_store(stores: &mut Vec<Stored>, slot: Slot)
    requires room { length stores.old.items < vec_capacity stores.old }
    ensures items { stores.new.items ≡ stores.old.items ++ stores_in (slot ∷ []) }
    ensures room { vec_capacity stores.new ≡ vec_capacity stores.old }
{
    if let Slot::New(stored) = slot {
        stores.push_reserved(stored);
    }
}
