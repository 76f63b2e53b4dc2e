// The verified blocks that wait to be taken in.
ghost use Rattle.std.specs.Prelude.{◌≡◌, ◌≤◌, ◌<◌, ◌+◌, ◌++◌, ◌∷◌, [], true, None, take, drop, length};
ghost use Rattle.std.specs.Prelude.{IfSome, IfErr, OnOk};
ghost use Rattle.std.specs.List.{list_all};
ghost use Rattle.std.specs.Option.{option_map};
ghost use Rattle.mc_model.specs.declared.block.Stored.{Stored};
ghost use Rattle.mc_model.specs.Offer.{is_good};
ghost use Rattle.mc_inbox.specs.Waiting.{as_stored, first_of, turned};

use mc_block::Verified;
use mc_list::Lists;
use std::alloc::{AllocError, Global};
use std::marker::Model;

// The number of the list that the blocks are in.
const LIST: u64 = 0;

// The most blocks.
const MOST: u64 = 64;

/// At most 64 verified blocks, in the order in which they came. A contract sees them as blocks with their bytes, beside
/// how many there is room for, the present ones among them.
#[derive(Drop)]
pub struct Inbox {
    lists: Lists<Verified>,
}

impl Model for Inbox {
    ghost use Rattle.std.specs.Prelude.{length, ◌≤◌};
    ghost use Rattle.mc_inbox.specs.Waiting.{Waiting};
    ghost use Rattle.mc_inbox.specs.Views.{items_in, waiting_in};

    ghost Value = { Waiting };

    ghost view = { λ inbox. waiting_in inbox.lists };

    ghost invariant = { λ inbox. length (items_in inbox.lists) ≤ 64 };
}

impl Inbox {
    /// No blocks, and no room. Takes no memory.
    pub fn new(alloc: Global) -> Inbox
        ensures { result ≡ record { items = []; room = 0 } }
    {
        Inbox {
            lists: Lists::new(alloc),
        }
    }

    /// Makes room for 64 blocks. No other call takes memory. On an error the room is no less.
    pub fn reserve(&mut self) -> Result<(), AllocError>
        ensures ok { OnOk result (64 ≤ self.new.room) }
        ensures items { self.new.items ≡ self.old.items }
        ensures room { self.old.room ≤ self.new.room }
    {
        self.lists.reserve(MOST)
    }

    /// The number of blocks, at most 64.
    pub fn len(&self) -> u64
        ensures len { result ≡ length self.now.items }
        ensures few { length self.now.items ≤ 64 }
    {
        self.lists.len(LIST)
    }

    /// A block comes to the back. It is handed back exactly where there are 64. Wants room for 64, which `reserve`
    /// makes.
    pub fn add(&mut self, item: Verified) -> Result<(), Verified>
        requires room { 64 ≤ self.old.room }
        ensures added { OnOk result ((length self.old.items < 64)
            × (self.new.items ≡ self.old.items ++ as_stored item ∷ [])) }
        ensures full { IfErr result (λ left. (left ≡ item) × (length self.old.items ≡ 64)
            × (self.new.items ≡ self.old.items)) }
        ensures room { self.new.room ≡ self.old.room }
    {
        if self.len() >= MOST {
            return Err(item);
        }
        self.put(item);
        Ok(())
    }

    /// A block comes to the back, where there is room for one more.
    pub fn put(&mut self, item: Verified)
        requires few { length self.old.items < 64 }
        requires room { length self.old.items < self.old.room }
        ensures items { self.new.items ≡ self.old.items ++ as_stored item ∷ [] }
        ensures room { self.new.room ≡ self.old.room }
    {
        let _place = self.lists.add(LIST, item);
    }

    /// The first block. `None` exactly where there is none.
    pub fn first(&self) -> Option<&Verified>
        ensures { option_map (λ item. as_stored item.now) result ≡ first_of self.now.items }
    {
        let place = self.lists.first(LIST)?;
        Some(self.lists.item(place))
    }

    /// Takes the first block out. `None` exactly where there is none.
    pub fn take(&mut self) -> Option<Verified>
        ensures taken { IfSome result (λ item. self.old.items ≡ as_stored item ∷ self.new.items) }
        ensures none { result ≡ None → (self.old.items ≡ []) × (self.new.items ≡ []) }
        ensures room { self.new.room ≡ self.old.room }
    {
        let place = self.lists.first(LIST)?;
        self.lists.no_place_stands_twice();
        Some(self.lists.take(place))
    }

    // The first block comes to the back.
    fn turn_one(&mut self)
        ensures items { self.new.items ≡ turned self.old.items }
        ensures room { self.new.room ≡ self.old.room }
    {
        if let Some(place) = self.lists.first(LIST) {
            self.lists.no_place_stands_twice();
            self.lists.shift(place, LIST);
        }
    }

    /// So many blocks, which there are, come to the back, in their order.
    pub fn turn(&mut self, count: u64)
        requires some { count ≤ length self.old.items }
        ensures items { self.new.items ≡ drop count self.old.items ++ take count self.old.items }
        ensures room { self.new.room ≡ self.old.room }
    {
        for _ in 0..count {
            self.turn_one();
        }
    }

    /// Each block is good under its identifier; there are at most 64, and no more than there is room for. A caller has
    /// this of every inbox. Does nothing.
    pub fn is_good(&self)
        ensures good { list_all (λ (item : Stored). is_good item.cid item.bytes) self.now.items ≡ true }
        ensures few { length self.now.items ≤ 64 }
        ensures room { length self.now.items ≤ self.now.room }
    {
        let _ = &self.lists;
    }
}
