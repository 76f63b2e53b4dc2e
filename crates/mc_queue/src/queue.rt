// The wanted set.
ghost use Rattle.std.specs.Prelude.{◌≡◌, ◌≤◌, ◌<◌, ◌+◌, OnOk, [], ◌∷◌, cond, length};
ghost use Rattle.mc_model.specs.Graph.{has};
ghost use Rattle.mc_model.specs.Wanted.{no_queue, start_first, give_back, to_missing, to_bad, requeue, recall, without};
ghost use Rattle.indexmap.specs.IndexMap.{get, spare as spare_places};
ghost use Rattle.mc_model.specs.Front.{same_cid};
ghost use Rattle.mc_list.specs.Views.{spare as spare_entries};
ghost use Rattle.mc_queue.specs.Parts.{first_of};
ghost use Rattle.mc_queue.specs.Shown.{named, comes};
ghost use Rattle.mc_queue.specs.Fits.{Fits};

use crate::part::{Entry, Part};
use crate::places;
use indexmap::IndexMap;
use mc_base::Cid;
use mc_list::{Lists, Place};
use std::alloc::{AllocError, Global};

/// How many blocks are in each part.
#[derive(Clone, Copy, Debug, PartialEq, Eq)]
pub struct Counts {
    /// Those that wait for a job.
    pub waiting: u64,
    /// Those with a job begun.
    pub flight: u64,
    /// Those that no offer was there for.
    pub missing: u64,
    /// Those whose first offer was damaged.
    pub bad: u64,
}

/// The wanted set: the blocks that a replica has heard of and not processed, in four parts, each in the order in which
/// they came to it. No block stands twice. Each call but `requeue` and `recall` costs the same on the average, whatever
/// stands in the parts: a block moves by links alone, and a hash table says where it stands. Those two are linear in
/// what they move.
#[derive(Drop)]
pub struct Queue {
    pub(crate) lists: Lists<Entry>,
    pub(crate) places: IndexMap<Cid, Place>,
    pub(crate) room: u64,
    ghost fits: { Fits lists (get same_cid places) },
    ghost entries_fit: { room ≤ spare_entries lists },
    ghost places_fit: { room ≤ spare_places places },
}

impl Queue {
    ghost use Rattle.mc_queue.specs.Views.{shown, spare};

    /// Nothing is wanted, and there is no room. Takes no memory.
    pub fn new(alloc: Global) -> Queue
        ensures queue { shown result ≡ no_queue }
        ensures spare { spare result ≡ 0 }
    {
        Queue {
            lists: Lists::new(alloc),
            places: IndexMap::new(alloc),
            room: 0,
        }
    }

    /// Makes room for so many more blocks. No other call takes memory. On an error nothing is wanted that was not, and
    /// the room is no less.
    pub fn reserve(&mut self, blocks: u64) -> Result<(), AllocError>
        ensures ok { OnOk result (blocks ≤ spare self.new) }
        ensures queue { shown self.new ≡ shown self.old }
        ensures spare { spare self.old ≤ spare self.new }
    {
        if blocks <= self.room {
            return Ok(());
        }
        self.reserve_both(blocks)?;
        self.room = blocks;
        Ok(())
    }

    /// A block is linked by a processed one, or with `again` a message names it: it comes to the back of waiting unless
    /// it is wanted, with `again` also out of missing or bad. True where it came to waiting. Wants room for one block.
    pub fn want(&mut self, cid: Cid, again: bool) -> bool
        requires room { 0 < spare self.old }
        ensures queue { shown self.new ≡ named again (shown self.old) cid }
        ensures came { result ≡ comes again (shown self.old) cid }
        ensures spare { spare self.old ≤ spare self.new + cond result 1 0 }
    {
        let Some(place) = self.enter(cid) else {
            return true;
        };
        if again {
            return self.hear_again(place);
        }
        false
    }

    /// The first waiting block, which comes to the back of flight. `None` exactly where none waits.
    pub fn next(&mut self) -> Option<Cid>
        ensures first { result ≡ first_of (shown self.old).waiting }
        ensures queue { shown self.new ≡ start_first (shown self.old) (shown self.old).waiting }
        ensures spare { spare self.old ≤ spare self.new }
    {
        let place = self.front(Part::Waiting)?;
        let cid = self.lists.item(place).cid;
        self.shift(place, Part::Flight);
        Some(cid)
    }

    /// A block is processed: it leaves the part that it is in. Nothing changes where it is in none.
    pub fn done(&mut self, cid: &Cid)
        ensures queue { shown self.new ≡ without (shown self.old) (cid.now ∷ []) }
        ensures spare { spare self.old ≤ spare self.new }
    {
        self.forget(cid);
    }

    /// There was no offer for a block in flight: it comes to the back of missing. Nothing changes where it is not in
    /// flight.
    pub fn missing(&mut self, cid: &Cid)
        ensures queue { shown self.new ≡ cond (has cid.now (shown self.old).flight)
            (to_missing (shown self.old) cid.now) (shown self.old) }
        ensures spare { spare self.old ≤ spare self.new }
    {
        self.shift_from(cid, Part::Flight, Part::Missing);
    }

    /// The first offer for a block in flight was damaged: it comes to the back of bad, with the number of the damage.
    /// Nothing changes where it is not in flight.
    pub fn bad(&mut self, cid: &Cid, damage: u8)
        ensures queue { shown self.new ≡ cond (has cid.now (shown self.old).flight)
            (to_bad (shown self.old) cid.now damage) (shown self.old) }
        ensures spare { spare self.old ≤ spare self.new }
    {
        if let Some(place) = self.standing(cid, Part::Flight) {
            self.spoil(cid, place, damage);
        }
    }

    /// The job of a block in flight ended without it: it comes to the back of waiting. Nothing changes where it is not
    /// in flight.
    pub fn back(&mut self, cid: &Cid)
        ensures queue { shown self.new ≡ cond (has cid.now (shown self.old).flight)
            (give_back (shown self.old) cid.now) (shown self.old) }
        ensures spare { spare self.old ≤ spare self.new }
    {
        self.shift_from(cid, Part::Flight, Part::Waiting);
    }

    /// What is missing, and then what is bad, comes to the back of waiting.
    pub fn requeue(&mut self)
        ensures queue { shown self.new ≡ requeue (shown self.old) }
        ensures spare { spare self.old ≤ spare self.new }
    {
        self.move_all(Part::Missing);
        self.move_all(Part::Bad);
    }

    /// All that is in flight comes to the back of waiting, in its order.
    pub fn recall(&mut self)
        ensures queue { shown self.new ≡ recall (shown self.old) }
        ensures spare { spare self.old ≤ spare self.new }
    {
        self.move_all(Part::Flight);
    }

    /// Whether a job of the block was begun, and has not ended.
    pub fn in_flight(&self, cid: &Cid) -> bool
        ensures { result ≡ has cid.now (shown self.now).flight }
    {
        self.standing(cid, Part::Flight).is_some()
    }

    /// How many blocks are in each part.
    pub fn counts(&self) -> Counts
        ensures waiting { result.waiting ≡ length (shown self.now).waiting }
        ensures flight { result.flight ≡ length (shown self.now).flight }
        ensures missing { result.missing ≡ length (shown self.now).missing }
        ensures bad { result.bad ≡ length (shown self.now).bad }
    {
        Counts {
            waiting: self.lists.len(Part::Waiting.list()),
            flight: self.lists.len(Part::Flight.list()),
            missing: self.lists.len(Part::Missing.list()),
            bad: self.lists.len(Part::Bad.list()),
        }
    }
}
