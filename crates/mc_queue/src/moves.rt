// The moves of the wanted set, each as one function of its four lists.
ghost use Rattle.std.specs.Prelude.{◌≡◌, ◌≤◌, ◌<◌, ◌+◌, ◌-◌, [], true, false, Some, None, IfSome, not, ◌||◌, length};
ghost use Rattle.std.specs.Prelude.{is_some, OnOk, cond};
ghost use Rattle.indexmap.specs.IndexMap.{get, spare as spare_places};
ghost use Rattle.mc_base.specs.declared.cid.Cid.{Cid};
ghost use Rattle.mc_model.specs.Front.{same_cid};
ghost use Rattle.mc_model.specs.Graph.{has, times};
ghost use Rattle.mc_model.specs.Wanted.{bad_cids, wanted, hear, to_waiting};
ghost use Rattle.mc_list.specs.Entries.{first_place};
ghost use Rattle.mc_list.specs.Views.{IsUsed, spare as spare_entries};
ghost use Rattle.mc_queue.specs.Parts.{same_part};
ghost use Rattle.mc_queue.specs.Fits.{entries_of, moved};
ghost use Rattle.mc_queue.specs.Shown.{cids_of, drained};
ghost use Rattle.mc_queue.specs.declared.part.Part.TheVariants.{Waiting, Bad};

use crate::part::{Entry, Part};
use crate::places;
use crate::queue::Queue;
use indexmap::map;
use mc_base::Cid;
use mc_list::Place;
use std::alloc::AllocError;

impl Queue {
    ghost use Rattle.mc_queue.specs.Views.{shown};

    /// Room for so many more entries, and for their places.
    pub(crate) fn reserve_both(&mut self, blocks: u64) -> Result<(), AllocError>
        ensures entries { OnOk result (blocks ≤ spare_entries self.new.lists) }
        ensures places { OnOk result (blocks ≤ spare_places self.new.places) }
        ensures queue { shown self.new ≡ shown self.old }
        ensures room { self.new.room ≡ self.old.room }
    {
        places::reserve(&mut self.places, blocks as usize)?;
        self.lists.reserve(blocks)
    }

    /// Where a wanted block stands.
    pub(crate) fn place_of(&self, cid: &Cid) -> Option<Place>
        ensures place { result ≡ get same_cid self.now.places cid.now }
        ensures used { IfSome result (λ place. IsUsed self.now.lists place) }
        ensures wanted { is_some result ≡ has cid.now (wanted (shown self.now)) }
    {
        places::find(&self.places, cid)
    }

    // Whether what stands at the place is in the part.
    fn is_within(&self, place: Place, part: Part) -> bool
        requires used { IsUsed self.now.lists place }
        ensures { (cid : Cid) → get same_cid self.now.places cid ≡ Some place
            → result ≡ has cid (cids_of part (shown self.now)) }
    {
        self.lists.list(place) == part.list()
    }

    /// Where a block of a part stands.
    pub(crate) fn standing(&self, cid: &Cid, part: Part) -> Option<Place>
        ensures place { IfSome result (λ place. get same_cid self.now.places cid.now ≡ Some place) }
        ensures used { IfSome result (λ place. IsUsed self.now.lists place) }
        ensures within { is_some result ≡ has cid.now (cids_of part (shown self.now)) }
    {
        let place = self.place_of(cid)?;
        if self.is_within(place, part) {
            return Some(place);
        }
        None
    }

    /// Where the first block of a part stands.
    pub(crate) fn front(&self, part: Part) -> Option<Place>
        ensures first { result ≡ first_place (entries_of self.now.lists part) }
        ensures used { IfSome result (λ place. IsUsed self.now.lists place) }
    {
        self.lists.first(part.list())
    }

    /// What stands at the place comes to the back of a part.
    pub(crate) fn shift(&mut self, place: Place, to: Part)
        requires used { IsUsed self.old.lists place }
        requires apart { same_part to Bad ≡ false }
        ensures queue { (cid : Cid) → get same_cid self.old.places cid ≡ Some place
            → shown self.new ≡ moved (Some to) (shown self.old) cid 0 }
        ensures once { (cid : Cid) → times cid (wanted (shown self.old)) ≤ 1 }
        ensures room { self.new.room ≡ self.old.room }
    {
        self.lists.no_place_stands_twice();
        self.lists.shift(place, to.list());
    }

    /// A block comes from this part to the back of another, where it is in it.
    pub(crate) fn shift_from(&mut self, cid: &Cid, from: Part, to: Part)
        requires apart { same_part to Bad ≡ false }
        ensures queue { shown self.new ≡ cond (has cid.now (cids_of from (shown self.old)))
            (moved (Some to) (shown self.old) cid.now 0) (shown self.old) }
        ensures once { has cid.now (cids_of from (shown self.old)) ≡ true
            → times cid.now (wanted (shown self.old)) ≤ 1 }
        ensures room { self.new.room ≡ self.old.room }
    {
        if let Some(place) = self.standing(cid, from) {
            self.shift(place, to);
        }
    }

    /// The place of a wanted block; one that is not wanted comes to the back of waiting. It takes no memory.
    pub(crate) fn enter(&mut self, cid: Cid) -> Option<Place>
        requires room { 0 < self.old.room }
        ensures place { IfSome result (λ place. get same_cid self.new.places cid ≡ Some place) }
        ensures used { IfSome result (λ place. IsUsed self.new.lists place) }
        ensures wanted { is_some result ≡ has cid (wanted (shown self.old)) }
        ensures queue { shown self.new ≡ cond (is_some result) (shown self.old) (to_waiting (shown self.old) cid) }
        ensures room { self.old.room ≡ self.new.room + cond (is_some result) 0 1 }
    {
        let Ok(entry) = self.places.entry(cid) else {
            unreachable!();
        };
        match entry {
            map::Entry::Occupied(known) => Some(*known.get()),
            map::Entry::Vacant(new) => {
                let wanted = Entry { cid, damage: 0 };
                new.insert_entry(self.lists.add(Part::Waiting.list(), wanted));
                self.room -= 1;
                None
            }
        }
    }

    /// What stands at the place of a block comes to the back of bad, with the number of the damage. It takes no memory.
    pub(crate) fn spoil(&mut self, cid: &Cid, place: Place, damage: u8)
        requires place { get same_cid self.old.places cid.now ≡ Some place }
        requires used { IsUsed self.old.lists place }
        ensures queue { shown self.new ≡ moved (Some Bad) (shown self.old) cid.now damage }
        ensures once { times cid.now (wanted (shown self.old)) ≤ 1 }
        ensures room { self.new.room ≡ self.old.room }
    {
        self.lists.no_place_stands_twice();
        let _entry = self.lists.take(place);
        let place = self
            .lists
            .add(Part::Bad.list(), Entry { cid: *cid, damage });
        places::set(&mut self.places, cid, place);
    }

    /// A block leaves its part.
    pub(crate) fn forget(&mut self, cid: &Cid)
        ensures queue { shown self.new ≡ moved None (shown self.old) cid.now 0 }
        ensures room { self.new.room ≡ self.old.room }
    {
        if let Some(place) = places::remove(&mut self.places, cid) {
            let _entry = self.lists.take(place);
        }
    }

    // Whether what stands at the place is missing or bad.
    fn is_stuck(&self, place: Place) -> bool
        requires used { IsUsed self.now.lists place }
        ensures { (cid : Cid) → get same_cid self.now.places cid ≡ Some place
            → result ≡ (has cid (shown self.now).missing || has cid (bad_cids (shown self.now).bad)) }
    {
        self.is_within(place, Part::Missing) || self.is_within(place, Part::Bad)
    }

    /// What stands at the place comes to waiting out of missing or bad. False where it is in neither.
    pub(crate) fn hear_again(&mut self, place: Place) -> bool
        requires used { IsUsed self.old.lists place }
        ensures queue { (cid : Cid) → get same_cid self.old.places cid ≡ Some place
            → shown self.new ≡ hear [] (shown self.old) cid }
        ensures came { (cid : Cid) → get same_cid self.old.places cid ≡ Some place
            → result ≡ not (has cid (shown self.old).waiting || has cid (shown self.old).flight) }
        ensures room { self.new.room ≡ self.old.room }
    {
        if self.is_stuck(place) {
            self.shift(place, Part::Waiting);
            return true;
        }
        false
    }

    // The first block of a part comes to waiting. False where there is none.
    fn drain_one(&mut self, from: Part) -> bool
        requires apart { same_part from Waiting ≡ false }
        ensures shown { drained from (shown self.new) ≡ drained from (shown self.old) }
        ensures more { result ≡ true →
            length (cids_of from (shown self.new)) < length (cids_of from (shown self.old)) }
        ensures end { result ≡ false → cids_of from (shown self.new) ≡ [] }
        ensures room { self.new.room ≡ self.old.room }
    {
        let Some(place) = self.front(from) else {
            return false;
        };
        self.shift(place, Part::Waiting);
        true
    }

    /// All of a part comes to the back of waiting, in its order.
    pub(crate) fn move_all(&mut self, from: Part)
        requires apart { same_part from Waiting ≡ false }
        ensures shown { shown self.new ≡ drained from (shown self.old) }
        ensures room { self.new.room ≡ self.old.room }
    {
        while self.drain_one(from) {}
    }
}
