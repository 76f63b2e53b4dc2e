// The four lists.
ghost use Rattle.std.specs.Prelude.{◌≡◌, ℕ, ◌+◌, ◌<◌, ◌≤◌, max, eqb, cond, false, List, [], ◌∷◌, ◌++◌, length};
ghost use Rattle.std.specs.Prelude.{OnOk, IfSome};
ghost use Rattle.mc_list.specs.Web.{shape_of};
ghost use Rattle.mc_list.specs.Whole.{Whole};
ghost use Rattle.mc_list.specs.Props.{Whole-prop};
ghost use Rattle.mc_list.specs.Entries.{entry, those_at, others, has_place, first_place};

use crate::web::{ENDS, SPARE, Web};
use std::alloc::{AllocError, Global};

/// Where an entry stands: the number of its node.
#[derive(Clone, Copy, Debug, PartialEq, Eq)]
pub struct Place {
    number: u64,
}

/// Four lists of items, numbered 0 to 3, over nodes that the container owns. An entry keeps its place and its item when
/// it is moved, and no place stands twice. Only `reserve` takes memory: a node for each entry, which stays with the
/// container until that is dropped. Each other call costs the same, however many entries there are. The container may
/// be sent to another thread, and shared between threads, where its items may.
pub struct Lists<T: Drop> {
    web: Web<T>,
    ghost whole: { Whole (shape_of web) } by { Whole-prop (shape_of web) },
}

impl<T: Drop> Lists<T> {
    ghost use Rattle.mc_list.specs.Views.{entries, all_entries, spare, IsUsed, KeepsPlaces, KeepsOthers};

    /// Four empty lists, without room. Takes no memory.
    pub fn new(alloc: Global) -> Lists<T>
        ensures entries { (list : ℕ) → entries result list ≡ [] }
        ensures spare { spare result ≡ 0 }
    {
        Lists {
            web: Web::new(alloc),
        }
    }

    /// How many entries may be added without memory.
    pub fn spare(&self) -> u64
        ensures { result ≡ spare self.now }
    {
        self.web.counts[SPARE as usize]
    }

    /// How many entries are in a list.
    pub fn len(&self, list: u64) -> u64
        requires { list < 4 }
        ensures { result ≡ length (entries self.now list) }
    {
        self.web.counts[list as usize]
    }

    /// Makes room for so many more entries. No other call takes memory. On an error the entries are as before, and the
    /// room is no less.
    pub fn reserve(&mut self, count: u64) -> Result<(), AllocError>
        ensures ok { OnOk result (spare self.new ≡ max count (spare self.old)) }
        ensures entries { (list : ℕ) → entries self.new list ≡ entries self.old list }
        ensures places { KeepsPlaces self.old self.new }
        ensures spare { spare self.old ≤ spare self.new }
    {
        self.web.reserve(count)
    }

    /// A new entry at the back of a list. Wants room for one, and takes it.
    pub fn add(&mut self, list: u64, item: T) -> Place
        requires list { list < 4 }
        requires room { 0 < spare self.old }
        ensures entries { (other : ℕ) → entries self.new other
            ≡ entries self.old other ++ cond (eqb list other) (entry result item ∷ []) [] }
        ensures fresh { has_place result (all_entries self.old) ≡ false }
        ensures used { IsUsed self.new result }
        ensures places { KeepsPlaces self.old self.new }
        ensures spare { spare self.old ≡ spare self.new + 1 }
    {
        let link = self.web.last_spare();
        self.web.put(link, item);
        self.web.relink(link, list);
        Place { number: link.place }
    }

    /// Where the first entry of a list stands. `None` exactly where the list is empty.
    pub fn first(&self, list: u64) -> Option<Place>
        requires { list < 4 }
        ensures first { result ≡ first_place (entries self.now list) }
        ensures used { IfSome result (λ place. IsUsed self.now place) }
    {
        let first = self.web.first(list);
        if first.place >= ENDS {
            return None;
        }
        Some(Place {
            number: first.place,
        })
    }

    /// The item of an entry.
    pub fn item(&self, place: Place) -> &T
        requires used { IsUsed self.now place }
        ensures { those_at place (all_entries self.now) ≡ entry place result.now ∷ [] }
    {
        self.web.item(self.web.link(place.number))
    }

    /// The list that an entry is in.
    pub fn list(&self, place: Place) -> u64
        requires used { IsUsed self.now place }
        ensures { (list : ℕ) → has_place place (entries self.now list) ≡ eqb list result }
    {
        self.web.list(self.web.link(place.number))
    }

    /// An entry comes to the back of a list, also of the one that it is in.
    pub fn shift(&mut self, place: Place, to: u64)
        requires list { to < 4 }
        requires used { IsUsed self.old place }
        ensures entries { (list : ℕ) → entries self.new list
            ≡ others place (entries self.old list) ++ cond (eqb to list) (those_at place (all_entries self.old)) [] }
        ensures places { KeepsPlaces self.old self.new }
        ensures spare { spare self.new ≡ spare self.old }
    {
        let link = self.web.link(place.number);
        self.web.relink(link, to);
    }

    /// Takes an entry out, which leaves room for one more.
    pub fn take(&mut self, place: Place) -> T
        requires used { IsUsed self.old place }
        ensures item { those_at place (all_entries self.old) ≡ entry place result ∷ [] }
        ensures entries { (list : ℕ) → entries self.new list ≡ others place (entries self.old list) }
        ensures places { KeepsOthers place self.old self.new }
        ensures spare { spare self.new ≡ spare self.old + 1 }
    {
        let link = self.web.link(place.number);
        self.web.relink(link, SPARE);
        self.web.take(link)
    }

    /// At most one entry stands at a place.
    pub fn no_place_stands_twice(&self)
        ensures { (place : Place) → length (those_at place (all_entries self.now)) ≤ 1 }
    {}
}

impl<T: Drop> Drop for Lists<T> {
    fn drop(self) {
        let Lists { web } = self;
        web.free();
    }
}
