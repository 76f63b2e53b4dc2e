// The nodes and the ends of the five lists, the fifth of which has the spare nodes.
ghost use Rattle.std.specs.Prelude.{◌≡◌, ℕ, ◌+◌, ◌-◌, ◌^◌, ◌<◌, [], Some, None, true, is_some, slice_get};
ghost use denote.RawPtr.{Ptr};
ghost use Rattle.mc_list.specs.Web.{Reaches, shape_of, link_to, ends, spare_list, set_next, set_prev, set_list, set_item, set_count};
ghost use Rattle.mc_list.specs.Ringed.{ring};
ghost use Rattle.mc_list.specs.Whole.{Whole};

use crate::cells::Cells;
use crate::node::{Link, Node};
use std::alloc::Global;
use std::ptr;

// The number of a list's ends is this and the list's.
pub(crate) const ENDS: u64 = 1 << 63;

// The list of the spare nodes, and the number of a node that is in no list.
pub(crate) const SPARE: u64 = 4;

pub(crate) const LOOSE: u64 = 5;

/// The nodes, how each is reached by its number, and of each list its first and its last node and its length.
pub(crate) struct Web<T> {
    pub(crate) alloc: Global,
    pub(crate) cells: Cells<Node<T>>,
    pub(crate) table: Vec<Link<T>>,
    pub(crate) firsts: [Link<T>; 5],
    pub(crate) lasts: [Link<T>; 5],
    pub(crate) counts: [u64; 5],
}

/// The link to the ends of a list.
pub(crate) fn end_of<T>(list: u64) -> Link<T>
    requires { list < 5 }
    ensures { (at : ℕ → Ptr) → result ≡ link_to at (ends + list) }
{
    Link {
        at: ptr::null_mut(),
        place: ENDS + list,
    }
}

fn all_ends<T>() -> [Link<T>; 5]
    ensures { (at : ℕ → Ptr) (list : ℕ) → list < 5 → slice_get result list ≡ Some (link_to at (ends + list)) }
{
    [end_of(0), end_of(1), end_of(2), end_of(3), end_of(SPARE)]
}

impl<T> Web<T> {
    /// No node, and five empty lists.
    pub(crate) fn new(alloc: Global) -> Web<T>
        ensures whole { Whole (shape_of result) }
        ensures empty { (list : ℕ) → list < 5 → ring (shape_of result) list ≡ [] }
    {
        Web {
            alloc,
            cells: Cells::new(),
            table: Vec::new(alloc),
            firsts: all_ends(),
            lasts: all_ends(),
            counts: [0; 5],
        }
    }

    /// The link from a node, or from a list's ends, to what comes after it.
    pub(crate) fn next(&self, of: Link<T>) -> Link<T>
        requires { Reaches (shape_of self.now) of }
        ensures { Some result ≡ (shape_of self.now).next of.place }
    {
        if of.place >= ENDS {
            return self.firsts[(of.place - ENDS) as usize];
        }
        self.cells.get(of.at, of.place as usize).next
    }

    /// The same to what comes before it.
    pub(crate) fn prev(&self, of: Link<T>) -> Link<T>
        requires { Reaches (shape_of self.now) of }
        ensures { Some result ≡ (shape_of self.now).prev of.place }
    {
        if of.place >= ENDS {
            return self.lasts[(of.place - ENDS) as usize];
        }
        self.cells.get(of.at, of.place as usize).prev
    }

    pub(crate) fn set_next(&mut self, of: Link<T>, to: Link<T>)
        requires { Reaches (shape_of self.old) of }
        ensures { shape_of self.new ≡ set_next (shape_of self.old) of.place to }
    {
        if of.place >= ENDS {
            self.firsts[(of.place - ENDS) as usize] = to;
            return;
        }
        let node = self.cells.get_mut(of.at, of.place as usize);
        node.next = to;
    }

    pub(crate) fn set_prev(&mut self, of: Link<T>, to: Link<T>)
        requires { Reaches (shape_of self.old) of }
        ensures { shape_of self.new ≡ set_prev (shape_of self.old) of.place to }
    {
        if of.place >= ENDS {
            self.lasts[(of.place - ENDS) as usize] = to;
            return;
        }
        let node = self.cells.get_mut(of.at, of.place as usize);
        node.prev = to;
    }

    /// The list that a node is in.
    pub(crate) fn list(&self, of: Link<T>) -> u64
        requires reaches { Reaches (shape_of self.now) of }
        requires node { of.place < ends }
        ensures { Some result ≡ (shape_of self.now).list of.place }
    {
        self.cells.get(of.at, of.place as usize).list
    }

    pub(crate) fn set_list(&mut self, of: Link<T>, list: u64)
        requires reaches { Reaches (shape_of self.old) of }
        requires node { of.place < ends }
        ensures { shape_of self.new ≡ set_list (shape_of self.old) of.place list }
    {
        let node = self.cells.get_mut(of.at, of.place as usize);
        node.list = list;
    }

    /// A node fewer is in a list.
    pub(crate) fn lower(&mut self, list: u64)
        requires { (n : ℕ) × ((shape_of self.old).counts list ≡ Some n) × (0 < n) }
        ensures { (n : ℕ) → (shape_of self.old).counts list ≡ Some n
            → shape_of self.new ≡ set_count (shape_of self.old) list (n - 1) }
    {
        self.counts[list as usize] -= 1;
    }

    /// A node more is in a list.
    pub(crate) fn raise(&mut self, list: u64)
        requires { (n : ℕ) × ((shape_of self.old).counts list ≡ Some n) × (n < 2 ^ 63) }
        ensures { (n : ℕ) → (shape_of self.old).counts list ≡ Some n
            → shape_of self.new ≡ set_count (shape_of self.old) list (n + 1) }
    {
        self.counts[list as usize] += 1;
    }

    /// The link to the node of a number.
    pub(crate) fn link(&self, place: u64) -> Link<T>
        requires { is_some (slice_get self.now.table.items place) ≡ true }
        ensures { slice_get self.now.table.items place ≡ Some result }
    {
        self.table[place as usize]
    }

    /// The link to the first node of a list, or to its ends.
    pub(crate) fn first(&self, list: u64) -> Link<T>
        requires { list < 5 }
        ensures { (shape_of self.now).next (ends + list) ≡ Some result }
    {
        self.firsts[list as usize]
    }

    /// The link to the spare node that came last, or to the ends.
    pub(crate) fn last_spare(&self) -> Link<T>
        ensures { (shape_of self.now).prev (ends + spare_list) ≡ Some result }
    {
        self.lasts[SPARE as usize]
    }

    /// The item of a node.
    pub(crate) fn item(&self, link: Link<T>) -> &T
        requires reaches { Reaches (shape_of self.now) link }
        requires node { link.place < ends }
        requires some { is_some ((shape_of self.now).item link.place) ≡ true }
        ensures { (shape_of self.now).item link.place ≡ Some result.now }
    {
        match &self.cells.get(link.at, link.place as usize).item {
            Some(item) => item,
            None => unreachable!(),
        }
    }
}

impl<T: Drop> Web<T> {
    /// Gives a node an item.
    pub(crate) fn put(&mut self, link: Link<T>, item: T)
        requires reaches { Reaches (shape_of self.old) link }
        requires node { link.place < ends }
        ensures { shape_of self.new ≡ set_item (shape_of self.old) link.place (Some item) }
    {
        let node = self.cells.get_mut(link.at, link.place as usize);
        node.item = Some(item);
    }

    /// Takes the item of a node.
    pub(crate) fn take(&mut self, link: Link<T>) -> T
        requires reaches { Reaches (shape_of self.old) link }
        requires node { link.place < ends }
        requires some { is_some ((shape_of self.old).item link.place) ≡ true }
        ensures item { (shape_of self.old).item link.place ≡ Some result }
        ensures web { shape_of self.new ≡ set_item (shape_of self.old) link.place None }
    {
        let node = self.cells.get_mut(link.at, link.place as usize);
        match node.item.take() {
            Some(item) => item,
            None => unreachable!(),
        }
    }
}
