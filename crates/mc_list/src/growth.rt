// More nodes, which are spare.
ghost use Rattle.std.specs.Prelude.{◌≡◌, ℕ, ◌+◌, ◌<◌, ◌≤◌, max, length, IfOk, OnOk, OnErr};
ghost use Rattle.mc_list.specs.Web.{shape_of, link_to};
ghost use Rattle.mc_list.specs.Ringed.{grown};
ghost use Rattle.mc_list.specs.Whole.{Whole, entries_in, spare_in};

use crate::node::{Link, Node};
use crate::parts::Parts;
use crate::web::{LOOSE, SPARE, Web, end_of};
use std::alloc::AllocError;

impl<T: Drop> Web<T> {
    /// A node more, in no list.
    fn add_node(&mut self) -> Result<Link<T>, AllocError>
        requires { Whole (shape_of self.old) }
        ensures ok { IfOk result (λ link. shape_of self.new ≡ grown (shape_of self.old) link.at) }
        ensures place { IfOk result (λ link. link.place ≡ length self.old.table.items) }
        ensures err { OnErr result (shape_of self.new ≡ shape_of self.old) }
    {
        self.table.reserve(1)?;
        let node = Node {
            prev: end_of(SPARE),
            next: end_of(SPARE),
            list: LOOSE,
            item: None,
        };
        let node = Box::new(self.alloc, node)?;
        let place = self.table.len() as u64;
        let at = self.cells.keep(Parts::of(node));
        let link = Link { at, place };
        self.table.push_reserved(link);
        Ok(link)
    }

    /// A node more, which is spare.
    fn add_spare(&mut self) -> Result<(), AllocError>
        requires { Whole (shape_of self.old) }
        ensures whole { Whole (shape_of self.new) }
        ensures entries { (list : ℕ) → list < 4
            → entries_in (shape_of self.new) list ≡ entries_in (shape_of self.old) list }
        ensures ok { OnOk result (spare_in (shape_of self.new) ≡ spare_in (shape_of self.old) + 1) }
        ensures err { OnErr result (spare_in (shape_of self.new) ≡ spare_in (shape_of self.old)) }
    {
        let link = self.add_node()?;
        self.append(link, SPARE);
        Ok(())
    }

    /// Adds spare nodes until there are so many.
    pub(crate) fn reserve(&mut self, count: u64) -> Result<(), AllocError>
        requires { Whole (shape_of self.old) }
        ensures whole { Whole (shape_of self.new) }
        ensures entries { (list : ℕ) → list < 4
            → entries_in (shape_of self.new) list ≡ entries_in (shape_of self.old) list }
        ensures ok { OnOk result (spare_in (shape_of self.new) ≡ max count (spare_in (shape_of self.old))) }
        ensures spare { spare_in (shape_of self.old) ≤ spare_in (shape_of self.new) }
    {
        while self.counts[SPARE as usize] < count {
            self.add_spare()?;
        }
        Ok(())
    }
}
