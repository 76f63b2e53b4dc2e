// A node leaves a list and comes to the end of another, by links alone.
ghost use Rattle.std.specs.Prelude.{◌≡◌, ℕ, Some};
ghost use Rattle.mc_list.specs.Web.{shape_of};
ghost use Rattle.mc_list.specs.Ringed.{CanUnlink, CanAppend, CanMove, unlinked, appended, moved};

use crate::node::Link;
use crate::web::{LOOSE, Web, end_of};

impl<T> Web<T> {
    /// Takes a node out of its list.
    fn unlink(&mut self, link: Link<T>)
        requires { CanUnlink (shape_of self.old) link }
        ensures { (from : ℕ) → (shape_of self.old).list link.place ≡ Some from
            → shape_of self.new ≡ unlinked (shape_of self.old) link.place from }
    {
        let before = self.prev(link);
        let after = self.next(link);
        let list = self.list(link);
        self.set_next(before, after);
        self.set_prev(after, before);
        self.set_list(link, LOOSE);
        self.lower(list);
    }

    /// Puts a node that is in no list at the back of one.
    pub(crate) fn append(&mut self, link: Link<T>, list: u64)
        requires { CanAppend (shape_of self.old) link list }
        ensures { shape_of self.new ≡ appended (shape_of self.old) link.place list }
    {
        let end = end_of(list);
        let last = self.prev(end);
        self.set_next(last, link);
        self.set_prev(link, last);
        self.set_next(link, end);
        self.set_prev(end, link);
        self.set_list(link, list);
        self.raise(list);
    }

    /// Moves a node from its list to the back of another, or of the same.
    pub(crate) fn relink(&mut self, link: Link<T>, to: u64)
        requires { (from : ℕ) × CanMove (shape_of self.old) link from to }
        ensures { (from : ℕ) → (shape_of self.old).list link.place ≡ Some from
            → shape_of self.new ≡ moved (shape_of self.old) link.place from to }
    {
        self.unlink(link);
        self.append(link, to);
    }
}
