// All nodes are given back.
ghost use Rattle.std.specs.Prelude.{◌≡◌, [], map};

use crate::cells::Cells;
use crate::node::{Link, Node};
use crate::web::Web;
use std::alloc::Global;

/// Frees the nodes, which the table leads to in their order.
fn free_all<T: Drop>(cells: &mut Cells<Node<T>>, table: &[Link<T>], alloc: Global)
    requires { map (λ l. l.at) table.now ≡ map (λ c. c.0) cells.old.cells }
    ensures { cells.new.cells ≡ [] }
{
    for link in table {
        drop(cells.give_first(link.at, alloc).into_box());
    }
}

impl<T: Drop> Web<T> {
    /// Frees all.
    pub(crate) fn free(self)
        requires { map (λ l. l.at) self.table.items ≡ map (λ c. c.0) self.cells.cells }
    {
        let Web {
            alloc,
            mut cells,
            table,
            firsts: _,
            lasts: _,
            counts: _,
        } = self;
        free_all(&mut cells, table.as_slice(), alloc);
        cells.end();
    }
}
