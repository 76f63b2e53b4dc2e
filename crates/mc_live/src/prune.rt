// Rows that don't count any more are let go when they come to the front.
ghost use Rattle.std.specs.Prelude.{◌≡◌, ◌||◌, ℕ, List};
ghost use Rattle.std.specs.BinaryHeap.{heap_items};
ghost use Rattle.std.specs.List.{list_any};
ghost use Rattle.std.specs.Str.{bytes_eq};
ghost use Rattle.mc_model.specs.declared.delta.Element.{Element as E};
ghost use Rattle.mc_model.specs.declared.delta.Tomb.{Tomb as T};
ghost use Rattle.mc_live.specs.Prune.{Prunes, PrunesKeys};
ghost use Rattle.mc_live.specs.Rows.{is_shown, items_of, rows_in};
ghost use Rattle.mc_tombs.specs.Tombs.{has_tomb_in};

use crate::held::Held;
use crate::hiding::Hidden;
use crate::order::Row;
use crate::rows::Rows;
use mc_base::Text;
use mc_model::{Element, Tomb};
use mc_tombs::has_tomb;
use std::collections::BinaryHeap;

// Lets go of rows of the keys of these tombstones. It takes no memory.
pub(crate) fn prune_tombs(rows: &mut Rows, calls: &[Option<Text>], tombs: &Hidden, of: &[Tomb])
    ensures { PrunesKeys (has_tomb_in tombs.now.keys.keys tombs.now.ids.keys tombs.now.pairs.keys) calls.now
        (λ key. list_any (λ (tomb : T). bytes_eq tomb.key key) of.now) (rows_in rows.old) (rows_in rows.new) }
{
    for tomb in of {
        prune_key(rows, calls, tombs, tomb.key.as_str());
    }
}

// Lets go of rows of the keys of these elements. It takes no memory.
pub(crate) fn prune_elements(
    rows: &mut Rows,
    calls: &[Option<Text>],
    tombs: &Hidden,
    of: &[Element],
)
    ensures { PrunesKeys (has_tomb_in tombs.now.keys.keys tombs.now.ids.keys tombs.now.pairs.keys) calls.now
        (λ key. list_any (λ (element : E). bytes_eq element.key key) of.now) (rows_in rows.old) (rows_in rows.new) }
{
    for element in of {
        prune_key(rows, calls, tombs, element.key.as_str());
    }
}

// Lets go of the first rows of the key as long as they don't count. It takes no memory.
fn prune_key(rows: &mut Rows, calls: &[Option<Text>], tombs: &Hidden, key: &str)
    ensures { PrunesKeys (has_tomb_in tombs.now.keys.keys tombs.now.ids.keys tombs.now.pairs.keys) calls.now
        (λ other. bytes_eq key.now other) (rows_in rows.old) (rows_in rows.new) }
{
    let Some(held) = rows.get_mut(key) else {
        return;
    };
    prune(held, calls, tombs, key);
}

fn prune(held: &mut Held, calls: &[Option<Text>], tombs: &Hidden, key: &str)
    ensures { Prunes (has_tomb_in tombs.now.keys.keys tombs.now.ids.keys tombs.now.pairs.keys key.now) calls.now
        (items_of held.old) (items_of held.new) }
{
    match held {
        Held::Gone => {}
        Held::One(row) => {
            if counts(calls, tombs, key, row) {
                return;
            }
            *held = Held::Gone;
        }
        Held::Several(heap) => prune_heap(heap, calls, tombs, key),
    }
}

fn prune_heap(heap: &mut BinaryHeap<Row>, calls: &[Option<Text>], tombs: &Hidden, key: &str)
    ensures { Prunes (has_tomb_in tombs.now.keys.keys tombs.now.ids.keys tombs.now.pairs.keys key.now) calls.now
        (heap_items heap.old) (heap_items heap.new) }
{
    while let Some(row) = heap.peek() {
        if counts(calls, tombs, key, row) {
            return;
        }
        let Some(_gone) = heap.pop() else {
            unreachable!();
        };
    }
}

// Whether a row of the key is of a block that was taken and isn't hidden.
fn counts(calls: &[Option<Text>], tombs: &Hidden, key: &str, row: &Row) -> bool
    ensures { result ≡ is_shown (has_tomb_in tombs.now.keys.keys tombs.now.ids.keys tombs.now.pairs.keys key.now)
        calls.now row.now }
{
    match calls.get(row.call) {
        Some(Some(id)) => !has_tomb(tombs, key, id.as_str()),
        _ => false,
    }
}
