// The rows of one key.
ghost use Rattle.std.specs.Prelude.{◌≡◌, ◌<◌, ◌≤◌, ◌+◌, [], ◌∷◌, OnOk, OnErr};
ghost use Rattle.std.specs.BinaryHeap.{heap_items, heap_len, heap_capacity, IsHeap, KeepsHeap};
ghost use Rattle.std.specs.List.Sorted.{IsPermutation};
ghost use Rattle.mc_live.specs.Order.{row_cmp};
ghost use Rattle.mc_live.specs.Rows.{items_of};

use crate::order::Row;
use std::alloc::{AllocError, Global};
use std::collections::BinaryHeap;
use std::mem::replace;

/// The rows of one key: a single row, as most keys have, takes no memory of its own.
#[derive(Drop)]
pub(crate) enum Held {
    /// None are left.
    Gone,
    /// A single one.
    One(Row),
    /// Several, the greatest first.
    Several(BinaryHeap<Row>),
}

// Adds a row.
pub(crate) fn hold(alloc: Global, held: &mut Held, row: Row) -> Result<(), AllocError>
    ensures ok { OnOk result (IsPermutation (row ∷ items_of held.old) (items_of held.new)) }
    ensures err { OnErr result (items_of held.new ≡ items_of held.old) }
    ensures heap { KeepsHeap row_cmp (items_of held.old) (items_of held.new) }
{
    match replace(held, Held::Gone) {
        Held::Gone => {
            *held = Held::One(row);
            Ok(())
        }
        Held::One(first) => {
            let (both, pushed) = join(alloc, first, row);
            *held = both;
            pushed
        }
        Held::Several(mut heap) => {
            let pushed = push_on(&mut heap, row);
            *held = Held::Several(heap);
            pushed
        }
    }
}

fn push_on(heap: &mut BinaryHeap<Row>, row: Row) -> Result<(), AllocError>
    ensures ok { OnOk result (IsPermutation (row ∷ heap_items heap.old) (heap_items heap.new)) }
    ensures err { OnErr result (heap_items heap.new ≡ heap_items heap.old) }
    ensures heap { KeepsHeap row_cmp (heap_items heap.old) (heap_items heap.new) }
{
    match heap.push(row) {
        Ok(()) => Ok(()),
        Err(_refused) => Err(AllocError),
    }
}

// A heap of two rows, or the first of them alone where there is no memory for it.
fn join(alloc: Global, first: Row, row: Row) -> (Held, Result<(), AllocError>)
    ensures ok { OnOk result.1 (IsPermutation (row ∷ first ∷ []) (items_of result.0)) }
    ensures err { OnErr result.1 (items_of result.0 ≡ first ∷ []) }
    ensures heap { IsHeap row_cmp (items_of result.0) }
{
    let mut heap = match BinaryHeap::with_capacity(alloc, 2) {
        Ok(heap) => heap,
        Err(AllocError) => return (Held::One(first), Err(AllocError)),
    };
    push_within(&mut heap, first);
    push_within(&mut heap, row);
    (Held::Several(heap), Ok(()))
}

// Adds a row for which there is room.
fn push_within(heap: &mut BinaryHeap<Row>, row: Row)
    requires room { heap_len heap.old < heap_capacity heap.old }
    ensures rows { IsPermutation (row ∷ heap_items heap.old) (heap_items heap.new) }
    ensures heap { KeepsHeap row_cmp (heap_items heap.old) (heap_items heap.new) }
    ensures len { heap_len heap.new ≡ heap_len heap.old + 1 }
    ensures capacity { heap_capacity heap.old ≤ heap_capacity heap.new }
{
    match heap.push(row) {
        Ok(()) => {}
        Err(_) => unreachable!(),
    }
}
