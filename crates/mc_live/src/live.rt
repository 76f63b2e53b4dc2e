// The values of keys over the blocks that were taken.
ghost use Rattle.std.specs.Prelude.{◌≡◌, ◌<◌, ◌++◌, ◌∷◌, [], List as ListOf, None, Some, IfOk, OnOk, OnErr};
ghost use Rattle.std.specs.Prelude.{vec_len, vec_capacity};
ghost use Rattle.std.specs.Option.{option_map};
ghost use Rattle.mc_model.specs.declared.block.Block.{Block as B};
ghost use Rattle.mc_model.specs.Live as model;
ghost use Rattle.mc_live.specs.Prune.{PrunesKeys};
ghost use Rattle.std.specs.BinaryHeap.{heap_items};
ghost use Rattle.mc_live.specs.Rows.{IsFirst, items_of, rows_in};
ghost use Rattle.mc_live.specs.Stands.{Stands, tomb_in, touches};

use crate::held::Held;
use crate::hiding::{Hidden, put_tombs};
use crate::order::Row;
use crate::prune::{prune_elements, prune_tombs};
use crate::rows::{Rows, push_rows};
use indexmap::IndexMap;
use mc_base::Text;
use mc_model::{Block, Delta, Tomb, id_of};
use mc_tombs::{Tombs, reserve_tombs};
use std::alloc::{AllocError, Global};
use std::collections::BinaryHeap;
use std::hash::BuildHasherDefault;

/// The values of keys over a list of blocks, kept in memory: it takes a block at a time, for as much as the block holds
/// times a logarithm, and a value is a look-up.
#[derive(Drop)]
pub struct Live {
    pub(crate) tombs: Hidden,
    // The id of the block that each call took; none for a call that was refused.
    pub(crate) calls: Vec<Option<Text>>,
    pub(crate) rows: Rows,
}

impl Live {
    /// No blocks. Takes no memory.
    pub fn new(alloc: Global) -> Live
        ensures { Stands [] result }
    {
        Live {
            tombs: Tombs::with_hasher(alloc, BuildHasherDefault::new()),
            calls: Vec::new(alloc),
            rows: IndexMap::new(alloc),
        }
    }

    /// Takes one block more. A refusal leaves the values as they were.
    pub fn take(&mut self, alloc: Global, block: &Block) -> Result<(), AllocError>
        ensures ok { OnOk result ((blocks : ListOf B) → Stands blocks self.old →
            Stands (blocks ++ block.now ∷ []) self.new) }
        ensures err { OnErr result ((blocks : ListOf B) → Stands blocks self.old → Stands blocks self.new) }
    {
        let id = id_of(alloc, &block.cid)?;
        let tombs = copies(alloc, block.delta.tombstones.as_slice())?;
        if let Err(AllocError) = reserve_tombs(&mut self.tombs, tombs.as_slice().len()) {
            return Err(AllocError);
        }
        if let Err(AllocError) = self.calls.reserve(1) {
            return Err(AllocError);
        }
        let call = self.calls.as_slice().len();
        match push_rows(alloc, &mut self.rows, &block.delta, call) {
            Ok(()) => {
                put_tombs(&mut self.tombs, tombs);
                note(&mut self.calls, Some(id));
                prune_all(self, &block.delta);
                Ok(())
            }
            Err(AllocError) => {
                note(&mut self.calls, None);
                prune_all(self, &block.delta);
                Err(AllocError)
            }
        }
    }

    /// The value of a key over the blocks that were taken. Takes no memory.
    pub fn value(&self, key: &str) -> Option<&[u8]>
        ensures { (blocks : ListOf B) → Stands blocks self.now →
            option_map (λ bytes. bytes.now) result ≡ model.value blocks key.now }
    {
        match self.rows.get(key) {
            Some(held) => first_of(held),
            None => None,
        }
    }
}

// The value of the first row.
fn first_of(held: &Held) -> Option<&[u8]>
    ensures { IsFirst (items_of held.now) (option_map (λ bytes. bytes.now) result) }
{
    match held {
        Held::Gone => None,
        Held::One(row) => Some(row.value.as_slice()),
        Held::Several(heap) => top_of(heap),
    }
}

fn top_of(heap: &BinaryHeap<Row>) -> Option<&[u8]>
    ensures { IsFirst (heap_items heap.now) (option_map (λ bytes. bytes.now) result) }
{
    match heap.peek() {
        Some(row) => Some(row.value.as_slice()),
        None => None,
    }
}

// Adds what a call took, for which there is room.
fn note(calls: &mut Vec<Option<Text>>, id: Option<Text>)
    requires room { vec_len calls.old < vec_capacity calls.old }
    ensures { calls.new.items ≡ calls.old.items ++ id ∷ [] }
{
    match calls.push(id) {
        Ok(()) => {}
        Err(_) => unreachable!(),
    }
}

// Lets go of rows that don't count any more. It takes no memory.
fn prune_all(live: &mut Live, delta: &Delta)
    ensures rows { PrunesKeys (tomb_in live.new) live.new.calls.items (touches delta.now)
        (rows_in live.old.rows) (rows_in live.new.rows) }
    ensures tombs { live.new.tombs ≡ live.old.tombs }
    ensures calls { live.new.calls ≡ live.old.calls }
{
    prune_tombs(
        &mut live.rows,
        live.calls.as_slice(),
        &live.tombs,
        delta.tombstones.as_slice(),
    );
    prune_elements(
        &mut live.rows,
        live.calls.as_slice(),
        &live.tombs,
        delta.elements.as_slice(),
    );
}

// Copies of tombstones.
fn copies(alloc: Global, tombs: &[Tomb]) -> Result<Vec<Tomb>, AllocError>
    ensures { IfOk result (λ copies. copies.items ≡ tombs.now) }
{
    let mut copies = Vec::with_capacity(alloc, tombs.len())?;
    for tomb in tombs {
        copies.push(copy_of(alloc, tomb)?)?;
    }
    Ok(copies)
}

fn copy_of(alloc: Global, tomb: &Tomb) -> Result<Tomb, AllocError>
    ensures { IfOk result (λ copy. copy ≡ tomb.now) }
{
    Ok(Tomb {
        key: tomb.key.try_clone(alloc)?,
        id: tomb.id.try_clone(alloc)?,
    })
}
