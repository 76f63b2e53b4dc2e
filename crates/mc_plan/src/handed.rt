// Changes on their way from their plan to their commit. Each call on that way moves them, so they take a few words.
ghost use Rattle.std.specs.Prelude.{◌≡◌, ◌∷◌, [], true, false, None, Some, IfOk};
ghost use Rattle.mc_keep.specs.Changes.{no_changes};

use mc_base::{Bytes, Cid, List};
use mc_keep::{Changes, Stored};
use std::alloc::{AllocError, Global};
use std::marker::Model;

/// The changes that store a block, or none where it is stored.
#[derive(Drop)]
pub struct StoreChanges {
    alloc: Global,
    blocks: List<Stored>,
}

impl Model for StoreChanges {
    ghost use Rattle.std.specs.Prelude as prelude;
    ghost use Rattle.mc_keep.specs.declared.changes.Changes.{Changes};
    ghost use Rattle.mc_plan.specs.Handed.{stored_by};

    ghost Value = { prelude.Option Changes };

    ghost view = { λ store. stored_by store.blocks };
}

impl StoreChanges {
    // Those that store these bytes, or none where they are known.
    pub(crate) fn of(
        alloc: Global,
        cid: Cid,
        bytes: Bytes,
        known: bool,
    ) -> Result<StoreChanges, AllocError>
        ensures stored { known ≡ true → IfOk result (λ store. store ≡ None) }
        ensures new { known ≡ false → IfOk result (λ store. store ≡ Some
            (record no_changes { store = record { cid = cid; bytes = bytes } ∷ [] })) }
    {
        let mut blocks = List::new(alloc);
        if !known {
            blocks.push(Stored { cid, bytes })?;
        }
        Ok(StoreChanges { alloc, blocks })
    }

    /// The changes, or none. Takes no memory.
    pub fn into_changes(self) -> Option<Changes>
        ensures { result ≡ self }
    {
        let StoreChanges { alloc, blocks } = self;
        if blocks.as_slice().is_empty() {
            return None;
        }
        let mut changes = Changes::new(alloc);
        changes.store = blocks;
        Some(changes)
    }
}

/// The changes that process blocks.
#[derive(Drop)]
pub struct ProcessChanges {
    changes: Box<Changes>,
}

impl Model for ProcessChanges {
    ghost use Rattle.mc_keep.specs.declared.changes.Changes.{Changes};

    ghost Value = { Changes };

    ghost view = { λ process. process.changes.value };
}

impl ProcessChanges {
    // These changes.
    pub(crate) fn of(alloc: Global, changes: Changes) -> Result<ProcessChanges, AllocError>
        ensures { IfOk result (λ process. process ≡ changes) }
    {
        match Box::new(alloc, changes) {
            Ok(changes) => Ok(ProcessChanges { changes }),
            Err(_) => Err(AllocError),
        }
    }

    /// The changes. Takes no memory.
    pub fn into_changes(self) -> Changes
        ensures { result ≡ self }
    {
        Box::into_inner(self.changes)
    }
}
