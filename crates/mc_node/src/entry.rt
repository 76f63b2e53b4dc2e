// The entries of a node's log.
ghost use Rattle.std.specs.Prelude.{◌≡◌, ◌<◌, ◌++◌, ◌∷◌, [], vec_len, vec_capacity};

use crate::note::Note;
use mc_core::Replica;
use mc_keep::Keeper;
use std::snapshot::Snapshot;

/// One entry of a node's log: what it notes, and the replica as it was left. The replica is kept for contracts alone,
/// and has no bytes.
#[derive(Drop)]
pub struct Entry<K: Keeper> {
    /// What it notes.
    pub note: Note,
    /// The replica after that.
    pub replica: Snapshot<Replica<K>>,
}

// An entry about the replica as it is.
pub(crate) fn about<K: Keeper>(note: Note, replica: &Replica<K>) -> Entry<K>
    ensures note { result.note ≡ note }
    ensures replica { result.replica.value ≡ replica.now }
{
    Entry {
        note,
        replica: Snapshot::of(replica),
    }
}

// One entry more, for which there is room.
pub(crate) fn add<T>(log: &mut Vec<T>, entry: T)
    requires room { vec_len log.old < vec_capacity log.old }
    ensures { log.new.items ≡ log.old.items ++ entry ∷ [] }
{
    match log.push(entry) {
        Ok(()) => {}
        Err(_) => unreachable!(),
    }
}
