// What a migration does over a keeper.
use mc_keep::Keeper;
use mc_migrate::{Migrated, migrate};
use std::alloc::Global;

/// What a migration did: its keys and its commits, or none where it failed.
pub(crate) fn migrated<K: Keeper>(alloc: Global, keeper: &mut K) -> Option<(u64, u64)> {
    match migrate(keeper, alloc) {
        Ok(Migrated { keys, commits }) => Some((keys, commits)),
        Err(_) => None,
    }
}

/// What a migration does over a keeper, where a second one does nothing: its keys and its commits.
pub fn migrated_twice<K: Keeper>(alloc: Global, keeper: K) -> (Option<(u64, u64)>, K) {
    let mut keeper = keeper;
    let done = migrated(alloc, &mut keeper);
    let more = migrated(alloc, &mut keeper);
    if more != Some((0, 0)) {
        return (None, keeper);
    }
    (done, keeper)
}
