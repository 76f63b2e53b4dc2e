// What a keeper shows after the examples.
use mc_base::Cid;
use mc_keep::{ElementRow, HeadRow, KeepError, Keeper};
use mc_model::id_of;
use std::alloc::Global;

/// Whether the value of the key of the examples is this byte, with this priority.
pub fn has_value<K: Keeper>(
    keeper: &mut K,
    alloc: Global,
    priority: u64,
    value: u8,
) -> Result<bool, KeepError> {
    match keeper.value(alloc, "/k")? {
        Some(row) => Ok(row.priority == priority && row.value.as_slice() == [value].as_slice()),
        None => Ok(false),
    }
}

/// Whether these are the processed blocks in their order, and the stored ones.
pub fn has_blocks<K: Keeper>(
    keeper: &mut K,
    alloc: Global,
    cids: &[Cid],
) -> Result<bool, KeepError> {
    for (place, cid) in cids.iter().enumerate() {
        if !has_block(keeper, alloc, cid, place as u64)? {
            return Ok(false);
        }
    }
    let count = cids.len() as u64;
    let summary = keeper.summary()?;
    Ok(keeper.at(count)?.is_none() && summary.stored == count && summary.processed == count)
}

fn has_block<K: Keeper>(
    keeper: &mut K,
    alloc: Global,
    cid: &Cid,
    place: u64,
) -> Result<bool, KeepError> {
    let Some(bytes) = keeper.block(alloc, cid)? else {
        return Ok(false);
    };
    Ok(
        Cid::of(bytes.as_slice()) == *cid
            && keeper.stored(cid)?
            && keeper.position(cid)? == Some(place)
            && keeper.at(place)? == Some(*cid),
    )
}

/// Whether just the first block has a live element row of the key, and just the second a tombstone.
pub fn has_rows<K: Keeper>(
    keeper: &mut K,
    alloc: Global,
    kept: &Cid,
    hidden: &Cid,
) -> Result<bool, KeepError> {
    let rows = keeper.live_elements(alloc, "/k")?;
    let again = keeper.live_elements(alloc, "/k")?;
    let none = keeper.live_elements(alloc, "/")?;
    Ok(
        is_one_of(rows.as_slice(), kept)
            && is_one_of(again.as_slice(), kept)
            && none.len() == 0
            && keeper.hidden("/k", id_of(alloc, hidden)?.as_str())?
            && !keeper.hidden("/k", id_of(alloc, kept)?.as_str())?
            && !keeper.hidden("/", id_of(alloc, hidden)?.as_str())?
            && keeper.hides(alloc, "/k", hidden)?
            && !keeper.hides(alloc, "/k", kept)?
            && !keeper.hides(alloc, "/", hidden)?
            && keeper.winner("/k")? == Some(*kept)
            && keeper.winner("/")?.is_none(),
    )
}

// Whether there is one row, of this block.
fn is_one_of(rows: &[ElementRow], cid: &Cid) -> bool {
    match rows {
        [row] => row.cid == *cid,
        _ => false,
    }
}

/// Whether the one key with a value is that of the examples.
pub fn has_keys<K: Keeper>(keeper: &mut K, alloc: Global) -> Result<bool, KeepError> {
    let found = keeper.values_from(alloc, "/", true, 9)?;
    let only = match found.as_slice() {
        [row] => row.key.as_str() == "/k",
        _ => false,
    };
    Ok(
        only && keeper.values_from(alloc, "/", true, 0)?.len() == 0
            && keeper.values_from(alloc, "/k", true, 1)?.len() == 1
            && keeper.values_from(alloc, "/k", false, 1)?.len() == 0
            && has_key_at(keeper, alloc)?
            && keeper.has("/k")?
            && !keeper.has("/")?,
    )
}

// Whether that key alone is found by its place.
fn has_key_at<K: Keeper>(keeper: &mut K, alloc: Global) -> Result<bool, KeepError> {
    let first = match keeper.key_from(alloc, "/", true, 0)? {
        Some(key) => key.as_str() == "/k",
        None => false,
    };
    Ok(
        first
            && keeper.key_from(alloc, "/k", true, 0)?.is_some()
            && keeper.key_from(alloc, "/k", false, 0)?.is_none()
            && keeper.key_from(alloc, "/", true, 1)?.is_none()
            && keeper.key_from(alloc, "/", true, u64::MAX)?.is_none(),
    )
}

/// Whether there are so many gaps, and the mark stands so.
pub fn has_front<K: Keeper>(keeper: &mut K, gaps: u64, mark: bool) -> Result<bool, KeepError> {
    let summary = keeper.summary()?;
    Ok(summary.gaps == gaps && summary.mark == mark)
}

/// Whether this is the one head.
pub fn has_head<K: Keeper>(
    keeper: &mut K,
    alloc: Global,
    cid: Cid,
    height: u64,
) -> Result<bool, KeepError> {
    let heads = keeper.heads(alloc)?;
    Ok(heads.as_slice() == [HeadRow { cid, height }].as_slice())
}
