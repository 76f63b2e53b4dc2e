// Entries of the log: their memory is taken before anything changes.
ghost use Rattle.std.specs.Prelude.{◌≡◌, ◌<◌, ◌≤◌, ◌+◌, false, length, None, vec_len, vec_capacity, IfOk, IfErr, IfSome, OnOk};
ghost use Rattle.mc_core.specs.Counted.{capped};
ghost use Rattle.mc_core.specs.Exact.{DecidesAlone};
ghost use Rattle.mc_node.specs.Entries.{AddsAll, AddsEntry};
ghost use Rattle.mc_node.specs.Moves.{BeginsNot, note_of};

use super::Stored;
use crate::entry::{Entry, about, add};
use crate::note::Note;
use mc_core::{CoreError, Replica};
use mc_fetch::Naming;
use mc_keep::Keeper;

impl<K: Keeper, J: Naming> Stored<K, J> {
    // Begins a call of a replica that runs: takes the memory of an entry. Its number of processed blocks, at most
    // `u64::MAX`, where the keeper tells.
    pub(crate) fn begin(&mut self) -> Result<u64, CoreError>
        ensures replica { self.new.replica.value ≡ self.old.replica.value }
        ensures log { self.new.log.items ≡ self.old.log.items }
        ensures room { OnOk result (vec_len self.new.log < vec_capacity self.new.log) }
        ensures runs { OnOk result (self.new.replica.value.stopped ≡ false) }
        ensures length { IfOk result (λ count. IfSome (K.told self.new.replica.value.keeper) (λ kept.
            count ≡ capped (length kept.order))) }
        ensures refused { IfErr result (λ error. BeginsNot self.old.replica.value.stopped error) }
        ensures seen { IfErr result DecidesAlone }
    {
        match self.replica.report() {
            Ok(report) => match self.log.reserve(1) {
                Ok(()) => Ok(report.processed),
                Err(_) => Err(CoreError::Memory),
            },
            Err(error) => Err(error),
        }
    }
}

// The entry that an answer leaves: `ok` for an Ok, `short` for a want of memory, and that of a halt for a fault.
pub(crate) fn noted<T>(
    answer: &Result<T, CoreError>,
    ok: Option<Note>,
    short: Option<Note>,
) -> Option<Note>
    ensures { result ≡ note_of ok short answer.now }
{
    match answer {
        Ok(_) => ok,
        Err(CoreError::KeeperFault) => Some(Note::Halted),
        Err(CoreError::Memory) => short,
        Err(_) => None,
    }
}

// One entry more about the replica as it is, for which there is room, or none.
pub(crate) fn note<K: Keeper>(log: &mut Vec<Entry<K>>, replica: &Replica<K>, note: Option<Note>)
    requires room { vec_len log.old < vec_capacity log.old }
    ensures adds { AddsEntry note replica.now log.old.items log.new.items }
    ensures none { note ≡ None → log.new ≡ log.old }
{
    match note {
        Some(note) => add(log, about(note, replica)),
        None => {}
    }
}

// So many entries of fetched blocks about the replica as it is, for which there is room.
pub(crate) fn note_all<K: Keeper>(log: &mut Vec<Entry<K>>, replica: &Replica<K>, count: u64)
    requires room { vec_len log.old + count ≤ vec_capacity log.old }
    ensures { AddsAll count replica.now log.old.items log.new.items }
{
    for _ in 0..count {
        log.push_reserved(about(Note::Fetched, replica));
    }
}
