// Blocks that are stored, and roots that are heard after them.
ghost use Rattle.std.specs.Prelude.{◌≡◌, None, false, true, length, map, IfErr, IfOk};
ghost use Rattle.std.specs.List.{list_all};
ghost use Rattle.mc_car.specs.Car.{has_digest};
ghost use Rattle.mc_core.specs.Exact.{DecidesAlone, RestSame, front_of, stop_front};
ghost use Rattle.mc_core.specs.Words.{Acts, Continues};
ghost use Rattle.mc_inbox.specs.Waiting.{as_stored};
ghost use Rattle.mc_plan.specs.Hears.{cast_refusal};
ghost use Rattle.mc_plan.specs.Reads.{read_refusal};
ghost use Rattle.mc_plan.specs.Refusals.{Is, is_fault};
ghost use Rattle.mc_queue.specs.Views.{shown};
ghost use Rattle.mc_files.specs.Files.{TakeEvents, TakeShort};
ghost use Rattle.mc_files.specs.Steps.{NamesJust, TakeSays};

use mc_base::{Bytes, Cid, List};
use mc_block::Verified;
use mc_cast::{casts_are_read_again, write_cast};
use mc_core::{CoreError, Replica};
use mc_keep::Keeper;
use std::alloc::{AllocError, Global};

/// What an import has done.
#[derive(Clone, Copy, Debug, PartialEq, Eq)]
pub struct Imported {
    /// How many blocks were stored.
    pub stored: u64,
    /// How many roots came to waiting.
    pub queued: u64,
}

/// Stores those of the blocks that are not stored, in one commit, and then hears the roots. Refusals: `Stopped`.
/// `Memory` leaves the replica as it was, or with the blocks stored and no root heard.
pub(crate) fn take_in<K: Keeper>(
    replica: &mut Replica<K>,
    alloc: Global,
    roots: &[Cid],
    blocks: List<Verified>,
) -> Result<Imported, CoreError>
    requires runs { replica.old.stopped ≡ false }
    ensures call { Acts K.Keeper (λ s. Is (read_refusal s)) (λ s. TakeEvents s roots.now (map as_stored blocks))
        (λ s. TakeShort s (map as_stored blocks)) result replica.old replica.new }
    ensures keeps { Continues K.Keeper (is_fault result) replica.old replica.new }
    ensures front { front_of result ≡ stop_front replica.old.stopped None }
    ensures seen { IfErr result DecidesAlone }
    ensures rest { RestSame replica.old replica.new }
    ensures says { TakeSays roots.now (length blocks) result (shown replica.old.queue) (shown replica.new.queue) }
{
    let message = match write_message(alloc, roots) {
        Ok(message) => message,
        Err(AllocError) => return Err(CoreError::Memory),
    };
    let stored = match replica.keep(alloc, blocks) {
        Ok(stored) => stored,
        Err(error) => return Err(error),
    };
    match replica.hear(alloc, message.as_slice()) {
        Ok(heard) => Ok(Imported {
            stored,
            queued: heard.queued,
        }),
        Err(error) => Err(error),
    }
}

// The broadcast that names the roots.
fn write_message(alloc: Global, roots: &[Cid]) -> Result<Bytes, AllocError>
    ensures named { IfOk result (λ message. NamesJust message roots.now) }
    ensures allowed { IfOk result (λ message. cast_refusal message ≡ None) }
{
    casts_are_read_again();
    have_digests(roots);
    write_cast(alloc, roots)
}

// Each digest has 32 bytes. The loop only reads it, and leaves nothing to be done.
fn have_digests(cids: &[Cid])
    ensures { list_all has_digest cids.now ≡ true }
{
    for cid in cids {
        is_digest(cid.0);
    }
}

fn is_digest(digest: [u8; 32])
    ensures { length digest ≡ 32 }
{
    let _first = digest[0];
}
