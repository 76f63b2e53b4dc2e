// A file's blocks and roots, taken by a replica.
ghost use Rattle.std.specs.Prelude.{◌≡◌, None, IfErr, IfOk};
ghost use Rattle.mc_queue.specs.Views.{shown};
ghost use Rattle.mc_core.specs.Exact.{DecidesAlone, IfRefused, RestSame, front_of, stop_front};
ghost use Rattle.mc_core.specs.Words.{Acts, Continues, TellsSame};
ghost use Rattle.mc_plan.specs.Reads.{read_refusal};
ghost use Rattle.mc_plan.specs.Refusals.{Is, is_fault};
ghost use Rattle.mc_files.specs.Files.{ImportEvents, ImportSays, ImportShort};

use crate::Imported;
use crate::reading::{File, FileError, read_file};
use crate::taking::take_in;
use mc_core::{CoreError, Replica};
use mc_keep::Keeper;
use std::alloc::Global;

/// Stores the blocks of a CARv1 file that are not stored, in one commit, and then hears its roots as those of a
/// broadcast; they are neither processed nor fetched yet. Or the number of what is wrong with the file, and then
/// nothing is stored: 1 to 5 as `CarFault::number` has it, and 6 where a section is no block. Refusals: `Stopped`.
/// `Memory` leaves the replica as it was, or with the blocks stored and no root heard.
pub fn import<K: Keeper>(
    replica: &mut Replica<K>,
    alloc: Global,
    bytes: &[u8],
) -> Result<Result<Imported, u64>, CoreError>
    ensures call { Acts K.Keeper (λ s. Is (read_refusal s)) (λ s. ImportEvents s bytes.now)
        (λ s. ImportShort s bytes.now) result replica.old replica.new }
    ensures keeps { Continues K.Keeper (is_fault result) replica.old replica.new }
    ensures front { front_of result ≡ stop_front replica.old.stopped None }
    ensures seen { IfErr result DecidesAlone }
    ensures rest { RestSame replica.old replica.new }
    ensures says { ImportSays bytes.now result (shown replica.old.queue) (shown replica.new.queue) }
    ensures refused { IfOk result (λ said. IfErr said (λ _. TellsSame K.Keeper replica.old replica.new)) }
    ensures stays { IfRefused result (TellsSame K.Keeper replica.old replica.new) }
{
    let _report = match replica.report() {
        Ok(report) => report,
        Err(_) => return Err(CoreError::Stopped),
    };
    let File { roots, verified } = match read_file(alloc, bytes) {
        Ok(file) => file,
        Err(FileError::Wrong(number)) => return Ok(Err(number)),
        Err(FileError::Memory) => return Err(CoreError::Memory),
    };
    match take_in(replica, alloc, roots.as_slice(), verified) {
        Ok(imported) => Ok(Ok(imported)),
        Err(error) => Err(error),
    }
}
