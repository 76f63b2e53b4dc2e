// A replica's blocks as a file.
ghost use Rattle.std.specs.Prelude.{◌≡◌, ◌<◌, None, false, IfErr, IfOk, OnOk};
ghost use Rattle.mc_car.specs.Places.{AddsSections};
ghost use Rattle.mc_core.specs.Exact.{DecidesAlone, RestSame, front_of, stop_front};
ghost use Rattle.mc_core.specs.Words.{Answers, Continues, TellsSame};
ghost use Rattle.mc_model.specs.Kept.{bytes_at, processed};
ghost use Rattle.mc_model.specs.Made.{head_cids};
ghost use Rattle.mc_plan.specs.Refusals.{is_fault};
ghost use Rattle.mc_write.specs.Pairs.{row_cids};
ghost use Rattle.mc_files.specs.Files.{IsExport, section_of, sections_of};

use mc_base::{Bytes, Cid, List};
use mc_car::{add_section, write_car};
use mc_core::{CoreError, Replica};
use mc_keep::{HeadRow, Keeper};
use std::alloc::{AllocError, Global};

// The most roots of a file.
const ROOTS_MOST: usize = 255;

/// The CARv1 file of a replica (IPLD CARv1 specification): its roots are the heads, ascending by the digest, and its
/// sections the processed blocks in the order of processing; or the number of heads, where these are more than 255. The
/// keeper is only read, and no more than one block stands beside the file. Refusals: `Stopped`.
pub fn export<K: Keeper>(
    replica: &mut Replica<K>,
    alloc: Global,
) -> Result<Result<Bytes, u64>, CoreError>
    ensures call { Answers K.Keeper (λ kept said. IsExport kept said) result replica.old replica.new }
    ensures many { IfOk result (λ said. IfErr said (λ number. 255 < number)) }
    ensures keeps { Continues K.Keeper (is_fault result) replica.old replica.new }
    ensures front { front_of result ≡ stop_front replica.old.stopped None }
    ensures seen { IfErr result DecidesAlone }
    ensures rest { RestSame replica.old replica.new }
    ensures same { TellsSame K.Keeper replica.old replica.new }
{
    let roots = match read_roots(replica, alloc) {
        Ok(roots) => roots,
        Err(error) => return Err(error),
    };
    let count = roots.as_slice().len();
    if count > ROOTS_MOST {
        return Ok(Err(count as u64));
    }
    let mut file = match write_car(alloc, roots.as_slice(), &[]) {
        Ok(file) => file,
        Err(AllocError) => return Err(CoreError::Memory),
    };
    match add_sections(replica, alloc, &mut file) {
        Ok(()) => Ok(Ok(file)),
        Err(error) => Err(error),
    }
}

// The heads, ascending by the digest.
fn read_roots<K: Keeper>(replica: &mut Replica<K>, alloc: Global) -> Result<List<Cid>, CoreError>
    ensures call { Answers K.Keeper (λ kept cids. cids ≡ head_cids (processed kept)) result replica.old replica.new }
    ensures keeps { Continues K.Keeper (is_fault result) replica.old replica.new }
    ensures front { front_of result ≡ stop_front replica.old.stopped None }
    ensures seen { IfErr result DecidesAlone }
    ensures rest { RestSame replica.old replica.new }
    ensures same { TellsSame K.Keeper replica.old replica.new }
{
    let rows = match replica.heads(alloc) {
        Ok(rows) => rows,
        Err(error) => return Err(error),
    };
    match cids_of(alloc, rows.as_slice()) {
        Ok(cids) => Ok(cids),
        Err(AllocError) => Err(CoreError::Memory),
    }
}

fn cids_of(alloc: Global, heads: &[HeadRow]) -> Result<List<Cid>, AllocError>
    ensures { IfOk result (λ cids. cids ≡ row_cids heads.now) }
{
    let mut cids = List::with_capacity(alloc, heads.len())?;
    for head in heads {
        cids.push(head.cid)?;
    }
    Ok(cids)
}

// Adds the processed blocks with their bytes to a file, in the order of processing.
fn add_sections<K: Keeper>(
    replica: &mut Replica<K>,
    alloc: Global,
    file: &mut Bytes,
) -> Result<(), CoreError>
    requires runs { replica.old.stopped ≡ false }
    ensures call { Answers K.Keeper (λ kept _. AddsSections file.old file.new (sections_of kept))
        result replica.old replica.new }
    ensures keeps { Continues K.Keeper (is_fault result) replica.old replica.new }
    ensures front { front_of result ≡ stop_front replica.old.stopped None }
    ensures seen { IfErr result DecidesAlone }
    ensures rest { RestSame replica.old replica.new }
    ensures same { TellsSame K.Keeper replica.old replica.new }
{
    for position in 0..u64::MAX {
        let cid = match replica.at(position) {
            Ok(Some(cid)) => cid,
            Ok(None) => return Ok(()),
            Err(error) => return Err(error),
        };
        match add_block(replica, alloc, &cid, file) {
            Ok(()) => {}
            Err(error) => return Err(error),
        }
    }
    Err(CoreError::Memory)
}

// Adds a block with its stored bytes, where it has some.
fn add_block<K: Keeper>(
    replica: &mut Replica<K>,
    alloc: Global,
    cid: &Cid,
    file: &mut Bytes,
) -> Result<(), CoreError>
    ensures call { Answers K.Keeper (λ kept _.
        AddsSections file.old file.new (section_of cid.now (bytes_at kept.graph cid.now)))
        result replica.old replica.new }
    ensures keeps { Continues K.Keeper (is_fault result) replica.old replica.new }
    ensures front { front_of result ≡ stop_front replica.old.stopped None }
    ensures seen { IfErr result DecidesAlone }
    ensures rest { RestSame replica.old replica.new }
    ensures same { TellsSame K.Keeper replica.old replica.new }
{
    let found = match replica.block(alloc, cid) {
        Ok(found) => found,
        Err(error) => return Err(error),
    };
    match add_found(file, cid, found) {
        Ok(()) => Ok(()),
        Err(AllocError) => Err(CoreError::Memory),
    }
}

fn add_found(file: &mut Bytes, cid: &Cid, found: Option<Bytes>) -> Result<(), AllocError>
    ensures { OnOk result (AddsSections file.old file.new (section_of cid.now found)) }
{
    match found {
        Some(bytes) => add_section(file, cid, bytes.as_slice()),
        None => Ok(()),
    }
}
