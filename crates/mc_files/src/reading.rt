// A file as its roots and its verified blocks.
ghost use Rattle.std.specs.Prelude.{◌≡◌, ◌≤◌, true, length, map, IfErr, IfOk, OnOk};
ghost use Rattle.mc_base.specs.Cid.{digest_of};
ghost use Rattle.mc_car.specs.CarRead.{sections_at};
ghost use Rattle.mc_inbox.specs.Waiting.{as_stored};
ghost use Rattle.mc_model.specs.Offer.{is_good};
ghost use Rattle.mc_files.specs.Steps.{AreBlocks, AreWrong, IsFile, IsNone, IsWrong, as_section, number_of};

use mc_base::{Bytes, Cid, List};
use mc_block::{BlockError, Verified, verify_found};
use mc_car::{CarError, Front, read_front, read_place};
use std::alloc::Global;

/// A file's roots and blocks.
#[derive(Drop)]
pub(crate) struct File {
    /// The roots, in order.
    pub(crate) roots: List<Cid>,
    /// The blocks, in order.
    pub(crate) verified: List<Verified>,
}

/// Why a file was not read.
#[derive(Clone, Copy, Debug, PartialEq, Eq)]
pub(crate) enum FileError {
    /// There was no memory for its blocks.
    Memory,
    /// This is wrong with it.
    Wrong(u64),
}

// The number where a section is no block.
const NO_BLOCK: u64 = 6;

/// A file's roots, and its sections as blocks, or the number of what is wrong with it. Each block is digested, copied and
/// parsed once.
pub(crate) fn read_file(alloc: Global, bytes: &[u8]) -> Result<File, FileError>
    ensures file { IfOk result (λ file. IsFile bytes.now file.roots (map as_stored file.verified)) }
    ensures wrong { IfErr result (IsWrong bytes.now) }
{
    let Front { roots, end } = match read_front(alloc, bytes) {
        Ok(front) => front,
        Err(CarError::Fault(fault)) => return Err(FileError::Wrong(fault.number() as u64)),
        Err(CarError::Memory) => return Err(FileError::Memory),
    };
    match verify_all(alloc, bytes, end) {
        Ok(verified) => Ok(File { roots, verified }),
        Err(error) => Err(error),
    }
}

// The sections from an offset on as blocks, or the number of what is wrong with them.
fn verify_all(alloc: Global, bytes: &[u8], from: usize) -> Result<List<Verified>, FileError>
    requires inside { from ≤ length bytes.now }
    ensures taken { IfOk result (λ blocks. AreBlocks bytes.now from blocks) }
    ensures wrong { IfErr result (AreWrong bytes.now from) }
{
    let mut blocks = List::new(alloc);
    let mut at = from;
    while at < bytes.len() {
        let place = match read_place(bytes, at) {
            Ok(place) => place,
            Err(fault) => return Err(FileError::Wrong(fault.number() as u64)),
        };
        let block = match verify_one(alloc, &place.cid, &bytes[place.from..place.to]) {
            Ok(block) => block,
            Err(BlockError::Damaged(_)) => {
                return Err(FileError::Wrong(number_from(bytes, place.to)));
            }
            Err(BlockError::Memory) => return Err(FileError::Memory),
        };
        let Ok(()) = blocks.push(block) else {
            return Err(FileError::Memory);
        };
        at = place.to;
    }
    Ok(blocks)
}

// The block that these bytes are, which have the digest of the identifier.
fn verify_one(alloc: Global, cid: &Cid, bytes: &[u8]) -> Result<Verified, BlockError>
    requires named { digest_of bytes.now ≡ cid.now.0 }
    ensures same { IfOk result (λ block. as_section block ≡ record { cid = cid.now; bytes = bytes.now }) }
    ensures good { OnOk result (is_good cid.now bytes.now ≡ true) }
    ensures damaged { IfErr result (IsNone (is_good cid.now bytes.now)) }
{
    let copy = Bytes::from_slice(alloc, bytes)?;
    match verify_found(alloc, cid, copy) {
        Ok(block) => Ok(block),
        Err(refused) => Err(refused.cause),
    }
}

// The number of what is wrong with a file of which a section before this offset is no block, and none before it has a
// fault: that of the first fault behind it, or else that of no block.
fn number_from(bytes: &[u8], from: usize) -> u64
    requires inside { from ≤ length bytes.now }
    ensures { result ≡ number_of (sections_at bytes.now from) }
{
    let mut at = from;
    while at < bytes.len() {
        match read_place(bytes, at) {
            Ok(place) => at = place.to,
            Err(fault) => return fault.number() as u64,
        }
    }
    NO_BLOCK
}
