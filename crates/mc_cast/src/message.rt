// Broadcasts, read and written.
ghost use Rattle.std.specs.Prelude.{◌≡◌, ◌≤◌, ◌<◌, ◌^◌, ◌++◌, ◌∷◌, [], length, map, List as ListOf, ℕ};
ghost use Rattle.std.specs.Prelude.{Option as OptionOf, None, Some, IfOk, IfErr, OnOk, option_map};
ghost use Rattle.mc_base.specs.Wire as wire;
ghost use Rattle.mc_wire.specs.Named.{FieldAt, field_at};
ghost use Rattle.mc_cast.specs.Cast as cast;
ghost use Rattle.mc_cast.specs.Reads.{IsCast, IsFaultOf};
ghost use Rattle.mc_cast.specs.Steps.{IsFaultIn, StandFor, TakesHead, digest, digests_of};

use crate::fault::{CastError, CastFault};
use crate::head::{part_of, read_head};
use mc_base::{Bytes, Cid, List};
use mc_wire::{Field, next_field};
use std::alloc::{AllocError, Global};

const HEAD_PREFIX: [u8; 4] = [0x0a, 0x26, 0x0a, 0x24];

const HEAD_LEN: usize = 40;

/// The identifiers that the heads of a message name, in order (Protocol Buffers encoding: a head is a field 1, and its
/// cid a field 1 in it; the last of several cids counts, and other fields don't). The whole message is read by the wire
/// format first, and the first fault of that is the answer; else the first head that names no identifier of this kind.
pub fn read_cast(alloc: Global, bytes: &[u8]) -> Result<List<Cid>, CastError>
    ensures read { IfOk result (λ cids. IsCast bytes.now (digests_of cids)) }
    ensures fault { IfErr result (λ error. IsFaultOf bytes.now error) }
{
    let mut heads = Heads {
        cids: List::new(alloc),
        unnamed: None,
    };
    let mut at = 0;
    while let Some(field) = next_field(bytes, at)? {
        heads.take(bytes, field)?;
        at = field.next;
    }
    match heads.unnamed {
        None => Ok(heads.cids),
        Some(index) => Err(CastError::Fault(CastFault::BadCid { index })),
    }
}

// The identifiers of the heads that were read, up to the first that names none, and the place of that one.
#[derive(Drop)]
struct Heads {
    cids: List<Cid>,
    unnamed: Option<u64>,
}

impl Heads {
    // Takes a head, where a field is one.
    fn take(&mut self, bytes: &[u8], field: Field) -> Result<(), CastError>
        requires placed { (at : ℕ) × FieldAt bytes.now at field }
        ensures took { OnOk result (TakesHead (wire.part_of 1 (field_at bytes.now field)) self.old self.new) }
        ensures fault { IfErr result (λ error. IsFaultIn (wire.part_of 1 (field_at bytes.now field)) error) }
    {
        let Some(body) = part_of(bytes, field) else {
            return Ok(());
        };
        let cid = read_head(body)?;
        self.add(cid)?;
        Ok(())
    }

    // Adds what a head names.
    fn add(&mut self, cid: Option<Cid>) -> Result<(), AllocError>
        ensures { OnOk result ((heads : ListOf (OptionOf (ListOf ℕ))) → StandFor self.old heads →
            StandFor self.new (heads ++ option_map digest cid ∷ [])) }
    {
        if self.unnamed.is_some() {
            return Ok(());
        }
        match cid {
            Some(cid) => self.cids.push(cid)?,
            None => self.unnamed = Some(self.cids.as_slice().len() as u64),
        }
        Ok(())
    }
}

/// The message that names these identifiers, in the given order. The memory is taken once.
pub fn write_cast(alloc: Global, heads: &[Cid]) -> Result<Bytes, AllocError>
    ensures { IfOk result (λ bytes. bytes ≡ cast.cast_bytes (digests_of heads.now)) }
{
    let mut bytes = Bytes::with_capacity(alloc, heads.len().saturating_mul(HEAD_LEN))?;
    for head in heads {
        bytes.extend_from_slice(&HEAD_PREFIX)?;
        bytes.extend_from_slice(&head.bytes())?;
    }
    Ok(bytes)
}
