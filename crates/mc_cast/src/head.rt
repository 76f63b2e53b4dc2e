// The heads of a broadcast.
ghost use Rattle.std.specs.Prelude.{◌≡◌, ◌≤◌, length, None, Some, IfOk, IfErr, option_map};
ghost use Rattle.mc_base.specs.Wire as wire;
ghost use Rattle.mc_base.specs.WireRead.{fields_of, fronts_from};
ghost use Rattle.mc_wire.specs.Named.{EndsAt, fault_named, field_at};
ghost use Rattle.mc_cast.specs.Cast as cast;
ghost use Rattle.mc_cast.specs.Steps.{digest, digest_after, text_of};

use mc_base::Cid;
use mc_wire::{Content, Field, WireFaultAt, next_field};

const HEAD_OR_CID: u64 = 1;

/// The bytes of a field 1 of wire type 2: of a head in a message, or of a cid in a head.
pub(crate) fn part_of(bytes: &[u8], field: Field) -> Option<&[u8]>
    requires ends { EndsAt field.content field.next }
    requires within { field.next ≤ length bytes.now }
    ensures { option_map text_of result ≡ wire.part_of 1 (field_at bytes.now field) }
{
    match field.content {
        Content::Part { from, to } if field.number == HEAD_OR_CID => Some(&bytes[from..to]),
        _ => None,
    }
}

/// The identifier that a head names: its last cid, where that is one of this kind.
pub(crate) fn read_head(body: &[u8]) -> Result<Option<Cid>, WireFaultAt>
    ensures names { IfOk result (λ cid. option_map cast.digest_in (fields_of body.now) ≡ Some (option_map digest cid)) }
    ensures sound { IfOk result (λ _. cast.first_fault (fronts_from 0 body.now) ≡ None) }
    ensures fault { IfErr result (λ fault. cast.first_fault (fronts_from 0 body.now) ≡ Some (fault_named fault.kind)) }
{
    let mut cid = None;
    let mut at = 0;
    while let Some(field) = next_field(body, at)? {
        cid = cid_after(cid, part_of(body, field));
        at = field.next;
    }
    Ok(cid)
}

// The identifier that is named after one more field.
fn cid_after(cid: Option<Cid>, part: Option<&[u8]>) -> Option<Cid>
    ensures { option_map digest result ≡ digest_after (option_map digest cid) (option_map text_of part.entry) }
{
    match part {
        Some(bytes) => Cid::from_bytes(bytes),
        None => cid,
    }
}
