// The fields of a link: Hash (1), Name (2) and Tsize (3), in ascending order.
ghost use Rattle.std.specs.Prelude.{◌≡◌, ◌≤◌, ◌↔◌, [], length, drop, Ok, Err, None, Some, IfOk, IfSome, IfErr, IfNone};
ghost use Rattle.std.specs.Prelude.{if◌then◌else◌};
ghost use Rattle.std.specs.Option.{option_map};
ghost use Rattle.std.specs.Str.{is_utf8};
ghost use Rattle.mc_base.specs.NodeRead.{link_key_fault, link_front_fault, link_fault, name_fault, link_of, part_in};
ghost use Rattle.mc_wire.specs.Named.{fronts_at, content_at, field_at, EndsAt, FieldAt};
ghost use Rattle.mc_base.specs.NodeRead as read;
ghost use Rattle.mc_dagpb.specs.Named.{kind_named, fault_named, IsSpan, span_bytes, whole_front, LinkFieldAt};

use crate::fault::kind_of;
use crate::{NodeFault, NodeFaultKind};
use mc_wire::{Content, Field, next_key, read_field};

// The first and the last number of bytes: from here to before there.
#[derive(Clone, Copy)]
pub(crate) struct Span {
    pub(crate) from: usize,
    pub(crate) to: usize,
}

const HASH: u64 = 1;

const NAME: u64 = 2;

const TSIZE: u64 = 3;

const VARINT_TYPE: u64 = 0;

const PART_TYPE: u64 = 2;

// The Hash of a link whose key and body begin at these offsets, and which ends where the text ends.
pub(crate) fn read_link(bytes: &[u8], key: usize, from: usize) -> Result<Span, NodeFault>
    requires { from ≤ length bytes.now }
    ensures hash { IfOk result (λ hash. (link_of key from (drop from bytes.now) ≡ Ok (span_bytes bytes.now hash))
        × IsSpan bytes.now hash) }
    ensures fault { IfErr result (λ fault. link_of key from (drop from bytes.now) ≡ Err (fault_named fault)) }
{
    let mut at = from;
    let mut before = 0;
    let mut hash = None;
    while let Some(field) = next_link_field(bytes, at, before)? {
        hash = hash.or(part_of(bytes, field, HASH));
        before = field.number;
        at = field.next;
    }
    match hash {
        Some(hash) => Ok(hash),
        None => Err(NodeFault {
            kind: NodeFaultKind::NoHash,
            at: key,
        }),
    }
}

// The field at an offset of a link, after the field of this number, 0 for none.
fn next_link_field(bytes: &[u8], at: usize, before: u64) -> Result<Option<Field>, NodeFault>
    requires { at ≤ length bytes.now }
    ensures end { IfOk result (λ found. IfNone found (fronts_at bytes.now at ≡ [])) }
    ensures field { IfOk result (λ found. IfSome found (λ field. LinkFieldAt bytes.now at before field)) }
    ensures fault { IfErr result (λ fault. link_fault before (fronts_at bytes.now at) ≡ Some (fault_named fault)) }
{
    let Some(key) = next_key(bytes, at)? else {
        return Ok(None);
    };
    if let Some(kind) = key_fault(before, key.number, key.wire_type) {
        return Err(NodeFault { kind, at });
    }
    match read_field(bytes, key) {
        Ok(field) if has_text(bytes, field) => Ok(Some(field)),
        Ok(_) => Err(NodeFault {
            kind: NodeFaultKind::NameText,
            at,
        }),
        Err(fault) => Err(NodeFault {
            kind: kind_of(fault),
            at,
        }),
    }
}

// Why a key may not stand after a field of this number.
fn key_fault(before: u64, number: u64, wire_type: u64) -> Option<NodeFaultKind>
    ensures { option_map kind_named result ≡ link_key_fault before number wire_type }
{
    let wanted = match number {
        HASH | NAME => PART_TYPE,
        TSIZE => VARINT_TYPE,
        _ => return Some(NodeFaultKind::BadField),
    };
    if wire_type != wanted {
        return Some(NodeFaultKind::WireType);
    }
    if number <= before {
        return Some(NodeFaultKind::Order);
    }
    None
}

// Whether a field is no Name, or one in UTF-8.
fn has_text(bytes: &[u8], field: Field) -> bool
    requires ends { EndsAt field.content field.next }
    requires within { field.next ≤ length bytes.now }
    ensures { name_fault field.number (content_at bytes.now field.content)
        ≡ (if result then None else Some read.NameText) }
{
    let Content::Part { from, to } = field.content else {
        return true;
    };
    field.number != NAME || is_text(&bytes[from..to])
}

// Whether bytes are UTF-8.
fn is_text(bytes: &[u8]) -> bool
    ensures { result ≡ is_utf8 bytes.now }
{
    match str::from_utf8(bytes) {
        Ok(_) => true,
        Err(_) => false,
    }
}

// The bytes of a field of this number.
fn part_of(bytes: &[u8], field: Field, number: u64) -> Option<Span>
    requires ends { EndsAt field.content field.next }
    requires within { field.next ≤ length bytes.now }
    ensures found { option_map (span_bytes bytes.now) result ≡ part_in number (whole_front bytes.now field) }
    ensures inside { IfSome result (λ span. IsSpan bytes.now span) }
{
    match field.content {
        Content::Part { from, to } if field.number == number => Some(Span { from, to }),
        _ => None,
    }
}
