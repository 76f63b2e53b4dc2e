// Reading fields, from offset to offset.
ghost use Rattle.std.specs.Prelude.{◌≡◌, ◌≤◌, ◌<◌, ◌+◌, ◌↔◌, [], length, drop, Ok, Err, None, IfOk, IfSome, IfErr};
ghost use Rattle.mc_base.specs.WireRead.{front_varint, front_content};
ghost use Rattle.mc_wire.specs.Named.{KeyAt, ContentAt, FieldAt, FaultAt, KeyFaultAt, fronts_at, FieldOf, FaultOf};
ghost use Rattle.mc_wire.specs.Named.{fault_named, reading};

use crate::varint::read_varint;
use crate::{Content, Field, Key, WireFault, WireFaultAt};

/// The field at an offset of a text, and None exactly where the offset is the end of the text. The first fault, in the
/// order key varint, field number, wire type, content, has the offset of the field's key. Takes no memory.
pub fn next_field(bytes: &[u8], at: usize) -> Result<Option<Field>, WireFaultAt>
    requires { at ≤ length bytes.now }
    ensures end { (result ≡ Ok None) ↔ (at ≡ length bytes.now) }
    ensures rest { at ≡ length bytes.now → fronts_at bytes.now at ≡ [] }
    ensures field { IfOk result (λ found. IfSome found (λ field. FieldAt bytes.now at field)) }
    ensures fault { IfErr result (λ fault. FaultAt bytes.now at fault) }
{
    let Some(key) = next_key(bytes, at)? else {
        return Ok(None);
    };
    match read_field(bytes, key) {
        Ok(field) => Ok(Some(field)),
        Err(kind) => Err(WireFaultAt { kind, at }),
    }
}

/// The key at an offset of a text, and None exactly where the offset is the end of the text. Its number may be 0, and
/// its wire type may be one that has no content. The fault is that of the key's varint. Takes no memory.
pub fn next_key(bytes: &[u8], at: usize) -> Result<Option<Key>, WireFaultAt>
    requires { at ≤ length bytes.now }
    ensures end { (result ≡ Ok None) ↔ (at ≡ length bytes.now) }
    ensures rest { at ≡ length bytes.now → fronts_at bytes.now at ≡ [] }
    ensures key { IfOk result (λ found. IfSome found (λ key. KeyAt bytes.now at key)) }
    ensures fault { IfErr result (λ fault. KeyFaultAt bytes.now at fault) }
{
    if at == bytes.len() {
        return Ok(None);
    }
    match varint_at(bytes, at) {
        Ok((value, len)) => Ok(Some(Key {
            number: value / 8,
            wire_type: value % 8,
            next: at + len,
        })),
        Err(kind) => Err(WireFaultAt { kind, at }),
    }
}

/// The field that a key begins. The fault is that of the field number, or else of the wire type, or else of the
/// content. Takes no memory.
pub fn read_field(bytes: &[u8], key: Key) -> Result<Field, WireFault>
    requires { key.next ≤ length bytes.now }
    ensures field { IfOk result (λ field. FieldOf bytes.now key field) }
    ensures fault { IfErr result (λ fault. FaultOf bytes.now key fault) }
{
    if key.number == 0 {
        return Err(WireFault::FieldZero);
    }
    let (content, next) = read_content(bytes, key.wire_type, key.next)?;
    Ok(Field {
        number: key.number,
        content,
        next,
    })
}

// The content of a wire type at an offset, and the offset after it.
fn read_content(bytes: &[u8], wire_type: u64, from: usize) -> Result<(Content, usize), WireFault>
    requires { from ≤ length bytes.now }
    ensures content { IfOk result (λ read. ContentAt bytes.now wire_type from read.0 read.1) }
    ensures fault { IfErr result (λ fault. front_content wire_type (drop from bytes.now) ≡ Err (fault_named fault)) }
{
    match wire_type {
        0 => read_value(bytes, from),
        1 => read_fixed64(bytes, from),
        2 => read_part(bytes, from),
        5 => read_fixed32(bytes, from),
        _ => Err(WireFault::WireType),
    }
}

// The value and the length of the varint at an offset.
fn varint_at(bytes: &[u8], at: usize) -> Result<(u64, usize), WireFault>
    requires { at ≤ length bytes.now }
    ensures found { reading result ≡ front_varint (drop at bytes.now) }
    ensures within { IfOk result (λ read. (0 < read.1) × (at + read.1 ≤ length bytes.now)) }
{
    read_varint(&bytes[at..])
}

fn read_value(bytes: &[u8], from: usize) -> Result<(Content, usize), WireFault>
    requires { from ≤ length bytes.now }
    ensures content { IfOk result (λ read. ContentAt bytes.now 0 from read.0 read.1) }
    ensures fault { IfErr result (λ fault. front_content 0 (drop from bytes.now) ≡ Err (fault_named fault)) }
{
    let (value, len) = varint_at(bytes, from)?;
    Ok((Content::Varint(value), from + len))
}

fn read_fixed64(bytes: &[u8], from: usize) -> Result<(Content, usize), WireFault>
    requires { from ≤ length bytes.now }
    ensures content { IfOk result (λ read. ContentAt bytes.now 1 from read.0 read.1) }
    ensures fault { IfErr result (λ fault. front_content 1 (drop from bytes.now) ≡ Err (fault_named fault)) }
{
    if bytes.len() - from < 8 {
        return Err(WireFault::Short);
    }
    Ok((Content::Fixed64 { from }, from + 8))
}

fn read_fixed32(bytes: &[u8], from: usize) -> Result<(Content, usize), WireFault>
    requires { from ≤ length bytes.now }
    ensures content { IfOk result (λ read. ContentAt bytes.now 5 from read.0 read.1) }
    ensures fault { IfErr result (λ fault. front_content 5 (drop from bytes.now) ≡ Err (fault_named fault)) }
{
    if bytes.len() - from < 4 {
        return Err(WireFault::Short);
    }
    Ok((Content::Fixed32 { from }, from + 4))
}

// A length that is above what is left is short, however great it is.
fn read_part(bytes: &[u8], from: usize) -> Result<(Content, usize), WireFault>
    requires { from ≤ length bytes.now }
    ensures content { IfOk result (λ read. ContentAt bytes.now 2 from read.0 read.1) }
    ensures fault { IfErr result (λ fault. front_content 2 (drop from bytes.now) ≡ Err (fault_named fault)) }
{
    let (size, len) = varint_at(bytes, from)?;
    let begin = from + len;
    let left = (bytes.len() - begin) as u64;
    if size > left {
        return Err(WireFault::Short);
    }
    let end = begin + size as usize;
    Ok((
        Content::Part {
            from: begin,
            to: end,
        },
        end,
    ))
}
