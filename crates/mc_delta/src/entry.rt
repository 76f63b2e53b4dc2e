// The entry of an element or a tombstone: key (1), id (2), value (3).
ghost use Rattle.std.specs.Prelude.{◌≡◌, ◌≤◌, length, true, false, Some, IfOk, IfErr};
ghost use Rattle.std.specs.Str.{is_utf8};
ghost use Rattle.mc_model.specs.DeltaText.{entry_fault, text_fault};
ghost use Rattle.mc_wire.specs.Named.{fronts_at, field_at, EndsAt};
ghost use Rattle.mc_model.specs.DeltaText as model;
ghost use Rattle.mc_delta.specs.Faults.{fault_named};
ghost use Rattle.mc_delta.specs.Entries.{EntryAt, TakesField};

use crate::{DeltaFault, DeltaFaultKind};
use mc_wire::{Content, Field, next_field};

const KEY: u64 = 1;

const ID: u64 = 2;

const VALUE: u64 = 3;

// What an entry holds, borrowed from its text.
#[derive(Clone, Copy)]
pub(crate) struct Entry<'a> {
    pub(crate) key: &'a str,
    pub(crate) id: &'a str,
    pub(crate) value: &'a [u8],
}

// The entry that begins at an offset and ends where the text ends. The last of a repeated field counts.
pub(crate) fn read_entry<'a>(bytes: &'a [u8], from: usize) -> Result<Entry<'a>, DeltaFault>
    requires { from ≤ length bytes.now }
    ensures entry { IfOk result (λ entry. EntryAt bytes.now from entry) }
    ensures fault { IfErr result (λ fault. entry_fault (fronts_at bytes.now from) ≡ Some (fault_named fault)) }
{
    let mut entry = Entry {
        key: "",
        id: "",
        value: &[],
    };
    let mut at = from;
    while let Some(field) = next_field(bytes, at)? {
        entry = with_field(entry, bytes, at, field)?;
        at = field.next;
    }
    Ok(entry)
}

// An entry after one more field, whose key is at an offset.
fn with_field<'a>(
    entry: Entry<'a>,
    bytes: &'a [u8],
    at: usize,
    field: Field,
) -> Result<Entry<'a>, DeltaFault>
    requires ends { EndsAt field.content field.next }
    requires within { field.next ≤ length bytes.now }
    ensures entry { IfOk result (λ new. TakesField bytes.now at field entry.entry new) }
    ensures fault { IfErr result (λ fault. text_fault at (field_at bytes.now field) ≡ Some (fault_named fault)) }
{
    let Content::Part { from, to } = field.content else {
        return Ok(entry);
    };
    let part = &bytes[from..to];
    match field.number {
        KEY => Ok(Entry {
            key: text_of(part, at)?,
            ..entry
        }),
        ID => Ok(Entry {
            id: text_of(part, at)?,
            ..entry
        }),
        VALUE => Ok(Entry {
            value: part,
            ..entry
        }),
        _ => Ok(entry),
    }
}

// Bytes as text.
fn text_of<'a>(bytes: &'a [u8], at: usize) -> Result<&'a str, DeltaFault>
    ensures text { IfOk result (λ text. (text.now ≡ bytes.now) × (is_utf8 bytes.now ≡ true)) }
    ensures fault { IfErr result (λ fault. (is_utf8 bytes.now ≡ false)
        × (fault_named fault ≡ record { kind = model.TextFault; at = at })) }
{
    match str::from_utf8(bytes) {
        Ok(text) => Ok(text),
        Err(_) => Err(DeltaFault {
            kind: DeltaFaultKind::TextFault,
            at,
        }),
    }
}
