// Reading a delta.
ghost use Rattle.std.specs.Prelude.{◌≡◌, ◌≤◌, ◌++◌, ◌∷◌, [], length, drop, Some, None, Ok, IfOk, IfErr, OnOk};
ghost use Rattle.mc_model.specs.DeltaText.{delta_of, delta_read, element_in, tomb_in, entry_fault};
ghost use Rattle.mc_wire.specs.Named.{fronts_at, EndsAt};
ghost use Rattle.mc_delta.specs.Deltas.{IsFault, IsEntryFault, IsFieldFault, TakesField};

use crate::DeltaError;
use crate::entry::{Entry, read_entry};
use mc_base::{Bytes, List, Text};
use mc_model::{Delta, Element, Tomb};
use mc_wire::{Content, Field, next_field};
use std::alloc::{AllocError, AllocFailed, Global};

const ELEMENTS: u64 = 1;

const TOMBSTONES: u64 = 2;

const PRIORITY: u64 = 3;

/// The delta of a text. Elements and tombstones are taken in their order, the last of a repeated scalar counts, and
/// other fields are skipped. The first fault, from left to right and with a look into each element and tombstone when
/// it is met, is the answer for a text that is no delta.
pub fn read_delta(alloc: Global, bytes: &[u8]) -> Result<Delta, DeltaError>
    ensures delta { IfOk result (λ delta. delta_of bytes.now ≡ Some delta) }
    ensures read { IfOk result (λ delta. delta_read bytes.now ≡ Ok delta) }
    ensures fault { IfErr result (λ error. IsFault bytes.now error) }
{
    let mut delta = Delta {
        elements: List::new(alloc),
        tombstones: List::new(alloc),
        priority: 0,
    };
    let mut at = 0;
    while let Some(field) = next_field(bytes, at)? {
        take_field(alloc, &mut delta, bytes, field)?;
        at = field.next;
    }
    Ok(delta)
}

// Takes what a field holds.
fn take_field(
    alloc: Global,
    delta: &mut Delta,
    bytes: &[u8],
    field: Field,
) -> Result<(), DeltaError>
    requires ends { EndsAt field.content field.next }
    requires within { field.next ≤ length bytes.now }
    ensures taken { OnOk result (TakesField bytes.now field delta.old delta.new) }
    ensures fault { IfErr result (λ error. IsFieldFault bytes.now field error) }
{
    match field.content {
        Content::Part { from, to } => match field.number {
            ELEMENTS => take_element(alloc, &mut delta.elements, &bytes[..to], from),
            TOMBSTONES => take_tomb(alloc, &mut delta.tombstones, &bytes[..to], from),
            _ => Ok(()),
        },
        Content::Varint(value) if field.number == PRIORITY => {
            delta.priority = value;
            Ok(())
        }
        _ => Ok(()),
    }
}

// Takes the element that begins at an offset and ends where the text ends. Its id is dropped.
fn take_element(
    alloc: Global,
    elements: &mut List<Element>,
    bytes: &[u8],
    from: usize,
) -> Result<(), DeltaError>
    requires { from ≤ length bytes.now }
    ensures taken { OnOk result (elements.new ≡ elements.old ++ element_in (drop from bytes.now) ∷ []) }
    ensures fine { OnOk result (entry_fault (fronts_at bytes.now from) ≡ None) }
    ensures fault { IfErr result (λ error. IsEntryFault bytes.now from error) }
{
    let entry = read_entry(bytes, from)?;
    push_element(alloc, elements, entry)?;
    Ok(())
}

fn push_element(
    alloc: Global,
    elements: &mut List<Element>,
    entry: Entry<'_>,
) -> Result<(), AllocError>
    ensures { OnOk result (elements.new
        ≡ elements.old ++ record { key = entry.entry.key.now; value = entry.entry.value.now } ∷ []) }
{
    let key = Text::from_text(alloc, entry.key)?;
    let value = Bytes::from_slice(alloc, entry.value)?;
    elements.push(Element { key, value })?;
    Ok(())
}

// Takes the tombstone that begins at an offset and ends where the text ends. Its value is dropped.
fn take_tomb(
    alloc: Global,
    tombstones: &mut List<Tomb>,
    bytes: &[u8],
    from: usize,
) -> Result<(), DeltaError>
    requires { from ≤ length bytes.now }
    ensures taken { OnOk result (tombstones.new ≡ tombstones.old ++ tomb_in (drop from bytes.now) ∷ []) }
    ensures fine { OnOk result (entry_fault (fronts_at bytes.now from) ≡ None) }
    ensures fault { IfErr result (λ error. IsEntryFault bytes.now from error) }
{
    let entry = read_entry(bytes, from)?;
    push_tomb(alloc, tombstones, entry)?;
    Ok(())
}

fn push_tomb(alloc: Global, tombstones: &mut List<Tomb>, entry: Entry<'_>) -> Result<(), AllocError>
    ensures { OnOk result (tombstones.new
        ≡ tombstones.old ++ record { key = entry.entry.key.now; id = entry.entry.id.now } ∷ []) }
{
    let key = Text::from_text(alloc, entry.key)?;
    let id = Text::from_text(alloc, entry.id)?;
    tombstones.push(Tomb { key, id })?;
    Ok(())
}
