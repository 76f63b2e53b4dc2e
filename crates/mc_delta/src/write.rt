// Writing a delta.
ghost use Rattle.std.specs.Prelude.{◌≡◌, ◌≤◌, ◌<◌, ◌++◌, ◌+◌, ◌-◌, ◌^◌, ℕ, List, [], length, IfOk, OnOk};
ghost use Rattle.mc_model.specs.DeltaText.{delta_bytes, element_bytes, tomb_bytes, entry_bytes, some_part};
ghost use Rattle.mc_model.specs.DeltaText.{priority_bytes};
ghost use Rattle.std.specs.List.{flat_map};
ghost use Rattle.mc_base.specs.Wire.{part_field_bytes};

use crate::length::{entry_len, len_delta};
use mc_base::Bytes;
use mc_model::{Delta, Element, Tomb};
use mc_wire::{put_part_field, put_part_head, put_varint_field};
use std::alloc::{AllocError, Global};

const ELEMENTS: u64 = 1;

const TOMBSTONES: u64 = 2;

const PRIORITY: u64 = 3;

const KEY: u64 = 1;

const ID: u64 = 2;

const VALUE: u64 = 3;

/// The written spelling of a delta: its elements, then its tombstones, then its priority; in each of the first two the
/// key, the id and the value. What is empty or 0 is left out.
pub fn write_delta(alloc: Global, delta: &Delta) -> Result<Bytes, AllocError>
    ensures { IfOk result (λ bytes. bytes ≡ delta_bytes delta.now) }
{
    let out = Bytes::with_capacity(alloc, len_delta(delta) as usize)?;
    append_delta(out, delta)
}

/// These bytes with the written spelling of a delta behind them. They are taken over, and are gone where there is no
/// memory.
pub fn append_delta(bytes: Bytes, delta: &Delta) -> Result<Bytes, AllocError>
    ensures { IfOk result (λ out. out ≡ bytes ++ delta_bytes delta.now) }
{
    let mut out = bytes;
    push_elements(&mut out, delta.elements.as_slice())?;
    push_tombs(&mut out, delta.tombstones.as_slice())?;
    if delta.priority != 0 {
        put_varint_field(&mut out, PRIORITY, delta.priority)?;
    }
    Ok(out)
}

fn push_elements(out: &mut Bytes, elements: &[Element]) -> Result<(), AllocError>
    ensures { OnOk result (out.new ≡ out.old ++ flat_map element_bytes elements.now) }
{
    for element in elements {
        push_entry(
            out,
            ELEMENTS,
            element.key.as_bytes(),
            &[],
            element.value.as_slice(),
        )?;
    }
    Ok(())
}

fn push_tombs(out: &mut Bytes, tombstones: &[Tomb]) -> Result<(), AllocError>
    ensures { OnOk result (out.new ≡ out.old ++ flat_map tomb_bytes tombstones.now) }
{
    for tomb in tombstones {
        push_entry(
            out,
            TOMBSTONES,
            tomb.key.as_bytes(),
            tomb.id.as_bytes(),
            &[],
        )?;
    }
    Ok(())
}

// Appends a field with an entry. An entry whose length passes 64 bits has no room in memory.
fn push_entry(
    out: &mut Bytes,
    number: u64,
    key: &[u8],
    id: &[u8],
    value: &[u8],
) -> Result<(), AllocError>
    requires { (1 ≤ number) × (number ≤ 15) }
    ensures { OnOk result (out.new ≡ out.old ++ part_field_bytes number (entry_bytes key.now id.now value.now)) }
{
    let len = entry_len(key.len(), id.len(), value.len());
    if len == u64::MAX {
        return Err(AllocError);
    }
    put_part_head(out, number, len)?;
    push_part(out, KEY, key)?;
    push_part(out, ID, id)?;
    push_part(out, VALUE, value)?;
    Ok(())
}

// Appends a field of bytes unless it is empty.
fn push_part(out: &mut Bytes, number: u64, part: &[u8]) -> Result<(), AllocError>
    requires { (1 ≤ number) × (number ≤ 15) }
    ensures { OnOk result (out.new ≡ out.old ++ some_part number part.now) }
{
    if part.is_empty() {
        return Ok(());
    }
    put_part_field(out, number, part)
}
