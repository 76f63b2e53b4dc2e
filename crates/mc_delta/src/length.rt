// The length of a written delta.
ghost use Rattle.std.specs.Prelude.{◌≡◌, ◌≤◌, ◌+◌, ◌-◌, ◌^◌, ℕ, List, length, min};
ghost use Rattle.std.specs.List.{flat_map};
ghost use Rattle.mc_model.specs.DeltaText.{delta_bytes, element_bytes, tomb_bytes, entry_bytes, priority_bytes};
ghost use Rattle.mc_base.specs.Wire.{varint_bytes};
ghost use Rattle.mc_delta.specs.Lengths.{capped, part_length, entry_length, field_length};

use mc_model::{Delta, Element, Tomb};
use mc_wire::varint_len;

/// The length of the written spelling of a delta, or `u64::MAX` where that is greater. Takes no memory.
pub fn len_delta(delta: &Delta) -> u64
    ensures { result ≡ capped (length (delta_bytes delta.now)) }
{
    elements_len(delta.elements.as_slice())
        .saturating_add(tombs_len(delta.tombstones.as_slice()))
        .saturating_add(priority_len(delta.priority))
}

fn elements_len(elements: &[Element]) -> u64
    ensures { result ≡ capped (length (flat_map element_bytes elements.now)) }
{
    let mut len: u64 = 0;
    for element in elements {
        let entry = entry_len(element.key.len(), 0, element.value.len());
        len = len.saturating_add(field_len(entry));
    }
    len
}

fn tombs_len(tombstones: &[Tomb]) -> u64
    ensures { result ≡ capped (length (flat_map tomb_bytes tombstones.now)) }
{
    let mut len: u64 = 0;
    for tomb in tombstones {
        let entry = entry_len(tomb.key.len(), tomb.id.len(), 0);
        len = len.saturating_add(field_len(entry));
    }
    len
}

fn priority_len(priority: u64) -> u64
    ensures { result ≡ length (priority_bytes priority) }
{
    if priority == 0 {
        0
    } else {
        1 + varint_len(priority)
    }
}

// The length of an entry by those of its key, id and value.
pub(crate) fn entry_len(key: usize, id: usize, value: usize) -> u64
    ensures { result ≡ capped (entry_length key id value) }
{
    part_len(key)
        .saturating_add(part_len(id))
        .saturating_add(part_len(value))
}

// The length of a field of bytes, of which an empty one is left out.
fn part_len(len: usize) -> u64
    ensures { result ≡ capped (part_length len) }
{
    if len == 0 {
        return 0;
    }
    field_len(len as u64)
}

// The length of a field of so many bytes, with its key and its length.
fn field_len(len: u64) -> u64
    ensures { result ≡ capped (field_length len) }
{
    (1 + varint_len(len)).saturating_add(len)
}
