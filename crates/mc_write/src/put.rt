// The delta of a put.
ghost use Rattle.std.specs.Prelude.{◌≡◌, IfOk};
ghost use Rattle.mc_model.specs.Made.{put_delta};

use mc_base::{Bytes, List, Text};
use mc_key::Key;
use mc_model::{Delta, Element};
use std::alloc::{AllocError, Global};

/// The delta of a put: one element and no tombstone.
pub fn put_delta(
    alloc: Global,
    key: &Key<'_>,
    value: &[u8],
    priority: u64,
) -> Result<Delta, AllocError>
    ensures { IfOk result (λ delta. delta ≡ put_delta key.now value.now priority) }
{
    let mut elements = List::with_capacity(alloc, 1)?;
    elements.push(Element {
        key: Text::from_text(alloc, key.as_str())?,
        value: Bytes::from_slice(alloc, value)?,
    })?;
    Ok(Delta {
        elements,
        tombstones: List::new(alloc),
        priority,
    })
}
