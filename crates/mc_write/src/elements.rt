// The elements of a batch, by their keys.
ghost use Rattle.std.specs.Prelude.{◌≡◌, IfOk, OnOk, OnErr, filter, not, string_bytes};
ghost use Rattle.std.specs.BTreeMap.{IsOrdered};
ghost use Rattle.std.specs.Str.{bytes_eq};
ghost use Rattle.std.specs.String.{string_cmp};
ghost use Rattle.mc_model.specs.Batch.{put_element};
ghost use Rattle.mc_model.specs.declared.delta.Element.{Element as Seen};
ghost use Rattle.mc_write.specs.Held.{elements_in};

use mc_base::{Bytes, List, Text};
use mc_model::Element;
use std::alloc::{AllocError, Global};
use std::collections::BTreeMap;

/// Puts an element in the place of the one of its key. A refusal changes nothing.
pub(crate) fn put_element(
    elements: &mut BTreeMap<String, Bytes>,
    key: String,
    value: Bytes,
) -> Result<(), AllocError>
    ensures ok { OnOk result (elements_in elements.new.entries ≡
        put_element (record { key = string_bytes key; value = value }) (elements_in elements.old.entries)) }
    ensures err { OnErr result (elements_in elements.new.entries ≡ elements_in elements.old.entries) }
    ensures ordered { IsOrdered string_cmp elements.new }
{
    match elements.insert(key, value) {
        Ok(_) => Ok(()),
        Err(_) => Err(AllocError),
    }
}

/// Drops the element of a key, where there is one.
pub(crate) fn drop_element(elements: &mut BTreeMap<String, Bytes>, key: &str)
    requires { IsOrdered string_cmp elements.old }
    ensures elements { elements_in elements.new.entries ≡
        filter (λ (element : Seen). not (bytes_eq element.key key.now)) (elements_in elements.old.entries) }
    ensures ordered { IsOrdered string_cmp elements.new }
{
    elements.remove(key);
}

/// A copy of the elements, ascending by the key.
pub(crate) fn elements_of_puts(
    alloc: Global,
    puts: &BTreeMap<String, Bytes>,
) -> Result<List<Element>, AllocError>
    ensures { IfOk result (λ elements. elements ≡ elements_in puts.now.entries) }
{
    let mut elements = List::with_capacity(alloc, puts.len())?;
    for (key, value) in puts.iter() {
        elements.push(Element {
            key: Text::from_text(alloc, key.as_str())?,
            value: value.try_clone(alloc)?,
        })?;
    }
    Ok(elements)
}
