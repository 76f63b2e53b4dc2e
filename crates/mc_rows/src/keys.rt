// The keys of a group of blocks.
ghost use Rattle.std.specs.Prelude.{◌≡◌, ◌||◌, ◌++◌, map, List, ℕ, IfOk, OnOk};
ghost use Rattle.std.specs.Ordering.{nat_cmp};
ghost use Rattle.std.specs.Cmp.Lexicographic.{slice_cmp};
ghost use Rattle.std.specs.List.Sorted.{IsStrictlySortedBy};
ghost use Rattle.mc_rows.specs.declared.elements.NewElement.{NewElement};
ghost use Rattle.mc_rows.specs.declared.tombs.NewTomb.{NewTomb};
ghost use Rattle.mc_rows.specs.Rows.{rows_of, tombs_of};
ghost use Rattle.mc_rows.specs.Hiding.{has_element_of, has_tomb_of};
ghost use Rattle.mc_rows.specs.Values.{has_key};

use crate::elements::NewElement;
use crate::tombs::NewTomb;
use std::alloc::{AllocError, Global};

// The keys of the elements and tombstones, ascending, each once.
pub(crate) fn keys_of<'a>(
    alloc: Global,
    elements: &[NewElement<'a>],
    tombs: &[NewTomb<'a>],
) -> Result<Vec<&'a str>, AllocError>
    ensures sorted { IfOk result (λ keys. IsStrictlySortedBy (λ x y. slice_cmp nat_cmp x.now y.now) keys.items) }
    ensures members { IfOk result (λ keys. (key : List ℕ) → has_key keys.items key ≡
        (has_element_of (rows_of elements.now) key || has_tomb_of (tombs_of tombs.now) key)) }
{
    let mut keys = Vec::with_capacity(alloc, elements.len().saturating_add(tombs.len()))?;
    add_element_keys(elements, &mut keys)?;
    add_tomb_keys(tombs, &mut keys)?;
    keys.sort_unstable();
    keys.dedup();
    Ok(keys)
}

fn add_element_keys<'a>(
    elements: &[NewElement<'a>],
    keys: &mut Vec<&'a str>,
) -> Result<(), AllocError>
    ensures { OnOk result (keys.new.items ≡ keys.old.items ++ map (λ (e : NewElement). e.key) elements.now) }
{
    for element in elements {
        keys.push(element.key)?;
    }
    Ok(())
}

fn add_tomb_keys<'a>(tombs: &[NewTomb<'a>], keys: &mut Vec<&'a str>) -> Result<(), AllocError>
    ensures { OnOk result (keys.new.items ≡ keys.old.items ++ map (λ (t : NewTomb). t.key) tombs.now) }
{
    for tomb in tombs {
        keys.push(tomb.key)?;
    }
    Ok(())
}
