// Look-ups in the sorted rows of a group.
ghost use Rattle.std.specs.Prelude.{◌≡◌, ◌≤◌, ◌<◌, ◌-◌, true, false, length, drop, get_or, take};
ghost use Rattle.std.specs.List.Sorted.{IsStrictlySortedBy};
ghost use Rattle.mc_keep.specs.Changes.{has_tomb_row};
ghost use Rattle.mc_rows.specs.declared.elements.NewElement.{NewElement};
ghost use Rattle.mc_rows.specs.Rows.{new_element_cmp, new_tomb_cmp, rows_of, tombs_of};
ghost use Rattle.mc_rows.specs.Hiding.{has_tomb_of, rows_with};
ghost use Rattle.mc_rows.specs.Places.{goes_before, IsPlace};

use crate::elements::NewElement;
use crate::tombs::NewTomb;

// Whether the tombstone of the key with the id is among them.
pub(crate) fn has_tomb(tombs: &[NewTomb<'_>], key: &str, id: &str) -> bool
    requires { IsStrictlySortedBy new_tomb_cmp tombs.now }
    ensures { result ≡ has_tomb_row (tombs_of tombs.now) key.now id.now }
{
    tombs.binary_search(&NewTomb { key, id }).is_ok()
}

// Whether a tombstone of the key is among them.
pub(crate) fn has_tomb_with(tombs: &[NewTomb<'_>], key: &str) -> bool
    requires { IsStrictlySortedBy new_tomb_cmp tombs.now }
    ensures { result ≡ has_tomb_of (tombs_of tombs.now) key.now }
{
    tombs
        .binary_search_by(|tomb| tomb.key.as_bytes().cmp(key.as_bytes()))
        .is_ok()
}

// The elements of the key, and the place after them. They are found at once where they begin at this place.
pub(crate) fn elements_with<'a, 'b>(
    elements: &'b [NewElement<'a>],
    key: &str,
    at: usize,
) -> (&'b [NewElement<'a>], usize)
    requires { IsStrictlySortedBy new_element_cmp elements.now }
    ensures own { rows_of result.0.now ≡ rows_with (rows_of elements.now) key.now }
    ensures after { IsPlace elements.now key.now true result.1 }
{
    let from = place_of(elements, key, false, at);
    let to = place_of(elements, key, true, from.saturating_add(1));
    (part(elements, from, to), to)
}

// The place after the elements that go before the key. It is looked for at this place first.
fn place_of(elements: &[NewElement<'_>], key: &str, inclusive: bool, at: usize) -> usize
    requires { IsStrictlySortedBy new_element_cmp elements.now }
    ensures bound { result ≤ length elements.now }
    ensures point { IsPlace elements.now key.now inclusive result }
{
    if is_place(elements, key, inclusive, at) {
        return at;
    }
    elements.partition_point(|element| goes_before(element, key, inclusive))
}

// Whether just the elements before this place go before the key. It may say no where they do.
fn is_place(elements: &[NewElement<'_>], key: &str, inclusive: bool, at: usize) -> bool
    requires { IsStrictlySortedBy new_element_cmp elements.now }
    ensures bound { result ≡ true → at ≤ length elements.now }
    ensures point { result ≡ true → IsPlace elements.now key.now inclusive at }
{
    if at > elements.len() || !is_behind(elements, key, inclusive, at) {
        return false;
    }
    is_ahead(elements, key, inclusive, at)
}

// Whether the element just before this place goes before the key, if there is one.
fn is_behind(elements: &[NewElement<'_>], key: &str, inclusive: bool, at: usize) -> bool
    requires { at ≤ length elements.now }
    ensures { result ≡ true → (element : NewElement) → 0 < at →
        goes_before inclusive key.now (get_or elements.now (at - 1) element) ≡ true }
{
    if at == 0 {
        return true;
    }
    goes_before(&elements[at - 1], key, inclusive)
}

// Whether the element at this place doesn't go before the key, if there is one.
fn is_ahead(elements: &[NewElement<'_>], key: &str, inclusive: bool, at: usize) -> bool
    ensures { result ≡ true → (element : NewElement) → at < length elements.now →
        goes_before inclusive key.now (get_or elements.now at element) ≡ false }
{
    if at >= elements.len() {
        return true;
    }
    !goes_before(&elements[at], key, inclusive)
}

// Whether the key of an element is below this one, or is this one where `inclusive`.
fn goes_before(element: &NewElement<'_>, key: &str, inclusive: bool) -> bool
    ensures { result ≡ goes_before inclusive key.now element.now }
{
    let order = element.key.as_bytes().cmp(key.as_bytes());
    if inclusive {
        order.is_le()
    } else {
        order.is_lt()
    }
}

fn part<'a, 'b>(elements: &'b [NewElement<'a>], from: usize, to: usize) -> &'b [NewElement<'a>]
    requires from { from ≤ to }
    requires to { to ≤ length elements.now }
    ensures { result.now ≡ drop from (take to elements.now) }
{
    &elements[from..to]
}
