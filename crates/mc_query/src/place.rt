// Where a query has come to in the order of keys.
ghost use Rattle.std.specs.Prelude.{◌≡◌, IfOk};
ghost use Rattle.mc_keep.specs.Next as next;
ghost use Rattle.mc_query.specs.Places.{start_of, place_after};

use crate::Pair;
use mc_base::Text;
use std::alloc::{AllocError, Global};

/// The keys past a bound, or at it where `inclusive`.
#[derive(Debug, Drop)]
pub struct Place {
    pub bound: Text,
    pub inclusive: bool,
}

/// The least text at which a key that a prefix selects may stand: the prefix without the slashes at its end and with
/// one more, or nothing where no text is left.
pub fn start_of(alloc: Global, prefix: &str) -> Result<Text, AllocError>
    ensures { IfOk result (λ start. start ≡ start_of prefix.now) }
{
    let folder = prefix.trim_end_matches('/');
    if folder.is_empty() {
        return Ok(Text::new(alloc));
    }
    Ok(Text::from_string(format!(in alloc; "{folder}/")?))
}

/// The place after the last of these pairs, or the given one where there are none.
pub fn place_after<'a>(place: &'a Place, pairs: &'a [Pair]) -> (&'a str, bool)
    ensures bound { result.0.now ≡ (place_after place.now pairs.now).bound }
    ensures inclusive { result.1 ≡ (place_after place.now pairs.now).inclusive }
{
    match pairs.last() {
        Some(pair) => (pair.key.as_str(), false),
        None => (place.bound.as_str(), place.inclusive),
    }
}

/// Whether a key is past a bound, or at it where `inclusive`.
pub fn is_past(bound: &str, inclusive: bool, key: &str) -> bool
    ensures { result ≡ next.is_past bound.now inclusive key.now }
{
    if inclusive {
        return bound <= key;
    }
    bound < key
}
