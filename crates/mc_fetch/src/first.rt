// The first offer that decides.
ghost use Rattle.std.specs.Prelude.{◌≡◌, ◌<◌, Some, slice_get, IfOk, IfSome};
ghost use Rattle.std.specs.Option.{option_map};
ghost use Rattle.mc_fetch.specs.Calls.{Asks};
ghost use Rattle.mc_fetch.specs.Causes.{is_peer_fault};
ghost use Rattle.mc_fetch.specs.Offers.{HasDigest, IsSurely, MatchesLeading, first_offer, matching, surely_by};

use crate::{Fetch, FetchError};
use mc_base::{Bytes, Cid};
use std::alloc::Global;
use std::sync::Wait;

/// The bytes of the first place that offers some whose SHA-256 is the identifier's digest, or none where no place does.
/// An offer of another digest is passed over, so whatever is offered, bytes that come back have the digest. Where a leading
/// offer has the digest, its bytes come back, whatever the places behind offer. `Failed`
/// comes exactly where a call of the fetch failed, which was the last one. Which places were asked before that, and how
/// often, is not promised.
pub fn first_match<F: Fetch, W: Wait>(
    alloc: Global,
    fetch: &mut F,
    cid: &Cid,
    wait: &W,
) -> Result<Option<Bytes>, FetchError>
    ensures found { IfSome (F.offers fetch.old) (λ offered. IfOk result (λ bytes.
        bytes ≡ first_offer cid.now (offered cid.now))) }
    ensures surely { IfOk result (IsSurely (surely_by (F.leading fetch.old) cid.now)) }
    ensures digest { IfOk result (λ found. IfSome found (λ bytes. HasDigest cid.now bytes)) }
    ensures asks { Asks F.Fetch (is_peer_fault result) fetch.old fetch.new }
{
    let places = fetch.places();
    for place in 0..places {
        match match_at(alloc, fetch, cid, place, wait) {
            Ok(Some(bytes)) => return Ok(Some(bytes)),
            Ok(None) => (),
            Err(error) => return Err(error),
        }
    }
    Ok(None)
}

// The offer of a place, where it has the digest.
fn match_at<F: Fetch, W: Wait>(
    alloc: Global,
    fetch: &mut F,
    cid: &Cid,
    place: u64,
    wait: &W,
) -> Result<Option<Bytes>, FetchError>
    requires place { place < F.places fetch.old }
    ensures found { IfSome (F.offers fetch.old) (λ offered. IfOk result (λ bytes.
        option_map (matching cid.now) (slice_get (offered cid.now) place) ≡ Some bytes)) }
    ensures led { IfOk result (MatchesLeading cid.now (F.leading fetch.old cid.now) place) }
    ensures digest { IfOk result (λ found. IfSome found (λ bytes. HasDigest cid.now bytes)) }
    ensures asks { Asks F.Fetch (is_peer_fault result) fetch.old fetch.new }
{
    match fetch.offer(alloc, cid, place, wait) {
        Ok(offer) => Ok(matching(cid, offer)),
        Err(error) => Err(error),
    }
}

// The offer, where its digest names the block.
fn matching(cid: &Cid, offer: Option<Bytes>) -> Option<Bytes>
    ensures same { result ≡ matching cid.now offer }
    ensures digest { IfSome result (λ bytes. HasDigest cid.now bytes) }
{
    let bytes = offer?;
    if Cid::of(bytes.as_slice()) == *cid {
        return Some(bytes);
    }
    None
}
