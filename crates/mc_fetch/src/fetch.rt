// Where bytes are offered for the blocks that a replica misses.
ghost use Rattle.std.specs.Prelude.{◌≡◌, ◌<◌, ◌≤◌, ℕ, Bool, Option, Some, length, slice_get, IfOk, IfSome};
ghost use Rattle.mc_base.specs.declared.cid.Cid.{Cid as CidOf};
ghost use Rattle.mc_fetch.specs.Causes.{is_peer_fault};
ghost use Rattle.mc_fetch.specs.Frame.{AsksAt};
ghost use Rattle.mc_fetch.specs.Offers.{IsLeading, Offered};

use crate::FetchError;
use mc_base::{Bytes, Cid, Counted};
use std::alloc::Global;
use std::sync::Wait;

/// The places that offer bytes for blocks, in a fixed order. No one vouches for an offer: its bytes may be of another
/// digest, and no block at all.
///
/// A fetch that tells says what each place offers for each block. One that does not tell owes no content, and never
/// tells; of its leading places, as many as are known, it says what they offer all the same. No call changes what is told, nor the number of places. The count rises exactly in the calls that answer
/// `Failed`, until it stands at its last value.
pub trait Fetch: Counted {
    /// What is offered for each block, at each place in turn, where that is told.
    ghost offers: { Self → Option Offered };

    /// What is offered for each block at the leading places, as many of them as are known.
    ghost leading: { Self → Offered };

    /// The number of places.
    ghost places: { Self → ℕ };

    /// Whether the count is known never to rise.
    ghost quiet: { Self → Bool };

    /// What calls may make of it, beside what is told.
    ghost follows: { Self → Self → Type 0 };

    /// The number of places.
    fn places(&self) -> u64
        ensures { result ≡ places self.now };

    /// The bytes that a place, counted from 0, offers for a block, or none where it offers nothing.
    fn offer<W: Wait>(
        &mut self,
        alloc: Global,
        cid: &Cid,
        place: u64,
        wait: &W,
    ) -> Result<Option<Bytes>, FetchError>
        requires place { place < places self.old }
        ensures offer { IfSome (offers self.old) (λ offered. IfOk result (λ bytes.
            slice_get (offered cid.now) place ≡ Some bytes)) }
        ensures led { IfOk result (IsLeading (leading self.old cid.now) place) }
        ensures asks { AsksAt offers leading places quiet Self.faults follows (is_peer_fault result) self.old self.new };

    /// What is told has an offer, or none, for each place.
    ghost placed: { (fetch : Self) → IfSome (offers fetch) (λ offered.
        (cid : CidOf) → length (offered cid) ≡ places fetch) };

    /// All places are leading ones where it tells.
    ghost whole: { (fetch : Self) → IfSome (offers fetch) (λ offered.
        (cid : CidOf) → leading fetch cid ≡ offered cid) };

    /// And of no more places than there are it is known what they offer.
    ghost few: { (fetch : Self) → (cid : CidOf) → length (leading fetch cid) ≤ places fetch };

    /// No call at all is allowed for.
    ghost follows_itself: { (fetch : Self) → follows fetch fetch };

    /// And so are calls in turn.
    ghost follows_on: { (first second third : Self) → follows first second → follows second third →
        follows first third };
}
