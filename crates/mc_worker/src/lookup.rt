// What is found for a job.
ghost use Rattle.std.specs.Prelude.{◌≡◌, None, Ok, IfOk, IfSome};
ghost use Rattle.mc_fetch.specs.Calls.{Asks};
ghost use Rattle.mc_fetch.specs.Causes.{is_peer_fault};
ghost use Rattle.mc_fetch.specs.Offers.{HasDigest, IsSurely, found_by, surely_by};
ghost use Rattle.mc_fetch.specs.declared.job.Found.TheVariants.{Bytes as FoundBytes};
ghost use Rattle.mc_worker.specs.Lookups.{LooksUp, bytes_of};

use mc_base::Cid;
use mc_fetch::{Fetch, FetchError, Found, Job, first_match};
use std::alloc::Global;
use std::sync::Wait;

/// What is found for a job: its own bytes, which are taken out of it, and without any the first offer of the fetch that
/// has the digest. Where the job has own bytes the fetch is not asked, and there is no fault. Where it has none and a
/// leading offer has the digest, that one's bytes are found, whatever the places behind it answer.
pub fn look_up<F: Fetch, W: Wait>(
    alloc: Global,
    fetch: &mut F,
    job: &mut Job,
    wait: &W,
) -> Result<Found, FetchError>
    requires own { IfSome job.old.own (λ bytes. HasDigest job.old.cid bytes) }
    ensures cid { job.new.cid ≡ job.old.cid }
    ensures found { IfOk result (LooksUp (found_by (F.offers fetch.old)) job.old.cid job.old.own) }
    ensures surely { job.old.own ≡ None → IfOk result (λ found.
        IsSurely (surely_by (F.leading fetch.old) job.old.cid) (bytes_of found)) }
    ensures own { IfSome job.old.own (λ bytes. (result ≡ Ok (FoundBytes bytes)) × (fetch.new ≡ fetch.old)) }
    ensures asks { Asks F.Fetch (is_peer_fault result) fetch.old fetch.new }
{
    match job.own.take() {
        Some(own) => Ok(Found::Bytes(own)),
        None => find(alloc, fetch, &job.cid, wait),
    }
}

// The first offer that has the digest, as what was found.
fn find<F: Fetch, W: Wait>(
    alloc: Global,
    fetch: &mut F,
    cid: &Cid,
    wait: &W,
) -> Result<Found, FetchError>
    ensures found { IfOk result (LooksUp (found_by (F.offers fetch.old)) cid.now None) }
    ensures surely { IfOk result (λ found. IsSurely (surely_by (F.leading fetch.old) cid.now) (bytes_of found)) }
    ensures asks { Asks F.Fetch (is_peer_fault result) fetch.old fetch.new }
{
    match first_match(alloc, fetch, cid, wait) {
        Ok(Some(bytes)) => Ok(Found::Bytes(bytes)),
        Ok(None) => Ok(Found::Missing),
        Err(error) => Err(error),
    }
}
