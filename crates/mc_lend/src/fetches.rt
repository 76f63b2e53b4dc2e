// Fetches over the peers, one after another, each with a desk of its own of every peer.
ghost use Rattle.std.specs.Prelude.{ℕ, ◌≡◌, ◌≤◌, ◌<◌, ◌+◌, ◌++◌, ◌∷◌, [], length, vec_len, vec_capacity, IfOk, OnOk};
ghost use Rattle.std.specs.Prelude.{OnErr};
ghost use Rattle.mc_fetch.specs.Views.{views_of};
ghost use Rattle.mc_lend.specs.Lending.{AreViewsOf, desks_lent, desks_of, marks_of, peers_in, with_all, with_firsts};
ghost use Rattle.mc_lend.specs.Rows.{AllViewed, Holds, LendsAll, lists_of};

use crate::Site;
use crate::lending::{lend_each, return_each};
use mc_base::List;
use mc_fetch::PeerFetch;
use mc_keep::Keeper;
use std::alloc::{AllocError, Global};

// Makes so many fetches behind others.
pub(crate) fn lend_fetches<'a, K: Keeper>(
    alloc: Global,
    sites: &[Site<'a, K>],
    rows: &mut Vec<Vec<K::Desk>>,
    count: usize,
    fetches: &mut Vec<PeerFetch<'a, K>>,
) -> Result<(), AllocError>
    requires holds { Holds count (length fetches.old.items) (marks_of sites.now) rows.old.items }
    requires room { vec_len fetches.old + count ≤ vec_capacity fetches.old }
    ensures lends { LendsAll sites.now (lists_of rows.old.items) (lists_of rows.new.items)
        fetches.old.items fetches.new.items }
    ensures holds { Holds 0 (length fetches.new.items) (marks_of sites.now) rows.new.items }
    ensures many { OnOk result (length fetches.new.items ≡ length fetches.old.items + count) }
    ensures rows { length rows.new.items ≡ length rows.old.items }
{
    if count == 0 {
        return Ok(());
    }
    match lend_fetch(alloc, sites, rows) {
        Ok(fetch) => fetches.push_reserved(fetch),
        Err(error) => return Err(error),
    }
    lend_fetches(alloc, sites, rows, count - 1, fetches)
}

// Makes one.
fn lend_fetch<'a, K: Keeper>(
    alloc: Global,
    sites: &[Site<'a, K>],
    rows: &mut Vec<Vec<K::Desk>>,
) -> Result<PeerFetch<'a, K>, AllocError>
    requires some { Holds 1 0 (marks_of sites.now) rows.old.items }
    ensures lends { IfOk result (λ fetch.
        lists_of rows.old.items ≡ with_firsts (marks_of sites.now) (desks_of fetch) (lists_of rows.new.items)) }
    ensures views { IfOk result (λ fetch. AreViewsOf sites.now (views_of fetch)) }
    ensures holds { OnOk result ((there out : ℕ) → Holds (there + 1) out (marks_of sites.now) rows.old.items →
        Holds there (out + 1) (marks_of sites.now) rows.new.items) }
    ensures rows { length rows.new.items ≡ length rows.old.items }
    ensures err { OnErr result (rows.new.items ≡ rows.old.items) }
{
    let mut views = Vec::with_capacity(alloc, sites.len())?;
    lend_each(sites, rows.as_mut_slice(), &mut views);
    Ok(PeerFetch::new(List::from_vec(views)))
}

// Gives the desks of all fetches back, those of the last one first.
pub(crate) fn return_fetches<'a, K: Keeper>(
    sites: &[Site<'a, K>],
    rows: &mut Vec<Vec<K::Desk>>,
    fetches: &mut Vec<PeerFetch<'a, K>>,
)
    requires holds { Holds 0 (length fetches.old.items) (marks_of sites.now) rows.old.items }
    requires viewed { AllViewed sites.now fetches.old.items }
    ensures returns { lists_of rows.new.items
        ≡ with_all (marks_of sites.now) (desks_lent fetches.old.items) (lists_of rows.old.items) }
    ensures left { fetches.new.items ≡ [] }
    ensures rows { length rows.new.items ≡ length rows.old.items }
{
    if fetches.is_empty() {
        return;
    }
    return_fetch(sites, rows, take_last(sites, fetches));
    return_fetches(sites, rows, fetches);
}

// Takes the last one out.
fn take_last<'a, K: Keeper>(
    sites: &[Site<'a, K>],
    fetches: &mut Vec<PeerFetch<'a, K>>,
) -> PeerFetch<'a, K>
    requires some { 0 < vec_len fetches.old }
    requires viewed { AllViewed sites.now fetches.old.items }
    ensures items { fetches.old.items ≡ fetches.new.items ++ result ∷ [] }
    ensures viewed { AllViewed sites.now fetches.new.items }
    ensures many { length (peers_in sites.now) ≡ length (views_of result) }
    ensures len { length fetches.old.items ≡ length fetches.new.items + 1 }
{
    let _of = sites;
    fetches.take_last()
}

// Gives those of one back.
fn return_fetch<'a, K: Keeper>(
    sites: &[Site<'a, K>],
    rows: &mut Vec<Vec<K::Desk>>,
    fetch: PeerFetch<'a, K>,
)
    requires room { Holds 0 1 (marks_of sites.now) rows.old.items }
    requires many { length (peers_in sites.now) ≡ length (views_of fetch) }
    ensures returns { lists_of rows.new.items
        ≡ with_firsts (marks_of sites.now) (desks_of fetch.entry) (lists_of rows.old.items) }
    ensures holds { (out : ℕ) → Holds 0 (out + 1) (marks_of sites.now) rows.old.items →
        Holds 0 out (marks_of sites.now) rows.new.items }
    ensures rows { length rows.new.items ≡ length rows.old.items }
{
    let mut views = fetch.end().into_vec();
    return_each(sites, rows.as_mut_slice(), &mut views);
    views.destroy_empty();
}
