// How the other replicas of a world are read.
ghost use Rattle.std.specs.Prelude.{◌≡◌, ◌≤◌, ◌<◌, ◌+◌, ◌^◌, IfOk, length, vec_capacity, vec_len};
ghost use Rattle.mc_world.specs.Pulling.{AddsSites, IsSite, SitesOf};

use mc_keep::Keeper;
use mc_lend::Site;
use mc_seats::{Link, Seat, is_peer, keeper_in};
use std::alloc::{AllocError, Global};

// The sites of the replicas before r and after it: those are peers of r that run and are linked to it.
pub(crate) fn sites_of<'a, K: Keeper>(
    alloc: Global,
    before: &'a [Seat<K>],
    after: &'a [Seat<K>],
    down: &[Link],
    r: u64,
) -> Result<Vec<Site<'a, K>>, AllocError>
    requires at { r ≡ length before.now }
    requires few { r + 1 + length after.now < 2 ^ 64 }
    ensures { IfOk result (λ sites. SitesOf K.Keeper down.now r before.now after.now sites.items) }
{
    let mut sites = Vec::with_capacity(alloc, before.len() + after.len())?;
    push_sites(before, down, r, 0, &mut sites);
    push_sites(after, down, r, r + 1, &mut sites);
    Ok(sites)
}

// Adds a site for each of these seats, of which the first has this number.
fn push_sites<'a, K: Keeper>(
    seats: &'a [Seat<K>],
    down: &[Link],
    r: u64,
    number: u64,
    sites: &mut Vec<Site<'a, K>>,
)
    requires few { number + length seats.now < 2 ^ 64 }
    requires room { vec_len sites.old + length seats.now ≤ vec_capacity sites.old }
    ensures added { AddsSites K.Keeper down.now r number seats.now sites.old.items sites.new.items }
    ensures len { vec_len sites.new ≡ vec_len sites.old + length seats.now }
    ensures capacity { vec_capacity sites.new ≡ vec_capacity sites.old }
{
    let Some((seat, seats)) = seats.split_first() else {
        return;
    };
    sites.push_reserved(site_of(seat, down, r, number));
    push_sites(seats, down, r, number + 1, sites);
}

// The site of a seat.
fn site_of<'a, K: Keeper>(seat: &'a Seat<K>, down: &[Link], r: u64, number: u64) -> Site<'a, K>
    ensures { IsSite K.Keeper down.now r number seat.now result }
{
    Site {
        keeper: keeper_in(seat),
        planted: &seat.planted,
        peer: is_peer(seat, down, r, number),
    }
}

// Lets the sites go.
pub(crate) fn let_go<'a, K: Keeper>(sites: Vec<Site<'a, K>>) {
    let mut sites = sites;
    if sites.is_empty() {
        sites.destroy_empty();
        return;
    }
    let Site {
        keeper: _,
        planted: _,
        peer: _,
    } = sites.take_last();
    let_go(sites);
}
