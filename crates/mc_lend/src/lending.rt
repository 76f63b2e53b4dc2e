// A desk of each peer, lent to one fetch, and given back.
ghost use Rattle.std.specs.Prelude.{ℕ, ◌≡◌, ◌≤◌, ◌<◌, ◌+◌, ◌++◌, ◌∷◌, [], length, vec_len, vec_capacity, true};
ghost use Rattle.mc_lend.specs.Lending.{marks_of, peers_in};
ghost use Rattle.mc_lend.specs.Rows.{Holds, HoldsAt, Lends, LendsBy, Returns, ReturnsBy, lists_of};

use crate::Site;
use crate::site::view_of;
use mc_fetch::PeerView;
use mc_keep::Keeper;

// Lends the first desk of each row whose replica is fetched from.
pub(crate) fn lend_each<'a, K: Keeper>(
    sites: &[Site<'a, K>],
    rows: &mut [Vec<K::Desk>],
    views: &mut Vec<PeerView<'a, K>>,
)
    requires some { Holds 1 0 (marks_of sites.now) rows.old }
    requires room { vec_len views.old + length sites.now ≤ vec_capacity views.old }
    ensures lends { Lends sites.now (lists_of rows.old) (lists_of rows.new) views.old.items views.new.items }
    ensures holds { (there out : ℕ) → Holds (there + 1) out (marks_of sites.now) rows.old →
        Holds there (out + 1) (marks_of sites.now) rows.new }
{
    let Some((row, rows)) = rows.split_first_mut() else {
        return;
    };
    let Some((site, sites)) = sites.split_first() else {
        return;
    };
    lend_one(site, row, views);
    lend_each(sites, rows, views);
}

// Lends the first desk of a row, where its replica is fetched from.
fn lend_one<'a, K: Keeper>(
    site: &Site<'a, K>,
    row: &mut Vec<K::Desk>,
    views: &mut Vec<PeerView<'a, K>>,
)
    requires some { HoldsAt 1 0 site.now.peer row.old }
    requires room { vec_len views.old < vec_capacity views.old }
    ensures lends { LendsBy site.now.peer site.now row.old.items row.new.items views.old.items views.new.items }
    ensures holds { (there out : ℕ) → HoldsAt (there + 1) out site.now.peer row.old →
        HoldsAt there (out + 1) site.now.peer row.new }
    ensures room { (vec_capacity views.new ≡ vec_capacity views.old) × (vec_len views.new ≤ vec_len views.old + 1) }
{
    if site.peer {
        views.push_reserved(view_of(site, take_first(row)));
    }
}

// Takes the first thing out.
pub(crate) fn take_first<T>(things: &mut Vec<T>) -> T
    requires some { 1 ≤ vec_len things.old }
    ensures items { things.old.items ≡ result ∷ things.new.items }
    ensures len { vec_len things.new + 1 ≡ vec_len things.old }
    ensures capacity { vec_capacity things.new ≡ vec_capacity things.old }
{
    things.remove(0)
}

// Gives a desk of each view back to its row, in order.
pub(crate) fn return_each<'a, K: Keeper>(
    sites: &[Site<'a, K>],
    rows: &mut [Vec<K::Desk>],
    views: &mut Vec<PeerView<'a, K>>,
)
    requires room { Holds 0 1 (marks_of sites.now) rows.old }
    requires many { length (peers_in sites.now) ≡ length views.old.items }
    ensures returns { Returns sites.now (lists_of rows.old) (lists_of rows.new) views.old.items }
    ensures left { views.new.items ≡ [] }
    ensures holds { (out : ℕ) → Holds 0 (out + 1) (marks_of sites.now) rows.old →
        Holds 0 out (marks_of sites.now) rows.new }
{
    let Some((row, rows)) = rows.split_first_mut() else {
        return;
    };
    let Some((site, sites)) = sites.split_first() else {
        return;
    };
    return_one(site, row, views);
    return_each(sites, rows, views);
}

// Gives the desk of the first view back to a row, where its replica is fetched from.
fn return_one<'a, K: Keeper>(
    site: &Site<'a, K>,
    row: &mut Vec<K::Desk>,
    views: &mut Vec<PeerView<'a, K>>,
)
    requires room { HoldsAt 0 1 site.now.peer row.old }
    requires some { site.now.peer ≡ true → 1 ≤ vec_len views.old }
    ensures returns { ReturnsBy site.now.peer row.old.items row.new.items views.old.items views.new.items }
    ensures holds { (out : ℕ) → HoldsAt 0 (out + 1) site.now.peer row.old → HoldsAt 0 out site.now.peer row.new }
{
    if site.peer {
        let PeerView {
            keeper: _,
            desk,
            planted: _,
        } = take_first(views);
        put_first(row, desk);
    }
}

// Puts a thing before all. Takes no memory.
fn put_first<T>(things: &mut Vec<T>, thing: T)
    requires room { vec_len things.old < vec_capacity things.old }
    ensures items { things.new.items ≡ thing ∷ things.old.items }
    ensures len { vec_len things.new ≡ vec_len things.old + 1 }
    ensures capacity { vec_capacity things.new ≡ vec_capacity things.old }
{
    match things.insert(0, thing) {
        Ok(()) => (),
        Err(_failed) => unreachable!(),
    }
}
