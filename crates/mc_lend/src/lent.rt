// Desks lent to fetches, and taken back.
ghost use Rattle.std.specs.Prelude.{◌≡◌, length, true, IfOk, OnErr};
ghost use Rattle.std.specs.List.{list_all};
ghost use Rattle.mc_lend.specs.Lending.{HaveDesks, desks_lent, marks_of, with_all};
ghost use Rattle.mc_lend.specs.Rows.{AllViewed, Holds, IsLent, is_empty_list, lists_of};

use crate::Site;
use crate::fetches::{lend_fetches, return_fetches};
use crate::rows::{close_lists, open_lists};
use mc_base::List;
use mc_fetch::PeerFetch;
use mc_keep::Keeper;
use std::alloc::{AllocError, Global};

/// Fetches that read peers by desks which were lent to them, and the desks that were left.
pub struct Lent<'a, K: Keeper> {
    /// The fetches.
    pub fetches: List<PeerFetch<'a, K>>,
    /// The desks that are left.
    pub rows: Vec<Vec<K::Desk>>,
}

/// Makes so many fetches, each of which reads every site that is a peer by a desk of its own: the first fetch by the
/// first desk of each, the next one by the next. The sites and the lists of their desks are in one order, and a peer
/// has as many desks. The lists have nothing until the desks are taken back. Refused is want of memory, and then all
/// desks are where they were.
pub fn lend<'a, K: Keeper>(
    alloc: Global,
    sites: &[Site<'a, K>],
    desks: &mut [List<K::Desk>],
    count: usize,
) -> Result<Lent<'a, K>, AllocError>
    requires enough { HaveDesks count (marks_of sites.now) desks.old }
    ensures lent { IfOk result (λ lent. IsLent count sites.now desks.old lent.fetches lent.rows.items) }
    ensures empty { IfOk result (λ lent. (list_all is_empty_list desks.new ≡ true)
        × (length desks.new ≡ length lent.rows.items)) }
    ensures back { OnErr result (desks.new ≡ desks.old) }
{
    let mut rows = Vec::with_capacity(alloc, desks.len())?;
    let mut fetches = match Vec::with_capacity(alloc, count) {
        Ok(fetches) => fetches,
        Err(error) => {
            rows.destroy_empty();
            return Err(error);
        }
    };
    open_lists(alloc, desks, &mut rows);
    match lend_fetches(alloc, sites, &mut rows, count, &mut fetches) {
        Ok(()) => Ok(Lent {
            fetches: List::from_vec(fetches),
            rows,
        }),
        Err(error) => {
            give_back(sites, desks, rows, fetches);
            Err(error)
        }
    }
}

/// Takes all desks back, each to the list and the place that it had. It takes no memory, and does not fail.
pub fn take_back<'a, K: Keeper>(
    sites: &[Site<'a, K>],
    desks: &mut [List<K::Desk>],
    lent: Lent<'a, K>,
)
    requires holds { Holds 0 (length lent.fetches) (marks_of sites.now) lent.rows.items }
    requires viewed { AllViewed sites.now lent.fetches }
    requires many { length desks.old ≡ length lent.rows.items }
    requires empty { list_all is_empty_list desks.old ≡ true }
    ensures { desks.new
        ≡ with_all (marks_of sites.now) (desks_lent lent.entry.fetches) (lists_of lent.entry.rows.items) }
{
    let Lent { fetches, rows } = lent;
    give_back(sites, desks, rows, fetches.into_vec());
}

// The same of fetches and of the desks that were left.
fn give_back<'a, K: Keeper>(
    sites: &[Site<'a, K>],
    desks: &mut [List<K::Desk>],
    rows: Vec<Vec<K::Desk>>,
    fetches: Vec<PeerFetch<'a, K>>,
)
    requires holds { Holds 0 (length fetches.items) (marks_of sites.now) rows.items }
    requires viewed { AllViewed sites.now fetches.items }
    requires many { length desks.old ≡ length rows.items }
    requires empty { list_all is_empty_list desks.old ≡ true }
    ensures { desks.new ≡ with_all (marks_of sites.now) (desks_lent fetches.entry.items) (lists_of rows.items) }
{
    let mut rows = rows;
    let mut fetches = fetches;
    return_fetches(sites, &mut rows, &mut fetches);
    fetches.destroy_empty();
    close_lists(desks, &mut rows);
    rows.destroy_empty();
}
