// What the desks of some replicas have failed.
ghost use Rattle.std.specs.Prelude.{◌≡◌, ◌≤◌, ◌+◌, ◌++◌, length, vec_capacity, vec_len};
ghost use Rattle.mc_seats.specs.Desked.{desk_sums};
ghost use Rattle.mc_seats.specs.Keepers.{desk_count};

use mc_base::{Counted, List};
use mc_keep::Keeper;

/// Counts the desks of the replicas once more, of which there are as many as counts.
pub fn recount<K: Keeper>(counts: &mut Vec<u64>, desks: &[List<K::Desk>])
    requires { length counts.old.items ≡ length desks.now }
    ensures { counts.new.items ≡ desk_sums K.Desk.faults desks.now }
{
    counts.clear();
    push_counts::<K>(counts, desks);
}

// Adds the counts of the desks of some replicas. Takes no memory.
pub(crate) fn push_counts<K: Keeper>(counts: &mut Vec<u64>, desks: &[List<K::Desk>])
    requires { vec_len counts.old + length desks.now ≤ vec_capacity counts.old }
    ensures { counts.new.items ≡ counts.old.items ++ desk_sums K.Desk.faults desks.now }
{
    for list in desks {
        counts.push_reserved(count_desks::<K>(list.as_slice()));
    }
}

// The counts of some desks together, at most `u64::MAX`.
fn count_desks<K: Keeper>(desks: &[K::Desk]) -> u64
    ensures { result ≡ desk_count K.Desk.faults desks.now }
{
    let mut count: u64 = 0;
    for desk in desks {
        count = count.saturating_add(desk.faults());
    }
    count
}
