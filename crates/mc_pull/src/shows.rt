// Whether one fault more shows in the counts of all fetches.
ghost use Rattle.std.specs.Prelude.{◌≡◌};
ghost use Rattle.mc_pull.specs.Shows.{all_show, shows};

use mc_base::Counted;
use mc_fetch::PeerFetch;
use mc_keep::Keeper;

// Whether it does in all of them.
pub(crate) fn all_show<'a, K: Keeper>(fetches: &[PeerFetch<'a, K>]) -> bool
    ensures { result ≡ all_show K.Desk.faults fetches.now }
{
    let Some((fetch, others)) = fetches.split_first() else {
        return true;
    };
    shows(fetch) && all_show(others)
}

fn shows<'a, K: Keeper>(fetch: &PeerFetch<'a, K>) -> bool
    ensures { result ≡ shows K.Desk.faults fetch.now }
{
    fetch.faults() < u64::MAX
}
