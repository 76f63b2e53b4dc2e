// Why a drain ended.
ghost use Rattle.std.specs.Prelude.{◌≡◌, None};
ghost use Rattle.mc_keep.specs.Causes.{is_fault_kind};
ghost use Rattle.mc_core.specs.Exact.{DecidesAlone, seen_of};
ghost use Rattle.mc_core.specs.Refusals.{kind_of};
ghost use Rattle.mc_drain.specs.Words.{end_by, is_keeper};

use mc_core::CoreError;
use mc_fetch::FetchError;

/// Why a drain ended.
#[derive(Clone, Copy, Debug, PartialEq, Eq)]
pub enum DrainEnd {
    /// Nothing waits.
    Idle,
    /// The limit is reached, and a block that waits has a good offer.
    Spent,
    /// The keeper failed, and the replica has stopped.
    KeeperFault,
    /// A place that the fetch asked failed. The job was given back.
    PeerFault,
    /// Want of memory. The job was given back.
    Memory,
}

// Whether an error of a running replica's call on its jobs and its walk says that its keeper failed: these are refused
// for no block, and for nothing that the replica decides before it asks its keeper.
pub(crate) fn is_fault(error: CoreError) -> bool
    requires alone { DecidesAlone error }
    requires front { seen_of error ≡ None }
    ensures { result ≡ is_fault_kind (kind_of error) }
{
    match error {
        CoreError::KeeperFault => true,
        CoreError::Memory => false,
        _ => unreachable!(),
    }
}

// Whether an end says that the keeper failed.
pub(crate) fn is_keeper(end: DrainEnd) -> bool
    ensures { result ≡ is_keeper end }
{
    match end {
        DrainEnd::KeeperFault => true,
        DrainEnd::Idle | DrainEnd::Spent | DrainEnd::PeerFault | DrainEnd::Memory => false,
    }
}

// The end where a fetch gave none.
pub(crate) fn end_by(error: FetchError) -> DrainEnd
    ensures { result ≡ end_by error }
{
    match error {
        FetchError::Failed => DrainEnd::PeerFault,
        FetchError::Memory => DrainEnd::Memory,
    }
}
