// Why a shop gives no answer, and why a worker ended.
ghost use Rattle.std.specs.Prelude.{◌≡◌};
ghost use Rattle.mc_worker.specs.Ends.{end_of};

use thiserror::Error;

/// Why a call of a shop gives no answer.
#[derive(Clone, Copy, Debug, PartialEq, Eq, Error)]
pub enum ShopError {
    /// The keeper behind the shop failed. Each shop says when: `Shop::nexts`, `Shop::delivers`.
    #[error("a keeper failed")]
    KeeperFault,
    /// The keeper had failed in an earlier call.
    #[error("the replica has stopped")]
    Stopped,
    /// The limit of the seat is reached.
    #[error("the limit is reached")]
    Spent,
    /// Want of memory.
    #[error("out of memory")]
    Memory,
}

/// Why a worker ended.
#[derive(Clone, Copy, Debug, PartialEq, Eq)]
pub enum HandEnd {
    /// The shop had no job.
    Idle,
    /// The limit of its seat was reached.
    Spent,
    /// A place that its fetch asked failed, and the fetch counted it. The job was given back.
    PeerFault,
    /// The keeper behind the shop failed in a call of this worker.
    KeeperFault,
    /// The keeper had failed before, in a call of whoever it was.
    Stopped,
    /// Want of memory.
    Memory,
}

/// The end of the same name: how a seat tells of a call that gave no answer, and why its worker ends.
pub fn end_of(error: ShopError) -> HandEnd
    ensures { result ≡ end_of error }
{
    match error {
        ShopError::KeeperFault => HandEnd::KeeperFault,
        ShopError::Stopped => HandEnd::Stopped,
        ShopError::Spent => HandEnd::Spent,
        ShopError::Memory => HandEnd::Memory,
    }
}
