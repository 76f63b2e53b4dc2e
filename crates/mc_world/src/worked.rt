// What is answered for a work and a repair.
ghost use Rattle.std.specs.Prelude.{◌≡◌};
ghost use Rattle.mc_seats.specs.Works.{broken_reply, budget_of, repaired_reply, worked_reply};

use mc_drain::{Repaired, WorkError, Worked};
use mc_script::Reply;
use mc_seats::ActError;

// The most blocks that a repair processes, and a work that names no budget.
pub(crate) const BUDGET: u64 = 1_048_576;

// The most blocks that a work processes.
pub(crate) fn budget_of(named: Option<u64>) -> u64
    ensures { result ≡ budget_of named }
{
    match named {
        Some(budget) => budget,
        None => BUDGET,
    }
}

// What is answered for a work.
pub(crate) fn worked_reply(worked: Worked) -> Reply
    ensures { result ≡ worked_reply worked }
{
    match worked {
        Worked::Done {
            processed,
            missing,
            bad,
        } => Reply::Worked {
            processed,
            missing,
            bad,
        },
        Worked::Again { processed } => Reply::Again { processed },
    }
}

// What is answered for a repair.
pub(crate) fn repaired_reply(repaired: Repaired) -> Reply
    ensures { result ≡ repaired_reply repaired }
{
    match repaired {
        Repaired::Clean => Reply::Clean,
        Repaired::Open { gaps } => Reply::OpenGaps { gaps },
        Repaired::Again { processed } => Reply::Again { processed },
    }
}

// What is answered where a work or a repair came to nothing.
pub(crate) fn broken_reply(error: WorkError) -> Result<Reply, ActError>
    ensures { result ≡ broken_reply error }
{
    match error {
        WorkError::KeeperFault => Ok(Reply::FaultKeeper),
        WorkError::PeerFault => Ok(Reply::FaultPeer),
        WorkError::Stopped => Ok(Reply::Stopped),
        WorkError::Memory => Err(ActError::Memory),
    }
}
