// The answer of a work or a repair over peers.
ghost use Rattle.std.specs.Prelude.{◌≡◌};
ghost use Rattle.mc_pull.specs.Answers.{answered, error_by};

use mc_drain::WorkError;

// What a work or a repair answers over peers, by whether one fault more shows in the count of their desks: where it
// doesn't, a fault is answered as a want of memory.
pub(crate) fn answer<T>(drained: Result<T, WorkError>, shows: bool) -> Result<T, WorkError>
    ensures { result ≡ answered shows drained }
{
    match drained {
        Ok(value) => Ok(value),
        Err(error) => Err(error_by(error, shows)),
    }
}

fn error_by(error: WorkError, shows: bool) -> WorkError
    ensures { result ≡ error_by shows error }
{
    match error {
        WorkError::PeerFault => {
            if shows {
                return WorkError::PeerFault;
            }
            WorkError::Memory
        }
        WorkError::KeeperFault => WorkError::KeeperFault,
        WorkError::Stopped => WorkError::Stopped,
        WorkError::Memory => WorkError::Memory,
    }
}
