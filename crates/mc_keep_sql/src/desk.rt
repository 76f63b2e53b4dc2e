// A place from which another thread reads blocks.
ghost use Rattle.std.specs.Prelude.{◌≡◌};
ghost use Rattle.mc_keep.specs.Causes.{CountGoes};
ghost use Rattle.mc_keep.specs.Plan.{is_fault};

use mc_base::Counted;
use mc_keep::KeepError;

/// A place from which another thread reads blocks of a keeper. It counts the reads that failed.
#[derive(Debug, Drop)]
pub struct SqlDesk {
    faults: u64,
}

impl SqlDesk {
    pub(crate) fn new() -> SqlDesk
        ensures { result.faults ≡ 0 }
    {
        SqlDesk { faults: 0 }
    }

    // Counts the answer of a read, where it failed.
    pub(crate) fn count<T>(&mut self, answer: Result<T, KeepError>) -> Result<T, KeepError>
        ensures count { CountGoes (is_fault result) self.old.faults self.new.faults }
        ensures same { result ≡ answer }
    {
        if let Err(KeepError::Failed) = answer {
            self.faults = self.faults.saturating_add(1);
        }
        answer
    }
}

impl Counted for SqlDesk {
    ghost faults = { λ desk. desk.faults };

    fn faults(&self) -> u64 {
        self.faults
    }
}
