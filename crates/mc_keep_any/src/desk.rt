// A desk of a keeper of one of two kinds.
ghost use Rattle.std.specs.Prelude.{◌≡◌, true, Err};
ghost use Rattle.mc_keep.specs.Causes.{CountGoes};
ghost use Rattle.mc_keep.specs.declared.error.KeepError.{KeepError};
ghost use Rattle.mc_keep_any.specs.Any.{desk_faults};

use mc_base::Counted;
use mc_keep::KeepError;

// The desk inside.
#[derive(Debug, Drop)]
pub(crate) enum Inside<D, E> {
    Memory(D),
    File(E),
}

/// A desk of an `AnyKeeper`. Used on a keeper of the other kind it fails, and counts that.
#[derive(Debug, Drop)]
pub struct AnyDesk<D, E> {
    pub(crate) inside: Inside<D, E>,
    pub(crate) misused: u64,
}

impl<D, E> AnyDesk<D, E> {
    pub(crate) fn new(inside: Inside<D, E>) -> AnyDesk<D, E>
        ensures { result ≡ record { inside = inside; misused = 0 } }
    {
        AnyDesk { inside, misused: 0 }
    }

    // Counts a use on a keeper of the other kind.
    pub(crate) fn misuse<T>(&mut self) -> Result<T, KeepError>
        ensures failed { result ≡ Err KeepError.Failed }
        ensures inside { self.new.inside ≡ self.old.inside }
        ensures count { CountGoes true self.old.misused self.new.misused }
    {
        self.misused = self.misused.saturating_add(1);
        Err(KeepError::Failed)
    }
}

impl<D: Counted, E: Counted> Counted for AnyDesk<D, E> {
    ghost faults = { desk_faults D.faults E.faults };

    fn faults(&self) -> u64 {
        let inside = match &self.inside {
            Inside::Memory(desk) => desk.faults(),
            Inside::File(desk) => desk.faults(),
        };
        inside.saturating_add(self.misused)
    }
}
