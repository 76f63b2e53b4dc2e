// The parts of the wanted set, and what stands in them.
ghost use Rattle.std.specs.Prelude.{◌≡◌};
ghost use Rattle.mc_queue.specs.Parts.{list_of};

use mc_base::Cid;

/// A part of the wanted set, each one of the four lists.
#[derive(Clone, Copy, Debug)]
pub(crate) enum Part {
    Waiting,
    Flight,
    Missing,
    Bad,
}

impl Part {
    /// The number of its list.
    pub(crate) fn list(self) -> u64
        ensures { result ≡ list_of self }
    {
        match self {
            Part::Waiting => 0,
            Part::Flight => 1,
            Part::Missing => 2,
            Part::Bad => 3,
        }
    }
}

/// A wanted block, with the number of its damage where it is bad.
#[derive(Clone, Copy, Debug, Drop)]
pub(crate) struct Entry {
    pub(crate) cid: Cid,
    pub(crate) damage: u8,
}
