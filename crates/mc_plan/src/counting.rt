// The numbers that a replica keeps beside its keeper.
ghost use Rattle.std.specs.Prelude.{◌≡◌};
ghost use Rattle.mc_plan.specs.Counted.{IsAfter};

use mc_keep::{Changes, Summary};

/// How many blocks are processed and stored, at most `u64::MAX`, how many gaps there are, and the dirty mark.
#[derive(Clone, Copy)]
pub struct Numbers {
    pub processed: u64,
    pub stored: u64,
    pub gaps: u64,
    pub mark: bool,
}

/// The numbers of what a keeper sums up.
pub fn numbers_of(summary: Summary) -> Numbers
    ensures { (result.processed ≡ summary.processed) × (result.stored ≡ summary.stored)
        × (result.gaps ≡ summary.gaps) × (result.mark ≡ summary.mark) }
{
    Numbers {
        processed: summary.processed,
        stored: summary.stored,
        gaps: summary.gaps,
        mark: summary.mark,
    }
}

/// The numbers after these changes, which leave so many gaps.
pub fn numbers_after(numbers: Numbers, changes: &Changes, gaps: u64) -> Numbers
    ensures { IsAfter numbers changes.now gaps result }
{
    Numbers {
        processed: numbers
            .processed
            .saturating_add(changes.marks.as_slice().len() as u64),
        stored: numbers
            .stored
            .saturating_add(changes.store.as_slice().len() as u64),
        gaps,
        mark: changes.mark.unwrap_or(numbers.mark),
    }
}
