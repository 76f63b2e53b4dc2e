// The rows that a query has read ahead.
ghost use Rattle.std.specs.Prelude.{◌≡◌, ◌<◌, [], false, IfSome};
ghost use Rattle.mc_model.specs.Kept.{processed};
ghost use Rattle.mc_keep.specs.Calls.{Reads};
ghost use Rattle.mc_keep.specs.Causes.{IfTold};
ghost use Rattle.mc_keep.specs.Next.{IsNext, AreNext};
ghost use Rattle.mc_keep.specs.Plan.{ReadsAsPlanned, is_fault};
ghost use Rattle.mc_query.specs.Ahead.{AreAhead, AreMore};
ghost use Rattle.mc_query.specs.Reads.{ReadsWithin};

use mc_keep::{KeepError, Keeper, ValueRow};
use std::alloc::Global;
use std::collections::VecDeque;

// The most rows that are read at a time.
const MOST_AT_A_TIME: u64 = 64;

/// Rows that were read and are still to come, and how many more the query may need.
#[derive(Drop)]
pub(crate) struct Ahead {
    pub(crate) rows: VecDeque<ValueRow>,
    pub(crate) needed: u64,
}

impl Ahead {
    // No rows, for a query that needs so many.
    pub(crate) fn new(alloc: Global, needed: u64) -> Ahead
        ensures { result.rows.items ≡ [] }
    {
        Ahead {
            rows: VecDeque::new(alloc),
            needed,
        }
    }

    // How many rows to read now, at least one. They are needed no longer.
    fn take_part(&mut self) -> u64
        ensures some { 0 < result }
        ensures rows { self.new.rows ≡ self.old.rows }
    {
        let part = self.needed.min(MOST_AT_A_TIME);
        self.needed -= part;
        part.max(1)
    }

    // Reads rows past the bound, where none is left.
    fn refill<K: Keeper>(
        &mut self,
        keeper: &mut K,
        alloc: Global,
        bound: &str,
        inclusive: bool,
    ) -> Result<(), KeepError>
        ensures rows { IfTold (K.told keeper.old) result (λ kept done.
            AreMore (processed kept) bound.now inclusive self.new.rows.items) }
        ensures reads { Reads K.Keeper (is_fault result) keeper.old keeper.new }
        ensures planned { ReadsAsPlanned (K.schedule keeper.old) (K.schedule keeper.new) (is_fault result) }
    {
        let most = self.take_part();
        let rows = keeper.values_from(alloc, bound, inclusive, most)?;
        self.rows = VecDeque::from_vec(rows.into_vec());
        Ok(())
    }
}

/// The row of the next key with a value past the bound, or none where there is none. It was read ahead, or is read with
/// some of those behind it.
pub(crate) fn next_row<K: Keeper>(
    keeper: &mut K,
    alloc: Global,
    ahead: &mut Ahead,
    bound: &str,
    inclusive: bool,
) -> Result<Option<ValueRow>, KeepError>
    requires ahead { IfSome (K.told keeper.old) (λ kept.
        AreAhead (processed kept) bound.now inclusive ahead.old.rows.items) }
    ensures row { IfTold (K.told keeper.old) result (λ kept row. IsNext (processed kept) bound.now inclusive row) }
    ensures ahead { IfTold (K.told keeper.old) result (λ kept row. IfSome row (λ row.
        AreAhead (processed kept) row.key false ahead.new.rows.items)) }
    ensures reads { Reads K.Keeper (is_fault result) keeper.old keeper.new }
    ensures planned { ReadsWithin 1 (K.schedule keeper.old) (K.schedule keeper.new) (is_fault result) }
{
    if let Some(row) = ahead.rows.pop_front() {
        return Ok(Some(row));
    }
    ahead.refill(keeper, alloc, bound, inclusive)?;
    Ok(ahead.rows.pop_front())
}
