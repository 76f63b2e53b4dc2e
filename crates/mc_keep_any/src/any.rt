// A keeper of one of two kinds.
ghost use Rattle.std.specs.Prelude.{◌≡◌, Bool, Option, false, None, IfSome};
ghost use Rattle.mc_model.specs.Kept.{Kept, IsKept};
ghost use Rattle.mc_keep_any.specs.Any.{either_keeper, either_desk};
ghost use Rattle.mc_keep_any.specs.Sound.{either_sound};

use crate::desk::{AnyDesk, Inside};
use mc_base::{Bytes, Cid, Counted, Failed, List, Text};
use mc_keep::{
    Changes, ElementRow, HeadRow, KeepError, Keeper, Layout, RankedValue, Summary, ValueRow,
};
use std::alloc::{AllocError, Global};
use std::sync::Wait;

/// A keeper of one of two kinds. It hands each call on, and tells what the keeper inside tells. Only one of the first
/// kind may be quiet, and no schedule of it is known, since a desk that is used on a keeper of the other kind fails.
#[derive(Debug, Drop)]
pub enum AnyKeeper<A, B> {
    /// In memory.
    Memory(A),
    /// In a file.
    File(B),
}

impl<A: Counted, B: Counted> Counted for AnyKeeper<A, B> {
    ghost faults = { either_keeper A.faults B.faults };

    fn faults(&self) -> u64 {
        match self {
            AnyKeeper::Memory(keeper) => keeper.faults(),
            AnyKeeper::File(keeper) => keeper.faults(),
        }
    }
}

impl<A: Keeper, B: Keeper> Keeper for AnyKeeper<A, B> {
    type Desk = AnyDesk<A::Desk, B::Desk>;

    ghost told = { either_keeper A.told B.told };

    ghost layout = { either_keeper A.layout B.layout };

    ghost spare = { either_keeper A.spare B.spare };

    ghost fuse = { either_keeper A.fuse B.fuse };

    ghost own = { either_keeper A.own B.own };

    ghost quiet = { either_keeper A.quiet (λ _. false) };

    ghost quiet_desk = { λ desk. either_desk A.quiet_desk (λ _. false) desk.inside };

    ghost schedule = { λ _. None };

    ghost desk_schedule = { λ _. None };

    ghost sound = { either_sound (λ told. IfSome told IsKept) A.told B.told A.sound B.sound };

    fn own_faults(&self) -> u64 {
        match self {
            AnyKeeper::Memory(keeper) => keeper.own_faults(),
            AnyKeeper::File(keeper) => keeper.own_faults(),
        }
    }

    fn desk(&mut self, alloc: Global) -> Result<AnyDesk<A::Desk, B::Desk>, KeepError> {
        match self {
            AnyKeeper::Memory(keeper) => match keeper.desk(alloc) {
                Ok(desk) => Ok(AnyDesk::new(Inside::Memory(desk))),
                Err(error) => Err(error),
            },
            AnyKeeper::File(keeper) => match keeper.desk(alloc) {
                Ok(desk) => Ok(AnyDesk::new(Inside::File(desk))),
                Err(error) => Err(error),
            },
        }
    }

    fn peer_block<W: Wait>(
        &self,
        alloc: Global,
        desk: &mut AnyDesk<A::Desk, B::Desk>,
        cid: &Cid,
        wait: &W,
    ) -> Result<Option<Bytes>, KeepError> {
        match self {
            AnyKeeper::Memory(keeper) => match &mut desk.inside {
                Inside::Memory(inside) => keeper.peer_block(alloc, inside, cid, wait),
                Inside::File(_) => desk.misuse(),
            },
            AnyKeeper::File(keeper) => match &mut desk.inside {
                Inside::File(inside) => keeper.peer_block(alloc, inside, cid, wait),
                Inside::Memory(_) => desk.misuse(),
            },
        }
    }

    fn summary(&mut self) -> Result<Summary, Failed> {
        match self {
            AnyKeeper::Memory(keeper) => keeper.summary(),
            AnyKeeper::File(keeper) => keeper.summary(),
        }
    }

    fn block(&mut self, alloc: Global, cid: &Cid) -> Result<Option<Bytes>, KeepError> {
        match self {
            AnyKeeper::Memory(keeper) => keeper.block(alloc, cid),
            AnyKeeper::File(keeper) => keeper.block(alloc, cid),
        }
    }

    fn stored(&mut self, cid: &Cid) -> Result<bool, Failed> {
        match self {
            AnyKeeper::Memory(keeper) => keeper.stored(cid),
            AnyKeeper::File(keeper) => keeper.stored(cid),
        }
    }

    fn position(&mut self, cid: &Cid) -> Result<Option<u64>, Failed> {
        match self {
            AnyKeeper::Memory(keeper) => keeper.position(cid),
            AnyKeeper::File(keeper) => keeper.position(cid),
        }
    }

    fn at(&mut self, position: u64) -> Result<Option<Cid>, Failed> {
        match self {
            AnyKeeper::Memory(keeper) => keeper.at(position),
            AnyKeeper::File(keeper) => keeper.at(position),
        }
    }

    fn linked(&mut self, cid: &Cid) -> Result<bool, Failed> {
        match self {
            AnyKeeper::Memory(keeper) => keeper.linked(cid),
            AnyKeeper::File(keeper) => keeper.linked(cid),
        }
    }

    fn heads(&mut self, alloc: Global) -> Result<List<HeadRow>, KeepError> {
        match self {
            AnyKeeper::Memory(keeper) => keeper.heads(alloc),
            AnyKeeper::File(keeper) => keeper.heads(alloc),
        }
    }

    fn live_elements(&mut self, alloc: Global, key: &str) -> Result<List<ElementRow>, KeepError> {
        match self {
            AnyKeeper::Memory(keeper) => keeper.live_elements(alloc, key),
            AnyKeeper::File(keeper) => keeper.live_elements(alloc, key),
        }
    }

    fn hidden(&mut self, key: &str, id: &str) -> Result<bool, Failed> {
        match self {
            AnyKeeper::Memory(keeper) => keeper.hidden(key, id),
            AnyKeeper::File(keeper) => keeper.hidden(key, id),
        }
    }

    fn hides(&mut self, alloc: Global, key: &str, cid: &Cid) -> Result<bool, KeepError> {
        match self {
            AnyKeeper::Memory(keeper) => keeper.hides(alloc, key, cid),
            AnyKeeper::File(keeper) => keeper.hides(alloc, key, cid),
        }
    }

    fn value(&mut self, alloc: Global, key: &str) -> Result<Option<RankedValue>, KeepError> {
        match self {
            AnyKeeper::Memory(keeper) => keeper.value(alloc, key),
            AnyKeeper::File(keeper) => keeper.value(alloc, key),
        }
    }

    fn layout(&mut self, alloc: Global) -> Result<Layout, KeepError> {
        match self {
            AnyKeeper::Memory(keeper) => keeper.layout(alloc),
            AnyKeeper::File(keeper) => keeper.layout(alloc),
        }
    }

    fn winner(&mut self, key: &str) -> Result<Option<Cid>, Failed> {
        match self {
            AnyKeeper::Memory(keeper) => keeper.winner(key),
            AnyKeeper::File(keeper) => keeper.winner(key),
        }
    }

    fn has(&mut self, key: &str) -> Result<bool, Failed> {
        match self {
            AnyKeeper::Memory(keeper) => keeper.has(key),
            AnyKeeper::File(keeper) => keeper.has(key),
        }
    }

    fn values_from(
        &mut self,
        alloc: Global,
        bound: &str,
        inclusive: bool,
        most: u64,
    ) -> Result<List<ValueRow>, KeepError> {
        match self {
            AnyKeeper::Memory(keeper) => keeper.values_from(alloc, bound, inclusive, most),
            AnyKeeper::File(keeper) => keeper.values_from(alloc, bound, inclusive, most),
        }
    }

    fn key_from(
        &mut self,
        alloc: Global,
        bound: &str,
        inclusive: bool,
        place: u64,
    ) -> Result<Option<Text>, KeepError> {
        match self {
            AnyKeeper::Memory(keeper) => keeper.key_from(alloc, bound, inclusive, place),
            AnyKeeper::File(keeper) => keeper.key_from(alloc, bound, inclusive, place),
        }
    }

    fn reserve(&mut self, rows: u64) -> Result<(), AllocError> {
        match self {
            AnyKeeper::Memory(keeper) => keeper.reserve(rows),
            AnyKeeper::File(keeper) => keeper.reserve(rows),
        }
    }

    fn commit(&mut self, changes: Changes) -> Result<(), Failed> {
        match self {
            AnyKeeper::Memory(keeper) => keeper.commit(changes),
            AnyKeeper::File(keeper) => keeper.commit(changes),
        }
    }
}
