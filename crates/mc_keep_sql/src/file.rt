// The keeper over a SQLite file.
ghost use Rattle.std.specs.Prelude.{◌≡◌, ◌-◌, ◌^◌, false, None, IfOk};
ghost use Rattle.mc_keep_sql.specs.Name.{name_text};
ghost use Rattle.mc_keep_sql.specs.Named.{file_of};

use crate::desk::SqlDesk;
use crate::fault::{FileFault, OpenFault};
use crate::keeper::DatabaseKeeper;
use crate::name::file_name;
use mc_base::{Bytes, Cid, Counted, Failed, List, Text};
use mc_database::{FileCause, FileDatabase};
use mc_keep::{
    Changes, ElementRow, HeadRow, KeepError, Keeper, Layout, RankedValue, Summary, ValueRow,
};
use std::alloc::{AllocError, Global};
use std::rt::HostRuntime;
use std::sync::Wait;

/// A keeper whose tables stand in a SQLite file: `SqlKeeper` as a type without parameters. A call that is generic over
/// keepers can then name it, which it can't name the other: the check would compare the parts of its connection.
#[derive(Drop)]
pub struct FileKeeper {
    inner: DatabaseKeeper<FileDatabase>,
    name: Text,
}

impl FileKeeper {
    /// Opens the file of the replica with this index in a folder, and makes it where it is not there. The folder must
    /// exist. A file that is refused is left as it is.
    pub fn open(rt: &HostRuntime, dir: &str, index: u64) -> Result<FileKeeper, OpenFault>
        ensures fresh { IfOk result (λ keeper. keeper.inner.faults ≡ 0) }
        ensures named { IfOk result (λ keeper. file_of keeper ≡ name_text dir.now index) }
    {
        let name = file_name(rt.alloc(), dir, index)?;
        match DatabaseKeeper::open_file(rt, name.as_str()) {
            Ok(inner) => Ok(FileKeeper { inner, name }),
            Err(cause) => Err(OpenFault::of(name, cause)),
        }
    }

    /// The name of the file that it was opened over.
    pub fn name(&self) -> &str
        ensures { result.now ≡ file_of self.now }
    {
        self.name.as_str()
    }

    /// How many keys with a value had no winner row yet when the file was opened, where it was of layout 1.
    pub fn to_migrate(&self) -> Option<u64> {
        self.inner.to_migrate()
    }
}

impl FileKeeper {
    /// Copies the log into the file, and closes both. Where that fails the log stays beside the file, with all commits.
    /// Answers why a call failed first, if one did.
    pub fn close(self) -> Option<FileFault> {
        let FileKeeper { inner, name } = self;
        let cause = cause_after(inner.faults(), inner.into_database().close())?;
        Some(FileFault { file: name, cause })
    }
}

// Why a call of a keeper that failed so often failed first. Where no statement was refused, a row was none of a store.
fn cause_after(faults: u64, refused: Option<FileCause>) -> Option<FileCause> {
    if faults == 0 {
        return None;
    }
    Some(refused.unwrap_or(FileCause::OtherRow))
}

impl Counted for FileKeeper {
    ghost faults = { λ keeper. keeper.inner.faults };

    fn faults(&self) -> u64 {
        self.inner.faults()
    }
}

impl Keeper for FileKeeper {
    type Desk = SqlDesk;

    ghost told = { λ keeper. None };

    ghost layout = { λ keeper. keeper.inner.layout };

    ghost spare = { λ keeper. 2 ^ 64 - 1 };

    ghost fuse = { λ keeper. None };

    ghost own = { λ keeper. keeper.inner.faults };

    ghost quiet = { λ keeper. false };

    ghost quiet_desk = { λ desk. false };

    ghost schedule = { λ keeper. None };

    ghost desk_schedule = { λ desk. None };

    ghost sound = { λ keeper. tt };

    fn own_faults(&self) -> u64 {
        self.inner.own_faults()
    }

    fn desk(&mut self, alloc: Global) -> Result<SqlDesk, KeepError> {
        self.inner.desk(alloc)
    }

    fn peer_block<W: Wait>(
        &self,
        alloc: Global,
        desk: &mut SqlDesk,
        cid: &Cid,
        wait: &W,
    ) -> Result<Option<Bytes>, KeepError> {
        self.inner.peer_block(alloc, desk, cid, wait)
    }

    fn summary(&mut self) -> Result<Summary, Failed> {
        self.inner.summary()
    }

    fn block(&mut self, alloc: Global, cid: &Cid) -> Result<Option<Bytes>, KeepError> {
        self.inner.block(alloc, cid)
    }

    fn stored(&mut self, cid: &Cid) -> Result<bool, Failed> {
        self.inner.stored(cid)
    }

    fn position(&mut self, cid: &Cid) -> Result<Option<u64>, Failed> {
        self.inner.position(cid)
    }

    fn at(&mut self, position: u64) -> Result<Option<Cid>, Failed> {
        self.inner.at(position)
    }

    fn linked(&mut self, cid: &Cid) -> Result<bool, Failed> {
        self.inner.linked(cid)
    }

    fn heads(&mut self, alloc: Global) -> Result<List<HeadRow>, KeepError> {
        self.inner.heads(alloc)
    }

    fn live_elements(&mut self, alloc: Global, key: &str) -> Result<List<ElementRow>, KeepError> {
        self.inner.live_elements(alloc, key)
    }

    fn hidden(&mut self, key: &str, id: &str) -> Result<bool, Failed> {
        self.inner.hidden(key, id)
    }

    fn hides(&mut self, alloc: Global, key: &str, cid: &Cid) -> Result<bool, KeepError> {
        self.inner.hides(alloc, key, cid)
    }

    fn value(&mut self, alloc: Global, key: &str) -> Result<Option<RankedValue>, KeepError> {
        self.inner.value(alloc, key)
    }

    fn layout(&mut self, alloc: Global) -> Result<Layout, KeepError> {
        self.inner.layout(alloc)
    }

    fn winner(&mut self, key: &str) -> Result<Option<Cid>, Failed> {
        self.inner.winner(key)
    }

    fn has(&mut self, key: &str) -> Result<bool, Failed> {
        self.inner.has(key)
    }

    fn values_from(
        &mut self,
        alloc: Global,
        bound: &str,
        inclusive: bool,
        most: u64,
    ) -> Result<List<ValueRow>, KeepError> {
        self.inner.values_from(alloc, bound, inclusive, most)
    }

    fn key_from(
        &mut self,
        alloc: Global,
        bound: &str,
        inclusive: bool,
        place: u64,
    ) -> Result<Option<Text>, KeepError> {
        self.inner.key_from(alloc, bound, inclusive, place)
    }

    fn reserve(&mut self, rows: u64) -> Result<(), AllocError> {
        self.inner.reserve(rows)
    }

    fn commit(&mut self, changes: Changes) -> Result<(), Failed> {
        self.inner.commit(changes)
    }
}
