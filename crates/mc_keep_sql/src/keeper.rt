// The keeper over SQLite.
ghost use Rattle.std.specs.Prelude.{◌≡◌, ◌≢◌, ◌-◌, ◌^◌, false, None, IfOk, IfErr, OnOk, OnErr};
ghost use Rattle.std.specs.Result.{is_err};
ghost use Rattle.mc_model.specs.declared.layout.Layout.TheVariants.{Two};
ghost use Rattle.mc_keep.specs.Causes.{CountGoes};
ghost use Rattle.mc_keep.specs.Changes.{laid};
ghost use Rattle.mc_keep.specs.Plan.{is_fault};

use crate::desk::SqlDesk;
use crate::name::file_name;
use mc_base::{Bytes, Cid, Counted, Failed, List, Text};
use mc_database::{Counts, Database, FileCause, FileDatabase, Start, Work, counts_after, opened};
use mc_keep::{
    Changes, ElementRow, HeadRow, KeepError, Keeper, Layout, RankedValue, Summary, ValueRow, lay,
};
use sqlite::{Alter, Connection, File, FileStore};
use std::alloc::{AllocError, Global};
use std::rt::HostRuntime;
use std::sync::{Mutex, Wait};

/// A keeper whose tables stand in a SQLite file, or wherever the store `S` puts them. It does not tell what they hold:
/// that they are those of the changes that were committed is shown by tests. It counts each refused statement, also one
/// refused for memory, and each row that is not of its table's form.
pub type SqlKeeper<S = FileStore<File>> = DatabaseKeeper<Connection<S>>;

/// The same over any database.
#[derive(Drop)]
pub struct DatabaseKeeper<D> {
    database: Mutex<D>,
    // None where a commit has failed, since it may have happened.
    counts: Option<Counts>,
    // Of which keys there are winner rows. Where a commit of a migration has failed there may be some of more.
    layout: Layout,
    // How many keys had none when it was opened, where it was of layout 1.
    to_migrate: Option<u64>,
    faults: u64,
}

impl SqlKeeper {
    /// Opens the file of the replica with this index in a folder, and makes it where it is not there. The folder must
    /// exist.
    pub fn open(rt: &HostRuntime, dir: &str, index: u64) -> Result<SqlKeeper, KeepError>
        ensures fresh { IfOk result (λ keeper. keeper.faults ≡ 0) }
    {
        let name = file_name(rt.alloc(), dir, index)?;
        match DatabaseKeeper::open_file(rt, name.as_str()) {
            Ok(keeper) => Ok(keeper.into_sql()),
            Err(FileCause::Memory) => Err(KeepError::Memory),
            Err(_) => Err(KeepError::Failed),
        }
    }
}

impl<S: Alter + Drop> SqlKeeper<S> {
    /// A keeper over an open connection. Where it has no tables they are made, and where it is of layout 1 those that
    /// it lacks. Fails where it has others, or another layout.
    pub fn adopt(connection: Connection<S>) -> Result<SqlKeeper<S>, KeepError>
        ensures fresh { IfOk result (λ keeper. keeper.faults ≡ 0) }
    {
        match DatabaseKeeper::over(connection) {
            Ok(keeper) => Ok(keeper),
            Err((_connection, FileCause::Memory)) => Err(KeepError::Memory),
            Err((_connection, _cause)) => Err(KeepError::Failed),
        }
    }

    /// The connection, for whoever closes it. Nothing is written.
    pub fn into_connection(self) -> Connection<S> {
        self.into_database()
    }
}

impl DatabaseKeeper<FileDatabase> {
    // A keeper over the file with this name, or why there is none.
    pub(crate) fn open_file(
        rt: &HostRuntime,
        name: &str,
    ) -> Result<DatabaseKeeper<FileDatabase>, FileCause>
        ensures fresh { IfOk result (λ keeper. keeper.faults ≡ 0) }
    {
        match DatabaseKeeper::over(FileDatabase::open(rt, name)?) {
            Ok(keeper) => Ok(keeper),
            Err((database, cause)) => Err(database.refuse(rt, cause)),
        }
    }

    // How many keys had no winner row when the file was opened, where it was of layout 1.
    pub(crate) fn to_migrate(&self) -> Option<u64> {
        self.to_migrate
    }

    // The same keeper over the file's connection.
    fn into_sql(self) -> SqlKeeper
        ensures { result.faults ≡ self.faults }
    {
        let DatabaseKeeper {
            database,
            counts,
            layout,
            to_migrate,
            faults,
        } = self;
        DatabaseKeeper {
            database: Mutex::new(database.into_inner().into_connection()),
            counts,
            layout,
            to_migrate,
            faults,
        }
    }
}

impl<D: Database + Drop> DatabaseKeeper<D> {
    // A keeper over a database. Where it has no tables they are made. Gives it back where it has others, or another
    // layout, with the cause.
    fn over(database: D) -> Result<DatabaseKeeper<D>, (D, FileCause)>
        ensures fresh { IfOk result (λ keeper. keeper.faults ≡ 0) }
    {
        let mut database = database;
        match opened(&mut database) {
            Ok(start) => Ok(DatabaseKeeper::begun(database, start)),
            Err(cause) => Err((database, cause)),
        }
    }

    // A keeper over an opened database.
    fn begun(database: D, start: Start) -> DatabaseKeeper<D>
        ensures { result.faults ≡ 0 }
    {
        DatabaseKeeper {
            database: Mutex::new(database),
            counts: Some(start.counts),
            layout: start.layout,
            to_migrate: start.to_migrate,
            faults: 0,
        }
    }
}

impl<D> DatabaseKeeper<D> {
    // Its database, for whoever closes it.
    pub(crate) fn into_database(self) -> D {
        let DatabaseKeeper {
            database,
            counts: _,
            layout: _,
            to_migrate: _,
            faults: _,
        } = self;
        database.into_inner()
    }
}

impl<D: Database> DatabaseKeeper<D> {
    // Counts the answer of a call, where it failed.
    fn count<T>(&mut self, answer: Result<T, KeepError>) -> Result<T, KeepError>
        ensures count { CountGoes (is_fault result) self.old.faults self.new.faults }
        ensures layout { self.new.layout ≡ self.old.layout }
    {
        if let Err(KeepError::Failed) = answer {
            self.faults = self.faults.saturating_add(1);
        }
        answer
    }

    // The same of a call that takes no memory of the caller's.
    fn count_failed<T>(&mut self, answer: Result<T, Failed>) -> Result<T, Failed>
        ensures count { CountGoes (is_err result) self.old.faults self.new.faults }
        ensures layout { self.new.layout ≡ self.old.layout }
        ensures same { is_err result ≡ is_err answer }
    {
        if answer.is_err() {
            self.faults = self.faults.saturating_add(1);
        }
        answer
    }

    // The counts, which are read where they are not known.
    fn known_counts(&mut self) -> Result<Counts, Failed>
        ensures count { self.new.faults ≡ self.old.faults }
        ensures layout { self.new.layout ≡ self.old.layout }
    {
        if let Some(counts) = self.counts {
            return Ok(counts);
        }
        let counts = Counts::new(self.database.get_mut())?;
        self.counts = Some(counts);
        Ok(counts)
    }

    // Writes the changes.
    fn write(&mut self, changes: &Changes) -> Result<(), Failed>
        ensures count { self.new.faults ≡ self.old.faults }
        ensures layout { self.new.layout ≡ self.old.layout }
    {
        let counts = self.known_counts()?;
        self.counts = None;
        let gone = self.database.get_mut().transact(Work::Commit {
            marks: counts.marks,
            changes,
        })?;
        self.counts = Some(counts_after(&counts, changes, gone));
        Ok(())
    }

    // Makes the changes. Takes the key up to which there are winner rows then.
    fn make(&mut self, changes: &mut Changes) -> Result<(), Failed>
        ensures count { self.new.faults ≡ self.old.faults }
        ensures laid { OnOk result (self.new.layout ≡ laid self.old.layout changes.old) }
        ensures unlaid { OnErr result (self.new.layout ≡ self.old.layout) }
    {
        self.write(changes)?;
        lay(&mut self.layout, changes.upto.take(), changes.two);
        Ok(())
    }
}

impl<D: Database> Counted for DatabaseKeeper<D> {
    ghost faults = { λ keeper. keeper.faults };

    fn faults(&self) -> u64 {
        self.faults
    }
}

impl<D: Database> Keeper for DatabaseKeeper<D> {
    type Desk = SqlDesk;

    ghost told = { λ keeper. None };

    ghost layout = { λ keeper. keeper.layout };

    ghost spare = { λ keeper. 2 ^ 64 - 1 };

    ghost fuse = { λ keeper. None };

    ghost own = { λ keeper. keeper.faults };

    ghost quiet = { λ keeper. false };

    ghost quiet_desk = { λ desk. false };

    ghost schedule = { λ keeper. None };

    ghost desk_schedule = { λ desk. None };

    ghost sound = { λ keeper. tt };

    fn own_faults(&self) -> u64 {
        self.faults
    }

    fn desk(&mut self, _alloc: Global) -> Result<SqlDesk, KeepError> {
        Ok(SqlDesk::new())
    }

    fn peer_block<W: Wait>(
        &self,
        alloc: Global,
        desk: &mut SqlDesk,
        cid: &Cid,
        wait: &W,
    ) -> Result<Option<Bytes>, KeepError> {
        let mut database = self.database.lock(wait);
        let answer = mc_database::block(&mut *database, alloc, cid);
        drop(database);
        desk.count(answer)
    }

    fn summary(&mut self) -> Result<Summary, Failed> {
        let counts = self.known_counts();
        match self.count_failed(counts) {
            Ok(counts) => Ok(counts.summary()),
            Err(Failed) => Err(Failed),
        }
    }

    fn block(&mut self, alloc: Global, cid: &Cid) -> Result<Option<Bytes>, KeepError> {
        let answer = mc_database::block(self.database.get_mut(), alloc, cid);
        self.count(answer)
    }

    fn stored(&mut self, cid: &Cid) -> Result<bool, Failed> {
        let answer = mc_database::stored(self.database.get_mut(), cid);
        self.count_failed(answer)
    }

    fn position(&mut self, cid: &Cid) -> Result<Option<u64>, Failed> {
        let answer = mc_database::position(self.database.get_mut(), cid);
        self.count_failed(answer)
    }

    fn at(&mut self, position: u64) -> Result<Option<Cid>, Failed> {
        let answer = mc_database::at(self.database.get_mut(), position);
        self.count_failed(answer)
    }

    fn linked(&mut self, cid: &Cid) -> Result<bool, Failed> {
        let answer = mc_database::linked(self.database.get_mut(), cid);
        self.count_failed(answer)
    }

    fn heads(&mut self, alloc: Global) -> Result<List<HeadRow>, KeepError> {
        let answer = mc_database::heads(self.database.get_mut(), alloc);
        self.count(answer)
    }

    fn live_elements(&mut self, alloc: Global, key: &str) -> Result<List<ElementRow>, KeepError> {
        let answer = mc_database::live_elements(self.database.get_mut(), alloc, key);
        self.count(answer)
    }

    fn hidden(&mut self, key: &str, id: &str) -> Result<bool, Failed> {
        let answer = mc_database::hidden(self.database.get_mut(), key, id);
        self.count_failed(answer)
    }

    fn hides(&mut self, alloc: Global, key: &str, cid: &Cid) -> Result<bool, KeepError> {
        let answer = mc_database::hides(self.database.get_mut(), alloc, key, cid);
        self.count(answer)
    }

    fn value(&mut self, alloc: Global, key: &str) -> Result<Option<RankedValue>, KeepError> {
        let answer = mc_database::value(self.database.get_mut(), alloc, key);
        self.count(answer)
    }

    fn layout(&mut self, alloc: Global) -> Result<Layout, KeepError> {
        match copy_of(alloc, &self.layout) {
            Ok(layout) => Ok(layout),
            Err(AllocError) => Err(KeepError::Memory),
        }
    }

    fn winner(&mut self, key: &str) -> Result<Option<Cid>, Failed> {
        if !self.layout.covers(key) {
            return Ok(None);
        }
        let answer = mc_database::winner(self.database.get_mut(), key);
        self.count_failed(answer)
    }

    fn has(&mut self, key: &str) -> Result<bool, Failed> {
        let answer = mc_database::has(self.database.get_mut(), key);
        self.count_failed(answer)
    }

    fn values_from(
        &mut self,
        alloc: Global,
        bound: &str,
        inclusive: bool,
        most: u64,
    ) -> Result<List<ValueRow>, KeepError> {
        let answer = mc_database::values_from(
            self.database.get_mut(),
            alloc,
            bound,
            inclusive,
            most,
        );
        self.count(answer)
    }

    fn key_from(
        &mut self,
        alloc: Global,
        bound: &str,
        inclusive: bool,
        place: u64,
    ) -> Result<Option<Text>, KeepError> {
        let answer = mc_database::key_from(self.database.get_mut(), alloc, bound, inclusive, place);
        self.count(answer)
    }

    fn reserve(&mut self, _rows: u64) -> Result<(), AllocError> {
        Ok(())
    }

    fn commit(&mut self, changes: Changes) -> Result<(), Failed> {
        let mut changes = changes;
        let answer = self.make(&mut changes);
        self.count_failed(answer)
    }
}

// A copy, which takes no memory where all winner rows are there.
fn copy_of(alloc: Global, layout: &Layout) -> Result<Layout, AllocError>
    ensures same { IfOk result (λ copy. copy ≡ layout.now) }
    ensures no_memory { IfErr result (λ _. layout.now ≢ Two) }
{
    match layout {
        Layout::One { upto: None } => Ok(Layout::One { upto: None }),
        Layout::One { upto: Some(upto) } => Ok(Layout::One {
            upto: Some(Text::from_text(alloc, upto.as_str())?),
        }),
        Layout::Two => Ok(Layout::Two),
    }
}
