// Migrations of keepers in memory that have no winner rows.
ghost use Rattle.std.specs.Prelude.{IfSome};
ghost use Rattle.mc_model.specs.State.{HasSoundMark};

use crate::old::{key_of, passes_old};
use crate::running::opened;
use mc_base::{Cid, Counted};
use mc_core::{CoreError, OpenCause, OpenError, Replica};
use mc_keep::{ElementRow, Fused, KeepError, Keeper};
use mc_keep_tests::Trial;
use mc_migrate::{Migrated, migrate};
use mc_model::Layout;
use std::alloc::Global;
use std::sync::Wait;
use std::test::Fail;

// How many keys have a value, and how many commits write their winners.
const SIZES: [(u64, u64); 7] = [
    (0, 1),
    (1, 1),
    (1_023, 1),
    (1_024, 2),
    (1_025, 2),
    (2_048, 3),
    (5_000, 5),
];

// How many keys most keepers here have: three commits write their winners.
const KEYS: u64 = 2_048;

// The greatest keys that have a winner after the first commits of a migration of so many keys.
const BOUNDS: [&str; 2] = ["/11023", "/12047"];

// The live row that wins among those of a key: the greatest priority, then the greatest value, then the least block.
fn winner_of(rows: &[ElementRow]) -> Option<Cid> {
    let mut best: Option<&ElementRow> = None;
    for row in rows {
        best = match best {
            Some(best) if is_better(best, row) => Some(best),
            _ => Some(row),
        };
    }
    match best {
        Some(row) => Some(row.cid),
        None => None,
    }
}

// Whether the first row wins over the other one.
fn is_better(row: &ElementRow, other: &ElementRow) -> bool {
    let pair = (row.priority, row.value.as_slice());
    let others = (other.priority, other.value.as_slice());
    pair > others || pair == others && row.cid <= other.cid
}

// Whether the winner of a key is the right one, where `covered`, and else none.
fn has_winner<K: Keeper>(
    keeper: &mut K,
    alloc: Global,
    key: &str,
    covered: bool,
) -> Result<bool, KeepError> {
    let winner = keeper.winner(key)?;
    if !covered {
        return Ok(winner.is_none());
    }
    let rows = keeper.live_elements(alloc, key)?;
    Ok(winner.is_some() && winner == winner_of(rows.as_slice()))
}

// Whether just the first of so many keys have their winners.
fn has_winners<K: Keeper>(
    keeper: &mut K,
    alloc: Global,
    keys: u64,
    covered: u64,
) -> Result<bool, KeepError> {
    for number in 0..keys {
        let key = key_of(alloc, number)?;
        if !has_winner(keeper, alloc, key.as_str(), number < covered)? {
            return Ok(false);
        }
    }
    Ok(keeper.winner("/none")?.is_none())
}

// Whether a migration wrote so many keys in so many commits.
fn wrote(done: Migrated, keys: u64, commits: u64) -> bool {
    done.keys == keys && done.commits == commits
}

// Whether the layout is that after so many of three commits, where the second and the third one take all keys that are
// left.
fn is_after(layout: &Layout, commits: usize) -> bool {
    match layout {
        Layout::One { upto: None } => commits == 0,
        Layout::One { upto: Some(upto) } => match BOUNDS.get(commits.wrapping_sub(1)) {
            Some(bound) => upto.as_str() == *bound,
            None => false,
        },
        Layout::Two => commits == 3,
    }
}

fn is_two(layout: &Layout) -> bool {
    match layout {
        Layout::One { upto: _ } => false,
        Layout::Two => true,
    }
}

// Whether a keeper without winner rows gets those of all its keys in so many commits, and no more the next time.
fn migrates<K: Keeper + Drop>(
    keeper: K,
    alloc: Global,
    keys: u64,
    commits: u64,
) -> Result<bool, KeepError> {
    let mut keeper = keeper;
    let none = is_after(&keeper.layout(alloc)?, 0) && has_winners(&mut keeper, alloc, keys, 0)?;
    let done = migrate(&mut keeper, alloc)?;
    let again = migrate(&mut keeper, alloc)?;
    Ok(
        none && wrote(done, keys, commits)
            && wrote(again, 0, 0)
            && is_two(&keeper.layout(alloc)?)
            && has_winners(&mut keeper, alloc, keys, keys)?,
    )
}

// How many keys have winners after so many of the three commits.
fn covered_after(commits: u64) -> u64 {
    KEYS.min(commits.saturating_mul(1_024))
}

// A migration that a fuse ends at one of its three commits, and the next one, which goes on from there.
fn goes_on<K: Keeper>(
    keeper: &mut Fused<K>,
    alloc: Global,
    commit: u64,
    after: bool,
) -> Result<bool, KeepError> {
    if commit == 0 {
        return Ok(false);
    }
    keeper.arm(commit, after);
    let failed = migrate(keeper, alloc) == Err(KeepError::Failed);
    let made = if after { commit } else { commit - 1 };
    let covered = covered_after(made);
    let stands = is_after(&keeper.layout(alloc)?, made as usize)
        && has_winners(keeper, alloc, KEYS, covered)?;
    let next = migrate(keeper, alloc)?;
    Ok(
        failed
            && stands
            && wrote(
                next,
                KEYS.saturating_sub(covered),
                3u64.saturating_sub(made),
            )
            && has_winners(keeper, alloc, KEYS, KEYS)?
            && keeper.faults() == 1,
    )
}

// The same from the keeper on that is inside.
fn stops_once<K: Keeper + Drop>(
    keeper: K,
    alloc: Global,
    commit: u64,
    after: bool,
) -> Result<bool, KeepError> {
    let mut keeper = Fused::wrap(keeper);
    goes_on(&mut keeper, alloc, commit, after)
}

// Whether a replica tells of the first key and the last one who gives their values, and then so of a key that is put.
fn tells_all<K: Keeper>(replica: &mut Replica<K>, alloc: Global) -> Result<bool, CoreError> {
    let first = replica.who(key_of(alloc, 0)?.as_str())?;
    let second = replica.who(key_of(alloc, 1)?.as_str())?;
    let last = replica.who(key_of(alloc, KEYS.saturating_sub(1))?.as_str())?;
    replica.put(alloc, "/new", &[1])?;
    Ok(
        first.is_some()
            && second.is_some()
            && last == second
            && first != second
            && replica.who("/new")?.is_some()
            && replica.who("/none")?.is_none(),
    )
}

// A replica that the keeper's fault keeps closed once.
fn opens_again<K: Keeper + Drop>(keeper: K, alloc: Global) -> Result<bool, CoreError>
    requires { IfSome (K.told keeper) HasSoundMark }
{
    match Replica::open(alloc, keeper) {
        Ok(_) => Ok(false),
        Err(refused) => {
            let OpenError { cause, keeper } = refused;
            let mut replica = opened(alloc, keeper)?;
            Ok(cause == OpenCause::KeeperFault && tells_all(&mut replica, alloc)?)
        }
    }
}

// The same from the keeper on that is inside.
fn opens_once_more<K: Keeper + Drop>(
    keeper: K,
    alloc: Global,
    commit: u64,
    after: bool,
) -> Result<bool, CoreError>
    requires { IfSome (K.told keeper) HasSoundMark }
{
    if commit == 0 {
        return Ok(false);
    }
    let mut keeper = Fused::wrap(keeper);
    keeper.arm(commit, after);
    opens_again(keeper, alloc)
}

// What is tried here.
#[derive(Clone, Copy)]
enum Migrations {
    Count { keys: u64, commits: u64 },
    Stop { commit: u64, after: bool },
    Open { commit: u64, after: bool },
}

impl Trial for Migrations {
    fn passes<K: Keeper + Drop, W: Wait>(
        self,
        alloc: Global,
        keeper: K,
        _wait: &W,
    ) -> Result<bool, Fail>
    where
        K::Desk: Drop,
    {
        match self {
            Migrations::Count { keys, commits } => Ok(migrates(keeper, alloc, keys, commits)?),
            Migrations::Stop { commit, after } => Ok(stops_once(keeper, alloc, commit, after)?),
            Migrations::Open { commit, after } => Ok(opens_once_more(
                keeper, alloc, commit, after,
            )?),
        }
    }
}

#[test]
fn a_commit_writes_the_winners_of_so_many_keys(rt: HostRuntime) -> Result<(), Fail> {
    for (keys, commits) in SIZES {
        let trial = Migrations::Count { keys, commits };
        assert!(rt; passes_old(trial, rt.alloc(), keys, &rt)?, "{keys}");
    }
    Ok(())
}

#[test]
fn a_migration_goes_on_from_each_of_its_commits(rt: HostRuntime) -> Result<(), Fail> {
    for commit in 1..=3 {
        for after in [false, true] {
            let trial = Migrations::Stop { commit, after };
            assert!(rt;
                passes_old(trial, rt.alloc(), KEYS, &rt)?,
                "{commit} {after}"
            );
        }
    }
    Ok(())
}

#[test]
fn a_replica_migrates_before_it_opens(rt: HostRuntime) -> Result<(), Fail> {
    for commit in 1..=3 {
        for after in [false, true] {
            let trial = Migrations::Open { commit, after };
            assert!(rt;
                passes_old(trial, rt.alloc(), KEYS, &rt)?,
                "{commit} {after}"
            );
        }
    }
    Ok(())
}
