// Scripts with stops over keepers in memory that have no winner rows at first.
ghost use Rattle.std.specs.Prelude.{IfOk, IfSome};
ghost use Rattle.mc_model.specs.State.{HasSoundMark};
ghost use Rattle.mc_keep_mem.specs.Fits.{kept_in};

use crate::both::empty;
use crate::runs::{Given, Ran, WHOLE, run_over, sound};
use crate::worlds::play;
use mc_app::Status;
use mc_core::{CoreError, Replica};
use mc_keep::{KeepError, Keeper};
use mc_keep_mem::{MemKeeper, MemKeepers};
use std::alloc::Global;
use std::sync::Wait;
use std::test::Fail;
use std::thread::Threads;

// Two keys, of which one is overwritten.
fn put_two<K: Keeper>(replica: &mut Replica<K>, alloc: Global) -> Result<(), CoreError> {
    replica.put(alloc, "/k", &[8])?;
    replica.put(alloc, "/k", &[9])?;
    replica.put(alloc, "/z", &[9])?;
    Ok(())
}

// The keeper with these keys.
fn filled<K: Keeper + Drop>(alloc: Global, keeper: K) -> Result<K, KeepError>
    requires { IfSome (K.told keeper) HasSoundMark }
    ensures { IfOk result (λ keeper. IfSome (K.told keeper) HasSoundMark) }
{
    let Ok(mut replica) = Replica::open(alloc, keeper) else {
        return Err(KeepError::Failed);
    };
    let put = put_two(&mut replica, alloc).is_ok();
    let keeper = replica.stop();
    if !put {
        return Err(KeepError::Failed);
    }
    Ok(keeper)
}

// A keeper in memory with these keys, which never fails.
fn kept(alloc: Global) -> Result<MemKeeper, KeepError>
    ensures { IfOk result (λ keeper. HasSoundMark (kept_in keeper.store.tables)) }
{
    filled(alloc, empty(alloc)?)
}

// The same without winner rows.
fn old(alloc: Global) -> Result<MemKeeper, KeepError>
    ensures { IfOk result (λ keeper. HasSoundMark (kept_in keeper.store.tables)) }
{
    match kept(alloc) {
        Ok(keeper) => Ok(keeper.downgrade()),
        Err(error) => Err(error),
    }
}

// Whether a script over filled keepers without winner rows has the replies of those with them, and leaves the same.
fn agrees<W: Threads + Wait + Sync>(alloc: Global, script: &str, wait: &W) -> Result<bool, Fail> {
    let before = play(alloc, old(alloc), old(alloc), old(alloc), script, wait)?;
    let now = play(alloc, kept(alloc), kept(alloc), kept(alloc), script, wait)?;
    Ok(before.agrees(&now) && before.faults == 0)
}

fn ran<W: Threads + Wait + Sync>(
    alloc: Global,
    script: &str,
    keepers: MemKeepers,
    wait: &W,
) -> Result<Ran, Fail> {
    let script = Given::script(alloc, script.as_bytes(), WHOLE)?;
    run_over(alloc, script, WHOLE, keepers, wait)
}

// Whether a run over keepers of layout 1 writes what one over keepers of layout 2 writes.
fn runs_alike<W: Threads + Wait + Sync>(
    alloc: Global,
    script: &str,
    wait: &W,
) -> Result<bool, Fail> {
    let (before, old, _, _) = ran(alloc, script, sound(alloc).downgraded(), wait)?;
    let (now, new, _, _) = ran(alloc, script, sound(alloc), wait)?;
    Ok(before == Status::Done && now == before && old.bytes() == new.bytes())
}

// Whether both hold of a script.
fn is_alike<W: Threads + Wait + Sync>(alloc: Global, script: &str, wait: &W) -> Result<bool, Fail> {
    Ok(agrees(alloc, script, wait)? && runs_alike(alloc, script, wait)?)
}

const WRITES: &str = "put a /k 01\nput a /k 02\ndel a /k\nput a /m 03\n";

// Four writes that a fuse ends at one of their commits.
fn stopped_writes(alloc: Global, stop: &str, commit: u64) -> Result<String, Fail> {
    Ok(format!(in alloc; "{stop} a {commit}\n{WRITES}open a\nstate a\nget a /k\nget a /z")?)
}

// The works of another replica, which a fuse ends at one of their commits.
fn stopped_works(alloc: Global, stop: &str, commit: u64) -> Result<String, Fail> {
    let works = "hear b 1\nwork b 1\nopen b\nstate b\nrepair b 1\nhear b 1\nwork b 1\nsame a b";
    Ok(format!(in alloc; "{WRITES}cast a\n{stop} b {commit}\n{works}")?)
}

#[test]
fn keepers_without_winner_rows_are_as_good(rt: HostRuntime) -> Result<(), Fail> {
    let alloc = rt.alloc();
    for stop in ["stopat", "stopafter"] {
        for commit in 1..=8 {
            let writes = stopped_writes(alloc, stop, commit)?;
            assert!(rt; is_alike(alloc, writes.as_str(), &rt)?, "{stop} {commit}");
            let works = stopped_works(alloc, stop, commit)?;
            assert!(rt; is_alike(alloc, works.as_str(), &rt)?, "{stop} {commit}");
        }
    }
    Ok(())
}
