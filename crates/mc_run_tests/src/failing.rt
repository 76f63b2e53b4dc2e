// Runs over sources, sinks and keepers that fail.
use crate::runs::{Given, Pieces, WHOLE, is_answered, run_over, sound};
use mc_app::Status;
use mc_base::List;
use mc_keep_mem::{FaultPlan, MemKeepers};
use std::alloc::Global;
use std::sync::Wait;
use std::test::Fail;
use std::thread::Threads;

// How a run over streams with these faults ends, and what it writes. The sink may take nothing more after a first piece.
#[test]
fn a_sink_may_take_nothing_more(rt: HostRuntime) -> Result<(), Fail> {
    let alloc = rt.alloc();
    let script = Given::script(alloc, b"get a /a\n", WHOLE)?;
    let writes = Pieces {
        piece: 3,
        failing: 2,
    };
    let (status, out, _, _) = run_over(alloc, script, writes, sound(alloc), &rt)?;
    assert_eq!(rt; (status, status.code()), (Status::WriteFault, 5));
    assert_eq!(rt; out.bytes(), b"non".as_slice());
    Ok(())
}

// Lets call after call of the source or the sink fail, until a run has no fault. What is written then is a prefix of
// the run's text. Gives the number of runs with a fault, where all are so.
fn faults_before_the_end<W: Threads + Wait + Sync>(
    alloc: Global,
    of_source: bool,
    wait: &W,
) -> Result<Option<u64>, Fail> {
    let script = b"put a /a 01\nget a /a\nget a /b\nput a /a 0".as_slice();
    let text = b"ok 1\n01\nnone\nbad line 4\n".as_slice();
    let piece = 5;
    let all = Pieces { piece, failing: 0 };
    for call in 1..64 {
        let some = Pieces {
            piece,
            failing: call,
        };
        let (reads, writes, fault) = if of_source {
            (some, all, Status::ReadFault)
        } else {
            (all, some, Status::WriteFault)
        };
        let given = Given::script(alloc, script, reads)?;
        let (status, out, _, _) = run_over(alloc, given, writes, sound(alloc), wait)?;
        if status == (Status::BadLine { line: 4 }) && out.bytes() == text {
            return Ok(Some(call - 1));
        }
        if status != fault || !text.starts_with(out.bytes()) {
            return Ok(None);
        }
    }
    Ok(None)
}

#[test]
fn every_call_may_fail(rt: HostRuntime) -> Result<(), Fail> {
    let alloc = rt.alloc();
    assert_eq!(rt; faults_before_the_end(alloc, true, &rt)?, Some(9));
    assert_eq!(rt; faults_before_the_end(alloc, false, &rt)?, Some(6));
    Ok(())
}

fn numbers(alloc: Global, items: &[u64]) -> Result<List<u64>, Fail> {
    Ok(List::from_vec(items.to_vec(alloc)?))
}

// Keepers of which the first fails as planned, at these commits or reads, or at being made.
fn planned(
    alloc: Global,
    commits: &[u64],
    reads: &[u64],
    makes: &[u64],
) -> Result<MemKeepers, Fail> {
    let mut plans = List::new(alloc);
    let mut plan = FaultPlan::nothing(alloc);
    plan.commits_before = numbers(alloc, commits)?;
    plan.reads = numbers(alloc, reads)?;
    plans.push(plan)?;
    Ok(MemKeepers::new(plans, numbers(alloc, makes)?))
}

#[test]
fn a_keeper_that_fails_stops_its_replica_or_ends_the_run(rt: HostRuntime) -> Result<(), Fail> {
    let alloc = rt.alloc();
    let bad = Status::BadLine { line: 3 };
    let ended = Status::KeeperFault;
    assert_eq!(rt; ended.code(), 6);
    let none: &[u64] = &[];
    // the commits, reads and makes that fail, and how the run ends
    let rows: [(&[u64], &[u64], &[u64], (Status, &[u8], u64, u64)); 4] = [
        (
            &[1],
            none,
            none,
            (bad, b"fault keeper\nstopped\nbad line 3\n", 0, 1),
        ),
        (none, &[1], none, (ended, b"", 0, 1)),
        (none, none, &[1], (ended, b"", 1, 0)),
        (none, none, &[3], (ended, b"", 1, 0)),
    ];
    for (commits, reads, makes, wanted) in rows {
        let keepers = planned(alloc, commits, reads, makes)?;
        let script = b"put a /a 01\nget a /a\nfrob".as_slice();
        assert!(rt; is_answered(alloc, script, keepers, wanted, &rt)?);
    }
    Ok(())
}

// Keepers of which the second one's first desk fails its first read.
fn with_a_failing_desk(alloc: Global) -> Result<MemKeepers, Fail> {
    let mut desks = List::new(alloc);
    desks.push(numbers(alloc, &[1])?)?;
    let mut plan = FaultPlan::nothing(alloc);
    plan.desks = desks;
    let mut plans = List::new(alloc);
    plans.push(FaultPlan::nothing(alloc))?;
    plans.push(plan)?;
    Ok(MemKeepers::new(plans, List::new(alloc)))
}

#[test]
fn a_desk_that_fails_leaves_the_block_waiting(rt: HostRuntime) -> Result<(), Fail> {
    let alloc = rt.alloc();
    // scripts, their replies, and how many reads are lost
    let rows = [
        (
            "put b /k 01\ncast b\nhear a 1\nstep a\nstate a\nstep a\nsame a b",
            "ok 1\nmessage 1\nqueued 1\nfault peer\nstate processed 0 stored 0 waiting 1 missing 0 bad 0 mark clear whole yes\nprocessed\nsame yes\n",
            1,
        ),
        (
            "put b /k 01\ncast b\nhear a 1\nwork a 1\nstate a\nwork a 1",
            "ok 1\nmessage 1\nqueued 1\nfault peer\nstate processed 0 stored 0 waiting 1 missing 0 bad 0 mark clear whole yes\nworked 1 0 0\n",
            1,
        ),
        (
            "put b /k 01\ncast b\nhear a 1\nrepair a 1\nstate a\nrepair a 1\nsame a b",
            "ok 1\nmessage 1\nqueued 1\nfault peer\nstate processed 0 stored 0 waiting 1 missing 0 bad 0 mark clear whole yes\nclean\nsame yes\n",
            1,
        ),
        // The second replica stores the block of no bytes, and the same block is planted there: its desk isn't asked.
        (
            "plant c bafybeihdwdcefgh4dqkjv67uzcmw7ojee6xedzdetojuzjevtenxquvyku -\nwire 0a260a2401701220e3b0c44298fc1c149afbf4c8996fb92427ae41e4649b934ca495991b7852b855\nhear b 1\nstep b\nplant b bafybeihdwdcefgh4dqkjv67uzcmw7ojee6xedzdetojuzjevtenxquvyku -\nlink a c down\nhear a 1\nstep a\nsame a b",
            "ok\nmessage 1\nqueued 1\nprocessed\nok\nok\nqueued 1\nprocessed\nsame yes\n",
            0,
        ),
    ];
    for (script, text, lost) in rows {
        let wanted = (Status::Done, text.as_bytes(), 0, lost);
        let keepers = with_a_failing_desk(alloc)?;
        assert!(rt;
            is_answered(alloc, script.as_bytes(), keepers, wanted, &rt)?,
            "at {script}"
        );
    }
    Ok(())
}

// Four writes at the first replica, which the second one then hears of and takes up, if need be at the second try.
const WORKED: &str =
    "put a /k 01\nput a /k 02\ndel a /k\nput a /m 03\ncast a\nhear b 1\nwork b 1\nhear b 1\nwork b 1\nsame a b\n";

const WORKED_REPLIES: &str =
    "ok 1\nok 2\ndeleted 1\nok 4\nmessage 1\nqueued 1\nworked 4 0 0\nqueued 0\nworked 0 0 0\nsame yes\n";

// Keepers of which the one with this index fails at this read.
fn failing_at(alloc: Global, index: u64, read: u64) -> Result<MemKeepers, Fail> {
    let mut plans = List::new(alloc);
    for _ in 0..index {
        plans.push(FaultPlan::nothing(alloc))?;
    }
    let mut plan = FaultPlan::nothing(alloc);
    plan.reads = numbers(alloc, &[read])?;
    plans.push(plan)?;
    Ok(MemKeepers::new(plans, List::new(alloc)))
}

// Whether the first reply that is another than the wanted one is this.
fn differs_first_by(replies: &[u8], wanted: &str, reply: &str) -> bool {
    let Ok(replies) = std::str::from_utf8(replies) else {
        return false;
    };
    let mut others = wanted.split('\n');
    for given in replies.split('\n') {
        let Some(other) = others.next() else {
            return false;
        };
        if given != other {
            return given == reply;
        }
    }
    false
}

// Lets read after read of the keeper with this index fail, until a run has no fault. Gives how many runs had one, where
// the first reply that differs from those of a run without a fault is that of the fault, or no line was executed.
fn read_faults<W: Threads + Wait + Sync>(
    alloc: Global,
    index: u64,
    wait: &W,
) -> Result<Option<u64>, Fail> {
    for read in 1..400 {
        let script = Given::script(alloc, WORKED.as_bytes(), WHOLE)?;
        let keepers = failing_at(alloc, index, read)?;
        let (status, out, _, lost) = run_over(alloc, script, WHOLE, keepers, wait)?;
        if lost == 0 {
            let is_whole = status == Status::Done && out.bytes() == WORKED_REPLIES.as_bytes();
            return Ok(if is_whole { Some(read - 1) } else { None });
        }
        let is_unbegun = status == Status::KeeperFault && out.bytes().is_empty();
        if !is_unbegun && !differs_first_by(out.bytes(), WORKED_REPLIES, "fault keeper") {
            return Ok(None);
        }
    }
    Ok(None)
}

#[test]
fn every_read_may_fail(rt: HostRuntime) -> Result<(), Fail> {
    for index in 0..2 {
        let faults = read_faults(rt.alloc(), index, &rt)?;
        // An opening reads at least once, and so does each of the writes or blocks.
        assert!(rt; faults.unwrap_or(0) >= 5, "{index} {faults:?}");
    }
    Ok(())
}

// Keepers of which the first one's first desk fails at this read.
fn with_a_desk_that_fails_at(alloc: Global, read: u64) -> Result<MemKeepers, Fail> {
    let mut desks = List::new(alloc);
    desks.push(numbers(alloc, &[read])?)?;
    let mut plan = FaultPlan::nothing(alloc);
    plan.desks = desks;
    let mut plans = List::new(alloc);
    plans.push(plan)?;
    Ok(MemKeepers::new(plans, List::new(alloc)))
}

#[test]
fn every_read_of_a_desk_may_fail(rt: HostRuntime) -> Result<(), Fail> {
    let alloc = rt.alloc();
    // The four blocks are read one after another: those before the one that fails are processed.
    for (read, left) in [(1, "4"), (2, "3"), (3, "2"), (4, "1")] {
        let replies = format!(in alloc;
            "ok 1\nok 2\ndeleted 1\nok 4\nmessage 1\nqueued 1\nfault peer\nqueued 0\nworked {left} 0 0\nsame yes\n"
        )?;
        let keepers = with_a_desk_that_fails_at(alloc, read)?;
        let wanted = (Status::Done, replies.as_bytes(), 0, 1);
        assert!(rt;
            is_answered(alloc, WORKED.as_bytes(), keepers, wanted, &rt)?,
            "{read}"
        );
    }
    Ok(())
}
