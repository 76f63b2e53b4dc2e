// Worked rows, step by step over both keepers.
use crate::both::{agree, over_sql};
use std::alloc::Global;
use std::sync::Wait;
use std::test::Fail;
use std::thread::Threads;

// Whether after each line of a script both kinds of keepers have answered alike and hold the same.
fn agree_at_each_line<W: Threads + Wait + Sync>(
    alloc: Global,
    script: &str,
    wait: &W,
) -> Result<bool, Fail> {
    let mut begun = String::new(alloc);
    for line in script.split('\n') {
        begun.push_str(line)?;
        begun.push_str("\n")?;
        if !agree(alloc, begun.as_str(), wait)? {
            return Ok(false);
        }
    }
    Ok(true)
}

// Whether a script over SQLite keepers has these replies, and no fault of a keeper by itself.
fn is_answered<W: Threads + Wait + Sync>(
    alloc: Global,
    script: &str,
    replies: &str,
    wait: &W,
) -> Result<bool, Fail> {
    let played = over_sql(alloc, "", script, wait)?;
    Ok(played.faults == 0 && played.replies.as_slice() == replies.as_bytes())
}

#[test]
fn worked_rows_agree(rt: HostRuntime) -> Result<(), Fail> {
    let alloc = rt.alloc();
    let rows = [
        // Two writers of one key.
        (
            "put a /k 01\nput b /k 02\ncast a\ncast b\nhear a 2\nhear b 1\nwork a 2\nwork b 2\nget a /k\nget b /k\nsame a b",
            "ok 1\nok 1\nmessage 1\nmessage 2\nqueued 1\nqueued 1\nworked 1 0 0\nworked 1 0 0\n02\n02\nsame yes\n",
        ),
        // A put beside a delete.
        (
            "put a /k 01\ncast a\nhear b 1\nwork b 1\ndel b /k\nput a /k 03\ncast a\ncast b\nhear a 3\nhear b 2\nwork a 1\nwork b 1\nget a /k\nget b /k\nsame a b",
            "ok 1\nmessage 1\nqueued 1\nworked 1 0 0\ndeleted 1\nok 2\nmessage 2\nmessage 3\nqueued 1\nqueued 1\nworked 1 0 0\nworked 1 0 0\n03\n03\nsame yes\n",
        ),
        // A stop after the first commit, and after the second one.
        (
            "stopafter a 1\nput a /k 01\nopen a\nstate a\nput a /k 01\nstate a",
            "ok\nfault keeper\nok\nstate processed 0 stored 1 waiting 0 missing 0 bad 0 mark clear whole yes\nok 1\nstate processed 1 stored 1 waiting 0 missing 0 bad 0 mark clear whole yes\n",
        ),
        (
            "stopafter a 2\nput a /k 01\nopen a\nstate a\nget a /k",
            "ok\nfault keeper\nok\nstate processed 1 stored 1 waiting 0 missing 0 bad 0 mark clear whole yes\n01\n",
        ),
        // Batches.
        (
            "begin a\nbput a /k 01\nbdel a /k\nbput a /k 02\ncommit a\nget a /k\nbegin a\ncommit a\ncommit a\nbegin a\nbegin a",
            "ok\nok\nok\nok\nok 1\n02\nok\nok 0\nrefused batch\nok\nrefused batch\n",
        ),
    ];
    for (script, replies) in rows {
        assert!(rt; is_answered(alloc, script, replies, &rt)?, "{script}");
        assert!(rt; agree_at_each_line(alloc, script, &rt)?, "{script}");
    }
    Ok(())
}
