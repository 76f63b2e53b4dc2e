// Tables that another program has changed.
use crate::both::over_sql;
use mc_file_tests::in_memory;
use mc_keep::KeepError;
use std::alloc::Global;
use std::sync::Wait;
use std::test::Fail;
use std::thread::Threads;

// Whether a script has these replies over tables that were changed by these statements, and one statement failed.
fn is_answered<W: Threads + Wait + Sync>(
    alloc: Global,
    before: &str,
    script: &str,
    replies: &str,
    wait: &W,
) -> Result<bool, Fail> {
    let played = over_sql(alloc, before, script, wait)?;
    Ok(played.faults == 1 && played.replies.as_slice() == replies.as_bytes())
}

#[test]
fn a_row_of_another_form_is_a_fault_of_the_keeper(rt: HostRuntime) -> Result<(), Fail> {
    let rows = [
        (
            "INSERT INTO value (key, priority, value) VALUES (x'2f6b', x'01', x'02')",
            "has a /k\nget a /l\nget a /k\nget a /l\nput a /l 01\nopen a\nget a /l",
            "yes\nnone\nfault keeper\nstopped\nstopped\nok\nnone\n",
        ),
        (
            "INSERT INTO value (key, priority, value) VALUES (x'2f6b', 1, x'02')",
            "get a /k\nget b /k\nhas a /k",
            "fault keeper\nnone\nstopped\n",
        ),
        (
            "INSERT INTO value (key, priority, value) VALUES (x'2fff', x'0000000000000001', x'02')",
            "get a /k\nquery a / 0 9\nstate a",
            "none\nfault keeper\nstopped\n",
        ),
        (
            "INSERT INTO head (cid, height) VALUES (x'01', x'0000000000000001')",
            "get a /k\nheads a\nheads a",
            "none\nfault keeper\nstopped\n",
        ),
        (
            "INSERT INTO head (cid, height) VALUES (x'000102030405060708090a0b0c0d0e0f101112131415161718191a1b1c1d1e1f', x'000001')",
            "has a /k\nput a /k 01\ncast a",
            "no\nfault keeper\nstopped\n",
        ),
        (
            "INSERT INTO element (key, cid, value, priority) VALUES (x'2f6b', x'000102030405060708090a0b0c0d0e0f101112131415161718191a1b1c1d1e', x'01', x'0000000000000001')",
            "get a /k\ndel a /l\ndel a /k\ndel a /l",
            "none\ndeleted 0\nfault keeper\nstopped\n",
        ),
        (
            "INSERT INTO value (key, priority, value) VALUES (x'2f6b', x'0000000000000001', x'02'); INSERT INTO winner (key, cid) VALUES (x'2f6b', x'01')",
            "get a /k\nput a /k 03\nput a /k 03",
            "02\nfault keeper\nstopped\n",
        ),
        (
            "INSERT INTO mark (pos, cid) VALUES (0, x'01'); UPDATE meta SET dirty = 1",
            "get a /k\nrepair a 1\nrepair a 1",
            "none\nfault keeper\nstopped\n",
        ),
        (
            "INSERT INTO block (cid, bytes) VALUES (x'000102030405060708090a0b0c0d0e0f101112131415161718191a1b1c1d1e1f', 1)",
            "wire 0a260a2401701220000102030405060708090a0b0c0d0e0f101112131415161718191a1b1c1d1e1f\nhear a 1\nstep a\nstep a",
            "message 1\nqueued 1\nfault keeper\nstopped\n",
        ),
    ];
    for (before, script, replies) in rows {
        assert!(rt;
            is_answered(rt.alloc(), before, script, replies, &rt)?,
            "{before}"
        );
    }
    Ok(())
}

// Whether tables that were changed by these statements are not adopted.
fn is_refused(alloc: Global, before: &str) -> bool {
    matches!(in_memory(alloc, before), Err(KeepError::Failed))
}

#[test]
fn tables_of_another_layout_are_not_adopted(rt: HostRuntime) -> Result<(), Fail> {
    let changes = [
        "UPDATE meta SET layout = 3",
        "UPDATE meta SET layout = 0",
        "UPDATE meta SET layout = 'two'",
        "UPDATE meta SET layout = 1; INSERT INTO progress (id, upto) VALUES (1, x'2fff')",
        "UPDATE meta SET layout = 1; INSERT INTO progress (id, upto) VALUES (1, 5)",
        "UPDATE meta SET dirty = 2",
        "UPDATE meta SET id = 2",
        "DELETE FROM meta",
        "DROP TABLE head",
        "DROP TABLE meta; CREATE TABLE meta (id INTEGER PRIMARY KEY)",
    ];
    for before in changes {
        assert!(rt; is_refused(rt.alloc(), before), "{before}");
    }
    Ok(())
}
