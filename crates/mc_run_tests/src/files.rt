// Runs over SQLite files.
use crate::drawing::drawn_script;
use crate::earlier::{WINNERS, statements};
use crate::runs::{Given, Meeting, Ran, WHOLE, run_with};
use mc_app::Status;
use mc_file_tests::{change_file, number};
use mc_keep_any::RealKeepers;
use sqlite::Connection;
use std::fs;
use std::sync::Wait;
use std::test::Fail;
use std::thread::Threads;

// A run of these words over the program's keepers.
fn over_real<W: Threads + Wait + Sync>(
    rt: &HostRuntime,
    keepers: &mut RealKeepers,
    words: &[&str],
    script: &str,
    wait: &W,
) -> Result<Ran, Fail> {
    let script = Given::script(rt.alloc(), script.as_bytes(), WHOLE)?;
    let gate = Meeting::new(false);
    run_with(rt.alloc(), words, script, WHOLE, keepers, &gate, wait)
}

// Whether a script over the files of a folder ends without a fault and writes this.
fn is_written<W: Threads + Wait + Sync>(
    rt: &HostRuntime,
    dir: &str,
    script: &str,
    wanted: &[u8],
    wait: &W,
) -> Result<bool, Fail> {
    let words = ["run", "--keeper", "sqlite", "--dir", dir];
    let mut keepers = RealKeepers::new(rt);
    let ran = over_real(rt, &mut keepers, &words, script, wait)?;
    let (status, out, faults, lost) = ran;
    Ok((status, faults, lost) == (Status::Done, 0, 0) && out.bytes() == wanted)
}

// A folder of this name without a file.
fn made(rt: &HostRuntime, dir: &str) -> Result<(), Fail> {
    let _ = fs::remove_dir_all(rt, dir);
    fs::create_dir(rt, dir)?;
    Ok(())
}

#[test]
fn a_second_run_finds_what_the_first_wrote(rt: HostRuntime) -> Result<(), Fail> {
    made(&rt, "mc_files_test")?;
    let runs = [
        (
            "put a /k 01\nput a /k 02\ndel a /k\nput a /l 03\nput b /k 04\ncast b\nhear a 1\nstep a\nstate a\nbegin c\nbput c /0 00\nbput c /1 01\nbput c /2 02\nbput c /3 03\nbput c /4 04\nbput c /5 05\nbput c /6 06\nbput c /7 07\nbput c /8 08\nbput c /9 09\ncommit c\n",
            "ok 1\nok 2\ndeleted 1\nok 4\nok 1\nmessage 1\nqueued 1\nprocessed\nstate processed 5 stored 5 waiting 0 missing 0 bad 0 mark clear whole yes\nok\nok\nok\nok\nok\nok\nok\nok\nok\nok\nok\nok 1\n",
        ),
        (
            "state a\nget a /k\nget a /l\nquery a / 0 9\nstate b\nget b /k\nstate c\nquery c / 0 99\nput a /k 05\nget a /k\n",
            "state processed 5 stored 5 waiting 0 missing 0 bad 0 mark clear whole yes\n04\n03\nrows 2\n/k 04\n/l 03\nstate processed 1 stored 1 waiting 0 missing 0 bad 0 mark clear whole yes\n04\nstate processed 1 stored 1 waiting 0 missing 0 bad 0 mark clear whole yes\nrows 10\n/0 00\n/1 01\n/2 02\n/3 03\n/4 04\n/5 05\n/6 06\n/7 07\n/8 08\n/9 09\nok 5\n05\n",
        ),
    ];
    for (script, replies) in runs {
        assert!(rt; is_written(&rt, "mc_files_test", script, replies.as_bytes(), &rt)?);
    }
    for file in [
        "mc_files_test/a.db",
        "mc_files_test/b.db",
        "mc_files_test/c.db",
    ] {
        assert!(rt; !fs::read(&rt, file)?.is_empty(), "{file}");
    }
    fs::remove_dir_all(&rt, "mc_files_test")?;
    Ok(())
}

#[test]
fn a_drawn_script_has_the_replies_of_memory(rt: HostRuntime) -> Result<(), Fail> {
    let script = drawn_script(rt.alloc(), 60, 34)?;
    let mut keepers = RealKeepers::new(&rt);
    let ran = over_real(&rt, &mut keepers, &["run"], script.as_str(), &rt)?;
    let (status, out, _, _) = ran;
    assert_eq!(rt; status, Status::Done);
    made(&rt, "mc_drawn_test")?;
    assert!(rt; is_written(&rt, "mc_drawn_test", script.as_str(), out.bytes(), &rt)?);
    fs::remove_dir_all(&rt, "mc_drawn_test")?;
    Ok(())
}

// Whether plain statements find the winners in this file.
fn has_winners(rt: &HostRuntime, file: &str) -> bool {
    let Ok(mut connection) = Connection::open(rt, file) else {
        return false;
    };
    let mut found = true;
    for (sql, wanted) in WINNERS {
        found = found && number(&mut connection, sql) == Some(wanted);
    }
    connection.close().is_ok() && found
}

#[test]
fn a_file_of_before_is_migrated_by_a_run(rt: HostRuntime) -> Result<(), Fail> {
    made(&rt, "mc_before_test")?;
    let tables = statements(rt.alloc())?;
    change_file(
        Connection::open(&rt, "mc_before_test/a.db"),
        tables.as_str(),
    )?;
    let script = "get a /k\nget a /l\nquery a / 0 9\nstate a\n";
    let replies =
        "05\n02\nrows 4\n/e -\n/k 05\n/l 02\n/z 09\nstate processed 7 stored 7 waiting 0 missing 0 bad 0 mark clear whole yes\n";
    for _ in 0..2 {
        assert!(rt; is_written(&rt, "mc_before_test", script, replies.as_bytes(), &rt)?);
        assert!(rt; has_winners(&rt, "mc_before_test/a.db"));
    }
    fs::remove_dir_all(&rt, "mc_before_test")?;
    Ok(())
}

// Whether no run begins over the files of a folder, and this is said of it.
fn is_refused<W: Threads + Wait + Sync>(
    rt: &HostRuntime,
    dir: &str,
    said: &str,
    wait: &W,
) -> Result<bool, Fail> {
    let words = ["run", "--keeper", "sqlite", "--dir", dir];
    let mut keepers = RealKeepers::new(rt);
    let ran = over_real(rt, &mut keepers, &words, "put a /k 01\n", wait)?;
    let (status, out, faults, lost) = ran;
    let Some(fault) = keepers.fault() else {
        return Ok(false);
    };
    let text = format!(in rt.alloc(); "{fault}")?;
    Ok(
        status.code() == 6
            && out.bytes().is_empty()
            && faults.saturating_add(lost) == 1
            && text.as_str() == said,
    )
}

#[test]
fn files_that_are_no_stores_are_named_and_left(rt: HostRuntime) -> Result<(), Fail> {
    let text = "this is no database, however long it is read";
    let _ = fs::remove_dir_all(&rt, "mc_other_test");
    let said = "mc_other_test/a.db: No such file or directory (os error 2)";
    assert!(rt; is_refused(&rt, "mc_other_test", said, &rt)?);
    made(&rt, "mc_other_test")?;
    fs::write(&rt, "mc_other_test/a.db", text)?;
    let said = "mc_other_test/a.db: it is no database, or a damaged one";
    assert!(rt; is_refused(&rt, "mc_other_test", said, &rt)?);
    let kept = fs::read_to_string(&rt, "mc_other_test/a.db")?;
    assert_eq!(rt; kept.as_str(), text);
    assert!(rt; fs::metadata(&rt, "mc_other_test/a.db-wal").is_err());
    fs::remove_dir_all(&rt, "mc_other_test")?;
    Ok(())
}
