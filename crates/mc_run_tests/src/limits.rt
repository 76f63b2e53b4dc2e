// The limits of lines, scripts, keys, values and blocks, and deletes of many puts.
use crate::runs::{Given, WHOLE, run_over, sound};
use mc_app::Status;
use std::alloc::Global;
use std::sync::Wait;
use std::test::Fail;
use std::thread::Threads;

// A text, and another one so many times after it.
type Piece = (&'static str, &'static str, u64);

// A script of these pieces, how its run ends, and its replies: so many priorities from 1 on, and a text.
#[derive(Drop)]
struct Row {
    script: &'static [Piece],
    status: Status,
    puts: u64,
    last: &'static str,
}

fn push_repeated(text: &mut String, piece: &str, times: u64) -> Result<(), Fail> {
    for _ in 0..times {
        text.push_str(piece)?;
    }
    Ok(())
}

fn script_of(alloc: Global, pieces: &[Piece]) -> Result<String, Fail> {
    let mut text = String::new(alloc);
    for (head, piece, times) in pieces {
        text.push_str(head)?;
        push_repeated(&mut text, piece, *times)?;
    }
    Ok(text)
}

// The replies to so many puts of one key, and a text.
fn replies_of(alloc: Global, puts: u64, last: &str) -> Result<String, Fail> {
    let mut text = String::new(alloc);
    for number in 1..=puts {
        let line = format!(in alloc; "ok {number}\n")?;
        text.push_str(line.as_str())?;
    }
    text.push_str(last)?;
    Ok(text)
}

// Whether a run of this script ends so, with these replies.
fn is_so<W: Threads + Wait + Sync>(
    alloc: Global,
    script: &str,
    status: Status,
    replies: &str,
    wait: &W,
) -> Result<bool, Fail> {
    let script = Given::script(alloc, script.as_bytes(), WHOLE)?;
    let (ended, out, _, _) = run_over(alloc, script, WHOLE, sound(alloc), wait)?;
    Ok(ended == status && out.bytes() == replies.as_bytes())
}

const DONE: Status = Status::Done;

fn row_of(script: &'static [Piece], status: Status, puts: u64, last: &'static str) -> Row {
    Row {
        script,
        status,
        puts,
        last,
    }
}

#[test]
fn lines_keys_values_and_blocks_end_at_their_limits(rt: HostRuntime) -> Result<(), Fail> {
    let alloc = rt.alloc();
    let rows = [
        row_of(&[("", "#", 4_194_304)], DONE, 0, ""),
        row_of(
            &[("", "#", 4_194_305)],
            Status::BadLine { line: 1 },
            0,
            "bad line 1\n",
        ),
        row_of(&[("put a /", "x", 1_023), (" 01", "", 0)], DONE, 1, ""),
        row_of(
            &[("put a /", "x", 1_024), (" 01", "", 0)],
            DONE,
            0,
            "refused key 3\n",
        ),
        // A batch that is too large for a block, and a value that is too long.
        row_of(
            &[
                ("begin a\nbput a /a ", "0", 524_288),
                ("\nbput a /b ", "0", 524_288),
                ("\nbput a /c ", "0", 524_288),
                ("\nbput a /d ", "0", 524_288),
                ("\ncommit a\nbput a /d -\ncommit a\nput a /a ", "0", 524_290),
            ],
            DONE,
            0,
            "ok\nok\nok\nok\nok\nrefused size 1048630\nok\nok 1\nrefused value\n",
        ),
        row_of(
            &[
                ("", "put a /a 01\n", 16_384),
                ("del a /a\nget a /a\n", "", 0),
            ],
            DONE,
            16_384,
            "deleted 2\nnone\n",
        ),
        row_of(
            &[
                ("", "put a /a 01\n", 16_383),
                ("del a /a\nget a /a\n", "", 0),
            ],
            DONE,
            16_383,
            "deleted 1\nnone\n",
        ),
    ];
    for row in &rows {
        let script = script_of(alloc, row.script)?;
        let replies = replies_of(alloc, row.puts, row.last)?;
        assert!(rt;
            is_so(alloc, script.as_str(), row.status, replies.as_str(), &rt)?,
            "{}",
            row.last
        );
    }
    Ok(())
}

// How a run over these bytes again and again ends, and whether it writes this.
fn ends_at<W: Threads + Wait + Sync>(
    alloc: Global,
    bytes: &[u8],
    line: u64,
    written: &str,
    wait: &W,
) -> Result<bool, Fail> {
    let script = Given::endless(alloc, bytes)?;
    let (status, out, _, _) = run_over(alloc, script, WHOLE, sound(alloc), wait)?;
    Ok(status == Status::BadLine { line } && out.bytes() == written.as_bytes())
}

#[test]
fn a_source_without_an_end_ends_at_a_limit(rt: HostRuntime) -> Result<(), Fail> {
    let alloc = rt.alloc();
    assert!(rt; ends_at(alloc, b"g", 1, "bad line 1\n", &rt)?);
    // Lines of 1,031 bytes: 1,041,456 of them keep the script's limit of 1,073,741,824 bytes, and the next does not.
    let line = script_of(alloc, &[("# ", "b", 1_028), ("\n", "", 0)])?;
    assert!(rt; ends_at(alloc, line.as_bytes(), 1_041_457, "bad line 1041457\n", &rt)?);
    Ok(())
}

// So many puts of one key whose text has this many letters, a fuse, the delete, and what is left of the key.
fn delete_stopped_at(alloc: Global, puts: u64, letters: u64, fuse: &str) -> Result<String, Fail> {
    let mut key = String::from_str(alloc, "/")?;
    push_repeated(&mut key, "x", letters)?;
    let put = format!(in alloc; "put a {key} 01\n")?;
    let mut script = String::new(alloc);
    push_repeated(&mut script, put.as_str(), puts)?;
    let rest = format!(in alloc; "{fuse}\ndel a {key}\nopen a\nstate a\nhas a {key}")?;
    script.push_str(rest.as_str())?;
    Ok(script)
}

// What such a script answers, where so many of the commits of a delete of two blocks happened.
fn replies_at_stop(alloc: Global, puts: u64, commits: u64) -> Result<String, Fail> {
    let processed = puts.saturating_add(commits / 2);
    let stored = puts.saturating_add(commits.saturating_add(1) / 2);
    let left = if commits < 4 { "yes" } else { "no" };
    let last = format!(in alloc;
        "ok\nfault keeper\nok\nstate processed {processed} stored {stored} waiting 0 missing 0 bad 0 mark clear whole yes\n{left}\n"
    )?;
    replies_of(alloc, puts, last.as_str())
}

#[test]
fn a_delete_of_two_blocks_stops_at_each_commit(rt: HostRuntime) -> Result<(), Fail> {
    let alloc = rt.alloc();
    // Puts and the letters of their key, so that the tombstones are two blocks, the fuse, and the commits that happen.
    let rows = [
        (1_000, 1_023, "stopat a 1", 0),
        (1_000, 1_023, "stopafter a 1", 1),
        (1_000, 1_023, "stopat a 2", 1),
        (1_000, 1_023, "stopafter a 2", 2),
        (1_000, 1_023, "stopat a 3", 2),
        (1_000, 1_023, "stopafter a 3", 3),
        (1_000, 1_023, "stopat a 4", 3),
        (1_000, 1_023, "stopafter a 4", 4),
        (16_384, 1, "stopafter a 2", 2),
    ];
    for (puts, letters, fuse, commits) in rows {
        let script = delete_stopped_at(alloc, puts, letters, fuse)?;
        let replies = replies_at_stop(alloc, puts, commits)?;
        assert!(rt;
            is_so(alloc, script.as_str(), DONE, replies.as_str(), &rt)?,
            "{puts} {fuse}"
        );
    }
    Ok(())
}
