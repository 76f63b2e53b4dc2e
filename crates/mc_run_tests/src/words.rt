// The words of a command line.
use crate::runs::{Given, Meeting, WHOLE, run_past, sound};
use mc_app::Status;
use std::alloc::Global;
use std::sync::Wait;
use std::test::Fail;
use std::thread::Threads;

// How a run with these words ends, and how many bytes it writes.
fn run_words<W: Threads + Wait + Sync>(
    alloc: Global,
    words: &[&str],
    wait: &W,
) -> Result<(Status, usize), Fail> {
    let script = Given::script(alloc, b"get a /a\n", WHOLE)?;
    let gate = Meeting::new(false);
    let (status, out, _, _) = run_past(alloc, words, script, WHOLE, sound(alloc), &gate, wait)?;
    Ok((status, out.bytes().len()))
}

#[test]
fn words_in_another_form_are_refused(rt: HostRuntime) -> Result<(), Fail> {
    let refused: [&[&str]; 31] = [
        &[],
        &[""],
        &["walk"],
        &["Run"],
        &["--help"],
        &["-h"],
        &["--version"],
        &["run", "--help"],
        &["run", "--"],
        &["run", "run"],
        &["run", "--replicas"],
        &["run", "--replicas", "9"],
        &["run", "--replicas", "0"],
        &["run", "--replicas", "-1"],
        &["run", "--replicas", "+1"],
        &["run", "--replicas", ""],
        &["run", "--replicas", "000000000000000000003"],
        &["run", "--replicas", "3", "--replicas", "3"],
        &["run", "--replicas=2"],
        &["run", "--dir", "x"],
        &["run", "--keeper", "sqlite"],
        &["run", "--keeper", "sqlite", "--dir", "-x"],
        &["run", "--keeper", "memory", "--dir", "x"],
        &["run", "--keeper", "files"],
        &["run", "--keeper=memory"],
        &["run", "--start", "1"],
        &["gen", "--start", "1"],
        &["gen", "--count", "1"],
        &["gen", "--start", "0", "--count", "0"],
        &["gen", "--start", "0", "--count", "100001"],
        &["gen", "--start", "18446744073709551616", "--count", "1"],
    ];
    for words in refused {
        let ended = run_words(rt.alloc(), words, &rt)?;
        assert_eq!(rt; ended, (Status::Usage, 0));
    }
    Ok(())
}

#[test]
fn words_are_read_in_any_order(rt: HostRuntime) -> Result<(), Fail> {
    let taken: [&[&str]; 5] = [
        &["run"],
        &["run", "--replicas", "03"],
        &["run", "--keeper", "memory"],
        &["run", "--replicas", "8", "--keeper", "memory"],
        &[
            "run",
            "--keeper",
            "memory",
            "--replicas",
            "00000000000000000001",
        ],
    ];
    for words in taken {
        let (status, _) = run_words(rt.alloc(), words, &rt)?;
        assert_eq!(rt; status, Status::Done);
    }
    Ok(())
}
