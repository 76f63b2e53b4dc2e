// Lines that are commands and lines that are none, and the text of each reply.
use mc_base::{Bytes, Cid, List, Text};
use mc_script::{Command, LineError, Reply, read_line, write_reply};
use std::alloc::{AllocError, Global};
use std::test::Fail;

#[test]
fn lines_that_are_no_command(rt: HostRuntime) -> Result<(), Fail> {
    let alloc = rt.alloc();
    let bad: [&[u8]; 58] = [
        b" ",
        b" #",
        b"frob",
        b"frob a /a",
        b"PUT a /a 01",
        b"put",
        b"put a",
        b"put a /a",
        b"put a /a 01 02",
        b"put a /a 01 ",
        b" put a /a 01",
        b"put  a /a 01",
        b"put a  /a 01",
        b"put a /a  01",
        b"put a  01",
        b"put\ta /a 01",
        b"put a /a 01\r",
        b"put i /a 01",
        b"put A /a 01",
        b"put aa /a 01",
        b"put ` /a 01",
        b"put 0 /a 01",
        b"put a /a 0",
        b"put a /a 010",
        b"put a /a 0g",
        b"put a /a 0x01",
        b"put a /a --",
        b"put a /a -01",
        b"put a /\xff 01",
        b"\xff",
        b"#\xff",
        b"del a",
        b"del a /a 01",
        b"begin",
        b"begin a /a",
        b"bput a /a",
        b"bdel a",
        b"commit",
        b"commit a 1",
        b"get a",
        b"get a ",
        b"get a /a 01",
        b"has a",
        b"has i /a",
        b"heads",
        b"heads a b",
        b"heads ",
        b"query a /",
        b"query a / 0",
        b"query a / 0 1 2",
        b"query a / -1 1",
        b"query a / +1 1",
        b"query a / 0x1 1",
        b"query a / 1.0 1",
        b"query a / 0 18446744073709551616",
        b"query a / 0 99999999999999999999",
        b"query a / 0 000000000000000000001",
        b"query a  0 1",
    ];
    for line in bad {
        let answer = read_line(alloc, line);
        assert!(rt; matches!(answer, Err(LineError::Bad)), "at {line:?}");
    }
    Ok(())
}

#[test]
fn lines_that_are_no_command_of_a_run(rt: HostRuntime) -> Result<(), Fail> {
    let alloc = rt.alloc();
    let bad: [&[u8]; 53] = [
        b"cast",
        b"cast a 1",
        b"cast i",
        b"Cast a",
        b"wire",
        b"wire 0",
        b"wire 0g",
        b"wire a 00",
        b"wire 00 00",
        b"hear a",
        b"hear a 1 2",
        b"hear a -1",
        b"hear 1 a",
        b"hear a 18446744073709551616",
        b"hear a 000000000000000000001",
        b"plant a notacid 00",
        b"plant a bafybeihdwdcefgh4dqkjv67uzcmw7ojee6xedzdetojuzjevtenxquvyku",
        b"plant a bafybeihdwdcefgh4dqkjv67uzcmw7ojee6xedzdetojuzjevtenxquvyku 0",
        b"plant a bafybeihdwdcefgh4dqkjv67uzcmw7ojee6xedzdetojuzjevtenxquvyku 00 00",
        b"plant i bafybeihdwdcefgh4dqkjv67uzcmw7ojee6xedzdetojuzjevtenxquvyku 00",
        b"plant bafybeihdwdcefgh4dqkjv67uzcmw7ojee6xedzdetojuzjevtenxquvyku 00",
        b"plant a bAfybeihdwdcefgh4dqkjv67uzcmw7ojee6xedzdetojuzjevtenxquvyku 00",
        b"plant a bafyreihdwdcefgh4dqkjv67uzcmw7ojee6xedzdetojuzjevtenxquvyku 00",
        b"link a a up",
        b"link h h down",
        b"link a b",
        b"link a b Up",
        b"link a b upward",
        b"link a b up down",
        b"link a i up",
        b"link a up b",
        b"step",
        b"step a 1",
        b"state",
        b"state a b",
        b"same a",
        b"same a i",
        b"same a b c",
        b"stop",
        b"stop a 1",
        b"stop at a 1",
        b"open",
        b"open i",
        b"stopat a",
        b"stopat a 0",
        b"stopat a 00000000000000000000",
        b"stopat a 1000001",
        b"stopat a b",
        b"stopat a 1 1",
        b"stopAt a 1",
        b"stopafter a",
        b"stopafter a 0",
        b"stopafter a 1000001",
    ];
    for line in bad {
        let answer = read_line(alloc, line);
        assert!(rt; matches!(answer, Err(LineError::Bad)), "at {line:?}");
    }
    Ok(())
}

#[test]
fn lines_that_are_no_command_of_a_crowd(rt: HostRuntime) -> Result<(), Fail> {
    let alloc = rt.alloc();
    let bad: [&[u8]; 24] = [
        b"work",
        b"work a",
        b"work a 0",
        b"work a 17",
        b"work i 1",
        b"work a 1 0",
        b"work a 1 1048577",
        b"work a 1 -",
        b"work a 1 2 3",
        b"work a b",
        b"repair a",
        b"repair a 0",
        b"repair a 17",
        b"repair a 1 1",
        b"repair i 1",
        b"storm a",
        b"storm a 8",
        b"storm a 0 1",
        b"storm a 17 1",
        b"storm a 1 0",
        b"storm a 1 10001",
        b"storm a 1 1 1",
        b"storm i 1 1",
        b"Storm a 1 1",
    ];
    for line in bad {
        let answer = read_line(alloc, line);
        assert!(rt; matches!(answer, Err(LineError::Bad)), "at {line:?}");
    }
    Ok(())
}

#[test]
fn lines_that_are_no_command_of_histories(rt: HostRuntime) -> Result<(), Fail> {
    let alloc = rt.alloc();
    let bad: [&[u8]; 38] = [
        b"export",
        b"export a 1",
        b"export i",
        b"export ",
        b"Export a",
        b"carin",
        b"carin 0",
        b"carin 0g",
        b"carin a 00",
        b"carin 00 00",
        b"import",
        b"import a",
        b"import a 1 2",
        b"import i 1",
        b"import 1 a",
        b"import a -1",
        b"import a 18446744073709551616",
        b"import a 000000000000000000001",
        b"feed",
        b"feed a",
        b"feed a 0",
        b"feed a 0 10 20",
        b"feed i 0 10",
        b"feed a -1 10",
        b"feed a 0 all",
        b"feed a 18446744073709551616 1",
        b"feed a 1 18446744073709551616",
        b"feed a 0 000000000000000000001",
        b"getat",
        b"getat a",
        b"getat a bafybeihdwdcefgh4dqkjv67uzcmw7ojee6xedzdetojuzjevtenxquvyku",
        b"getat a bafybeihdwdcefgh4dqkjv67uzcmw7ojee6xedzdetojuzjevtenxquvyku ",
        b"getat a bafybeihdwdcefgh4dqkjv67uzcmw7ojee6xedzdetojuzjevtenxquvyku /a /b",
        b"getat i bafybeihdwdcefgh4dqkjv67uzcmw7ojee6xedzdetojuzjevtenxquvyku /a",
        b"getat a /a bafybeihdwdcefgh4dqkjv67uzcmw7ojee6xedzdetojuzjevtenxquvyku",
        b"getat a notacid /a",
        b"getat a bAfybeihdwdcefgh4dqkjv67uzcmw7ojee6xedzdetojuzjevtenxquvyku /a",
        b"getat a bafyreihdwdcefgh4dqkjv67uzcmw7ojee6xedzdetojuzjevtenxquvyku /a",
    ];
    for line in bad {
        let answer = read_line(alloc, line);
        assert!(rt; matches!(answer, Err(LineError::Bad)), "at {line:?}");
    }
    Ok(())
}

// The parts of a command: its name, its replica, its key or prefix or the word of a link, its bytes, and its numbers.
fn parts(command: &Command) -> (&str, u64, &str, &[u8], u64, u64) {
    match command {
        Command::Put { r, key, bytes } => ("put", *r, key.as_str(), bytes.as_slice(), 0, 0),
        Command::Del { r, key } => ("del", *r, key.as_str(), b"", 0, 0),
        Command::Begin { r } => ("begin", *r, "", b"", 0, 0),
        Command::BatchPut { r, key, bytes } => ("bput", *r, key.as_str(), bytes.as_slice(), 0, 0),
        Command::BatchDel { r, key } => ("bdel", *r, key.as_str(), b"", 0, 0),
        Command::Commit { r } => ("commit", *r, "", b"", 0, 0),
        Command::Get { r, key } => ("get", *r, key.as_str(), b"", 0, 0),
        Command::Has { r, key } => ("has", *r, key.as_str(), b"", 0, 0),
        Command::Query {
            r,
            prefix,
            skip,
            take,
        } => ("query", *r, prefix.as_str(), b"", *skip, *take),
        Command::Heads { r } => ("heads", *r, "", b"", 0, 0),
        _ => parts_of_a_run(command),
    }
}

fn parts_of_a_run(command: &Command) -> (&str, u64, &str, &[u8], u64, u64) {
    match command {
        Command::Cast { r } => ("cast", *r, "", b"", 0, 0),
        Command::Wire { bytes } => ("wire", 0, "", bytes.as_slice(), 0, 0),
        Command::Hear { r, message } => ("hear", *r, "", b"", *message, 0),
        Command::Plant { r, cid, bytes } => ("plant", *r, name_of(cid), bytes.as_slice(), 0, 0),
        Command::Link { r, other, up } => {
            ("link", *r, if *up { "up" } else { "down" }, b"", *other, 0)
        }
        Command::Step { r } => ("step", *r, "", b"", 0, 0),
        Command::Work {
            r,
            workers,
            budget: None,
        } => ("work", *r, "", b"", *workers, 0),
        Command::Work {
            r,
            workers,
            budget: Some(budget),
        } => ("work with a budget", *r, "", b"", *workers, *budget),
        Command::Repair { r, workers } => ("repair", *r, "", b"", *workers, 0),
        Command::Storm { r, writers, writes } => ("storm", *r, "", b"", *writers, *writes),
        Command::State { r } => ("state", *r, "", b"", 0, 0),
        Command::Same { r, other } => ("same", *r, "", b"", *other, 0),
        Command::Stop { r } => ("stop", *r, "", b"", 0, 0),
        Command::Open { r } => ("open", *r, "", b"", 0, 0),
        Command::StopAt { r, commit } => ("stopat", *r, "", b"", *commit, 0),
        Command::StopAfter { r, commit } => ("stopafter", *r, "", b"", *commit, 0),
        _ => parts_of_histories(command),
    }
}

fn parts_of_histories(command: &Command) -> (&str, u64, &str, &[u8], u64, u64) {
    match command {
        Command::Export { r } => ("export", *r, "", b"", 0, 0),
        Command::CarIn { bytes } => ("carin", 0, "", bytes.as_slice(), 0, 0),
        Command::Import { r, car } => ("import", *r, "", b"", *car, 0),
        Command::Feed { r, from, count } => ("feed", *r, "", b"", *from, *count),
        Command::GetAt { r, cid, key } => {
            ("getat", *r, name_of(cid), key.as_str().as_bytes(), 0, 0)
        }
        _ => ("another", 0, "", b"", 0, 0),
    }
}

// Whose identifier it is.
fn name_of(cid: &Cid) -> &'static str {
    if *cid == Cid::of(b"") {
        "the empty block"
    } else {
        "another block"
    }
}

#[test]
fn lines_that_are_commands(rt: HostRuntime) -> Result<(), Fail> {
    let alloc = rt.alloc();
    let rows: [(&[u8], (&str, u64, &str, &[u8], u64, u64)); 17] = [
        (b"put a /ab 0aFf", ("put", 0, "/ab", b"\x0a\xff", 0, 0)),
        (b"put h / -", ("put", 7, "/", b"", 0, 0)),
        (b"put b a ABCDEF", ("put", 1, "a", b"\xab\xcd\xef", 0, 0)),
        (b"put c /\xc3\xa9% 00", ("put", 2, "/\u{e9}%", b"\0", 0, 0)),
        (b"put d # 23", ("put", 3, "#", b"#", 0, 0)),
        (b"del e /a/../b", ("del", 4, "/a/../b", b"", 0, 0)),
        (b"begin f", ("begin", 5, "", b"", 0, 0)),
        (b"bput g /a 01", ("bput", 6, "/a", b"\x01", 0, 0)),
        (b"bdel h /a", ("bdel", 7, "/a", b"", 0, 0)),
        (b"commit a", ("commit", 0, "", b"", 0, 0)),
        (b"get a /a\0", ("get", 0, "/a\0", b"", 0, 0)),
        (b"has b get", ("has", 1, "get", b"", 0, 0)),
        (b"heads c", ("heads", 2, "", b"", 0, 0)),
        (b"query a / 0 100", ("query", 0, "/", b"", 0, 100)),
        (b"query a /a/ 5 6", ("query", 0, "/a/", b"", 5, 6)),
        (
            b"query a / 18446744073709551615 00000000000000000007",
            ("query", 0, "/", b"", u64::MAX, 7),
        ),
        (
            b"query a 1 09999999999999999999 0",
            ("query", 0, "1", b"", 9_999_999_999_999_999_999, 0),
        ),
    ];
    for (line, want) in rows {
        let read = read_line(alloc, line)?;
        let Some(command) = read else {
            return Err(Fail::new("the line is a command"));
        };
        assert_eq!(rt; parts(&command), want);
    }
    Ok(())
}

#[test]
fn lines_that_are_commands_of_a_run(rt: HostRuntime) -> Result<(), Fail> {
    let alloc = rt.alloc();
    let rows: [(&[u8], (&str, u64, &str, &[u8], u64, u64)); 28] = [
        (b"work a 1", ("work", 0, "", b"", 1, 0)),
        (b"work h 016", ("work", 7, "", b"", 16, 0)),
        (
            b"work b 4 1048576",
            ("work with a budget", 1, "", b"", 4, 1_048_576),
        ),
        (b"repair c 16", ("repair", 2, "", b"", 16, 0)),
        (b"storm a 16 10000", ("storm", 0, "", b"", 16, 10_000)),
        (b"storm d 1 1", ("storm", 3, "", b"", 1, 1)),
        (b"cast a", ("cast", 0, "", b"", 0, 0)),
        (b"wire 0aFf", ("wire", 0, "", b"\x0a\xff", 0, 0)),
        (b"wire -", ("wire", 0, "", b"", 0, 0)),
        (b"hear b 1", ("hear", 1, "", b"", 1, 0)),
        (b"hear b 0", ("hear", 1, "", b"", 0, 0)),
        (
            b"hear c 18446744073709551615",
            ("hear", 2, "", b"", u64::MAX, 0),
        ),
        (b"hear d 00000000000000000012", ("hear", 3, "", b"", 12, 0)),
        (
            b"plant h bafybeihdwdcefgh4dqkjv67uzcmw7ojee6xedzdetojuzjevtenxquvyku 00",
            ("plant", 7, "the empty block", b"\0", 0, 0),
        ),
        (
            b"plant c bafybeif2pall7dybz7vecqka3zo24irdwabwdi4wc55jznaq75q7eaavvu -",
            ("plant", 2, "another block", b"", 0, 0),
        ),
        (b"link a b up", ("link", 0, "up", b"", 1, 0)),
        (b"link h a down", ("link", 7, "down", b"", 0, 0)),
        (b"step e", ("step", 4, "", b"", 0, 0)),
        (b"state f", ("state", 5, "", b"", 0, 0)),
        (b"same a b", ("same", 0, "", b"", 1, 0)),
        (b"same g g", ("same", 6, "", b"", 6, 0)),
        (b"stop a", ("stop", 0, "", b"", 0, 0)),
        (b"open b", ("open", 1, "", b"", 0, 0)),
        (b"stopat a 1", ("stopat", 0, "", b"", 1, 0)),
        (b"stopat c 1000000", ("stopat", 2, "", b"", 1_000_000, 0)),
        (b"stopafter b 3", ("stopafter", 1, "", b"", 3, 0)),
        (b"stopafter a 007", ("stopafter", 0, "", b"", 7, 0)),
        (
            b"stopafter h 1000000",
            ("stopafter", 7, "", b"", 1_000_000, 0),
        ),
    ];
    for (line, want) in rows {
        let read = read_line(alloc, line)?;
        let Some(command) = read else {
            return Err(Fail::new("the line is a command"));
        };
        assert_eq!(rt; parts(&command), want);
    }
    Ok(())
}

#[test]
fn lines_that_are_commands_of_histories(rt: HostRuntime) -> Result<(), Fail> {
    let alloc = rt.alloc();
    let rows: [(&[u8], (&str, u64, &str, &[u8], u64, u64)); 14] = [
        (b"export a", ("export", 0, "", b"", 0, 0)),
        (b"export h", ("export", 7, "", b"", 0, 0)),
        (b"carin 0aFf", ("carin", 0, "", b"\x0a\xff", 0, 0)),
        (b"carin -", ("carin", 0, "", b"", 0, 0)),
        (b"import b 1", ("import", 1, "", b"", 1, 0)),
        (b"import c 0", ("import", 2, "", b"", 0, 0)),
        (
            b"import d 18446744073709551615",
            ("import", 3, "", b"", u64::MAX, 0),
        ),
        (b"feed a 0 10", ("feed", 0, "", b"", 0, 10)),
        (b"feed b 3 0", ("feed", 1, "", b"", 3, 0)),
        (
            b"feed h 18446744073709551615 00000000000000000007",
            ("feed", 7, "", b"", u64::MAX, 7),
        ),
        (
            b"feed a 1 18446744073709551615",
            ("feed", 0, "", b"", 1, u64::MAX),
        ),
        (
            b"getat a bafybeihdwdcefgh4dqkjv67uzcmw7ojee6xedzdetojuzjevtenxquvyku /a",
            ("getat", 0, "the empty block", b"/a", 0, 0),
        ),
        (
            b"getat e bafybeif2pall7dybz7vecqka3zo24irdwabwdi4wc55jznaq75q7eaavvu %\xc3\xa9",
            ("getat", 4, "another block", b"%\xc3\xa9", 0, 0),
        ),
        (
            b"getat f bafybeihdwdcefgh4dqkjv67uzcmw7ojee6xedzdetojuzjevtenxquvyku -",
            ("getat", 5, "the empty block", b"-", 0, 0),
        ),
    ];
    for (line, want) in rows {
        let read = read_line(alloc, line)?;
        let Some(command) = read else {
            return Err(Fail::new("the line is a command"));
        };
        assert_eq!(rt; parts(&command), want);
    }
    Ok(())
}

#[test]
fn lines_without_a_reply(rt: HostRuntime) -> Result<(), Fail> {
    let alloc = rt.alloc();
    let silent: [&[u8]; 5] = [b"", b"#", b"# put a /a 01", b"#  \r", b"#\xc3\xa9"];
    for line in silent {
        let answer = read_line(alloc, line);
        assert!(rt; matches!(answer, Ok(None)), "at {line:?}");
    }
    Ok(())
}

// What is written for a reply, after one byte that stands there already.
fn written(alloc: Global, reply: &Reply) -> Result<Bytes, AllocError> {
    let mut out = Bytes::from_slice(alloc, b"\n")?;
    write_reply(alloc, reply, &mut out)?;
    Ok(out)
}

#[test]
fn replies_of_one_line(rt: HostRuntime) -> Result<(), Fail> {
    let alloc = rt.alloc();
    let cid = Cid::of(b"");
    let rows: [(Reply, &[u8]); 18] = [
        (Reply::Done, b"\nok\n"),
        (Reply::Priority { priority: 12 }, b"\nok 12\n"),
        (Reply::Priority { priority: 0 }, b"\nok 0\n"),
        (
            Reply::Deleted { blocks: u64::MAX },
            b"\ndeleted 18446744073709551615\n",
        ),
        (Reply::Value { value: None }, b"\nnone\n"),
        (Reply::Has { yes: true }, b"\nyes\n"),
        (Reply::Has { yes: false }, b"\nno\n"),
        (Reply::Stopped, b"\nstopped\n"),
        (Reply::FaultKeeper, b"\nfault keeper\n"),
        (Reply::RefusedKey { number: 4 }, b"\nrefused key 4\n"),
        (Reply::RefusedValue, b"\nrefused value\n"),
        (
            Reply::RefusedSize { len: 1_048_630 },
            b"\nrefused size 1048630\n",
        ),
        (Reply::RefusedPriority, b"\nrefused priority\n"),
        (
            Reply::RefusedClash { cid },
            b"\nrefused clash bafybeihdwdcefgh4dqkjv67uzcmw7ojee6xedzdetojuzjevtenxquvyku\n",
        ),
        (Reply::RefusedBatch, b"\nrefused batch\n"),
        (Reply::RefusedCast, b"\nrefused cast\n"),
        (value_of(Bytes::new(alloc)), b"\n-\n"),
        (
            value_of(Bytes::from_slice(alloc, b"\x0a\xff")?),
            b"\n0aff\n",
        ),
    ];
    for (reply, want) in &rows {
        assert_eq!(rt; written(alloc, reply)?.as_slice(), *want);
    }
    Ok(())
}

#[test]
fn replies_of_a_run(rt: HostRuntime) -> Result<(), Fail> {
    let alloc = rt.alloc();
    let rows: [(Reply, &[u8]); 21] = [
        (
            Reply::Worked {
                processed: 1,
                missing: u64::MAX,
                bad: 0,
            },
            b"\nworked 1 18446744073709551615 0\n",
        ),
        (Reply::Again { processed: 2 }, b"\nagain 2\n"),
        (Reply::Clean, b"\nclean\n"),
        (Reply::OpenGaps { gaps: 1 }, b"\nopen 1\n"),
        (
            Reply::Stormed {
                made: 800,
                same: 799,
            },
            b"\nstormed 800 799\n",
        ),
        (Reply::Message { number: 1 }, b"\nmessage 1\n"),
        (Reply::Queued { count: 0 }, b"\nqueued 0\n"),
        (
            Reply::Queued { count: u64::MAX },
            b"\nqueued 18446744073709551615\n",
        ),
        (Reply::Processed, b"\nprocessed\n"),
        (Reply::Missing, b"\nmissing\n"),
        (Reply::Bad { damage: 3 }, b"\nbad 3\n"),
        (Reply::Idle, b"\nidle\n"),
        (
            state_of(0, 0, false, true),
            b"\nstate processed 0 stored 0 waiting 3 missing 4 bad 5 mark clear whole yes\n",
        ),
        (
            state_of(1, 2, true, false),
            b"\nstate processed 1 stored 2 waiting 3 missing 4 bad 5 mark set whole no\n",
        ),
        (
            state_of(800, u64::MAX, true, true),
            b"\nstate processed 800 stored 18446744073709551615 waiting 3 missing 4 bad 5 mark set whole yes\n",
        ),
        (Reply::Same { yes: true }, b"\nsame yes\n"),
        (Reply::Same { yes: false }, b"\nsame no\n"),
        (Reply::FaultPeer, b"\nfault peer\n"),
        (Reply::FaultKeeper, b"\nfault keeper\n"),
        (Reply::RefusedCast, b"\nrefused cast\n"),
        (Reply::RefusedOpen, b"\nrefused open\n"),
    ];
    for (reply, want) in &rows {
        assert_eq!(rt; written(alloc, reply)?.as_slice(), *want);
    }
    Ok(())
}

#[test]
fn replies_of_histories(rt: HostRuntime) -> Result<(), Fail> {
    let alloc = rt.alloc();
    let rows: [(Reply, &[u8]); 7] = [
        (
            Reply::Car {
                number: 1,
                len: 109,
            },
            b"\ncar 1 109\n",
        ),
        (
            Reply::Car {
                number: u64::MAX,
                len: 0,
            },
            b"\ncar 18446744073709551615 0\n",
        ),
        (
            Reply::Imported {
                stored: 0,
                queued: u64::MAX,
            },
            b"\nimported 0 18446744073709551615\n",
        ),
        (
            Reply::RefusedRoots { number: 256 },
            b"\nrefused roots 256\n",
        ),
        (Reply::RefusedCar { number: 6 }, b"\nrefused car 6\n"),
        (Reply::RefusedView, b"\nrefused view\n"),
        (
            Reply::Events {
                events: List::new(alloc),
            },
            b"\nfeed 0\n",
        ),
    ];
    for (reply, want) in &rows {
        assert_eq!(rt; written(alloc, reply)?.as_slice(), *want);
    }
    Ok(())
}

// The state of a replica with three jobs that wait, four missing blocks, and five bad ones.
fn state_of(processed: u64, stored: u64, mark: bool, whole: bool) -> Reply {
    Reply::State {
        processed,
        stored,
        waiting: 3,
        missing: 4,
        bad: 5,
        mark,
        whole,
    }
}

fn value_of(bytes: Bytes) -> Reply {
    Reply::Value { value: Some(bytes) }
}

#[test]
fn replies_of_many_lines(rt: HostRuntime) -> Result<(), Fail> {
    let alloc = rt.alloc();
    let mut rows = List::new(alloc);
    for (key, value) in [
        ("/a", b"\x01".as_slice()),
        ("", b""),
        (" ~!%\u{7f}\u{e9}", b"\xab"),
    ] {
        rows.push((
            Text::from_text(alloc, key)?,
            Bytes::from_slice(alloc, value)?,
        ))?;
    }
    let rows = Reply::Rows { rows };
    assert_eq!(rt;
        written(alloc, &rows)?.as_slice(),
        b"\nrows 3\n/a 01\n% -\n%20~!%25%7F%C3%A9 ab\n".as_slice()
    );
    let mut heads = List::new(alloc);
    heads.push((Cid::of(b""), 0))?;
    heads.push((Cid::of(b"abc"), 7))?;
    let heads = Reply::Heads { heads };
    assert_eq!(rt;
        written(alloc, &heads)?.as_slice(),
        b"\nheads 2\nbafybeihdwdcefgh4dqkjv67uzcmw7ojee6xedzdetojuzjevtenxquvyku 0\nbafybeif2pall7dybz7vecqka3zo24irdwabwdi4wc55jznaq75q7eaavvu 7\n".as_slice()
    );
    Ok(())
}

#[test]
fn replies_of_changes(rt: HostRuntime) -> Result<(), Fail> {
    let alloc = rt.alloc();
    let changes: [(u64, &str, Option<&[u8]>); 5] = [
        (0, "/a", Some(b"\x01")),
        (2, "/b", Some(b"")),
        (2, "/none", None),
        (10, "", Some(b"none")),
        (u64::MAX, " ~!%\u{7f}\u{e9}", Some(b"\xab\xff")),
    ];
    let mut events = List::new(alloc);
    for (position, key, value) in changes {
        let key = Text::from_text(alloc, key)?;
        let value = match value {
            Some(bytes) => Some(Bytes::from_slice(alloc, bytes)?),
            None => None,
        };
        events.push((position, key, value))?;
    }
    let events = Reply::Events { events };
    assert_eq!(rt;
        written(alloc, &events)?.as_slice(),
        b"\nfeed 5\n0 /a 01\n2 /b -\n2 /none none\n10 % 6e6f6e65\n18446744073709551615 %20~!%25%7F%C3%A9 abff\n".as_slice()
    );
    Ok(())
}
