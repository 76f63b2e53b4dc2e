// Scripts that are read and answered line by line over new replicas. Those of many lines stand in the program's stored run.
use crate::runs::{Given, Meeting, Pieces, WHOLE, run_over, run_past, sound};
use mc_app::Status;
use std::alloc::Global;
use std::sync::Wait;
use std::sync::atomic::Ordering::SeqCst;
use std::test::Fail;
use std::thread::Threads;

#[derive(Clone, Copy)]
struct Row {
    script: &'static str,
    reads: Pieces,
    writes: Pieces,
    status: Status,
    code: u8,
    written: &'static str,
}

fn done(script: &'static str, written: &'static str) -> Row {
    Row {
        script,
        reads: WHOLE,
        writes: WHOLE,
        status: Status::Done,
        code: 0,
        written,
    }
}

fn bad(script: &'static str, line: u64, written: &'static str) -> Row {
    Row {
        status: Status::BadLine { line },
        code: 3,
        ..done(script, written)
    }
}

// The read with this number fails, where so many bytes are read a call.
fn unread(script: &'static str, piece: usize, failing: u64, written: &'static str) -> Row {
    Row {
        reads: Pieces { piece, failing },
        status: Status::ReadFault,
        code: 4,
        ..done(script, written)
    }
}

fn is_so<W: Threads + Wait + Sync>(alloc: Global, row: &Row, wait: &W) -> Result<bool, Fail> {
    let script = Given::script(alloc, row.script.as_bytes(), row.reads)?;
    let (status, out, _, _) = run_over(alloc, script, row.writes, sound(alloc), wait)?;
    Ok((status, status.code()) == (row.status, row.code) && out.bytes() == row.written.as_bytes())
}

#[test]
fn scripts_are_answered_line_by_line(rt: HostRuntime) -> Result<(), Fail> {
    let single = Pieces {
        piece: 1,
        failing: 0,
    };
    let rows = [
        done("", ""),
        done("put a /a -\nget a /a\nget a /b", "ok 1\n-\nnone\n"),
        // The worked block of the formats' page, byte by byte. A replica that doesn't hear of the first one is offered
        // the same bytes, and comes to the same blocks.
        done(
            "put a /k 0102\nheads a\nput a /k 03\nheads a\nlink a b down\nplant c bafybeid2labtsjes6cwgocovlvtdh5asxvmvdree2xjtn7hbgzfv32jshi 0a0c0a080a022f6b1a0201021801\nplant c bafybeigc6tixfilf4hpgh3gnrwizbhyhw3xfr3qfumwaxgzh2fzojdwoxe 122a0a24017012207a5803392492f0ac6709d55d6633f412bd5951c484d5d336fce1364b5de9323a120018000a0b0a070a022f6b1a01031802\nwire 0a260a2401701220c2f4d172a165e1de63eccd8d91909f07b6ee58ee05a32c0b9b27d172e48eceb9\nhear b 1\nwork b 1\nget b /k\nsame a b",
            "ok 1\nheads 1\nbafybeid2labtsjes6cwgocovlvtdh5asxvmvdree2xjtn7hbgzfv32jshi 1\nok 2\nheads 1\nbafybeigc6tixfilf4hpgh3gnrwizbhyhw3xfr3qfumwaxgzh2fzojdwoxe 2\nok\nok\nok\nmessage 1\nqueued 1\nworked 2 0 0\n03\nsame yes\n",
        ),
        // An offer that isn't the block is passed over; the block of no bytes is a head of height 0.
        done(
            "plant b bafybeihdwdcefgh4dqkjv67uzcmw7ojee6xedzdetojuzjevtenxquvyku 00\nplant c bafybeihdwdcefgh4dqkjv67uzcmw7ojee6xedzdetojuzjevtenxquvyku -\nwire 0a260a2401701220e3b0c44298fc1c149afbf4c8996fb92427ae41e4649b934ca495991b7852b855\nhear a 1\nstep a\nstep a\nheads a\nput a /a 01",
            "ok\nok\nmessage 1\nqueued 1\nprocessed\nidle\nheads 1\nbafybeihdwdcefgh4dqkjv67uzcmw7ojee6xedzdetojuzjevtenxquvyku 0\nok 1\n",
        ),
        bad("put a /a 01\nput a /a 0", 2, "ok 1\nbad line 2\n"),
        bad("frob", 1, "bad line 1\n"),
        bad(
            "put b /a 01\nget b /a\nget a /a\nput c /a 02\nget c /a\nstop b\nget b /a\nopen b\nget b /a\nlink a d down",
            10,
            "ok 1\n01\nnone\nok 1\n02\nok\nstopped\nok\n01\nbad line 10\n",
        ),
        bad("wire -\nhear a 2", 2, "message 1\nbad line 2\n"),
        unread("put a /a 01\n", 0, 2, "ok 1\n"),
        unread("put a /a 01\nget a /a\n", 13, 2, "ok 1\n"),
        Row {
            writes: Pieces {
                piece: 0,
                failing: 1,
            },
            status: Status::WriteFault,
            code: 5,
            ..done("put a /a 01\n", "")
        },
        Row {
            reads: single,
            writes: single,
            ..bad("put a /a 01\nget a /a\nfrob\n", 3, "ok 1\n01\nbad line 3\n")
        },
    ];
    for row in &rows {
        assert!(rt; is_so(rt.alloc(), row, &rt)?, "at {}", row.script);
    }
    Ok(())
}

// Lines that name no replica, no message or no number that there is.
const FAULTY: [&str; 14] = [
    "put d /a 01",
    "hear a 1",
    "same a d",
    "link a a down",
    "work d 1",
    "work d 1 1",
    "repair d 1",
    "work a 17",
    "work a 1 0",
    "repair a 17",
    "storm d 1 1",
    "storm a 17 1",
    "storm a 1 10001",
    "put a /a 0",
];

#[test]
fn faulty_lines_end_a_run(rt: HostRuntime) -> Result<(), Fail> {
    for script in FAULTY {
        let row = bad(script, 1, "bad line 1\n");
        assert!(rt; is_so(rt.alloc(), &row, &rt)?, "at {script}");
    }
    Ok(())
}

#[test]
fn workers_pass_the_gate_beside_one_another(rt: HostRuntime) -> Result<(), Fail> {
    let alloc = rt.alloc();
    let script =
        "put a /a 01\nput b /b 02\ncast a\ncast b\nhear c 1\nhear c 2\nwork c 2\nquery c / 0 9";
    let written =
        "ok 1\nok 1\nmessage 1\nmessage 2\nqueued 1\nqueued 1\nworked 2 0 0\nrows 2\n/a 01\n/b 02\n";
    let gate = Meeting::new(true);
    let script = Given::script(alloc, script.as_bytes(), WHOLE)?;
    let (status, out, _, _) = run_past(alloc, &["run"], script, WHOLE, sound(alloc), &gate, &rt)?;
    assert!(rt; status == Status::Done && out.bytes() == written.as_bytes());
    assert!(rt; gate.come.load(SeqCst) == 2);
    assert!(rt; gate.alone.load(SeqCst) == 0);
    Ok(())
}
