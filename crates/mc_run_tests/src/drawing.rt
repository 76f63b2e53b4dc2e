// Drawn scripts.
use std::alloc::{AllocError, Global};

// Numbers that are drawn, the same ones in each run.
#[derive(Drop)]
struct Draw {
    state: u64,
}

impl Draw {
    // A number below the limit.
    fn below(&mut self, limit: u64) -> u64 {
        self.state = self
            .state
            .wrapping_mul(6364136223846793005)
            .wrapping_add(1442695040888963407);
        (self.state >> 33).checked_rem(limit).unwrap_or(0)
    }

    // The name of a replica.
    fn replica(&mut self) -> char {
        match self.below(3) {
            0 => 'a',
            1 => 'b',
            _ => 'c',
        }
    }
}

// Lines that write: a put, a delete, a batch, or a put that is stopped at one of its commits.
fn write_lines(alloc: Global, draw: &mut Draw) -> Result<String, AllocError> {
    let replica = draw.replica();
    let key = draw.below(12);
    let value = draw.below(90).saturating_add(10);
    let commit = draw.below(2).saturating_add(1);
    match draw.below(8) {
        0 | 1 | 2 | 3 => format!(in alloc; "put {replica} /k/{key} {value}\n"),
        4 | 5 => format!(in alloc; "del {replica} /k/{key}\n"),
        6 => {
            format!(in alloc;
                "begin {replica}\nbput {replica} /k/{key} {value}\nbdel {replica} /k/{key}\nbput {replica} /l {value}\ncommit {replica}\n"
            )
        }
        _ => {
            format!(in alloc;
                "stopafter {replica} {commit}\nput {replica} /k/{key} {value}\nopen {replica}\n"
            )
        }
    }
}

// Lines that send and receive, where so many messages were sent.
fn sync_lines(alloc: Global, draw: &mut Draw, sent: u64) -> Result<String, AllocError> {
    let replica = draw.replica();
    let other = if replica == 'a' { 'b' } else { 'a' };
    let message = draw.below(sent).saturating_add(1);
    match draw.below(8) {
        0 | 1 => format!(in alloc; "hear {replica} {message}\nwork {replica} 2\n"),
        2 | 3 => format!(in alloc; "hear {replica} {message}\nstep {replica}\nstep {replica}\n"),
        4 => format!(in alloc; "hear {replica} {message}\nwork {replica} 1 1\n"),
        5 => format!(in alloc; "link {replica} {other} down\n"),
        6 => format!(in alloc; "link {replica} {other} up\nrepair {replica} 2\n"),
        _ => format!(in alloc; "stop {replica}\nopen {replica}\nwork {replica} 1\n"),
    }
}

// Lines that ask.
fn question_lines(alloc: Global, draw: &mut Draw) -> Result<String, AllocError> {
    let replica = draw.replica();
    let key = draw.below(12);
    match draw.below(4) {
        0 => format!(in alloc; "get {replica} /k/{key}\nhas {replica} /k/{key}\n"),
        1 => format!(in alloc; "query {replica} /k {key} 5\n"),
        2 => format!(in alloc; "heads {replica}\nstate {replica}\n"),
        _ => format!(in alloc; "same a b\nsame b c\n"),
    }
}

// Adds a drawn command, where so many messages were sent, and gives how many are then.
fn push_command(
    alloc: Global,
    script: &mut String,
    draw: &mut Draw,
    sent: u64,
) -> Result<u64, AllocError> {
    let kind = draw.below(10);
    let (lines, cast) = match kind {
        0 | 1 | 2 | 3 => (write_lines(alloc, draw)?, 0),
        4 | 5 | 6 => (sync_lines(alloc, draw, sent)?, 0),
        7 => {
            let replica = draw.replica();
            (format!(in alloc; "cast {replica}\n")?, 1)
        }
        _ => (question_lines(alloc, draw)?, 0),
    };
    script.push_str(lines.as_str())?;
    Ok(sent.saturating_add(cast))
}

/// A script of so many drawn commands, some of them of several lines, over three replicas.
pub(crate) fn drawn_script(alloc: Global, commands: u64, state: u64) -> Result<String, AllocError> {
    let mut script = String::from_str(alloc, "cast a\n")?;
    let mut draw = Draw { state };
    let mut sent = 1;
    for _ in 0..commands {
        sent = push_command(alloc, &mut script, &mut draw, sent)?;
    }
    script.push_str("query a / 0 99\nquery b / 0 99\nquery c / 0 99\n")?;
    Ok(script)
}
