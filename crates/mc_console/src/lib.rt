//! The script of standard input, and the replies on standard output. Replies are gathered, and written before more of
//! the script is read: a long script costs few writes, and whoever sends a line and waits has the reply to it.
#![tactic(auto)]

ghost use Rattle.std.specs.Prelude.{◌<◌, length, IfOk};
ghost use Rattle.std.specs.Io.{WritesAtMost};

use mc_base::{Counted, Failed, Sink, Source};
use std::alloc::Global;
use std::cell::RefCell;
use std::io::{self, BufWriter, Read, Write};

// How many bytes of replies are gathered at most.
const GATHERED_MAX: usize = 65_536;

/// Where replies are gathered for a writer, and whether a write of them has failed: then each later one does.
#[derive(Drop)]
pub struct Gathered<W: Write + Drop> {
    out: BufWriter<W>,
    failed: bool,
}

impl<W: Write + Drop> Gathered<W> {
    /// Nothing is gathered yet. The error is want of memory.
    pub fn new(alloc: Global, out: W) -> io::Result<Gathered<W>> {
        let out = BufWriter::with_capacity(alloc, GATHERED_MAX, out)?;
        Ok(Gathered { out, failed: false })
    }

    /// Writes what is gathered, and tells whether all writes have gone well.
    pub fn write_all(&mut self) -> bool {
        if self.out.flush().is_err() {
            self.failed = true;
        }
        !self.failed
    }

    // Gathers some first bytes of a piece, at least one where it has one.
    fn gather(&mut self, bytes: &[u8]) -> Result<usize, Failed>
        ensures bound { WritesAtMost result bytes.now }
        ensures some { IfOk result (λ count. 0 < length bytes.now → 0 < count) }
    {
        if self.failed {
            return Err(Failed);
        }
        match self.out.write(bytes) {
            Ok(count) if count > 0 || bytes.is_empty() => Ok(count),
            _ => {
                self.failed = true;
                Err(Failed)
            }
        }
    }
}

/// The script that a reader gives. What is gathered is written before each read. It tells nothing of the reader's
/// bytes, and counts the reader's errors.
#[derive(Drop)]
pub struct Script<'a, R, W: Write + Drop> {
    input: R,
    out: &'a RefCell<Gathered<W>>,
    faults: u64,
}

impl<'a, R, W: Write + Drop> Script<'a, R, W> {
    /// A script of which nothing has been read.
    pub fn new(input: R, out: &'a RefCell<Gathered<W>>) -> Script<'a, R, W> {
        Script {
            input,
            out,
            faults: 0,
        }
    }
}

impl<'a, R, W: Write + Drop> Counted for Script<'a, R, W> {
    ghost faults = { λ script. script.faults };

    fn faults(&self) -> u64 {
        self.faults
    }
}

impl<'a, R: Read, W: Write + Drop> Source for Script<'a, R, W> {
    ghost use Rattle.std.specs.Prelude.{None, false};

    ghost left = { λ _. None };

    ghost endless = { λ _. false };

    fn read(&mut self, into: &mut [u8]) -> Result<usize, Failed> {
        write_gathered(self.out);
        match self.input.read(into) {
            Ok(count) => Ok(count),
            Err(_) => {
                self.faults = self.faults.saturating_add(1);
                Err(Failed)
            }
        }
    }
}

/// Writes what is gathered, and tells whether all writes have gone well.
pub fn write_gathered<W: Write + Drop>(out: &RefCell<Gathered<W>>) -> bool {
    match out.try_borrow_mut() {
        Ok(mut gathered) => gathered.write_all(),
        Err(_) => false,
    }
}

/// The replies, which are gathered. It tells nothing of what is written, and counts each write that failed.
#[derive(Drop)]
pub struct Replies<'a, W: Write + Drop> {
    out: &'a RefCell<Gathered<W>>,
    faults: u64,
}

impl<'a, W: Write + Drop> Replies<'a, W> {
    /// No reply has been gathered.
    pub fn new(out: &'a RefCell<Gathered<W>>) -> Replies<'a, W> {
        Replies { out, faults: 0 }
    }
}

impl<'a, W: Write + Drop> Counted for Replies<'a, W> {
    ghost faults = { λ replies. replies.faults };

    fn faults(&self) -> u64 {
        self.faults
    }
}

impl<'a, W: Write + Drop> Sink for Replies<'a, W> {
    ghost use Rattle.std.specs.Prelude.{None};

    ghost written = { λ _. None };

    fn write(&mut self, bytes: &[u8]) -> Result<usize, Failed> {
        match gather_in(self.out, bytes) {
            Ok(count) => Ok(count),
            Err(Failed) => {
                self.faults = self.faults.saturating_add(1);
                Err(Failed)
            }
        }
    }
}

// Gathers some first bytes of a piece, at least one where it has one.
fn gather_in<W: Write + Drop>(out: &RefCell<Gathered<W>>, bytes: &[u8]) -> Result<usize, Failed>
    ensures bound { WritesAtMost result bytes.now }
    ensures some { IfOk result (λ count. 0 < length bytes.now → 0 < count) }
{
    match out.try_borrow_mut() {
        Ok(mut gathered) => gathered.gather(bytes),
        Err(_) => Err(Failed),
    }
}
