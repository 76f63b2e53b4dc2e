// The summary of an output.
ghost use Rattle.std.specs.Prelude.{◌≡◌, ◌≤◌, ◌+◌, ◌==◌, ◌||◌, ◌∷◌, [], ◌++◌, ℕ, List, length, codes, if◌then◌else◌};
ghost use Rattle.std.specs.Prelude.{IfOk, IfSome, OnOk, string_bytes};
ghost use Rattle.std.specs.Fmt.{decimal};
ghost use Rattle.hex.specs.Hex.{encode_lower};
ghost use Rattle.mc_gen.specs.Summary.{Sums, lines_in, named_line, summary_text};

use crate::lines::push_number;
use hex::encode;
use mc_base::Bytes;
use sha2::{Digest, Sha256};
use std::alloc::{AllocError, Global};

// How many lines stand between the drawn ones and the first `same`.
const LINES_BEFORE_SAME: u64 = 15;

/// What is said of the output of a generated script: how many lines and bytes it has, its SHA-256, and the replies to
/// the two `same` lines. It takes the replies one by one, and keeps none but these two.
#[derive(Drop)]
pub struct Summary {
    first_same: u64,
    replies: u64,
    lines: u64,
    bytes: u64,
    hasher: Sha256,
    same: Bytes,
}

impl Summary {
    /// The summary of no reply, for a script with `count` drawn lines, at most 100,000. Takes no memory.
    pub fn new(alloc: Global, count: u64) -> Summary
        requires { count ≤ 100000 }
        ensures { Sums count result [] }
    {
        Summary {
            first_same: count + LINES_BEFORE_SAME,
            replies: 0,
            lines: 0,
            bytes: 0,
            hasher: Sha256::new(),
            same: Bytes::new(alloc),
        }
    }

    /// Adds the reply to the next line. The error is want of memory; a number that 64 bits can't hold, which no output
    /// has, counts as such.
    pub fn add(&mut self, reply: &[u8]) -> Result<(), AllocError>
        ensures { OnOk result ((count : ℕ) (replies : List (List ℕ)) →
            Sums count self.old replies → Sums count self.new (replies ++ reply.now ∷ [])) }
    {
        let number = self.replies;
        self.replies = sum_of(number, 1)?;
        self.lines = sum_of(self.lines, feeds_in(reply))?;
        self.bytes = sum_of(self.bytes, reply.len() as u64)?;
        self.hasher.update(reply);
        push_where(is_same(self.first_same, number), reply, &mut self.same)?;
        Ok(())
    }

    /// The text of the summary: `lines L`, `bytes B`, `sha256 H` and the two replies, each on a line of its own.
    pub fn text(self, alloc: Global) -> Result<Bytes, AllocError>
        ensures { IfOk result (λ text. (count : ℕ) (replies : List (List ℕ)) →
            Sums count self replies → text ≡ summary_text count replies) }
    {
        let Summary {
            lines,
            bytes,
            hasher,
            same,
            ..
        } = self;
        let digest = hasher.finalize();
        let mut text = head_of(alloc, lines, bytes, &digest)?;
        text.extend_from_slice(same.as_slice())?;
        Ok(text)
    }
}

// The first three lines of a summary.
fn head_of(alloc: Global, lines: u64, bytes: u64, digest: &[u8; 32]) -> Result<Bytes, AllocError>
    ensures { IfOk result (λ text. text ≡ named_line (codes "lines") (decimal lines)
        ++ named_line (codes "bytes") (decimal bytes) ++ named_line (codes "sha256") (encode_lower digest.now)) }
{
    let mut text = Bytes::new(alloc);
    push_count(&mut text, b"lines", lines)?;
    push_count(&mut text, b"bytes", bytes)?;
    push_digest(alloc, &mut text, digest)?;
    Ok(text)
}

// A name and a number.
fn push_count(text: &mut Bytes, name: &[u8], number: u64) -> Result<(), AllocError>
    ensures { OnOk result (text.new ≡ text.old ++ named_line name.now (decimal number)) }
{
    text.extend_from_slice(name)?;
    push_number(text, number)
}

// The digits of a digest, behind its name.
fn push_digest(alloc: Global, text: &mut Bytes, digest: &[u8; 32]) -> Result<(), AllocError>
    ensures { OnOk result (text.new ≡ text.old ++ named_line (codes "sha256") (encode_lower digest.now)) }
{
    let digits = encode(alloc, digest)?;
    text.extend_from_slice(b"sha256 ")?;
    text.extend_from_slice(digits.as_bytes())?;
    text.push(b'\n')
}

// A text, where it is wanted.
fn push_where(wanted: bool, text: &[u8], out: &mut Bytes) -> Result<(), AllocError>
    ensures { OnOk result (out.new ≡ out.old ++ (if wanted then text.now else [])) }
{
    if wanted {
        out.extend_from_slice(text)?;
    }
    Ok(())
}

// Whether a line is one of the two `same` lines, of which the first has this number.
fn is_same(first: u64, number: u64) -> bool
    ensures { result ≡ (number == first || number == first + 1) }
{
    number == first || number.checked_sub(1) == Some(first)
}

fn sum_of(count: u64, more: u64) -> Result<u64, AllocError>
    ensures { IfOk result (λ sum. sum ≡ count + more) }
{
    match count.checked_add(more) {
        Some(sum) => Ok(sum),
        None => Err(AllocError),
    }
}

// The line feeds of a text.
fn feeds_in(text: &[u8]) -> u64
    ensures { result ≡ lines_in text.now }
{
    let mut count: u64 = 0;
    for byte in text {
        if *byte == b'\n' {
            count += 1;
        }
    }
    count
}
