// Base32 without padding.
ghost use Rattle.std.specs.Prelude.{◌≡◌, ◌^◌, ◌<◌, ◌≤◌, [], ◌∷◌, ◌++◌, length, take, IfOk, OnOk, map, slice_index};
ghost use Rattle.std.specs.List.{flat_map};
ghost use Rattle.mc_base.specs.Base32.{alphabet32, base32_of, byte_bits, fives};

use crate::text::Text;
use std::alloc::{AllocError, Global};

const UPPER: &[u8; 32] = b"ABCDEFGHIJKLMNOPQRSTUVWXYZ234567";

const LOWER: &[u8; 32] = b"abcdefghijklmnopqrstuvwxyz234567";

/// The letters of a base32 text.
#[derive(Clone, Copy, Debug, PartialEq, Eq)]
pub enum Case {
    /// `A` to `Z`.
    Upper,
    /// `a` to `z`.
    Lower,
}

impl Case {
    // The digits by their values.
    fn alphabet(self) -> &'static [u8; 32]
        ensures { result.now ≡ alphabet32 self }
    {
        match self {
            Case::Upper => UPPER,
            Case::Lower => LOWER,
        }
    }
}

// The eight digits of five bytes.
fn digits_of(alphabet: &[u8; 32], a: u8, b: u8, c: u8, d: u8, e: u8) -> [u8; 8]
    ensures { result ≡ map (slice_index alphabet.now) (fives (flat_map byte_bits (a ∷ b ∷ c ∷ d ∷ e ∷ []))) }
{
    [
        alphabet[usize::from(a / 8)],
        alphabet[usize::from(a % 8 * 4 + b / 64)],
        alphabet[usize::from(b / 2 % 32)],
        alphabet[usize::from(b % 2 * 16 + c / 16)],
        alphabet[usize::from(c % 16 * 2 + d / 128)],
        alphabet[usize::from(d / 4 % 32)],
        alphabet[usize::from(d % 4 * 8 + e / 32)],
        alphabet[usize::from(e % 32)],
    ]
}

// The digits of the last bytes, fewer than five: the first digits of the bytes filled up with zeros.
fn last_digits(alphabet: &[u8; 32], rest: &[u8]) -> ([u8; 8], usize)
    requires { length rest.now < 5 }
    ensures length { result.1 ≤ 8 }
    ensures digits { take result.1 result.0 ≡ map (slice_index alphabet.now) (fives (flat_map byte_bits rest.now)) }
{
    match *rest {
        [] => ([0; 8], 0),
        [a] => (digits_of(alphabet, a, 0, 0, 0, 0), 2),
        [a, b] => (digits_of(alphabet, a, b, 0, 0, 0), 4),
        [a, b, c] => (digits_of(alphabet, a, b, c, 0, 0), 5),
        [a, b, c, d] => (digits_of(alphabet, a, b, c, d, 0), 7),
        _ => unreachable!(),
    }
}

// The number of digits of so many bytes.
fn digit_count(bytes: usize) -> usize
    requires { bytes < 2 ^ 63 }
{
    bytes / 5 * 8 + (bytes % 5 * 8 + 4) / 5
}

// Adds the digits of all bytes at the end.
fn push_digits(case: Case, bytes: &[u8], text: &mut Vec<u8>) -> Result<(), AllocError>
    ensures { OnOk result (text.new.items ≡ text.old.items ++ base32_of case bytes.now) }
{
    let alphabet = case.alphabet();
    let mut rest = bytes;
    while let [a, b, c, d, e, after @ ..] = rest {
        text.extend_from_slice(&digits_of(alphabet, *a, *b, *c, *d, *e))?;
        rest = after;
    }
    let (digits, count) = last_digits(alphabet, rest);
    text.extend_from_slice(&digits[..count])?;
    Ok(())
}

/// A prefix, and after it the base32 text of bytes without padding (RFC 4648, section 6). The memory is taken once.
pub fn encode32_after(
    alloc: Global,
    prefix: &str,
    case: Case,
    bytes: &[u8],
) -> Result<Text, AllocError>
    ensures { IfOk result (λ text. text ≡ prefix.now ++ base32_of case bytes.now) }
{
    let len = prefix.len().saturating_add(digit_count(bytes.len()));
    let mut text = Vec::with_capacity(alloc, len)?;
    text.extend_from_slice(prefix.as_bytes())?;
    push_digits(case, bytes, &mut text)?;
    Ok(Text::from_string(unsafe { String::from_utf8_unchecked(text) }))
}

/// The base32 text of bytes without padding (RFC 4648, section 6).
pub fn encode32(alloc: Global, case: Case, bytes: &[u8]) -> Result<Text, AllocError>
    ensures { IfOk result (λ text. text ≡ base32_of case bytes.now) }
{
    encode32_after(alloc, "", case, bytes)
}
