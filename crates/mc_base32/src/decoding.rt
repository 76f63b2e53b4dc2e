// From text to bytes.
ghost use Rattle.std.specs.Prelude.{◌≡◌, ◌+◌, ◌^◌, ◌<◌, ◌≤◌, ◌++◌, ℕ, length, map, None, Some, Ok, Err, is_some};
ghost use Rattle.std.specs.Prelude.{IfSome, IfOk, IfErr, OnOk};
ghost use Rattle.mc_base32.specs.Reading.{IsBadChar, IsFaultOf, after, decode32, decode32_from, digit_value, first_bad};
ghost use Rattle.mc_base32.specs.Reading.{is_digit32, number32};

use crate::fault::{Base32Error, Base32Fault};
use mc_base::{Bytes, Case};
use std::alloc::Global;

// The value of a digit.
fn value(case: Case, byte: u8) -> Option<u8>
    ensures found { is_some result ≡ is_digit32 case byte }
    ensures value { IfSome result (λ value. value ≡ digit_value case byte) }
    ensures small { IfSome result (λ value. value < 32) }
{
    match (case, byte) {
        (_, b'2'..=b'7') => Some(byte - 24),
        (Case::Upper, b'A'..=b'Z') => Some(byte - b'A'),
        (Case::Lower, b'a'..=b'z') => Some(byte - b'a'),
        _ => None,
    }
}

// The number of up to eight digits, the first of them at a place of the text.
fn word(case: Case, digits: &[u8], at: u64) -> Result<u64, Base32Fault>
    requires size { length digits.now ≤ 8 }
    requires place { at + length digits.now < 2 ^ 64 }
    ensures digits { IfOk result (λ _. first_bad case at digits.now ≡ None) }
    ensures word { IfOk result (λ word. word ≡ number32 0 (map (digit_value case) digits.now)) }
    ensures bad { IfErr result (λ fault. IsBadChar fault (first_bad case at digits.now)) }
{
    let mut word = 0;
    let mut place = at;
    for byte in digits {
        let Some(value) = value(case, *byte) else {
            return Err(Base32Fault::BadChar { at: place });
        };
        word = word * 32 + u64::from(value);
        place += 1;
    }
    Ok(word)
}

// Adds the bytes of a group of up to eight digits, the first of them at a place of the text. Only the last group may be
// shorter than eight.
fn push_group(case: Case, digits: &[u8], at: u64, out: &mut Bytes) -> Result<(), Base32Error>
    requires size { length digits.now ≤ 8 }
    requires place { at + length digits.now < 2 ^ 64 }
    ensures ok { OnOk result (after out.old (decode32_from case at digits.now) ≡ Ok out.new) }
    ensures err { IfErr result (λ e. IsFaultOf e (decode32_from case at digits.now)) }
{
    let word = word(case, digits, at)?;
    let count = digits.len();
    if count == 1 || count == 3 || count == 6 {
        return Err(Base32Fault::BadLength.into());
    }
    let unit: u64 = 1 << (count * 5 % 8);
    if word % unit != 0 {
        return Err(Base32Fault::TailBits.into());
    }
    out.extend_from_slice(&(word / unit).to_be_bytes()[8 - count * 5 / 8..])?;
    Ok(())
}

/// The bytes of a base32 text without padding (RFC 4648, section 6), in digits of one case. The faults are looked for
/// in this order: the first byte that is no digit of that case; a length that no number of bytes has; an unused bit at
/// the end that isn't zero. The memory is taken once.
pub fn decode(alloc: Global, case: Case, text: &str) -> Result<Bytes, Base32Error>
    ensures ok { IfOk result (λ bytes. decode32 case text.now ≡ Ok bytes) }
    ensures err { IfErr result (λ e. IsFaultOf e (decode32 case text.now)) }
{
    let mut bytes = Bytes::with_capacity(alloc, text.len() / 8 * 5 + 4)?;
    let mut rest = text.as_bytes();
    let mut at = 0;
    while !rest.is_empty() {
        let (group, others) = rest.split_at(rest.len().min(8));
        push_group(case, group, at, &mut bytes)?;
        at += group.len() as u64;
        rest = others;
    }
    Ok(bytes)
}
