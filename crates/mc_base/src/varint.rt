// Unsigned varints, the numbers of CIDs and multihashes.
ghost use Rattle.std.specs.Prelude.{◌≡◌, ◌^◌, ◌<◌, ◌≤◌, ℕ, length, take, IfOk, OnOk, OnErr, IfErr, Some, Ok};
ghost use Rattle.mc_base.specs.Varint.{IsUnsignedVarint, AppendsVarint, varint_fault, OneSpelling};

use crate::bytes::Bytes;
use std::alloc::AllocError;
use thiserror::Error;

/// Why bytes don't begin with a varint.
#[derive(Clone, Copy, Debug, PartialEq, Eq, Error)]
pub enum VarintFault {
    /// The input ends, within its first nine bytes, before a byte without the high bit.
    #[error("the varint is cut short")]
    Short,
    /// The first nine bytes all have the high bit.
    #[error("the varint is longer than nine bytes")]
    Long,
    /// The last byte is 0 and isn't the first, so a shorter spelling would do.
    #[error("the varint is longer than needed")]
    NotMinimal,
}

/// The varint that the input begins with: its value, which is below 2^63, and the number of bytes that it takes
/// (Multiformats unsigned-varint). The input may go on. Takes no memory.
pub fn read_varint(bytes: &[u8]) -> Result<(u64, usize), VarintFault>
    ensures length { IfOk result (λ read. read.1 ≤ length bytes.now) }
    // What is read is a varint.
    ensures read { IfOk result (λ read. IsUnsignedVarint (take read.1 bytes.now) read.0) }
    // Each varint is read.
    ensures every { (value count : ℕ) → count ≤ length bytes.now → IsUnsignedVarint (take count bytes.now) value →
        result ≡ Ok (value, count) }
    ensures ok { OnOk result (varint_fault bytes.now ≡ None) }
    ensures fault { IfErr result (λ fault. varint_fault bytes.now ≡ Some fault) }
{
    first_varint(bytes)
}

// The same, without the clause that each varint is read.
fn first_varint(bytes: &[u8]) -> Result<(u64, usize), VarintFault>
    ensures length { IfOk result (λ read. read.1 ≤ length bytes.now) }
    ensures read { IfOk result (λ read. IsUnsignedVarint (take read.1 bytes.now) read.0) }
    ensures ok { OnOk result (varint_fault bytes.now ≡ None) }
    ensures fault { IfErr result (λ fault. varint_fault bytes.now ≡ Some fault) }
{
    let mut value: u64 = 0;
    let mut weight: u64 = 1;
    let mut at = 0;
    while at < 9 {
        let Some(&byte) = bytes.get(at) else {
            return Err(VarintFault::Short);
        };
        if byte < 128 {
            if byte == 0 && at > 0 {
                return Err(VarintFault::NotMinimal);
            }
            return Ok((value + u64::from(byte) * weight, at + 1));
        }
        value += u64::from(byte % 128) * weight;
        weight *= 128;
        at += 1;
    }
    Err(VarintFault::Long)
}

/// Adds the varint of a value at the end (Multiformats unsigned-varint). A refusal leaves the bytes as they were.
pub fn write_varint(value: u64, out: &mut Bytes) -> Result<(), AllocError>
    requires { value < 2 ^ 63 }
    ensures ok { OnOk result (AppendsVarint out.old out.new value) }
    ensures err { OnErr result (out.new ≡ out.old) }
{
    let mut spelling = [0; 9];
    let mut len = 0;
    let mut rest = value;
    while rest >= 128 {
        spelling[len] = (rest % 128) as u8 + 128;
        len += 1;
        rest /= 128;
    }
    spelling[len] = rest as u8;
    out.extend_from_slice(&spelling[..len + 1])
}

/// No varint begins another, so each value has one spelling, and what was written is read again, whatever follows it.
pub fn one_varint()
    ensures { OneSpelling }
{}
