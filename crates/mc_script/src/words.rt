// The words of a command.
ghost use Rattle.std.specs.Prelude.{◌≡◌, ◌≢◌, ◌≤◌, IfOk, IfErr, IsErrOf, Some, None};
ghost use Rattle.std.specs.Str.{all_ascii_digits};
ghost use Rattle.mc_script.specs.Limits.{IsUpTo};
ghost use Rattle.mc_script.specs.Words.{replica_of, number_of, bytes_of_hex, other_of, way_of, up_to_of, identifier_of};

use crate::LineError;
use mc_base::{Bytes, Cid};
use mc_cidtext::{CidTextError, from_text};
use std::alloc::Global;

// The most digits of a number.
const DIGITS_MAX: usize = 20;

// The number of a replica.
pub fn read_replica(word: &str) -> Result<u64, LineError>
    ensures ok { IfOk result (λ r. replica_of word.now ≡ Some r) }
    ensures err { IfErr result (λ e. (e ≡ LineError.Bad) × (replica_of word.now ≡ None)) }
{
    match word.as_bytes() {
        [letter @ b'a'..=b'h'] => Ok(u64::from(*letter - b'a')),
        _ => Err(LineError::Bad),
    }
}

// The number of a replica other than `r`.
pub fn read_other(r: u64, word: &str) -> Result<u64, LineError>
    ensures ok { IfOk result (λ other. other_of r word.now ≡ Some other) }
    ensures limits { IfOk result (λ other. r ≢ other) }
    ensures err { IfErr result (λ e. (e ≡ LineError.Bad) × (other_of r word.now ≡ None)) }
{
    let other = read_replica(word)?;
    if r == other {
        return Err(LineError::Bad);
    }
    Ok(other)
}

// Whether a link is up or down.
pub fn read_way(word: &str) -> Result<bool, LineError>
    ensures ok { IfOk result (λ up. way_of word.now ≡ Some up) }
    ensures err { IfErr result (λ e. (e ≡ LineError.Bad) × (way_of word.now ≡ None)) }
{
    match word {
        "up" => Ok(true),
        "down" => Ok(false),
        _ => Err(LineError::Bad),
    }
}

/// The value of one to twenty decimal digits, below 2^64. Every other word is `Bad`.
pub fn read_number(word: &str) -> Result<u64, LineError>
    ensures ok { IfOk result (λ number. number_of word.now ≡ Some number) }
    ensures err { IfErr result (λ e. (e ≡ LineError.Bad) × (number_of word.now ≡ None)) }
{
    match value_of_digits(word) {
        Some(number) => Ok(number),
        None => Err(LineError::Bad),
    }
}

// A number from 1 to `most`.
pub fn read_up_to(most: u64, word: &str) -> Result<u64, LineError>
    ensures ok { IfOk result (λ number. up_to_of most word.now ≡ Some number) }
    ensures limits { IfOk result (IsUpTo most) }
    ensures err { IfErr result (λ e. (e ≡ LineError.Bad) × (up_to_of most word.now ≡ None)) }
{
    let number = read_number(word)?;
    if number < 1 || number > most {
        return Err(LineError::Bad);
    }
    Ok(number)
}

fn value_of_digits(word: &str) -> Option<u64>
    ensures { result ≡ number_of word.now }
{
    if word.is_empty() || word.len() > DIGITS_MAX || !are_digits(word) {
        return None;
    }
    word.parse::<u64>().ok()
}

fn are_digits(word: &str) -> bool
    ensures { result ≡ all_ascii_digits word.now }
{
    for byte in word.as_bytes() {
        if !byte.is_ascii_digit() {
            return false;
        }
    }
    true
}

// The bytes that hexadecimal digits of either case stand for, or none for a dash.
pub fn read_hex(alloc: Global, word: &str) -> Result<Bytes, LineError>
    ensures ok { IfOk result (λ bytes. bytes_of_hex word.now ≡ Some bytes) }
    ensures bad { IsErrOf result LineError.Bad → bytes_of_hex word.now ≡ None }
{
    if word == "-" {
        return Ok(Bytes::new(alloc));
    }
    if word.is_empty() {
        return Err(LineError::Bad);
    }
    match hex::decode(alloc, word) {
        Ok(bytes) => Ok(Bytes::from_vec(bytes)),
        Err(hex::FromHexError::OutOfMemory) => Err(LineError::Memory),
        Err(_) => Err(LineError::Bad),
    }
}

// The identifier of a text.
pub fn read_cid(alloc: Global, word: &str) -> Result<Cid, LineError>
    ensures ok { IfOk result (λ cid. identifier_of word.now ≡ Some cid) }
    ensures bad { IsErrOf result LineError.Bad → identifier_of word.now ≡ None }
{
    match from_text(alloc, word) {
        Ok(cid) => Ok(cid),
        Err(CidTextError::Memory) => Err(LineError::Memory),
        Err(CidTextError::Fault(_)) => Err(LineError::Bad),
    }
}
