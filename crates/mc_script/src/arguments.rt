// The words behind a command's name.
ghost use Rattle.std.specs.Prelude.{◌≡◌, ◌≢◌, IfOk, IfErr, IfSome, IsErrOf, Some, None};
ghost use Rattle.mc_script.specs.Arguments.{replica_words, key_words, value_words, range_words, hex_words};
ghost use Rattle.mc_script.specs.Arguments.{message_words, offer_words, link_words, pair_words, up_to_words};
ghost use Rattle.mc_script.specs.Arguments.{budget_words, work_words, storm_words, span_words, view_words};
ghost use Rattle.mc_script.specs.Limits.{IsUpTo, budget_max, thread_max, write_max};
ghost use Rattle.mc_script.specs.Words.{texts_of};

use crate::LineError;
use crate::words::{
    read_cid, read_hex, read_number, read_other, read_replica, read_up_to, read_way,
};
use mc_base::{Bytes, Cid, Text};
use std::alloc::Global;

// The greatest number of workers, and of writers.
pub const THREAD_MAX: u64 = 16;

// How many blocks workers may process at most.
const BUDGET_MAX: u64 = 1_048_576;

// The most writes of one writer.
const WRITE_MAX: u64 = 10_000;

// `R`
pub fn read_replica_words(words: &[&str]) -> Result<u64, LineError>
    ensures ok { IfOk result (λ r. replica_words (texts_of words.now) ≡ Some r) }
    ensures err { IfErr result (λ e. (e ≡ LineError.Bad) × (replica_words (texts_of words.now) ≡ None)) }
{
    let [replica] = words else {
        return Err(LineError::Bad);
    };
    read_replica(replica)
}

// `R KEY`
pub fn read_key_words(alloc: Global, words: &[&str]) -> Result<(u64, Text), LineError>
    ensures ok { IfOk result (λ said. key_words (texts_of words.now) ≡ Some said) }
    ensures bad { IsErrOf result LineError.Bad → key_words (texts_of words.now) ≡ None }
{
    let [replica, key] = words else {
        return Err(LineError::Bad);
    };
    let r = read_replica(replica)?;
    let key = Text::from_text(alloc, key)?;
    Ok((r, key))
}

// `R KEY HEX`
pub fn read_value_words(alloc: Global, words: &[&str]) -> Result<(u64, Text, Bytes), LineError>
    ensures ok { IfOk result (λ said. value_words (texts_of words.now) ≡ Some said) }
    ensures bad { IsErrOf result LineError.Bad → value_words (texts_of words.now) ≡ None }
{
    let [replica, key, hex] = words else {
        return Err(LineError::Bad);
    };
    let r = read_replica(replica)?;
    let bytes = read_hex(alloc, hex)?;
    let key = Text::from_text(alloc, key)?;
    Ok((r, key, bytes))
}

// `R PREFIX SKIP TAKE`
pub fn read_range_words(alloc: Global, words: &[&str]) -> Result<(u64, Text, u64, u64), LineError>
    ensures ok { IfOk result (λ said. range_words (texts_of words.now) ≡ Some said) }
    ensures bad { IsErrOf result LineError.Bad → range_words (texts_of words.now) ≡ None }
{
    let [replica, prefix, skip, take] = words else {
        return Err(LineError::Bad);
    };
    let r = read_replica(replica)?;
    let skip = read_number(skip)?;
    let take = read_number(take)?;
    let prefix = Text::from_text(alloc, prefix)?;
    Ok((r, prefix, skip, take))
}

// `HEX`
pub fn read_hex_words(alloc: Global, words: &[&str]) -> Result<Bytes, LineError>
    ensures ok { IfOk result (λ bytes. hex_words (texts_of words.now) ≡ Some bytes) }
    ensures bad { IsErrOf result LineError.Bad → hex_words (texts_of words.now) ≡ None }
{
    let [hex] = words else {
        return Err(LineError::Bad);
    };
    read_hex(alloc, hex)
}

// `R M`
pub fn read_message_words(words: &[&str]) -> Result<(u64, u64), LineError>
    ensures ok { IfOk result (λ said. message_words (texts_of words.now) ≡ Some said) }
    ensures err { IfErr result (λ e. (e ≡ LineError.Bad) × (message_words (texts_of words.now) ≡ None)) }
{
    let [replica, message] = words else {
        return Err(LineError::Bad);
    };
    let r = read_replica(replica)?;
    let message = read_number(message)?;
    Ok((r, message))
}

// `R CID HEX`
pub fn read_offer_words(alloc: Global, words: &[&str]) -> Result<(u64, Cid, Bytes), LineError>
    ensures ok { IfOk result (λ said. offer_words (texts_of words.now) ≡ Some said) }
    ensures bad { IsErrOf result LineError.Bad → offer_words (texts_of words.now) ≡ None }
{
    let [replica, cid, hex] = words else {
        return Err(LineError::Bad);
    };
    let r = read_replica(replica)?;
    let cid = read_cid(alloc, cid)?;
    let bytes = read_hex(alloc, hex)?;
    Ok((r, cid, bytes))
}

// `R FROM COUNT`
pub fn read_span_words(words: &[&str]) -> Result<(u64, u64, u64), LineError>
    ensures ok { IfOk result (λ said. span_words (texts_of words.now) ≡ Some said) }
    ensures err { IfErr result (λ e. (e ≡ LineError.Bad) × (span_words (texts_of words.now) ≡ None)) }
{
    let [replica, from, count] = words else {
        return Err(LineError::Bad);
    };
    let r = read_replica(replica)?;
    let from = read_number(from)?;
    let count = read_number(count)?;
    Ok((r, from, count))
}

// `R CID KEY`
pub fn read_view_words(alloc: Global, words: &[&str]) -> Result<(u64, Cid, Text), LineError>
    ensures ok { IfOk result (λ said. view_words (texts_of words.now) ≡ Some said) }
    ensures bad { IsErrOf result LineError.Bad → view_words (texts_of words.now) ≡ None }
{
    let [replica, cid, key] = words else {
        return Err(LineError::Bad);
    };
    let r = read_replica(replica)?;
    let cid = read_cid(alloc, cid)?;
    let key = Text::from_text(alloc, key)?;
    Ok((r, cid, key))
}

// `R R up` or `R R down`
pub fn read_link_words(words: &[&str]) -> Result<(u64, u64, bool), LineError>
    ensures ok { IfOk result (λ said. link_words (texts_of words.now) ≡ Some said) }
    ensures limits { IfOk result (λ said. said.0 ≢ said.1) }
    ensures err { IfErr result (λ e. (e ≡ LineError.Bad) × (link_words (texts_of words.now) ≡ None)) }
{
    let [replica, other, way] = words else {
        return Err(LineError::Bad);
    };
    let r = read_replica(replica)?;
    let other = read_other(r, other)?;
    let up = read_way(way)?;
    Ok((r, other, up))
}

// `R R`
pub fn read_pair_words(words: &[&str]) -> Result<(u64, u64), LineError>
    ensures ok { IfOk result (λ said. pair_words (texts_of words.now) ≡ Some said) }
    ensures err { IfErr result (λ e. (e ≡ LineError.Bad) × (pair_words (texts_of words.now) ≡ None)) }
{
    let [replica, other] = words else {
        return Err(LineError::Bad);
    };
    let r = read_replica(replica)?;
    let other = read_replica(other)?;
    Ok((r, other))
}

// `R N`, with a number from 1 to `most`
pub fn read_up_to_words(most: u64, words: &[&str]) -> Result<(u64, u64), LineError>
    ensures ok { IfOk result (λ said. up_to_words most (texts_of words.now) ≡ Some said) }
    ensures limits { IfOk result (λ said. IsUpTo most said.1) }
    ensures err { IfErr result (λ e. (e ≡ LineError.Bad) × (up_to_words most (texts_of words.now) ≡ None)) }
{
    let [replica, number] = words else {
        return Err(LineError::Bad);
    };
    let r = read_replica(replica)?;
    let number = read_up_to(most, number)?;
    Ok((r, number))
}

// `R N` or `R N B`
pub fn read_work_words(words: &[&str]) -> Result<(u64, u64, Option<u64>), LineError>
    ensures ok { IfOk result (λ said. work_words (texts_of words.now) ≡ Some said) }
    ensures limits { IfOk result (λ said. IsUpTo thread_max said.1 × IfSome said.2 (IsUpTo budget_max)) }
    ensures err { IfErr result (λ e. (e ≡ LineError.Bad) × (work_words (texts_of words.now) ≡ None)) }
{
    let [replica, workers, budget @ ..] = words else {
        return Err(LineError::Bad);
    };
    let r = read_replica(replica)?;
    let workers = read_up_to(THREAD_MAX, workers)?;
    let budget = read_budget_words(budget)?;
    Ok((r, workers, budget))
}

// nothing, or `B`
fn read_budget_words(words: &[&str]) -> Result<Option<u64>, LineError>
    ensures ok { IfOk result (λ budget. budget_words (texts_of words.now) ≡ Some budget) }
    ensures limits { IfOk result (λ budget. IfSome budget (IsUpTo budget_max)) }
    ensures err { IfErr result (λ e. (e ≡ LineError.Bad) × (budget_words (texts_of words.now) ≡ None)) }
{
    if words.is_empty() {
        return Ok(None);
    }
    let [budget] = words else {
        return Err(LineError::Bad);
    };
    let budget = read_up_to(BUDGET_MAX, budget)?;
    Ok(Some(budget))
}

// `R T M`
pub fn read_storm_words(words: &[&str]) -> Result<(u64, u64, u64), LineError>
    ensures ok { IfOk result (λ said. storm_words (texts_of words.now) ≡ Some said) }
    ensures limits { IfOk result (λ said. IsUpTo thread_max said.1 × IsUpTo write_max said.2) }
    ensures err { IfErr result (λ e. (e ≡ LineError.Bad) × (storm_words (texts_of words.now) ≡ None)) }
{
    let [replica, writers, writes] = words else {
        return Err(LineError::Bad);
    };
    let r = read_replica(replica)?;
    let writers = read_up_to(THREAD_MAX, writers)?;
    let writes = read_up_to(WRITE_MAX, writes)?;
    Ok((r, writers, writes))
}
