// A line of a script, as a command.
ghost use Rattle.std.specs.Prelude.{◌≡◌, IfOk, IfSome, IsErrOf, Some, None};
ghost use Rattle.std.specs.List.{list_all};
ghost use Rattle.mc_script.specs.Words.{words_of, texts_of, is_word};
ghost use Rattle.mc_script.specs.Limits.{IsInLimits};
ghost use Rattle.mc_script.specs.Line.{batch_by_name, command_by_name, command_of_words, has_no_reply, crowd_by_name};
ghost use Rattle.mc_script.specs.Line.{history_by_name, line_of, line_of_text, message_by_name, run_by_name};
ghost use Rattle.mc_script.specs.declared.line.LineError.TheVariants.{Memory};

use crate::Command;
use crate::arguments::{
    THREAD_MAX, read_hex_words, read_key_words, read_link_words, read_message_words,
    read_offer_words, read_pair_words, read_range_words, read_replica_words, read_span_words,
    read_storm_words, read_up_to_words, read_value_words, read_view_words, read_work_words,
};
use smallvec::SmallVec;
use std::alloc::{AllocError, Global};
use thiserror::Error;

// The greatest number of a commit that may be told to fail.
const COMMIT_MAX: u64 = 1_000_000;

// The most words of a command, which are read without memory of their own.
const WORDS_MAX: usize = 5;

/// Why a line gave no command.
#[derive(Clone, Copy, Debug, PartialEq, Eq, Error)]
pub enum LineError {
    /// The line is no command.
    #[error("no command")]
    Bad,
    /// There was no memory for the command.
    #[error("out of memory")]
    Memory,
}

impl From<AllocError> for LineError {
    ghost from_gives = { λ _ e. e ≡ Memory };

    fn from(_: AllocError) -> Self {
        LineError::Memory
    }
}

/// Reads a line, which comes without its line feed. `None` is a line without a reply: it is empty, or begins with `#`.
/// Any other line is words, the name of a command and those that `Command` says, with exactly one space between two of
/// them and none at either end. Only the space parts words: a tab, a carriage return or a NUL is part of one.
/// `Bad` comes exactly where the line is not UTF-8, or its words are no command.
///
/// The two replicas of a link differ, the number of a commit is from 1 to 1,000,000, those of workers and writers are
/// from 1 to 16, that of a writer's writes from 1 to 10,000, and a budget from 1 to 1,048,576 (`limits`). No limit on a
/// line or a script is looked at here: how long they may be is the caller's.
pub fn read_line(alloc: Global, line: &[u8]) -> Result<Option<Command>, LineError>
    ensures ok { IfOk result (λ read. line_of line.now ≡ Some read) }
    ensures limits { IfOk result (λ read. IfSome read IsInLimits) }
    ensures bad { IsErrOf result LineError.Bad → line_of line.now ≡ None }
{
    match str::from_utf8(line) {
        Ok(text) => read_text(alloc, text),
        Err(_) => Err(LineError::Bad),
    }
}

fn read_text(alloc: Global, text: &str) -> Result<Option<Command>, LineError>
    ensures ok { IfOk result (λ read. line_of_text text.now ≡ Some read) }
    ensures limits { IfOk result (λ read. IfSome read IsInLimits) }
    ensures bad { IsErrOf result LineError.Bad → line_of_text text.now ≡ None }
{
    if is_silent(text) {
        return Ok(None);
    }
    let words = split_words(alloc, text)?;
    Ok(Some(read_words(alloc, words.as_slice())?))
}

// Whether a line has no reply.
fn is_silent(text: &str) -> bool
    ensures { result ≡ has_no_reply text.now }
{
    match text.as_bytes() {
        [] => true,
        [first, ..] => *first == b'#',
    }
}

fn split_words<'a>(alloc: Global, text: &'a str) -> Result<SmallVec<&'a str, WORDS_MAX>, AllocError>
    ensures { IfOk result (λ words. texts_of words.items ≡ words_of text.now) }
{
    text.split(' ').collect(alloc)
}

fn read_words(alloc: Global, words: &[&str]) -> Result<Command, LineError>
    ensures ok { IfOk result (λ command. command_of_words (texts_of words.now) ≡ Some command) }
    ensures limits { IfOk result IsInLimits }
    ensures bad { IsErrOf result LineError.Bad → command_of_words (texts_of words.now) ≡ None }
{
    if !are_words(words) {
        return Err(LineError::Bad);
    }
    match words {
        [name, words @ ..] => read_by_name(alloc, name, words),
        [] => Err(LineError::Bad),
    }
}

fn are_words(words: &[&str]) -> bool
    ensures { result ≡ list_all is_word (texts_of words.now) }
{
    for word in words {
        if word.is_empty() {
            return false;
        }
    }
    true
}

fn read_by_name(alloc: Global, name: &str, words: &[&str]) -> Result<Command, LineError>
    ensures ok { IfOk result (λ command. command_by_name name.now (texts_of words.now) ≡ Some command) }
    ensures limits { IfOk result IsInLimits }
    ensures bad { IsErrOf result LineError.Bad → command_by_name name.now (texts_of words.now) ≡ None }
{
    match name {
        "put" => {
            let (r, key, bytes) = read_value_words(alloc, words)?;
            Ok(Command::Put { r, key, bytes })
        }
        "del" => {
            let (r, key) = read_key_words(alloc, words)?;
            Ok(Command::Del { r, key })
        }
        "get" => {
            let (r, key) = read_key_words(alloc, words)?;
            Ok(Command::Get { r, key })
        }
        "has" => {
            let (r, key) = read_key_words(alloc, words)?;
            Ok(Command::Has { r, key })
        }
        "query" => {
            let (r, prefix, skip, take) = read_range_words(alloc, words)?;
            Ok(Command::Query {
                r,
                prefix,
                skip,
                take,
            })
        }
        "heads" => {
            let r = read_replica_words(words)?;
            Ok(Command::Heads { r })
        }
        _ => read_of_batch(alloc, name, words),
    }
}

// The commands of a batch.
fn read_of_batch(alloc: Global, name: &str, words: &[&str]) -> Result<Command, LineError>
    ensures ok { IfOk result (λ command. batch_by_name name.now (texts_of words.now) ≡ Some command) }
    ensures limits { IfOk result IsInLimits }
    ensures bad { IsErrOf result LineError.Bad → batch_by_name name.now (texts_of words.now) ≡ None }
{
    match name {
        "begin" => {
            let r = read_replica_words(words)?;
            Ok(Command::Begin { r })
        }
        "bput" => {
            let (r, key, bytes) = read_value_words(alloc, words)?;
            Ok(Command::BatchPut { r, key, bytes })
        }
        "bdel" => {
            let (r, key) = read_key_words(alloc, words)?;
            Ok(Command::BatchDel { r, key })
        }
        "commit" => {
            let r = read_replica_words(words)?;
            Ok(Command::Commit { r })
        }
        _ => read_of_messages(alloc, name, words),
    }
}

// The commands of messages and of what others offer.
fn read_of_messages(alloc: Global, name: &str, words: &[&str]) -> Result<Command, LineError>
    ensures ok { IfOk result (λ command. message_by_name name.now (texts_of words.now) ≡ Some command) }
    ensures limits { IfOk result IsInLimits }
    ensures bad { IsErrOf result LineError.Bad → message_by_name name.now (texts_of words.now) ≡ None }
{
    match name {
        "cast" => {
            let r = read_replica_words(words)?;
            Ok(Command::Cast { r })
        }
        "wire" => {
            let bytes = read_hex_words(alloc, words)?;
            Ok(Command::Wire { bytes })
        }
        "hear" => {
            let (r, message) = read_message_words(words)?;
            Ok(Command::Hear { r, message })
        }
        "plant" => {
            let (r, cid, bytes) = read_offer_words(alloc, words)?;
            Ok(Command::Plant { r, cid, bytes })
        }
        "link" => {
            let (r, other, up) = read_link_words(words)?;
            Ok(Command::Link { r, other, up })
        }
        "step" => {
            let r = read_replica_words(words)?;
            Ok(Command::Step { r })
        }
        _ => read_of_histories(alloc, name, words),
    }
}

// The commands of CAR files, and of the values that were before.
fn read_of_histories(alloc: Global, name: &str, words: &[&str]) -> Result<Command, LineError>
    ensures ok { IfOk result (λ command. history_by_name name.now (texts_of words.now) ≡ Some command) }
    ensures limits { IfOk result IsInLimits }
    ensures bad { IsErrOf result LineError.Bad → history_by_name name.now (texts_of words.now) ≡ None }
{
    match name {
        "export" => {
            let r = read_replica_words(words)?;
            Ok(Command::Export { r })
        }
        "carin" => {
            let bytes = read_hex_words(alloc, words)?;
            Ok(Command::CarIn { bytes })
        }
        "import" => {
            let (r, car) = read_message_words(words)?;
            Ok(Command::Import { r, car })
        }
        "feed" => {
            let (r, from, count) = read_span_words(words)?;
            Ok(Command::Feed { r, from, count })
        }
        "getat" => {
            let (r, cid, key) = read_view_words(alloc, words)?;
            Ok(Command::GetAt { r, cid, key })
        }
        _ => read_of_runs(name, words),
    }
}

// The commands of a replica's state and its run.
fn read_of_runs(name: &str, words: &[&str]) -> Result<Command, LineError>
    ensures ok { IfOk result (λ command. run_by_name name.now (texts_of words.now) ≡ Some command) }
    ensures limits { IfOk result IsInLimits }
    ensures bad { IsErrOf result LineError.Bad → run_by_name name.now (texts_of words.now) ≡ None }
{
    match name {
        "state" => {
            let r = read_replica_words(words)?;
            Ok(Command::State { r })
        }
        "same" => {
            let (r, other) = read_pair_words(words)?;
            Ok(Command::Same { r, other })
        }
        "stop" => {
            let r = read_replica_words(words)?;
            Ok(Command::Stop { r })
        }
        "open" => {
            let r = read_replica_words(words)?;
            Ok(Command::Open { r })
        }
        "stopat" => {
            let (r, commit) = read_up_to_words(COMMIT_MAX, words)?;
            Ok(Command::StopAt { r, commit })
        }
        "stopafter" => {
            let (r, commit) = read_up_to_words(COMMIT_MAX, words)?;
            Ok(Command::StopAfter { r, commit })
        }
        _ => read_of_crowds(name, words),
    }
}

// The commands of workers and writers.
fn read_of_crowds(name: &str, words: &[&str]) -> Result<Command, LineError>
    ensures ok { IfOk result (λ command. crowd_by_name name.now (texts_of words.now) ≡ Some command) }
    ensures limits { IfOk result IsInLimits }
    ensures bad { IsErrOf result LineError.Bad → crowd_by_name name.now (texts_of words.now) ≡ None }
{
    match name {
        "work" => {
            let (r, workers, budget) = read_work_words(words)?;
            Ok(Command::Work { r, workers, budget })
        }
        "repair" => {
            let (r, workers) = read_up_to_words(THREAD_MAX, words)?;
            Ok(Command::Repair { r, workers })
        }
        "storm" => {
            let (r, writers, writes) = read_storm_words(words)?;
            Ok(Command::Storm { r, writers, writes })
        }
        _ => Err(LineError::Bad),
    }
}
