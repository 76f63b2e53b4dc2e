// What the words behind the program's name ask for.
ghost use Rattle.std.specs.Prelude.{◌≡◌, ◌≢◌, ◌≤◌, ◌&&◌, IfOk, IfSome, IfErr, IsErrOf, None, Some, map, not};
ghost use Rattle.std.specs.Prelude.{string_bytes};
ghost use Rattle.std.specs.Option.{is_some};
ghost use Rattle.mc_app.specs.CommandLine.{
  IsInRange,
  are_options,
  command_of,
  given,
  gen_of,
  has_option,
  is_value,
  number_within,
  or_default,
  plan_by,
  request_by,
  request_of,
  run_of,
};
ghost use Rattle.mc_app.specs.declared.command_line.WordsError.TheVariants.{Memory};
ghost use Rattle.mc_app.specs.GivenText.{text_given};

use mc_base::Text;
use mc_keepers::KeeperPlan;
use mc_script::read_number;
use std::alloc::{AllocError, Global};
use thiserror::Error;

// The most replicas of a run, the replicas of a run that doesn't say their number, and the most steps that are drawn.
const REPLICAS_MAX: u64 = 8;

const COUNT_MAX: u64 = 100_000;

/// What the words of a command line ask for.
#[derive(Debug, Drop)]
pub enum Request {
    /// A run of a script over this many replicas, from 1 to 8, with keepers of this plan.
    Run { plan: KeeperPlan, replicas: u64 },
    /// A run of the script that is generated from this start and this count, from 1 to 100,000.
    Gen { start: u64, count: u64 },
}

/// Why words were not read.
#[derive(Clone, Copy, Debug, PartialEq, Eq, Error)]
pub enum WordsError {
    /// The words ask for nothing.
    #[error("another form")]
    Usage,
    /// There was no memory for what they ask for.
    #[error("out of memory")]
    Memory,
}

impl From<AllocError> for WordsError {
    ghost from_gives = { λ _ e. e ≡ Memory };

    fn from(_: AllocError) -> Self {
        WordsError::Memory
    }
}

// The commands.
#[derive(Clone, Copy, Debug, PartialEq, Eq)]
pub enum Subcommand {
    Run,
    Gen,
}

/// Reads the words behind the program's name: a command, `run` or `gen`, and its options in any order, each of two
/// words,
/// `--name` and a value that isn't empty and doesn't begin with `-`, and each at most once. `run` has `--keeper memory`
/// or `--keeper sqlite`, the latter with `--dir` and a folder, and `--replicas` with a number from 1 to 8; `gen` has
/// `--start` and a number, and `--count` with a number from 1 to 100,000, both of them. Numbers are one to twenty
/// decimal digits below 2^64. Every other list of words is `Usage`; `Memory` comes only where the words ask for
/// something.
pub fn read_words(alloc: Global, words: &[String]) -> Result<Request, WordsError>
    ensures ok { IfOk result (λ request. request_of (map string_bytes words.now) ≡ Some request) }
    ensures usage { IsErrOf result WordsError.Usage → request_of (map string_bytes words.now) ≡ None }
    ensures memory { IsErrOf result WordsError.Memory → request_of (map string_bytes words.now) ≢ None }
    ensures range { IfOk result IsInRange }
{
    let [name, options @ ..] = words else {
        return Err(WordsError::Usage);
    };
    let Some(command) = read_command(name.as_str()) else {
        return Err(WordsError::Usage);
    };
    if !has_options(command, options) {
        return Err(WordsError::Usage);
    }
    match command {
        Subcommand::Run => read_run(alloc, options),
        Subcommand::Gen => read_gen(options),
    }
}

fn read_command(name: &str) -> Option<Subcommand>
    ensures { result ≡ command_of name.now }
{
    match name {
        "run" => Some(Subcommand::Run),
        "gen" => Some(Subcommand::Gen),
        _ => None,
    }
}

// Whether words are options of a command.
fn has_options(command: Subcommand, options: &[String]) -> bool
    ensures { result ≡ are_options command (map string_bytes options.now) }
{
    let mut rest = options;
    while let [name, value, after @ ..] = rest {
        if !is_option(command, name.as_str(), value.as_str(), after) {
            return false;
        }
        rest = after;
    }
    rest.is_empty()
}

// Whether two words are an option of a command that is not given again.
fn is_option(command: Subcommand, name: &str, value: &str, after: &[String]) -> bool
    ensures { result ≡ has_option command name.now && (is_value value.now
        && not (is_some (given name.now (map string_bytes after.now)))) }
{
    is_option_name(command, name) && starts_value(value) && find(name, after).is_none()
}

fn is_option_name(command: Subcommand, name: &str) -> bool
    ensures { result ≡ has_option command name.now }
{
    match command {
        Subcommand::Run => matches!(name, "--keeper" | "--dir" | "--replicas"),
        Subcommand::Gen => matches!(name, "--start" | "--count"),
    }
}

fn starts_value(word: &str) -> bool
    ensures { result ≡ is_value word.now }
{
    match word.as_bytes() {
        [first, ..] => *first != b'-',
        [] => false,
    }
}

// The value of an option, where it is given.
fn find<'a>(wanted: &str, options: &'a [String]) -> Option<&'a str>
    ensures { text_given result ≡ given wanted.now (map string_bytes options.now) }
{
    let mut rest = options;
    while let [name, value, after @ ..] = rest {
        if name.as_str() == wanted {
            return Some(value.as_str());
        }
        rest = after;
    }
    None
}

fn read_run(alloc: Global, options: &[String]) -> Result<Request, WordsError>
    ensures ok { IfOk result (λ request. run_of (map string_bytes options.now) ≡ Some request) }
    ensures usage { IsErrOf result WordsError.Usage → run_of (map string_bytes options.now) ≡ None }
    ensures memory { IsErrOf result WordsError.Memory → run_of (map string_bytes options.now) ≢ None }
    ensures range { IfOk result IsInRange }
{
    let Some(replicas) = read_within(1, REPLICAS_MAX, find_or("--replicas", options, "3")) else {
        return Err(WordsError::Usage);
    };
    let keeper = find_or("--keeper", options, "memory");
    let plan = read_plan(alloc, keeper, find("--dir", options))?;
    Ok(Request::Run { plan, replicas })
}

fn read_gen(options: &[String]) -> Result<Request, WordsError>
    ensures ok { IfOk result (λ request. gen_of (map string_bytes options.now) ≡ Some request) }
    ensures err { IfErr result (λ e. (e ≡ WordsError.Usage) × (gen_of (map string_bytes options.now) ≡ None)) }
    ensures range { IfOk result IsInRange }
{
    let (Some(start), Some(count)) = (find("--start", options), find("--count", options)) else {
        return Err(WordsError::Usage);
    };
    let (Ok(start), Some(count)) = (read_number(start), read_within(1, COUNT_MAX, count)) else {
        return Err(WordsError::Usage);
    };
    Ok(Request::Gen { start, count })
}

// The keepers of a run.
fn read_plan(alloc: Global, keeper: &str, dir: Option<&str>) -> Result<KeeperPlan, WordsError>
    ensures ok { IfOk result (λ plan. plan_by keeper.now (text_given dir.entry) ≡ Some plan) }
    ensures usage { IsErrOf result WordsError.Usage → plan_by keeper.now (text_given dir.entry) ≡ None }
    ensures memory { IsErrOf result WordsError.Memory → plan_by keeper.now (text_given dir.entry) ≢ None }
{
    match dir {
        None if keeper == "memory" => Ok(KeeperPlan::Memory),
        Some(dir) if keeper == "sqlite" => Ok(KeeperPlan::Sqlite {
            dir: Text::from_text(alloc, dir)?,
        }),
        _ => Err(WordsError::Usage),
    }
}

// The value of an option, or else its default.
fn find_or<'a>(wanted: &str, options: &'a [String], default: &'a str) -> &'a str
    ensures { result.now ≡ or_default (given wanted.now (map string_bytes options.now)) default.now }
{
    match find(wanted, options) {
        Some(value) => value,
        None => default,
    }
}

fn read_within(least: u64, most: u64, word: &str) -> Option<u64>
    ensures number { result ≡ number_within least most word.now }
    ensures range { IfSome result (λ number. (least ≤ number) × (number ≤ most)) }
{
    match read_number(word) {
        Ok(number) if least <= number && number <= most => Some(number),
        _ => None,
    }
}
