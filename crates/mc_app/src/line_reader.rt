// The lines of a source, within the limits of a line and of a script.
ghost use Rattle.std.specs.Prelude.{◌≡◌, ◌≤◌, ◌+◌, ◌-◌, ◌<◌, ◌++◌, [], ◌∷◌, true, false, take, drop, IfOk, IfSome};
ghost use Rattle.std.specs.Prelude.{IfNone, IsErrOf, length, ⊤};
ghost use Rattle.mc_base.specs.Told.{Told};
ghost use Rattle.mc_base.specs.Causes.{Counts};
ghost use Rattle.mc_app.specs.Lines.{IsTooLong, NoFeed, line_max, script_max};
ghost use Rattle.mc_app.specs.Taking.{TakesLine, TakesPart, EndsLine};
ghost use Rattle.mc_app.specs.declared.line_reader.ReadError.TheVariants.{Failed as ReadFailed, Memory};

use crate::bytes_ahead::BytesAhead;
use mc_base::{Bytes, Failed, Source};
use memchr::memchr;
use std::alloc::{AllocError, Global};
use thiserror::Error;

// The most bytes of a line, without its line feed.
const LINE_MAX: usize = 4_194_304;

// The most bytes of a script, line feeds among them.
const SCRIPT_MAX: usize = 1_073_741_824;

/// Why no line was read.
#[derive(Clone, Copy, Debug, PartialEq, Eq, Error)]
pub enum ReadError {
    /// The line is longer than a line may be, or has a byte past the script's limit.
    #[error("the line is too long")]
    TooLong,
    /// The source failed.
    #[error("the source failed")]
    Failed,
    /// There was no memory for the line.
    #[error("out of memory")]
    Memory,
}

impl From<Failed> for ReadError {
    ghost from_gives = { λ _ e. e ≡ ReadFailed };

    fn from(_: Failed) -> Self {
        ReadError::Failed
    }
}

impl From<AllocError> for ReadError {
    ghost from_gives = { λ _ e. e ≡ Memory };

    fn from(_: AllocError) -> Self {
        ReadError::Memory
    }
}

/// Reads a source line by line. It holds a piece of the source, and one line.
#[derive(Drop)]
pub struct LineReader {
    ahead: BytesAhead,
    line: Bytes,
    given: usize,
    ghost in_script: { given ≤ script_max },
}

impl LineReader {
    /// A reader that stands before the first line.
    pub fn new(alloc: Global) -> Result<Self, AllocError>
        ensures { IfOk result (λ reader. (reader.ahead ≡ []) × (reader.given ≡ 0)) }
    {
        Ok(LineReader {
            ahead: BytesAhead::new(alloc)?,
            line: Bytes::new(alloc),
            given: 0,
        })
    }

    /// The line that was read last, without its line feed.
    pub fn line(&self) -> &[u8]
        ensures { result.now ≡ self.now.line }
    {
        self.line.as_slice()
    }

    /// Reads the next line, and says whether there is one. `TooLong` comes exactly where the line breaks a limit, and
    /// `Failed` only where the source failed before the line's end was seen.
    pub fn next_line<S: Source>(&mut self, source: &mut S) -> Result<bool, ReadError>
        ensures line { IfOk result (λ more. more ≡ true → Told (S.left source.old) (S.left source.new) (λ before after.
            TakesLine self.new.line self.old.given self.new.given
            (self.old.ahead ++ before) (self.new.ahead ++ after))) }
        ensures moves { IfOk result (λ more. more ≡ true → self.old.given < self.new.given) }
        ensures end { IfOk result (λ more. more ≡ false → Told (S.left source.old) (S.left source.new) (λ before after.
            self.old.ahead ++ before ≡ [])) }
        ensures too_long { IsErrOf result ReadError.TooLong →
            Told (S.left source.old) (S.left source.new) (λ before after.
            IsTooLong (script_max - self.old.given) (self.old.ahead ++ before)) }
        ensures part { IsErrOf result ReadError.Failed → Told (S.left source.old) (S.left source.new) (λ before after.
            TakesPart (self.old.ahead ++ before) after) }
        ensures told { Told (S.left source.old) (S.left source.new) (λ _ _. ⊤) }
        ensures endless { S.endless source.old ≡ true →
            (S.endless source.new ≡ true) × IfOk result (λ more. more ≡ true) }
        ensures cause { Counts (S.faults source.old) (S.faults source.new) (IsErrOf result ReadError.Failed) }
    {
        let room = SCRIPT_MAX - self.given;
        self.line.clear();
        loop {
            if !self.ahead.fill(source)? {
                self.given += self.line.len();
                return Ok(self.line.len() > 0);
            }
            if take_piece(&mut self.ahead, &mut self.line, room)? {
                self.given += self.line.len() + 1;
                return Ok(true);
            }
        }
    }
}

// Moves the bytes ahead to a line, up to the line feed or all, and says whether the line has ended.
fn take_piece(ahead: &mut BytesAhead, line: &mut Bytes, room: usize) -> Result<bool, ReadError>
    requires { length line.old ≤ line_max }
    ensures ended { IfOk result (λ ended. ended ≡ true →
        EndsLine line.old line.new ahead.old ahead.new × (length line.new < room)) }
    ensures more { IfOk result (λ ended. ended ≡ false →
        (line.new ≡ line.old ++ ahead.old) × NoFeed ahead.old × (ahead.new ≡ []) × (length line.new ≤ room)) }
    ensures within { IfOk result (λ _. length line.new ≤ line_max) }
    ensures too_long { IsErrOf result ReadError.TooLong → NoFeed line.old → IsTooLong room (line.old ++ ahead.old) }
    ensures no_fault { IsErrOf result ReadError.Failed → ⊥ }
{
    let unread = ahead.unread();
    let Some(at) = feed_in(unread) else {
        let count = unread.len();
        if count > LINE_MAX - line.len() || line.len() + count > room {
            return Err(ReadError::TooLong);
        }
        line.extend_from_slice(unread)?;
        ahead.consume(count);
        return Ok(false);
    };
    if at > LINE_MAX - line.len() || line.len() + at >= room {
        return Err(ReadError::TooLong);
    }
    line.extend_from_slice(&unread[..at])?;
    ahead.consume(at + 1);
    Ok(true)
}

// Where the first line feed stands.
fn feed_in(bytes: &[u8]) -> Option<usize>
    ensures found { IfSome result (λ at. (at < length bytes.now) × NoFeed (take at bytes.now)
        × (bytes.now ≡ take at bytes.now ++ 10 ∷ drop (at + 1) bytes.now)) }
    ensures none { IfNone result (NoFeed bytes.now) }
{
    memchr(b'\n', bytes)
}
