// Keys that obey the key rule.
ghost use Rattle.std.specs.Prelude.{◌≡◌, None, Some, IfOk, OnOk, IfErr, true};
ghost use Rattle.mc_key.specs.KeyRule as key_rule;
ghost use Rattle.mc_key.specs.KeyRule.{IsWithoutFault, is_key, key_fault, parts, segments_fault};

use crate::fault::KeyFault;
use std::marker::Model;

const LONGEST: usize = 1024;

/// A borrowed text that obeys the key rule: it begins with `/`, has at most 1,024 bytes, and no part between slashes,
/// or after the last, is empty, `.` or `..`. A contract sees it as the list of its bytes.
#[derive(Debug, Drop)]
pub struct Key<'a> {
    text: &'a str,
}

impl<'a> Model for Key<'a> {
    ghost use Rattle.std.specs.Prelude.{ℕ, List, ◌≡◌, true};
    ghost use Rattle.mc_key.specs.KeyRule.{is_key};

    ghost Value = { List ℕ };

    ghost view = { λ key. key.text.now };

    ghost invariant = { λ key. is_key key.text.now ≡ true };
}

impl<'a> Key<'a> {
    /// The text as a key, borrowed, or the first fault in the order of `KeyFault`. Takes no memory.
    pub fn read(text: &'a str) -> Result<Key<'a>, KeyFault>
        ensures read { IfOk result (λ key. key ≡ text.now) }
        ensures rule { OnOk result (is_key text.now ≡ true) }
        ensures ok { OnOk result (key_fault text.now ≡ None) }
        ensures fault { IfErr result (λ fault. key_fault text.now ≡ Some fault) }
    {
        if text.is_empty() {
            return Err(KeyFault::Empty);
        }
        let Some(rest) = text.strip_prefix("/") else {
            return Err(KeyFault::NoSlash);
        };
        if text.len() > LONGEST {
            return Err(KeyFault::TooLong);
        }
        check_segments(rest)?;
        Ok(Key { text })
    }

    /// The text of the key.
    pub fn as_str(&self) -> &'a str
        ensures text { result.now ≡ self.now }
        ensures rule { is_key self.now ≡ true }
    {
        self.text
    }
}

// Whether a segment is `.` or `..`.
fn is_dots(segment: &str) -> bool
    ensures { result ≡ key_rule.is_dots segment.now }
{
    matches!(segment, "." | "..")
}

// Looks for an empty segment, and then for one of dots, among the parts of a key after its first slash.
fn check_segments(rest: &str) -> Result<(), KeyFault>
    ensures ok { OnOk result (segments_fault (parts rest.now) ≡ None) }
    ensures fault { IfErr result (λ fault. segments_fault (parts rest.now) ≡ Some fault) }
{
    let mut has_dots = false;
    for segment in rest.split('/') {
        if segment.is_empty() {
            return Err(KeyFault::EmptySegment);
        }
        has_dots |= is_dots(segment);
    }
    if has_dots {
        return Err(KeyFault::DotSegment);
    }
    Ok(())
}

/// A text has no fault exactly where it is a key.
pub fn keys_have_no_fault()
    ensures { IsWithoutFault }
{}
