// From bytes to text, and the laws that tie both directions.
ghost use Rattle.std.specs.Prelude.{◌≡◌, IfOk};
ghost use Rattle.mc_base.specs.Base32.{base32_of};
ghost use Rattle.mc_base32.specs.Reading.{IsOneText, IsReadAgain};

use mc_base::{Case, Text, encode32};
use std::alloc::{AllocError, Global};

/// The base32 text of bytes without padding (RFC 4648, section 6). The memory is taken once.
pub fn encode(alloc: Global, case: Case, bytes: &[u8]) -> Result<Text, AllocError>
    ensures { IfOk result (λ text. text ≡ base32_of case bytes.now) }
{
    encode32(alloc, case, bytes)
}

/// What `encode` writes, `decode` reads.
pub fn read_again()
    ensures { IsReadAgain }
{}

/// What `decode` reads is what `encode` writes for these bytes: they have one text.
pub fn one_text()
    ensures { IsOneText }
{}
