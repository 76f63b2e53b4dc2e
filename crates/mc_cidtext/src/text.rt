// Identifiers as texts.
ghost use Rattle.std.specs.Prelude.{◌≡◌, IfOk, IfErr, Ok};
ghost use Rattle.mc_cidtext.specs.CidText.{IsFaultOf, IsOneText, IsReadAgain, cid_text, read_cid_text};

use crate::fault::{CidTextError, CidTextFault};
use mc_base::{Case, Cid, Text, cids_are_read, encode32_after};
use mc_base32::{Base32Error, decode};
use std::alloc::{AllocError, Global};

/// The text of an identifier: `b` and the lower-case base32 of its 36 bytes, 59 characters that begin `bafybei`
/// (Multiformats CID specification). The memory is taken once.
pub fn to_text(alloc: Global, cid: &Cid) -> Result<Text, AllocError>
    ensures { IfOk result (λ text. text ≡ cid_text cid.now.0) }
{
    encode32_after(alloc, "b", Case::Lower, &cid.bytes())
}

/// The identifier of a text. The faults are looked for in this order: a text that doesn't begin with `b`; what follows
/// it isn't lower-case base32; its bytes aren't an identifier of this kind.
pub fn from_text(alloc: Global, text: &str) -> Result<Cid, CidTextError>
    ensures ok { IfOk result (λ cid. read_cid_text text.now ≡ Ok cid.0) }
    ensures err { IfErr result (λ e. IsFaultOf e (read_cid_text text.now)) }
{
    let Some(digits) = text.strip_prefix("b") else {
        return Err(CidTextFault::Prefix.into());
    };
    let bytes = match decode(alloc, Case::Lower, digits) {
        Ok(bytes) => bytes,
        Err(Base32Error::Memory) => return Err(CidTextError::Memory),
        Err(Base32Error::Fault(fault)) => return Err(CidTextFault::Base32 { fault }.into()),
    };
    let Some(cid) = Cid::from_bytes(bytes.as_slice()) else {
        return Err(CidTextFault::NotProfile.into());
    };
    Ok(cid)
}

/// What `to_text` writes, `from_text` reads.
pub fn read_again()
    ensures { IsReadAgain }
{
    cids_are_read();
    mc_base32::read_again();
}

/// What `from_text` reads is what `to_text` writes for this identifier: it has one text.
pub fn one_text()
    ensures { IsOneText }
{
    mc_base32::one_text();
}
