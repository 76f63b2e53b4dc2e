// Bytes that are spelled in hexadecimal.
use mc_base::{Bytes, Cid};
use std::alloc::Global;
use std::test::Fail;

/// The bytes of words, one after another: each is hexadecimal, or `H`, which stands for the field of a link's hash with the
/// identifier of the empty block.
pub(crate) fn bytes_of(alloc: Global, text: &str) -> Result<Bytes, Fail> {
    let mut out = Bytes::new(alloc);
    for word in text.split(' ') {
        if word == "H" {
            out.extend_from_slice(&[0x0a, 0x24])?;
            out.extend_from_slice(&Cid::of(&[]).bytes())?;
        } else {
            push_hex(alloc, &mut out, word)?;
        }
    }
    Ok(out)
}

fn push_hex(alloc: Global, out: &mut Bytes, word: &str) -> Result<(), Fail> {
    let Ok(bytes) = hex::decode(alloc, word) else {
        return Err(Fail::new("a word that is not hexadecimal"));
    };
    out.extend_from_slice(bytes.as_slice())?;
    Ok(())
}
