// The text of a key.
ghost use Rattle.std.specs.Prelude.{◌≡◌, ◌++◌, IfOk, OnOk, string_bytes};
ghost use Rattle.mc_script.specs.KeyText.{key_text, byte_text, is_plain};

use percent_encoding::percent_encode_byte;
use std::alloc::{AllocError, Global};

// A key with plain bytes as they are, and others as `%` and two hexadecimal digits; `%` for the empty key.
pub fn escape_key(alloc: Global, key: &[u8]) -> Result<String, AllocError>
    ensures { IfOk result (λ text. string_bytes text ≡ key_text key.now) }
{
    if key.is_empty() {
        return String::from_str(alloc, "%");
    }
    let mut text = String::with_capacity(alloc, key.len())?;
    for byte in key {
        push_byte(&mut text, *byte)?;
    }
    Ok(text)
}

fn push_byte(text: &mut String, byte: u8) -> Result<(), AllocError>
    ensures { OnOk result (string_bytes text.new ≡ string_bytes text.old ++ byte_text byte) }
{
    if is_plain(byte) {
        text.push(char::from(byte))
    } else {
        text.push_str(percent_encode_byte(byte))
    }
}

// Whether a byte stands for itself.
fn is_plain(byte: u8) -> bool
    ensures { result ≡ is_plain byte }
{
    byte.is_ascii_graphic() && byte != b'%'
}
