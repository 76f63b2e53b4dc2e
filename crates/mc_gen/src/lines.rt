// The lines of a script, each written at the end of a text. Where there is no memory, a part of the line is written.
ghost use Rattle.std.specs.Prelude.{◌≡◌, ◌<◌, ◌^◌, ◌+◌, ◌%◌, ◌∷◌, [], ◌++◌, OnOk, codes};
ghost use Rattle.std.specs.Fmt.{decimal};
ghost use Rattle.mc_gen.specs.Lines.{
  cast_line,
  command_of,
  del_line,
  hear_line,
  key_of,
  last_lines,
  letter,
  meeting_lines,
  put_line,
  value_of,
  work_line,
};

use hex::encode_to_slice;
use itoa::Buffer;
use mc_base::Bytes;
use std::alloc::AllocError;

pub fn push_put(text: &mut Bytes, replica: u64, draw: u64) -> Result<(), AllocError>
    requires replica { replica < 3 }
    requires draw { draw < 2 ^ 32 }
    ensures { OnOk result (text.new ≡ text.old ++ put_line replica draw) }
{
    push_start(text, b"put", replica)?;
    push_key(text, draw)?;
    push_value(text, draw)
}

pub fn push_del(text: &mut Bytes, replica: u64, draw: u64) -> Result<(), AllocError>
    requires { replica < 3 }
    ensures { OnOk result (text.new ≡ text.old ++ del_line replica draw) }
{
    push_start(text, b"del", replica)?;
    push_key(text, draw)?;
    text.push(b'\n')
}

pub fn push_cast(text: &mut Bytes, replica: u64) -> Result<(), AllocError>
    requires { replica < 3 }
    ensures { OnOk result (text.new ≡ text.old ++ cast_line replica) }
{
    push_start(text, b"cast", replica)?;
    text.push(b'\n')
}

pub fn push_hear(text: &mut Bytes, replica: u64, message: u64) -> Result<(), AllocError>
    requires { replica < 3 }
    ensures { OnOk result (text.new ≡ text.old ++ hear_line replica message) }
{
    push_start(text, b"hear", replica)?;
    push_number(text, message)
}

pub fn push_work(text: &mut Bytes, replica: u64, workers: u64) -> Result<(), AllocError>
    requires { replica < 3 }
    ensures { OnOk result (text.new ≡ text.old ++ work_line replica workers) }
{
    push_start(text, b"work", replica)?;
    push_number(text, workers)
}

// The lines behind the drawn ones.
pub fn push_last(text: &mut Bytes, sent: u64) -> Result<(), AllocError>
    requires { sent < 2 ^ 32 }
    ensures { OnOk result (text.new ≡ text.old ++ last_lines sent) }
{
    push_casts(text)?;
    push_meeting(text, 0, sent)?;
    push_meeting(text, 1, sent)?;
    push_meeting(text, 2, sent)?;
    text.extend_from_slice(b"same a b\nsame b c\nquery a / 0 100\n")
}

// Each replica sends its heads.
fn push_casts(text: &mut Bytes) -> Result<(), AllocError>
    ensures { OnOk result (text.new ≡ text.old ++ cast_line 0 ++ cast_line 1 ++ cast_line 2) }
{
    push_cast(text, 0)?;
    push_cast(text, 1)?;
    push_cast(text, 2)
}

// A replica hears the three last messages, and works.
fn push_meeting(text: &mut Bytes, replica: u64, sent: u64) -> Result<(), AllocError>
    requires replica { replica < 3 }
    requires sent { sent < 2 ^ 32 }
    ensures { OnOk result (text.new ≡ text.old ++ meeting_lines replica sent) }
{
    push_hear(text, replica, sent + 1)?;
    push_hear(text, replica, sent + 2)?;
    push_hear(text, replica, sent + 3)?;
    push_work(text, replica, 4)
}

// A name, a space, and the letter of a replica.
fn push_start(text: &mut Bytes, name: &[u8], replica: u64) -> Result<(), AllocError>
    requires { replica < 3 }
    ensures { OnOk result (text.new ≡ text.old ++ command_of name.now replica []) }
{
    text.extend_from_slice(name)?;
    text.push(b' ')?;
    text.push(b'a' + replica as u8)
}

// A space, and one of the keys.
fn push_key(text: &mut Bytes, draw: u64) -> Result<(), AllocError>
    ensures { OnOk result (text.new ≡ text.old ++ 32 ∷ key_of draw) }
{
    text.extend_from_slice(b" /k/")?;
    push_decimal(text, draw % 64)
}

// A space, the digits of a draw, and the line's end.
fn push_value(text: &mut Bytes, draw: u64) -> Result<(), AllocError>
    requires { draw < 2 ^ 32 }
    ensures { OnOk result (text.new ≡ text.old ++ 32 ∷ value_of draw ++ 10 ∷ []) }
{
    let mut digits = [0; 8];
    write_digits(draw as u32, &mut digits);
    text.push(b' ')?;
    text.extend_from_slice(&digits)?;
    text.push(b'\n')
}

// The digits of a draw, whose places are as many.
fn write_digits(draw: u32, digits: &mut [u8; 8])
    ensures { digits.new ≡ value_of draw }
{
    let _ = encode_to_slice(&draw.to_be_bytes(), digits);
}

// A space, a number, and the line's end.
pub fn push_number(text: &mut Bytes, number: u64) -> Result<(), AllocError>
    ensures { OnOk result (text.new ≡ text.old ++ 32 ∷ decimal number ++ 10 ∷ []) }
{
    text.push(b' ')?;
    push_decimal(text, number)?;
    text.push(b'\n')
}

// A number.
fn push_decimal(text: &mut Bytes, number: u64) -> Result<(), AllocError>
    ensures { OnOk result (text.new ≡ text.old ++ decimal number) }
{
    let mut digits = Buffer::new();
    text.extend_from_slice(digits.format(number).as_bytes())
}
