// Varints of the wire format.
ghost use Rattle.std.specs.Prelude.{◌≡◌, ◌+◌, ◌*◌, ◌^◌, ◌<◌, ◌≤◌, length, IfOk, nat_lt, if◌then◌else◌};
ghost use Rattle.mc_base.specs.Wire.{varint_bytes};
ghost use Rattle.mc_base.specs.WireRead.{front_varint};
ghost use Rattle.mc_base.specs.WireRead as read;
ghost use Rattle.mc_wire.specs.Named.{reading};

use crate::WireFault;

// The place of the last byte that a varint may have, and the number of bits before it.
const LAST_PLACE: usize = 9;

const LAST_SHIFT: u64 = 63;

/// The value and the length of the varint at the front of a text.
pub(crate) fn read_varint(bytes: &[u8]) -> Result<(u64, usize), WireFault>
    ensures found { reading result ≡ front_varint bytes.now }
    ensures within { IfOk result (λ read. (0 < read.1) × (read.1 ≤ length bytes.now)) }
{
    let mut value: u64 = 0;
    let mut scale: u64 = 1;
    for place in 0..bytes.len() {
        let byte = u64::from(bytes[place]);
        if place == LAST_PLACE {
            return with_tenth(value, byte);
        }
        if byte < 128 {
            return Ok((value + byte * scale, place + 1));
        }
        value += (byte - 128) * scale;
        scale *= 128;
    }
    Err(WireFault::Short)
}

// What nine bytes that go on and a tenth make.
fn with_tenth(value: u64, byte: u64) -> Result<(u64, usize), WireFault>
    requires { value < 2 ^ 63 }
    ensures found { reading result ≡ (if nat_lt 1 byte then Err read.LongVarint else Ok (value + byte * 2 ^ 63, 10)) }
    ensures len { IfOk result (λ read. read.1 ≡ 10) }
{
    if byte > 1 {
        return Err(WireFault::LongVarint);
    }
    Ok((value + (byte << LAST_SHIFT), LAST_PLACE + 1))
}

/// The number of bytes of the shortest varint of a value, 1 to 10.
#[tactic(auto, using(crate::proofs::Writing::varint_steps))]
pub fn varint_len(value: u64) -> u64
    ensures len { result ≡ length (varint_bytes value) }
    ensures most { result ≤ 10 }
{
    let mut len = 1;
    let mut rest = value;
    while rest >= 128 {
        rest /= 128;
        len += 1;
    }
    len
}
