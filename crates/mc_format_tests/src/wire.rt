// Fields and faults, by the Protocol Buffers encoding.
use crate::texts::bytes_of;
use mc_base::Bytes;
use mc_wire::{
    Content, Field, WireFault, WireFaultAt, next_field, put_part_field, put_varint_field,
    varint_len,
};
use std::alloc::Global;
use std::test::Fail;

// What stands at a place of these bytes.
fn answer_at(
    alloc: Global,
    text: &str,
    at: usize,
) -> Result<Result<Option<Field>, WireFaultAt>, Fail> {
    let bytes = bytes_of(alloc, text)?;
    if at > bytes.len() {
        return Err(Fail::new("a place past the end"));
    }
    Ok(next_field(bytes.as_slice(), at))
}

#[test]
fn fields_are_read_by_the_table(rt: HostRuntime) -> Result<(), Fail> {
    // the bytes, the place, and the number, the content and the end of the field there
    let rows = [
        ("08ac02", 0, 1, Content::Varint(300), 3),
        ("88008100", 0, 1, Content::Varint(1), 4),
        (
            "08ffffffffffffffffff01",
            0,
            1,
            Content::Varint(u64::MAX),
            11,
        ),
        ("110102030405060708", 0, 2, Content::Fixed64 { from: 1 }, 9),
        ("08001a026162", 2, 3, Content::Part { from: 4, to: 6 }, 6),
        ("2501020304", 0, 4, Content::Fixed32 { from: 1 }, 5),
    ];
    for (text, at, number, content, next) in rows {
        let field = Field {
            number,
            content,
            next,
        };
        assert!(rt;
            answer_at(rt.alloc(), text, at)? == Ok(Some(field)),
            "{text}"
        );
    }
    for (text, at) in [("", 0), ("0801", 2)] {
        assert!(rt; answer_at(rt.alloc(), text, at)? == Ok(None), "{text}");
    }
    Ok(())
}

#[test]
fn faults_are_found_by_the_table(rt: HostRuntime) -> Result<(), Fail> {
    let rows = [
        ("08ffffffffffffffffff02", 0, WireFault::LongVarint),
        ("25010203", 0, WireFault::Short),
        ("1101020304050607", 0, WireFault::Short),
        ("08000a05", 2, WireFault::Short),
        ("0affffffffffffffffff01", 0, WireFault::Short),
        ("80808080808080808080", 0, WireFault::LongVarint),
        ("808080808080808080", 0, WireFault::Short),
        ("1b", 0, WireFault::WireType),
        ("03", 0, WireFault::FieldZero),
    ];
    for (text, at, kind) in rows {
        let fault = WireFaultAt { kind, at };
        assert!(rt; answer_at(rt.alloc(), text, at)? == Err(fault), "{text}");
    }
    Ok(())
}

#[test]
fn fields_are_written_in_as_few_bytes_as_they_need(rt: HostRuntime) -> Result<(), Fail> {
    let alloc = rt.alloc();
    let mut out = Bytes::new(alloc);
    put_varint_field(&mut out, 3, 300)?;
    put_part_field(&mut out, 15, &[0x61, 0x62])?;
    put_varint_field(&mut out, 1, u64::MAX)?;
    let written = bytes_of(alloc, "18ac02 7a026162 08ffffffffffffffffff01")?;
    assert!(rt; out.as_slice() == written.as_slice());
    for (value, len) in [
        (0, 1),
        (127, 1),
        (128, 2),
        (16383, 2),
        (16384, 3),
        (u64::MAX, 10),
    ] {
        assert!(rt; varint_len(value) == len, "{value}");
    }
    Ok(())
}
