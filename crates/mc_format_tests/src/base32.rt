// The test vectors of base32.
use mc_base::Bytes;
use mc_base32::{Base32Error, Base32Fault, Case, decode, encode};
use std::alloc::Global;
use std::test::Fail;

#[derive(Drop)]
struct Row {
    bytes: &'static [u8],
    upper: &'static str,
    lower: &'static str,
}

fn spelled(bytes: &'static [u8], upper: &'static str, lower: &'static str) -> Row {
    Row {
        bytes,
        upper,
        lower,
    }
}

#[test]
fn texts_and_bytes(rt: HostRuntime) -> Result<(), Fail> {
    let alloc = rt.alloc();
    // RFC 4648, section 10, without the padding
    let rows = [
        spelled(b"", "", ""),
        spelled(b"f", "MY", "my"),
        spelled(b"fo", "MZXQ", "mzxq"),
        spelled(b"foo", "MZXW6", "mzxw6"),
        spelled(b"foob", "MZXW6YQ", "mzxw6yq"),
        spelled(b"fooba", "MZXW6YTB", "mzxw6ytb"),
        spelled(b"foobar", "MZXW6YTBOI", "mzxw6ytboi"),
    ];
    for row in rows {
        assert_eq!(rt; encode(alloc, Case::Upper, row.bytes)?.as_str(), row.upper);
        assert_eq!(rt; encode(alloc, Case::Lower, row.bytes)?.as_str(), row.lower);
        assert_eq!(rt;
            decoded(alloc, Case::Upper, row.upper)?.as_slice(),
            row.bytes
        );
        assert_eq!(rt;
            decoded(alloc, Case::Lower, row.lower)?.as_slice(),
            row.bytes
        );
    }
    let faulty = [
        ("MZXW6YT!", Base32Fault::BadChar { at: 7 }),
        ("MZXW6YTBO1", Base32Fault::BadChar { at: 9 }),
        ("MZXW6YTBoI", Base32Fault::BadChar { at: 8 }),
        ("M", Base32Fault::BadLength),
        ("MZX", Base32Fault::BadLength),
        ("MZXW6YTBMZXW6Y", Base32Fault::BadLength),
        ("MZ!", Base32Fault::BadChar { at: 2 }),
        ("MZ", Base32Fault::TailBits),
        ("MZXW6YTBOJ", Base32Fault::TailBits),
    ];
    for (text, fault) in faulty {
        let Err(error) = decode(alloc, Case::Upper, text) else {
            return Err(Fail::new("a faulty text was read"));
        };
        assert_eq!(rt; error, Base32Error::Fault(fault), "{text}");
    }
    Ok(())
}

fn decoded(alloc: Global, case: Case, text: &str) -> Result<Bytes, Fail> {
    match decode(alloc, case, text) {
        Ok(bytes) => Ok(bytes),
        Err(_) => Err(Fail::new("a text wasn't read")),
    }
}
