// CARv1 files, by their bytes.
use crate::texts::bytes_of;
use mc_base::{Bytes, Cid, List};
use mc_car::{CarError, CarFault, CarFaultKind, Section, read_car, write_car};
use std::alloc::{AllocError, Global};
use std::test::Fail;

// What a file comes to: the numbers of its roots and sections, or its fault.
type Outcome = Result<(usize, usize), CarFault>;

fn fault(kind: CarFaultKind, at: u64) -> Outcome {
    Err(CarFault { kind, at })
}

fn outcome(alloc: Global, bytes: &[u8]) -> Result<Outcome, Fail> {
    match read_car(alloc, bytes) {
        Ok(car) => Ok(Ok((car.roots.len(), car.sections.len()))),
        Err(CarError::Fault(fault)) => Ok(Err(fault)),
        Err(CarError::Memory) => Err(Fail::new("no memory")),
    }
}

fn sections_of(alloc: Global, blocks: &[&[u8]]) -> Result<List<Section>, AllocError> {
    let mut sections = List::new(alloc);
    for block in blocks {
        let bytes = Bytes::from_slice(alloc, block)?;
        sections.push(Section {
            cid: Cid::of(block),
            bytes,
        })?;
    }
    Ok(sections)
}

fn file_of(alloc: Global, roots: &[Cid], blocks: &[&[u8]]) -> Result<Bytes, Fail> {
    if roots.len() > 255 {
        return Err(Fail::new("more roots than a file has"));
    }
    let sections = sections_of(alloc, blocks)?;
    Ok(write_car(alloc, roots, sections.as_slice())?)
}

// Whether a file of these is read as them, in their order.
fn is_read_back(alloc: Global, roots: &[Cid], blocks: &[&[u8]]) -> Result<bool, Fail> {
    let file = file_of(alloc, roots, blocks)?;
    match read_car(alloc, file.as_slice()) {
        Ok(car) => {
            let mut same = car.roots.as_slice() == roots && car.sections.len() == blocks.len();
            for (section, block) in car.sections.as_slice().iter().zip(blocks) {
                same = same && section.cid == Cid::of(block) && section.bytes.as_slice() == *block;
            }
            Ok(same)
        }
        Err(_) => Ok(false),
    }
}

// The file of 274 bytes with one root and the sections of three blocks: they begin at 59, 96 and 136.
fn three_sections(alloc: Global) -> Result<Bytes, Fail> {
    let long = vec![in alloc; 7_u8; 100]?;
    file_of(
        alloc,
        &[Cid::of(b"abc")],
        &[b"".as_slice(), b"abc".as_slice(), long.as_slice()],
    )
}

// The bytes with one bit of the byte at a place turned.
fn turned(alloc: Global, bytes: &[u8], at: usize) -> Result<Bytes, Fail> {
    if at >= bytes.len() {
        return Err(Fail::new("a place past the end"));
    }
    let mut out = Bytes::from_slice(alloc, &bytes[..at])?;
    out.push(bytes[at] ^ 1)?;
    out.extend_from_slice(&bytes[at + 1..])?;
    Ok(out)
}

#[test]
fn a_file_is_cut_short_and_turned_at_every_byte(rt: HostRuntime) -> Result<(), Fail> {
    let alloc = rt.alloc();
    let file = three_sections(alloc)?;
    let all = file.as_slice();
    assert_eq!(rt; all.len(), 274);
    // from where and to where it is cut, and what it comes to
    let cuts = [
        (0, 1, fault(CarFaultKind::BadVarint, 0)),
        (1, 59, fault(CarFaultKind::CutShort, 0)),
        (59, 60, Ok((1, 0))),
        (60, 96, fault(CarFaultKind::CutShort, 59)),
        (96, 97, Ok((1, 1))),
        (97, 136, fault(CarFaultKind::CutShort, 96)),
        (136, 137, Ok((1, 2))),
        (137, 138, fault(CarFaultKind::BadVarint, 136)),
        (138, 274, fault(CarFaultKind::CutShort, 136)),
        (274, 275, Ok((1, 3))),
    ];
    for (from, to, want) in cuts {
        for len in from..to {
            assert!(rt;
                len <= all.len() && outcome(alloc, &all[..len])? == want,
                "{len}"
            );
        }
    }
    // from where and to where the last bit of a byte is turned, and what that comes to
    let turns = [
        (0, 18, fault(CarFaultKind::NoHeader, 0)),
        (18, 50, Ok((1, 3))),
        (50, 59, fault(CarFaultKind::NoHeader, 0)),
        (59, 60, fault(CarFaultKind::WrongDigest, 59)),
        (60, 64, fault(CarFaultKind::NoCid, 59)),
        (64, 96, fault(CarFaultKind::WrongDigest, 59)),
        (96, 97, fault(CarFaultKind::WrongDigest, 96)),
        (97, 101, fault(CarFaultKind::NoCid, 96)),
        (101, 136, fault(CarFaultKind::WrongDigest, 96)),
        (136, 137, fault(CarFaultKind::CutShort, 136)),
        (137, 138, fault(CarFaultKind::BadVarint, 136)),
        (138, 142, fault(CarFaultKind::NoCid, 136)),
        (142, 274, fault(CarFaultKind::WrongDigest, 136)),
    ];
    for (from, to, want) in turns {
        for at in from..to {
            let bytes = turned(alloc, all, at)?;
            assert!(rt; outcome(alloc, bytes.as_slice())? == want, "{at}");
        }
    }
    Ok(())
}

// The header of the file `carv1-basic.car` of the CARv1 specification. Its two roots have the codec dag-cbor (71).
const BASIC: &str = "\
    63a265726f6f747382d82a58250001711220f88bc853804cf294fe417e4fa83028689fcdb1b1592c5102e1474dbc200fab8b\
    d82a5825000171122069ea0740f9807a28f4d932c62e7c1c83be055e55072c90266ab3e79df63a365b6776657273696f6e01";

// The same with the codec dag-pb (70).
const BASIC_DAG_PB: &str = "\
    63a265726f6f747382d82a58250001701220f88bc853804cf294fe417e4fa83028689fcdb1b1592c5102e1474dbc200fab8b\
    d82a5825000170122069ea0740f9807a28f4d932c62e7c1c83be055e55072c90266ab3e79df63a365b6776657273696f6e01";

// The worked file of docs/FORMATS.md.
const WORKED: &str = "\
    3aa265726f6f747381d82a582500017012207a5803392492f0ac6709d55d6633f412bd5951c484d5d336fce1364b5de9323a\
    6776657273696f6e01 32017012207a5803392492f0ac6709d55d6633f412bd5951c484d5d336fce1364b5de9323a\
    0a0c0a080a022f6b1a0201021801";

#[test]
fn files_are_read_by_the_table(rt: HostRuntime) -> Result<(), Fail> {
    let alloc = rt.alloc();
    let rows = [
        (BASIC, fault(CarFaultKind::NoHeader, 0)),
        (BASIC_DAG_PB, Ok((2, 0))),
        (WORKED, Ok((1, 1))),
        // no roots, written by hand: a2, "roots" and an empty array, "version" and 1
        ("11 a2 65 726f6f7473 80 67 76657273696f6e 01", Ok((0, 0))),
        // the same with a section of one byte, and with an empty one
        (
            "11 a265726f6f7473806776657273696f6e01 010a",
            fault(CarFaultKind::NoCid, 18),
        ),
        (
            "11 a265726f6f7473806776657273696f6e01 00",
            fault(CarFaultKind::NoCid, 18),
        ),
        ("", fault(CarFaultKind::BadVarint, 0)),
        ("3a", fault(CarFaultKind::CutShort, 0)),
        ("00", fault(CarFaultKind::NoHeader, 0)),
        // lengths that are longer than needed, longer than nine bytes, and past the end
        (
            "9100 a265726f6f7473806776657273696f6e01",
            fault(CarFaultKind::BadVarint, 0),
        ),
        ("80808080808080808001", fault(CarFaultKind::BadVarint, 0)),
        ("ffffffffffffffff7f", fault(CarFaultKind::CutShort, 0)),
        // the entries exchanged, version 2, an array whose length takes more bytes than it needs, one of 256 places
        (
            "11 a26776657273696f6e0165726f6f747380",
            fault(CarFaultKind::NoHeader, 0),
        ),
        (
            "11 a265726f6f7473806776657273696f6e02",
            fault(CarFaultKind::NoHeader, 0),
        ),
        (
            "12 a265726f6f747398006776657273696f6e01",
            fault(CarFaultKind::NoHeader, 0),
        ),
        (
            "13 a265726f6f74739901006776657273696f6e01",
            fault(CarFaultKind::NoHeader, 0),
        ),
    ];
    for (text, want) in rows {
        let bytes = bytes_of(alloc, text)?;
        assert!(rt; outcome(alloc, bytes.as_slice())? == want, "{text}");
    }
    Ok(())
}

// Whether a file of so many roots has this head of their array, and is read with them.
fn has_head(alloc: Global, count: usize, head: &str) -> Result<bool, Fail> {
    let roots = vec![in alloc; Cid::of(b""); count]?;
    let file = file_of(alloc, roots.as_slice(), &[])?;
    let head = bytes_of(alloc, head)?;
    Ok(file.as_slice().starts_with(head.as_slice()) && is_read_back(alloc, roots.as_slice(), &[])?)
}

// The outcome of a file of 256 roots, which no call writes: its header has 10,515 bytes.
fn of_256_roots(alloc: Global) -> Result<Outcome, Fail> {
    let mut file = bytes_of(alloc, "9352 a265726f6f7473 990100")?;
    for _ in 0..256 {
        file.extend_from_slice(&[0xd8, 0x2a, 0x58, 0x25, 0x00])?;
        file.extend_from_slice(&Cid::of(b"").bytes())?;
    }
    file.extend_from_slice(bytes_of(alloc, "6776657273696f6e01")?.as_slice())?;
    outcome(alloc, file.as_slice())
}

#[test]
fn files_are_written_and_read_again(rt: HostRuntime) -> Result<(), Fail> {
    let alloc = rt.alloc();
    // the number of roots, and the beginning of the file up to them
    let heads = [
        (0, "11 a265726f6f7473 80"),
        (1, "3a a265726f6f7473 81"),
        (23, "c007 a265726f6f7473 97"),
        (24, "ea07 a265726f6f7473 9818"),
        (255, "e951 a265726f6f7473 98ff"),
    ];
    for (count, head) in heads {
        assert!(rt; has_head(alloc, count, head)?, "{head}");
    }
    let block = bytes_of(alloc, "0a0c0a080a022f6b1a0201021801")?;
    let worked = file_of(alloc, &[Cid::of(block.as_slice())], &[block.as_slice()])?;
    assert!(rt; worked.as_slice() == bytes_of(alloc, WORKED)?.as_slice());
    assert!(rt; of_256_roots(alloc)? == fault(CarFaultKind::NoHeader, 0));
    // in any order, one of them twice, an empty one, a root that no section has, and a block of a megabyte
    let [one, two, far] = [Cid::of(b"1"), Cid::of(b"2"), Cid::of(b"far")];
    assert!(rt; is_read_back(alloc, &[one, two], &[b"1".as_slice(), b"2".as_slice()])?);
    let twice = [
        b"2".as_slice(),
        b"1".as_slice(),
        b"2".as_slice(),
        b"".as_slice(),
    ];
    assert!(rt; is_read_back(alloc, &[two], &twice)?);
    assert!(rt; is_read_back(alloc, &[far], &[])?);
    let large = vec![in alloc; 7_u8; 1_048_576]?;
    assert!(rt; is_read_back(alloc, &[far, one], &[large.as_slice(), b"1".as_slice()])?);
    Ok(())
}
