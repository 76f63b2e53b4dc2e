// Lists across threads, sources that repeat, a sink over a writer that is full, varints and identifiers.
use mc_base::{
    Bytes, Case, Cid, Counted, Failed, List, RepeatingSource, Sink, Source, VarintFault, Writing,
    encode32, encode32_after, read_varint, write_varint,
};
use std::io::Cursor;
use std::test::Fail;
use std::thread::join;

#[test]
fn a_list_goes_between_threads(rt: HostRuntime) -> Result<(), Fail> {
    let alloc = rt.alloc();
    let mut moved: List<u64> = List::new(alloc);
    moved.push(7)?;
    let mut shared: List<u64> = List::new(alloc);
    shared.push(8)?;
    let (first, second) = join(
        &rt,
        move || moved.as_slice().len(),
        || shared.as_slice().len(),
    );
    assert_eq!(rt; (first, second), (1, 1));
    Ok(())
}

#[test]
fn a_repeating_source_gives_its_bytes_again(rt: HostRuntime) -> Result<(), Fail> {
    let alloc = rt.alloc();
    let bytes = Bytes::from_slice(alloc, &[1, 2, 3])?;
    let Some(mut source) = RepeatingSource::new(bytes) else {
        return Err(Fail::new("there are bytes to repeat"));
    };
    let mut into = [0; 7];
    assert_eq!(rt; source.read(&mut into), Ok(7));
    assert_eq!(rt; into, [1, 2, 3, 1, 2, 3, 1]);
    assert_eq!(rt; source.read(&mut into), Ok(7));
    assert_eq!(rt; into, [2, 3, 1, 2, 3, 1, 2]);
    Ok(())
}

#[test]
fn a_full_writer_is_a_fault_of_its_sink(rt: HostRuntime) -> Result<(), Fail> {
    let mut out = Writing::new(Cursor::new([0; 3]));
    assert_eq!(rt; out.write(b"ok 1"), Ok(3));
    assert_eq!(rt; (out.write(&[]), out.faults()), (Ok(0), 0));
    assert_eq!(rt; (out.write(b"1"), out.faults()), (Err(Failed), 1));
    Ok(())
}

#[test]
fn varints_are_read_and_written(rt: HostRuntime) -> Result<(), Fail> {
    let alloc = rt.alloc();
    let written: [(u64, &[u8]); 5] = [
        (0, &[0x00]),
        (127, &[0x7f]),
        (300, &[0xac, 0x02]),
        (16383, &[0xff, 0x7f]),
        (
            0x7fff_ffff_ffff_ffff,
            &[0xff, 0xff, 0xff, 0xff, 0xff, 0xff, 0xff, 0xff, 0x7f],
        ),
    ];
    for (value, spelling) in written {
        let mut out = Bytes::new(alloc);
        write_varint(value, &mut out)?;
        assert_eq!(rt; out.as_slice(), spelling, "{value}");
        out.push(0x80)?;
        assert_eq!(rt;
            read_varint(out.as_slice()),
            Ok((value, spelling.len())),
            "{value}"
        );
    }
    let faulty: [(&[u8], VarintFault); 4] = [
        (&[], VarintFault::Short),
        (&[0x80], VarintFault::Short),
        (&[0x80, 0x00], VarintFault::NotMinimal),
        (&[0xff; 9], VarintFault::Long),
    ];
    for (bytes, fault) in faulty {
        assert_eq!(rt; read_varint(bytes), Err(fault), "{bytes:?}");
    }
    Ok(())
}

#[test]
fn identifiers_and_their_digits(rt: HostRuntime) -> Result<(), Fail> {
    let alloc = rt.alloc();
    let empty = Cid::of(&[]);
    let text = encode32_after(alloc, "b", Case::Lower, &empty.bytes())?;
    assert_eq!(rt;
        text.as_str(),
        "bafybeihdwdcefgh4dqkjv67uzcmw7ojee6xedzdetojuzjevtenxquvyku"
    );
    let id = encode32_after(alloc, "/", Case::Upper, &empty.bytes()[2..])?;
    assert_eq!(rt;
        id.as_str(),
        "/CIQOHMGEIKMPYHAUTL57JSEZN64SIJ5OIHSGJG4TJSSJLGI3PBJLQVI"
    );
    assert_eq!(rt;
        encode32(alloc, Case::Upper, b"fooba")?.as_str(),
        "MZXW6YTB"
    );
    assert_eq!(rt; Cid::from_bytes(&empty.bytes()), Some(empty));
    assert_eq!(rt; Cid::from_bytes(&empty.bytes()[1..]), None);
    assert_eq!(rt; Cid::from_bytes(&[0; 36]), None);
    Ok(())
}
