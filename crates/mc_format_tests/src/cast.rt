// Broadcasts, by their bytes.
use mc_base::{Bytes, Cid};
use mc_cast::{CastError, CastFault, read_cast, write_cast};
use mc_wire::WireFault;
use std::alloc::Global;
use std::test::Fail;

#[test]
fn messages_are_read_and_written(rt: HostRuntime) -> Result<(), Fail> {
    let alloc = rt.alloc();
    let empty = Cid::of(b"");
    let abc = Cid::of(b"abc");
    let written = write_cast(alloc, &[empty, abc])?;
    assert_eq!(rt; written.len(), 80);
    let begins = [0x0a, 0x26, 0x0a, 0x24, 0x01, 0x70, 0x12, 0x20];
    assert_eq!(rt; &written.as_slice()[..8], begins.as_slice());
    assert_eq!(rt;
        heads(alloc, &[], &[written.as_slice()])?,
        [Some(empty), Some(abc)]
    );
    let no_heads: [&[u8]; 3] = [&[], &[0x10, 0x00], &[0x08, 0x0a]];
    for bytes in no_heads {
        assert_eq!(rt; heads(alloc, bytes, &[])?, [None, None]);
    }
    // the last cid of a head counts
    let both = [
        &[0x0a, 0x24],
        &empty.bytes()[..],
        &[0x0a, 0x24],
        &abc.bytes()[..],
    ];
    assert_eq!(rt; heads(alloc, &[0x0a, 0x4c], &both)?, [Some(abc), None]);
    let faulty: [(&[u8], CastFault); 7] = [
        (&[0x0a, 0x00], CastFault::BadCid { index: 0 }),
        (&[0x0a, 0x02, 0x0a, 0x00], CastFault::BadCid { index: 0 }),
        (&[0x0a], wire(WireFault::Short)),
        (&[0x0b], wire(WireFault::WireType)),
        (&[0x0a, 0x01, 0x0b], wire(WireFault::WireType)),
        (&[0x0a, 0x00, 0x02], wire(WireFault::FieldZero)),
        (&[0x0a, 0x02, 0x0a, 0x05, 0x0b], wire(WireFault::Short)),
    ];
    for (bytes, fault) in faulty {
        match read_cast(alloc, bytes) {
            Ok(_) => return Err(Fail::new("a faulty message was read")),
            Err(error) => assert_eq!(rt; error, CastError::Fault(fault), "{bytes:?}"),
        }
    }
    let mut second = write_cast(alloc, &[empty])?;
    second.extend_from_slice(&[0x0a, 0x00])?;
    match read_cast(alloc, second.as_slice()) {
        Ok(_) => return Err(Fail::new("a faulty message was read")),
        Err(error) => assert_eq!(rt; error, CastError::Fault(CastFault::BadCid { index: 1 })),
    }
    Ok(())
}

fn wire(fault: WireFault) -> CastFault {
    CastFault::Wire { fault }
}

// The first two heads of a message that is given in pieces.
fn heads(alloc: Global, first: &[u8], others: &[&[u8]]) -> Result<[Option<Cid>; 2], Fail> {
    let mut message = Bytes::from_slice(alloc, first)?;
    for piece in others {
        message.extend_from_slice(piece)?;
    }
    match read_cast(alloc, message.as_slice()) {
        Ok(cids) => Ok([
            cids.as_slice().first().copied(),
            cids.as_slice().get(1).copied(),
        ]),
        Err(_) => Err(Fail::new("a message wasn't read")),
    }
}
