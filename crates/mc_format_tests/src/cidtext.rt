// Texts of identifiers.
use mc_base::Cid;
use mc_base32::Base32Fault;
use mc_cidtext::{CidTextError, CidTextFault, from_text, to_text};
use std::test::Fail;

#[test]
fn texts_of_identifiers(rt: HostRuntime) -> Result<(), Fail> {
    let alloc = rt.alloc();
    let empty = "bafybeihdwdcefgh4dqkjv67uzcmw7ojee6xedzdetojuzjevtenxquvyku";
    assert_eq!(rt; to_text(alloc, &Cid::of(b""))?.as_str(), empty);
    assert_eq!(rt; from_text(alloc, empty), Ok(Cid::of(b"")));
    let abc = "bafybeif2pall7dybz7vecqka3zo24irdwabwdi4wc55jznaq75q7eaavvu";
    assert_eq!(rt; to_text(alloc, &Cid::of(b"abc"))?.as_str(), abc);
    assert_eq!(rt; from_text(alloc, abc), Ok(Cid::of(b"abc")));
    let faulty = [
        ("", CidTextFault::Prefix),
        ("Bafy", CidTextFault::Prefix),
        (
            "afybeihdwdcefgh4dqkjv67uzcmw7ojee6xedzdetojuzjevtenxquvyku",
            CidTextFault::Prefix,
        ),
        ("b", CidTextFault::NotProfile),
        ("bMY", base32(Base32Fault::BadChar { at: 0 })),
        ("bm", base32(Base32Fault::BadLength)),
        ("bmz", base32(Base32Fault::TailBits)),
        ("bmy", CidTextFault::NotProfile),
        // the same digest under the codec dag-cbor
        (
            "bafyreihdwdcefgh4dqkjv67uzcmw7ojee6xedzdetojuzjevtenxquvyku",
            CidTextFault::NotProfile,
        ),
    ];
    for (text, fault) in faulty {
        assert_eq!(rt;
            from_text(alloc, text),
            Err(CidTextError::Fault(fault)),
            "{text}"
        );
    }
    Ok(())
}

fn base32(fault: Base32Fault) -> CidTextFault {
    CidTextFault::Base32 { fault }
}
