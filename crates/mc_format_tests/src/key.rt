// Keys, and which of them a prefix selects.
use mc_key::{Key, KeyFault, under};
use std::test::Fail;

#[test]
fn keys_and_prefixes(rt: HostRuntime) -> Result<(), Fail> {
    let alloc = rt.alloc();
    let mut long = String::from_str(alloc, "/")?;
    for _ in 0..1023 {
        long.push('x')?;
    }
    match Key::read(long.as_str()) {
        Ok(key) => assert_eq!(rt; key.as_str(), long.as_str()),
        Err(_) => return Err(Fail::new("a key of 1024 bytes is refused")),
    }
    long.push('x')?;
    assert_eq!(rt; fault(long.as_str()), Some(KeyFault::TooLong));
    let rows = [
        ("/a", None),
        ("/a/b.c/...", None),
        ("", Some(KeyFault::Empty)),
        ("a", Some(KeyFault::NoSlash)),
        ("/", Some(KeyFault::EmptySegment)),
        ("/a//b", Some(KeyFault::EmptySegment)),
        ("/a/", Some(KeyFault::EmptySegment)),
        ("/.//a", Some(KeyFault::EmptySegment)),
        ("/a/..", Some(KeyFault::DotSegment)),
        ("/./a", Some(KeyFault::DotSegment)),
    ];
    for (text, want) in rows {
        assert_eq!(rt; fault(text), want, "{text}");
    }
    assert_eq!(rt; KeyFault::EmptySegment.number(), 4);
    let under_rows = [
        ("", "/a", true),
        ("/", "/a", true),
        ("///", "b", true),
        ("/a", "/a/b", true),
        ("/a/", "/a/b", true),
        ("/a//", "/a/b", true),
        ("/a", "/a", false),
        ("/a/", "/a", false),
        ("/a", "/ab", false),
        ("/a", "/b/a/b", false),
        ("a", "a/b", true),
        ("//a", "/a/b", false),
    ];
    for (prefix, key, want) in under_rows {
        assert_eq!(rt; under(prefix, key), want, "{prefix} {key}");
    }
    Ok(())
}

fn fault(text: &str) -> Option<KeyFault> {
    Key::read(text).err()
}
