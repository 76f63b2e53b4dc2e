// Whole scripts, as another program writes them.
use mc_gen::script;
use std::test::Fail;

#[test]
fn scripts_of_some_starts(rt: HostRuntime) -> Result<(), Fail> {
    let rows: [(u64, u64, &str); 4] = [
        (
            0,
            0,
            "cast a\ncast b\ncast c\nhear a 1\nhear a 2\nhear a 3\nwork a 4\nhear b 1\nhear b 2\nhear b 3\nwork b 4\nhear c 1\nhear c 2\nhear c 3\nwork c 4\nsame a b\nsame b c\nquery a / 0 100\n",
        ),
        (
            0,
            1,
            "put b /k/17 1a08ee11\ncast a\ncast b\ncast c\nhear a 1\nhear a 2\nhear a 3\nwork a 4\nhear b 1\nhear b 2\nhear b 3\nwork b 4\nhear c 1\nhear c 2\nhear c 3\nwork c 4\nsame a b\nsame b c\nquery a / 0 100\n",
        ),
        (
            7,
            20,
            "put b /k/63 f4a61a7f\nwork b 3\ncast c\nhear a 1\nput c /k/33 a2b0a8e1\nwork c 4\nput b /k/62 f5bf313e\ndel c /k/44\nput c /k/33 cc6b80e1\nput c /k/10 4c8ba38a\ncast c\nhear c 2\nput a /k/54 038f6ab6\nwork a 4\nput c /k/5 c2aaee45\nput b /k/0 8ed2a4c0\nput b /k/21 26304295\nput a /k/26 a9a57c1a\nput c /k/23 10c5d197\nwork b 2\ncast a\ncast b\ncast c\nhear a 3\nhear a 4\nhear a 5\nwork a 4\nhear b 3\nhear b 4\nhear b 5\nwork b 4\nhear c 3\nhear c 4\nhear c 5\nwork c 4\nsame a b\nsame b c\nquery a / 0 100\n",
        ),
        (
            18446744073709551615,
            12,
            "put a /k/47 b1a9556f\ncast c\nput b /k/47 a5839d2f\ndel b /k/6\ndel c /k/53\nput c /k/50 9a16eaf2\nput b /k/36 9e1ea024\nhear c 1\nput c /k/11 1e42698b\nwork c 1\nput c /k/28 7759171c\nput a /k/40 ceeeaf68\ncast a\ncast b\ncast c\nhear a 2\nhear a 3\nhear a 4\nwork a 4\nhear b 2\nhear b 3\nhear b 4\nwork b 4\nhear c 2\nhear c 3\nhear c 4\nwork c 4\nsame a b\nsame b c\nquery a / 0 100\n",
        ),
    ];
    for (start, count, text) in rows {
        let made = script(rt.alloc(), start, count)?;
        assert_eq!(rt; made.as_slice(), text.as_bytes(), "from {start}");
    }
    Ok(())
}
