// Replies that are gathered for a writer.
use mc_base::{Counted, Failed, Sink, Source};
use mc_console::{Gathered, Replies, Script, write_gathered};
use std::alloc::Global;
use std::cell::RefCell;
use std::io::Cursor;
use std::test::Fail;

// Whether a reply to a writer with room for three bytes is taken whole, fails when more of the script is read, and lets
// the next reply fail.
fn fails_with_the_read(alloc: Global) -> Option<bool> {
    let out = RefCell::new(Gathered::new(alloc, Cursor::new([0; 3])).ok()?);
    let mut replies = Replies::new(&out);
    let first = replies.write(b"ok 1\n") == Ok(5) && replies.faults() == 0;
    let mut script = Script::new(Cursor::new([7; 2]), &out);
    let mut piece = [0; 4];
    let read = script.read(&mut piece) == Ok(2) && piece == [7, 7, 0, 0];
    let second = replies.write(b"ok 2\n") == Err(Failed) && replies.faults() == 1;
    Some(first && read && script.faults() == 0 && second && !write_gathered(&out))
}

#[test]
fn replies_are_written_before_more_is_read(rt: HostRuntime) -> Result<(), Fail> {
    assert_eq!(rt; fails_with_the_read(rt.alloc()), Some(true));
    Ok(())
}
