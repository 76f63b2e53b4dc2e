// Calls of walks, one after another.
use mc_walk::Walk;
use std::test::Fail;

#[test]
fn walks_go_on_to_their_end(rt: HostRuntime) -> Result<(), Fail> {
    // the positions of a walk, the visits that were made, and the position that comes next
    let rows = [
        (0, 0, None),
        (1, 0, Some(0)),
        (1, 1, None),
        (3, 0, Some(0)),
        (3, 1, Some(1)),
        (3, 2, Some(2)),
        (3, 3, None),
        (3, 9, None),
        (u64::MAX, 2, Some(2)),
    ];
    for (length, visits, next) in rows {
        let mut walk = Walk::begin(length);
        for _ in 0..visits {
            if !walk.ended() {
                walk.visit();
            }
        }
        assert_eq!(rt; walk.position(), next);
        assert_eq!(rt; walk.ended(), next.is_none());
    }
    Ok(())
}
