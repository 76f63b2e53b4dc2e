// Drawn scripts over both kinds of keepers.
use crate::both::agree;
use crate::drawing::drawn_script;
use std::test::Fail;

#[test]
fn drawn_scripts_agree(rt: HostRuntime) -> Result<(), Fail> {
    for state in [34, 35] {
        let script = drawn_script(rt.alloc(), 500, state)?;
        assert!(rt; agree(rt.alloc(), script.as_str(), &rt)?, "from {state}");
    }
    Ok(())
}
