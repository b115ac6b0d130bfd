//! A certificate is made where there is memory.

use js_refute::no_goal;
use std::test::Fail;

#[test]
fn root_that_clashes(rt: HostRuntime) -> Result<(), Fail> {
    let text = no_goal(rt.alloc())?;
    assert_eq!(rt;
        text.as_slice(),
        b"certificate 1\ngoals 0\nend\n".as_slice()
    );
    Ok(())
}
