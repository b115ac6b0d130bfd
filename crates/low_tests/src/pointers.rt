//! What no clause says: that ample memory is enough, for the elements of a list and for others between them.

use js_pointers::Steps;
use std::test::Fail;

#[test]
fn numbers_the_elements_of_a_list(rt: HostRuntime) -> Result<(), Fail> {
    let mut steps = Steps::new(rt.alloc());
    for token in 0..1000 {
        let number = steps.add(7, token)?;
        assert_eq!(rt; number, token as usize);
    }
    assert_eq!(rt; steps.len(), 1000);
    assert!(rt; steps.number(7, 999) == Some(999));
    assert!(rt; steps.number(7, 1000).is_none());
    assert!(rt; steps.number(6, 0).is_none());
    assert!(rt; steps.number(8, 0).is_none());
    assert!(rt; steps.step(500) == (7, 500));
    Ok(())
}

#[test]
fn numbers_steps_in_any_order(rt: HostRuntime) -> Result<(), Fail> {
    // The third is apart from the first two, and the fifth goes on after another's step.
    let added = [
        (0, 0),
        (0, 1),
        (0, 3),
        (2, 0),
        (0, 2),
        (2, 1),
        (1, 4_294_967_295),
    ];
    let mut steps = Steps::new(rt.alloc());
    for step in added {
        let number = steps.len();
        let first = steps.add(step.0, step.1)?;
        assert_eq!(rt; first, number);
        let again = steps.add(step.0, step.1)?;
        assert_eq!(rt; again, number);
    }
    for number in 0..steps.len() {
        let step = steps.step(number);
        assert!(rt; steps.number(step.0, step.1) == Some(number));
    }
    assert!(rt; steps.number(0, 4).is_none());
    assert!(rt; steps.number(1, 0).is_none());
    Ok(())
}
