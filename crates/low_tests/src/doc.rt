//! Small tables of parts.

use js_doc::{Part, PartId, PartIds, PartMap, PartMember, Parts, PartsFault, Str, depth, unshare};
use std::test::Fail;

/// `[1, 1]`, and `{"a": [1, 1]}` over the same parts.
#[test]
fn documents_of_shared_parts(rt: HostRuntime) -> Result<(), Fail> {
    let alloc = rt.alloc();
    let mut parts = Parts::new(alloc);
    let one = parts.push(Part::Num(1))?;
    let pair = parts.push(Part::List(PartIds::from_vec(vec![in alloc; one, one]?)))?;
    let name = Str::from_text(alloc, "a")?;
    let members = vec![in alloc; PartMember { name, part: pair }]?;
    let object = parts.push(Part::Members(PartMap::from_vec(members)))?;
    assert_eq!(rt; parts.len(), 3);
    assert_eq!(rt; parts.as_slice().len(), object.index() + 1);
    assert!(rt; matches!(parts.get(one), Part::Num(1)));
    assert_eq!(rt; depth(&unshare(alloc, &parts, pair)?), 1);
    assert_eq!(rt; depth(&unshare(alloc, &parts, object)?), 2);
    Ok(())
}

#[test]
fn parts_that_name_no_lower_part(rt: HostRuntime) -> Result<(), Fail> {
    let alloc = rt.alloc();
    let mut parts = Parts::new(alloc);
    let null = parts.push(Part::Null)?;
    let ids = vec![in alloc; null, PartId(3), PartId(1), PartId(2)]?;
    let forward = parts.push(Part::List(PartIds::from_vec(ids)));
    assert!(rt; forward == Err(PartsFault::ForwardPart(PartId(3))));
    assert_eq!(rt; parts.len(), 1);
    Ok(())
}
