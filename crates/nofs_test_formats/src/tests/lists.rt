//! Lists of items: each call once, on a name.
use nofs_dirent::{ListOf, Name};
use std::test::Fail;

#[test]
fn each_call_once_on_a_name(rt: HostRuntime) -> Result<(), Fail> {
    let alloc = rt.alloc();
    let mut name = Name::new(alloc);
    for byte in *b"abc" {
        name.push(byte)?;
    }
    assert_eq!(rt; name.len(), 3);
    assert_eq!(rt; name.as_slice(), b"abc".as_slice());
    assert!(rt; name.item(2) == Some(&b'c'));
    assert!(rt; name.item(3).is_none());
    let copy = name.copy(alloc)?;
    assert!(rt; copy == name);
    assert!(rt; copy != ListOf::from_slice(alloc, b"abd")?);
    let moved = ListOf::from_vec(copy.into_vec());
    assert_eq!(rt;
        format!(in alloc; "{moved:?}")?.as_str(),
        "ListOf { items: [97, 98, 99] }"
    );
    Ok(())
}
