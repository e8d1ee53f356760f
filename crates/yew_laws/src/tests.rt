use crate::Path;
use std::cmp::Ordering;
use std::test::Fail;

#[test]
fn paths_grow_and_compare(rt: HostRuntime) -> Result<(), Fail> {
    let root = Path::empty(rt.alloc(), 4)?;
    let three = root.child(3)?;
    assert_eq!(rt; three.numbers(), [3].as_slice());
    assert!(rt; root.numbers().is_empty());
    assert!(rt; root.space() >= 4);

    let deep = three.child(0)?.child(7)?;
    assert_eq!(rt; deep.numbers(), [3, 0, 7].as_slice());
    assert!(rt; root.cmp(&three) == Ordering::Less);
    assert!(rt; three.cmp(&deep) == Ordering::Less);
    assert!(rt; deep.cmp(&root.child(2)?.child(9)?) == Ordering::Greater);

    let mut kept = Path::empty(rt.alloc(), 4)?;
    assert!(rt; kept.space() >= 4);
    if deep.numbers().len() < kept.space() {
        kept.set(&deep);
        assert!(rt; kept == deep);
        kept.set_child(&three, 1);
        assert_eq!(rt; kept.numbers(), [3, 1].as_slice());
    }

    let mut along = deep.child_of_prefix(1, 5)?;
    assert_eq!(rt; along.numbers(), [3, 5].as_slice());
    along.make_room()?;
    along.push(8);
    assert_eq!(rt; along.numbers(), [3, 5, 8].as_slice());
    along.set_last(2);
    assert_eq!(rt; along.numbers(), [3, 5, 2].as_slice());
    along.truncate(1);
    assert_eq!(rt; along.numbers(), [3].as_slice());
    Ok(())
}
