use crate::gather;
use std::alloc::Global;
use std::test::Fail;
use yew_kinds::NoTally;
use yew_laws::{Memory, Path};
use yew_walk::Hand;

// A hand with a key, and with the path of this child of the root.
fn hand(alloc: Global, key: u64, number: u32, holds: bool) -> Result<Hand<()>, Memory> {
    Ok(Hand {
        sum: (),
        key,
        path: Path::empty(alloc, 1)?.child(number)?,
        holds,
    })
}

// The key of greatest rank counts, of equal ones the first, and only of hands that hold.
#[test]
fn the_first_of_the_greatest_keys_is_gathered(rt: HostRuntime) -> Result<(), Fail> {
    let alloc = rt.alloc();
    let mut hands = Vec::new(alloc);
    hands.push(hand(alloc, 3, 1, true)?)?;
    hands.push(hand(alloc, 5, 2, true)?)?;
    hands.push(hand(alloc, 5, 3, true)?)?;
    hands.push(hand(alloc, 9, 4, false)?)?;
    let all = gather::<(), NoTally>(&NoTally, hands);
    assert!(rt; all.holds);
    assert_eq!(rt; all.key, 5);
    assert_eq!(rt; all.path.numbers(), [2].as_slice());
    Ok(())
}

// Where no hand holds anything, the first one is answered.
#[test]
fn the_first_of_empty_hands_is_gathered(rt: HostRuntime) -> Result<(), Fail> {
    let alloc = rt.alloc();
    let mut hands = Vec::new(alloc);
    hands.push(hand(alloc, 3, 1, false)?)?;
    hands.push(hand(alloc, 5, 2, false)?)?;
    let all = gather::<(), NoTally>(&NoTally, hands);
    assert!(rt; !all.holds);
    assert_eq!(rt; all.key, 3);
    assert_eq!(rt; all.path.numbers(), [1].as_slice());
    Ok(())
}
