//! Texts whose numbers were computed apart from this crate.

use super::*;
use crate::draws::Draws;
use std::test::Fail;

#[test]
fn draws_the_words_of_the_generator(rt: HostRuntime) {
    let mut draws = Draws::new(42);
    assert_eq!(rt; draws.word(), 2707161783);
    assert_eq!(rt; draws.word(), 2068313097);
    assert_eq!(rt; draws.word(), 3122475824);
    assert_eq!(rt; draws.word(), 2211639955);
}

#[test]
fn makes_knapsacks(rt: HostRuntime) -> Result<(), Fail> {
    let two = make_text(rt.alloc(), Made::Knapsack, 42, 2)?;
    assert_eq!(rt; two.as_slice(), b"2 527\n784 98\n825 956\n".as_slice());
    let last_seed = make_text(rt.alloc(), Made::Knapsack, 18446744073709551615, 3)?;
    assert_eq!(rt;
        last_seed.as_slice(),
        b"3 767\n832 299\n227 770\n609 465\n".as_slice()
    );
    let most = make_text(rt.alloc(), Made::Knapsack, 7, 256)?;
    assert_eq!(rt; most.len(), 2005);
    assert!(rt; most.as_slice().ends_with(b"\n802 743\n727 666\n804 596\n"));
    Ok(())
}

#[test]
fn makes_tours(rt: HostRuntime) -> Result<(), Fail> {
    let three = make_text(rt.alloc(), Made::Tsp, 42, 3)?;
    let wanted =
        b"NAME: made\nTYPE: TSP\nDIMENSION: 3\nEDGE_WEIGHT_TYPE: EXPLICIT\nEDGE_WEIGHT_FORMAT: UPPER_ROW\nEDGE_WEIGHT_SECTION\n784 98\n825\nEOF\n";
    assert_eq!(rt; three.as_slice(), wanted.as_slice());
    let two = make_text(rt.alloc(), Made::Tsp, 0, 2)?;
    assert!(rt; two.as_slice().ends_with(b"EDGE_WEIGHT_SECTION\n52\nEOF\n"));
    let most = make_text(rt.alloc(), Made::Tsp, 7, 60)?;
    assert_eq!(rt; most.len(), 7014);
    assert!(rt;
        most.as_slice()
            .ends_with(b" 491\n372 251 438\n22 50\n707\nEOF\n")
    );
    Ok(())
}

#[test]
fn makes_graphs(rt: HostRuntime) -> Result<(), Fail> {
    let none = make_text(rt.alloc(), Made::Lad, 42, 0)?;
    assert_eq!(rt; none.as_slice(), b"0\n".as_slice());
    let one = make_text(rt.alloc(), Made::Lad, 7, 1)?;
    assert_eq!(rt; one.as_slice(), b"1\n0\n".as_slice());
    let eight = make_text(rt.alloc(), Made::Lad, 42, 8)?;
    assert_eq!(rt;
        eight.as_slice(),
        b"8\n1 3\n1 4\n0\n2 0 6\n1 1\n0\n2 3 7\n1 6\n".as_slice()
    );
    let most = make_text(rt.alloc(), Made::Lad, 7, 1024)?;
    assert_eq!(rt; most.len(), 1023842);
    assert!(rt;
        most.as_slice()
            .ends_with(b" 1008 1012 1014 1016 1020 1021\n")
    );
    Ok(())
}
