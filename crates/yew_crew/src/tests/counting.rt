use crate::Open;
use std::test::Fail;

// The first call row: nothing is open, and one task once it was made.
#[test]
fn one_task_is_open_once_it_was_made(rt: HostRuntime) -> Result<(), Fail> {
    let (open, mut seat) = Open::new(rt.alloc(), 1)?;
    assert_eq!(rt; open.load(&mut seat), 0);
    open.made(&mut seat, 1);
    assert_eq!(rt; open.load(&mut seat), 1);
    open.ended(&mut seat);
    assert_eq!(rt; open.load(&mut seat), 0);
    Ok(())
}

// Two seats count into one word, and each sees what the other has told.
#[test]
fn two_seats_count_and_stop(rt: HostRuntime) -> Result<(), Fail> {
    let (open, mut first) = Open::new(rt.alloc(), 2)?;
    let mut second = open.split(&mut first);
    open.made(&mut first, 3);
    open.ended(&mut second);
    assert_eq!(rt; open.load(&mut second), 2);
    assert!(rt; !open.stopped(&mut first));
    open.stop(&mut second);
    assert!(rt; open.stopped(&mut first));
    assert!(rt; open.stopped(&mut second));
    open.join(&mut first, second);
    assert_eq!(rt; open.load(&mut first), 2);
    Ok(())
}

// The count goes round at 2^64, both ways.
#[test]
fn the_count_goes_round(rt: HostRuntime) -> Result<(), Fail> {
    let (open, mut seat) = Open::new(rt.alloc(), 1)?;
    open.ended(&mut seat);
    assert_eq!(rt; open.load(&mut seat), u64::MAX);
    open.made(&mut seat, 1);
    assert_eq!(rt; open.load(&mut seat), 0);
    open.made(&mut seat, u64::MAX);
    open.made(&mut seat, 2);
    assert_eq!(rt; open.load(&mut seat), 1);
    Ok(())
}
