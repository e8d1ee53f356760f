ghost use Rattle.std.specs.Prelude.{◌≡◌, ◌≤◌, ◌⊎◌, [], ◌∷◌, ◌++◌, IfOk};

use crate::{Best, BestSeat};
use std::alloc::Global;
use std::test::Fail;
use std::thread::{Threads, join};
use yew_laws::Memory;

#[test]
fn two_seats_see_one_word(rt: HostRuntime) -> Result<(), Fail> {
    let (best, mut first) = Best::new(rt.alloc(), 2)?;
    assert_eq!(rt; best.read(&mut first), 0);
    let mut second = best.split(&mut first);
    assert_eq!(rt; best.raise(&mut first, 5), 0);
    assert_eq!(rt; best.raise(&mut first, 3), 5);
    assert_eq!(rt; best.read(&mut second), 5);
    best.join(&mut first, second);
    assert_eq!(rt; best.close(first), 5);
    Ok(())
}

// A key below, at and above the word, up to both ends of the type.
#[test]
fn the_word_never_falls(rt: HostRuntime) -> Result<(), Fail> {
    for (first, key, last) in [
        (0, 0, 0),
        (0, 1, 1),
        (7, 6, 7),
        (7, 7, 7),
        (7, 8, 8),
        (7, u64::MAX, u64::MAX),
        (u64::MAX, 7, u64::MAX),
        (u64::MAX, u64::MAX, u64::MAX),
    ] {
        let (best, mut seat) = Best::new(rt.alloc(), 1)?;
        assert_eq!(rt; best.raise(&mut seat, first), 0, "{first}");
        assert_eq!(rt; best.raise(&mut seat, key), first, "{first} and {key}");
        assert_eq!(rt; best.read(&mut seat), last, "{first} and {key}");
        assert_eq!(rt; best.close(seat), last, "{first} and {key}");
    }
    Ok(())
}

fn shared<T: Sync>(_value: &T) {}

fn sent<T: Send>(value: T) -> T
    ensures { result ≡ value }
{
    value
}

#[test]
fn workers_share_the_word_and_own_their_seats(rt: HostRuntime) -> Result<(), Fail> {
    let (best, seat) = Best::new(rt.alloc(), 1)?;
    shared(&best);
    assert_eq!(rt; best.close(sent(seat)), 0);
    Ok(())
}

fn raised(best: &Best, mut seat: BestSeat, key: u64) -> BestSeat
    requires { seat.best ≡ best.now }
    ensures { result ≡ record seat { offered = seat.offered ++ key ∷ [] } }
{
    best.raise(&mut seat, key);
    seat
}

// Two threads offer a key each, and the last word is the greater one.
fn greater<R: Threads + Sync>(rt: &R, alloc: Global, a: u64, b: u64) -> Result<u64, Memory>
    ensures first { IfOk result (λ word. a ≤ word) }
    ensures second { IfOk result (λ word. b ≤ word) }
    ensures one { IfOk result (λ word. (word ≡ 0) ⊎ ((word ≡ a) ⊎ (word ≡ b))) }
{
    let (best, mut first) = Best::new(alloc, 2)?;
    let second = best.split(&mut first);
    let (mut first, second) = join(rt, || raised(&best, first, a), || raised(&best, second, b));
    best.join(&mut first, second);
    Ok(best.close(first))
}

// A seat reads and only then offers a key. Where no other seat offers anything, what it read was 0, whatever the key.
fn read_first(alloc: Global, key: u64) -> Result<(u64, u64), Memory>
    ensures { IfOk result (λ r. r.0 ≡ 0) }
{
    let (best, mut first) = Best::new(alloc, 2)?;
    let second = best.split(&mut first);
    let word = best.read(&mut first);
    best.raise(&mut first, key);
    best.join(&mut first, second);
    Ok((word, best.close(first)))
}

#[test]
fn a_key_is_not_read_before_it_is_offered(rt: HostRuntime) -> Result<(), Fail> {
    for key in [0, 1, u64::MAX] {
        assert_eq!(rt; read_first(rt.alloc(), key)?, (0, key), "{key}");
    }
    Ok(())
}

#[test]
fn two_threads_offer(rt: HostRuntime) -> Result<(), Fail> {
    for (a, b, word) in [(3, 8, 8), (8, 3, 8), (4, 4, 4), (0, 0, 0)] {
        assert_eq!(rt; greater(&rt, rt.alloc(), a, b)?, word, "{a} and {b}");
    }
    Ok(())
}
