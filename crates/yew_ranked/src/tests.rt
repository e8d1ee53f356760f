ghost use Rattle.std.specs.Prelude.{◌≡◌, [], length, IfOk};

use crate::{ClaimSeat, Claims};
use std::alloc::Global;
use std::test::Fail;
use std::thread::{Threads, join};
use yew_laws::Memory;

#[test]
fn two_seats_claim_one_row_of_numbers(rt: HostRuntime) -> Result<(), Fail> {
    let (claims, mut first) = Claims::new(rt.alloc(), 2)?;
    let mut second = claims.split(&mut first);
    assert_eq!(rt; claims.claim(&mut first), 0);
    assert_eq!(rt; claims.claim(&mut second), 1);
    assert_eq!(rt; claims.claim(&mut second), 2);
    assert_eq!(rt; claims.claim(&mut first), 3);
    claims.join(&mut first, second);
    assert_eq!(rt; claims.close(first), 4);
    Ok(())
}

fn shared<T: Sync>(_value: &T) {}

fn sent<T: Send>(value: T) -> T
    ensures { result ≡ value }
{
    value
}

#[test]
fn workers_share_the_counter_and_own_their_seats(rt: HostRuntime) -> Result<(), Fail> {
    let (claims, seat) = Claims::new(rt.alloc(), 1)?;
    shared(&claims);
    assert_eq!(rt; claims.close(sent(seat)), 0);
    Ok(())
}

// Two threads claim 1,000 numbers each. Answers how many were claimed, and the sum of all.
fn claimed_by_two<R: Threads + Sync>(rt: &R, alloc: Global) -> Result<(u64, u64), Memory> {
    let (claims, mut first) = Claims::new(alloc, 2)?;
    let second = claims.split(&mut first);
    let ((mut first, a), (second, b)) = join(
        rt,
        || claim_some(&claims, first),
        || claim_some(&claims, second),
    );
    claims.join(&mut first, second);
    Ok((claims.close(first), a.wrapping_add(b)))
}

// Claims 1,000 numbers, and answers their sum.
fn claim_some(claims: &Claims, mut seat: ClaimSeat) -> (ClaimSeat, u64)
    requires claims { seat.claims ≡ claims.now }
    requires one { seat.share ≡ 1 }
    requires none { seat.claimed ≡ [] }
    ensures claims { result.0.claims ≡ claims.now }
    ensures one { result.0.share ≡ 1 }
{
    let mut sum: u64 = 0;
    for _turn in 0..1000_u64 {
        sum = sum.wrapping_add(claims.claim(&mut seat));
    }
    (seat, sum)
}

#[test]
fn two_threads_claim_each_number_once(rt: HostRuntime) -> Result<(), Fail> {
    for _turn in 0..100 {
        let (claimed, sum) = claimed_by_two(&rt, rt.alloc())?;
        assert_eq!(rt; claimed, 2000);
        assert_eq!(rt; sum, 1_999_000);
    }
    Ok(())
}
