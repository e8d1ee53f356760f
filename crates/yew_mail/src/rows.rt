ghost use Rattle.std.specs.Prelude.{◌≡◌, ◌<◌, ◌++◌, [], ◌∷◌, length, IfOk};
ghost use Rattle.std.specs.List.{AllByRecursion};
ghost use Rattle.yew_laws.specs.Tasks.{IsAmong};
ghost use Rattle.yew_mail.specs.Seats.{new_seat};
ghost use Rattle.yew_mail.specs.Star.{star_members};

use crate::tests::{Star, gift, leaf};
use crate::{Fetched, Mail, MailSeat, Seen};
use std::alloc::Global;
use std::process::Abort;
use std::test::Fail;
use yew_laws::{Memory, Task};

/// Mailboxes for two workers, and their seats.
fn pair(alloc: Global, star: &Star) -> Result<(Mail<u32>, MailSeat<u32>, MailSeat<u32>), Memory>
    ensures mail { IfOk result (λ r. r.0.workers ≡ 2) }
    ensures first { IfOk result (λ r. r.1 ≡ new_seat r.0 (star_members star.now.leaves) 1) }
    ensures second { IfOk result (λ r. r.2 ≡ new_seat r.0 (star_members star.now.leaves) 2) }
{
    let (mail, mut seats) = Mail::new(alloc, star, 2)?;
    let first = seats.remove(0);
    let second = seats.remove(0);
    Ok((mail, first, second))
}

/// Two seats as a list.
fn listed(
    alloc: Global,
    first: MailSeat<u32>,
    second: MailSeat<u32>,
) -> Result<Vec<MailSeat<u32>>, Memory>
    ensures { IfOk result (λ seats. seats.items ≡ first ∷ second ∷ []) }
{
    let mut seats = Vec::with_capacity(alloc, 2)?;
    seats.push(first)?;
    seats.push(second)?;
    Ok(seats)
}

/// The first of two workers gives the second these tasks, which are fetched or not: how many were got, and how many
/// were left.
fn handed(
    rt: &impl Abort,
    alloc: Global,
    star: &Star,
    tasks: Vec<Task<u32>>,
    fetched: bool,
) -> Result<(usize, usize), Memory>
    requires some { 0 < length tasks.items }
    requires sound { AllByRecursion (IsAmong (star_members star.now.leaves)) tasks.items }
{
    let (mail, mut first, mut second) = pair(alloc, star)?;
    let Seen::Shut = mail.look(&mut first) else {
        panic!(rt; "a new box is not shut")
    };
    mail.open_box(&mut first);
    if !mail.ask(&mut second, 1) {
        panic!(rt; "an open box is not ready");
    }
    let Fetched::NotYet = mail.fetch(&mut second, 1) else {
        panic!(rt; "an answer that nobody gave")
    };
    let Seen::Asked(2) = mail.look(&mut first) else {
        panic!(rt; "the asker is not seen")
    };
    mail.give(&mut first, tasks);
    let mut got = 0;
    if fetched {
        let Fetched::Tasks(tasks) = mail.fetch(&mut second, 1) else {
            panic!(rt; "the gift is not there")
        };
        got = tasks.len();
    }
    let mut left = Vec::new(alloc);
    mail.close(listed(alloc, first, second)?, &mut left)?;
    Ok((got, left.len()))
}

#[test]
fn a_gift_is_fetched_or_left(rt: HostRuntime) -> Result<(), Fail> {
    for (fetched, want) in [(true, (1, 0)), (false, (0, 1))] {
        let star = Star { leaves: 9 };
        let task = leaf(rt.alloc(), &star, 3)?;
        let tasks = gift(rt.alloc(), &star, task)?;
        let found = handed(&rt, rt.alloc(), &star, tasks, fetched)?;
        assert_eq!(rt; found, want, "{fetched}");
    }
    Ok(())
}

/// The second of two workers asks the first one, whose box is still shut, or was closed again: no ask comes in time.
fn too_early_or_late(rt: &impl Abort, alloc: Global, star: &Star) -> Result<(), Memory> {
    let (mail, mut first, mut second) = pair(alloc, star)?;
    let Seen::Shut = mail.look(&mut first) else {
        panic!(rt; "a new box is not shut")
    };
    if mail.ask(&mut second, 1) {
        panic!(rt; "a shut box was asked");
    }
    mail.open_box(&mut first);
    let Seen::Ready = mail.close_box(&mut first) else {
        panic!(rt; "an open box is not ready")
    };
    if mail.ask(&mut second, 1) {
        panic!(rt; "a closed box was asked");
    }
    Ok(())
}

/// It asks before the box is closed, and is denied.
fn denied(rt: &impl Abort, alloc: Global, star: &Star) -> Result<(), Memory> {
    let (mail, mut first, mut second) = pair(alloc, star)?;
    let Seen::Shut = mail.look(&mut first) else {
        panic!(rt; "a new box is not shut")
    };
    mail.open_box(&mut first);
    if !mail.ask(&mut second, 1) {
        panic!(rt; "an open box is not ready");
    }
    let Seen::Asked(2) = mail.close_box(&mut first) else {
        panic!(rt; "the asker is not found")
    };
    let Seen::Asked(2) = mail.look(&mut first) else {
        panic!(rt; "the asker is not seen")
    };
    mail.deny(&mut first);
    let Fetched::Denied = mail.fetch(&mut second, 1) else {
        panic!(rt; "the ask is not denied")
    };
    let Seen::Shut = mail.look(&mut first) else {
        panic!(rt; "the box is not shut again")
    };
    Ok(())
}

/// It asks a worker that has opened its box and is gone: there is no answer, and nothing is left.
fn unanswered(rt: &impl Abort, alloc: Global, star: &Star) -> Result<usize, Memory> {
    let (mail, mut first, mut second) = pair(alloc, star)?;
    let Seen::Shut = mail.look(&mut first) else {
        panic!(rt; "a new box is not shut")
    };
    mail.open_box(&mut first);
    if !mail.ask(&mut second, 1) {
        panic!(rt; "an open box is not ready");
    }
    let Fetched::NotYet = mail.fetch(&mut second, 1) else {
        panic!(rt; "an answer that nobody gave")
    };
    let Fetched::NotYet = mail.fetch(&mut second, 1) else {
        panic!(rt; "a late answer that nobody gave")
    };
    let mut left = Vec::new(alloc);
    mail.close(listed(alloc, first, second)?, &mut left)?;
    Ok(left.len())
}

#[test]
fn asks_find_the_victim_closing_opening_and_gone(rt: HostRuntime) -> Result<(), Fail> {
    let star = Star { leaves: 9 };
    too_early_or_late(&rt, rt.alloc(), &star)?;
    denied(&rt, rt.alloc(), &star)?;
    assert_eq!(rt; unanswered(&rt, rt.alloc(), &star)?, 0);
    Ok(())
}
