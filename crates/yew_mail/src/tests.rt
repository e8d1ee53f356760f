ghost use Rattle.std.specs.Prelude.{◌≡◌, ◌<◌, ◌≤◌, ℕ, ◌∷◌, ◌+◌, ◌++◌, ◌++◌, [], All, IfOk, Some, ◌≢◌, map, Some, length};
ghost use Rattle.std.specs.List.{AllByRecursion, range_with_len};
ghost use Rattle.std.specs.Thread.{IsSync};
ghost use Rattle.yew_mail.specs.Players.{IsSeatOf};
ghost use Rattle.yew_mail.specs.Seats.{new_seat};
ghost use Rattle.yew_mail.specs.Star.{star_members, children_of, rank_of, IsWithin, star-ranked, star-bounded, star-countable, star-root_rank};
ghost use Rattle.yew_laws.specs.Tasks.{IsAmong};
ghost use Rattle.yew_mail.specs.Views.{numbers_to};

use crate::{Fetched, Mail, MailSeat, Seen};
use std::alloc::Global;
use std::test::Fail;
use std::thread::{Threads, join};
use yew_laws::{Memory, Path, Problem, Task};

/// The number 0, and so many numbers from 1 on as its children.
#[derive(Clone, Copy)]
pub struct Star {
    pub leaves: u32,
}

/// So many numbers from one on.
#[derive(Clone, Copy)]
pub struct Numbers {
    next: u32,
    count: u32,
}

impl Problem for Star {
    type Node = u32;

    type Kids = Numbers;

    ghost root = { λ _. 0 };

    ghost children = { λ star. children_of star.leaves };

    ghost rank = { λ _. rank_of };

    ghost sound = { λ star. IsWithin star.leaves };

    ghost remaining = { λ _ kids. range_with_len kids.next kids.count };

    ghost worth = { λ _ _. 0 };

    ghost bound = { λ _ _. 0 };

    ghost ranked = { λ star. star-ranked star.leaves };

    ghost root_rank = { λ _ _. star-root_rank };

    ghost bounded = { λ star. star-bounded star.leaves };

    ghost countable = { λ star. star-countable star.leaves };

    fn root(&self, _alloc: Global) -> Result<u32, Memory> {
        Ok(0)
    }

    #[tactic(auto, using(crate::specs::Star::no_children))]
    fn open(&self, _alloc: Global, node: u32) -> Result<Numbers, Memory> {
        let count = if node == 0 { self.leaves } else { 0 };
        Ok(Numbers { next: 1, count })
    }

    #[tactic(auto, using(crate::specs::Star::numbers_first))]
    fn next(&self, _alloc: Global, kids: &mut Numbers) -> Result<Option<u32>, Memory> {
        if kids.count == 0 {
            return Ok(None);
        }
        let node = kids.next;
        kids.next += 1;
        kids.count -= 1;
        Ok(Some(node))
    }

    fn worth(&self, _node: &u32) -> u64 {
        0
    }

    fn bound(&self, _node: &u32) -> u64 {
        0
    }
}

/// The task of a child of the root.
pub fn leaf(alloc: Global, star: &Star, number: u32) -> Result<Task<u32>, Memory>
    requires { (number < star.now.leaves) × (star.now.leaves < 4294967295) }
    ensures { IfOk result (λ task. (task.path.numbers ≡ number ∷ []) × (task.node ≡ number + 1)) }
{
    let _ = star;
    Ok(Task {
        path: Path::empty(alloc, 1)?.child(number)?,
        node: number + 1,
    })
}

/// One task as a gift.
pub fn gift(alloc: Global, star: &Star, task: Task<u32>) -> Result<Vec<Task<u32>>, Memory>
    requires { IsAmong (star_members star.now.leaves) task }
    ensures { IfOk result (λ tasks. (0 < length tasks.items) × AllByRecursion (IsAmong (star_members star.now.leaves)) tasks.items) }
{
    let _ = star;
    let mut tasks = Vec::with_capacity(alloc, 1)?;
    tasks.push(task)?;
    Ok(tasks)
}

/// A worker at the mailboxes: whom it asks, the nodes that it gave and the tasks that it got.
#[derive(Drop)]
struct Worker {
    seat: MailSeat<u32>,
    number: u32,
    asks: Option<u32>,
    // The child of the root that it gives next.
    next: u32,
    given: Vec<u32>,
    got: Vec<Task<u32>>,
}

impl Worker {
    /// Looks at the own box: opens it, or answers who asks.
    fn answer(
        &mut self,
        mail: &Mail<u32>,
        star: &Star,
        gift: Vec<Task<u32>>,
        node: u32,
    ) -> Result<(), Memory>
        requires seat { IsSeatOf mail.now (star_members star.now.leaves) self.old.number self.old.asks self.old.seat }
        requires some { 0 < length gift.items }
        requires sound { AllByRecursion (IsAmong (star_members star.now.leaves)) gift.items }
        ensures seat { IsSeatOf mail.now (star_members star.now.leaves) self.new.number self.new.asks self.new.seat }
        ensures number { self.new.number ≡ self.old.number }
    {
        let _ = star;
        match mail.look(&mut self.seat) {
            Seen::Shut => mail.open_box(&mut self.seat),
            Seen::Asked(_) if node % 8 == 0 => mail.deny(&mut self.seat),
            Seen::Asked(_) => {
                mail.give(&mut self.seat, gift);
                self.given.push(node)?;
            }
            _ => {}
        }
        Ok(())
    }

    /// Asks the victim, or looks for the answer to an ask.
    fn beg(&mut self, mail: &Mail<u32>, star: &Star, victim: u32) -> Result<(), Memory>
        requires seat { IsSeatOf mail.now (star_members star.now.leaves) self.old.number self.old.asks self.old.seat }
        requires victim { (0 < victim) × (victim ≤ mail.now.workers) × (self.old.number ≢ victim) }
        ensures { IsSeatOf mail.now (star_members star.now.leaves) self.new.number self.new.asks self.new.seat }
    {
        let _ = star;
        match self.asks {
            None => {
                if mail.ask(&mut self.seat, victim) {
                    self.asks = Some(victim);
                }
            }
            Some(asked) => match mail.fetch(&mut self.seat, asked) {
                Fetched::Tasks(mut tasks) => {
                    self.asks = None;
                    self.got.append(&mut tasks)?;
                }
                Fetched::Denied => self.asks = None,
                Fetched::NotYet => {}
            },
        }
        Ok(())
    }
}

/// Another worker than this one: the next ones in turn.
fn other(number: u32, workers: u32, turn: u32) -> u32
    requires { (0 < number) × (number ≤ workers) × (1 < workers) × (workers ≤ 64) }
    ensures { (0 < result) × (result ≤ workers) × (number ≢ result) }
{
    let steps = turn % (workers - 1) + 1;
    if steps <= workers - number {
        number + steps
    } else {
        steps - (workers - number)
    }
}

/// One turn of a worker.
fn take_turn(
    alloc: Global,
    mail: &Mail<u32>,
    star: &Star,
    worker: &mut Worker,
    turn: u32,
) -> Result<(), Memory>
    requires leaves { star.now.leaves < 4294967295 }
    requires count { (1 < mail.now.workers) × (mail.now.workers ≤ 64) }
    requires seat { IsSeatOf mail.now (star_members star.now.leaves) worker.old.number worker.old.asks worker.old.seat }
    ensures { IsSeatOf mail.now (star_members star.now.leaves) worker.new.number worker.new.asks worker.new.seat }
{
    let number = worker.next;
    if number >= star.leaves {
        return Err(Memory);
    }
    worker.next = number.saturating_add(mail.workers());
    let victim = other(worker.number, mail.workers(), turn);
    let task = leaf(alloc, star, number)?;
    let gift = gift(alloc, star, task)?;
    worker.answer(mail, star, gift, number + 1)?;
    worker.beg(mail, star, victim)
}

/// The workers take their turns, one after another.
fn play(
    alloc: Global,
    mail: &Mail<u32>,
    star: &Star,
    mut workers: Vec<Worker>,
    turns: u32,
) -> Result<Vec<Worker>, Memory>
    requires leaves { star.now.leaves < 4294967295 }
    requires count { (1 < mail.now.workers) × (mail.now.workers ≤ 64) }
    requires workers { All (λ w. IsSeatOf mail.now (star_members star.now.leaves) w.number w.asks w.seat) workers.items }
    ensures { IfOk result (λ after. All (λ w. IsSeatOf mail.now (star_members star.now.leaves) w.number w.asks w.seat) after.items
        × (length after.items ≡ length workers.items)) }
{
    for turn in 0..turns {
        for at in 0..workers.len() {
            take_turn(alloc, mail, star, &mut workers[at], turn)?;
        }
    }
    Ok(workers)
}

/// The workers with these seats.
fn seated(
    alloc: Global,
    mail: &Mail<u32>,
    star: &Star,
    mut seats: Vec<MailSeat<u32>>,
) -> Result<Vec<Worker>, Memory>
    requires { seats.items ≡ map (new_seat mail.now (star_members star.now.leaves)) (numbers_to mail.now.workers) }
    ensures { IfOk result (λ workers. All (λ w. IsSeatOf mail.now (star_members star.now.leaves) w.number w.asks w.seat) workers.items
        × (length workers.items ≡ mail.now.workers)) }
{
    let _ = star;
    let mut workers = Vec::with_capacity(alloc, mail.workers() as usize)?;
    for place in 0..mail.workers() {
        let seat = seats.remove(0);
        workers.push(Worker {
            seat,
            number: place + 1,
            asks: None,
            next: place,
            given: Vec::new(alloc),
            got: Vec::new(alloc),
        })?;
    }
    Ok(workers)
}

/// The seats of all these workers, the nodes that they gave and the tasks that they got.
fn taken_apart(
    alloc: Global,
    mail: &Mail<u32>,
    star: &Star,
    mut workers: Vec<Worker>,
) -> Result<(Vec<MailSeat<u32>>, Vec<u32>, Vec<Task<u32>>), Memory>
    requires { All (λ w. IsSeatOf mail.now (star_members star.now.leaves) w.number w.asks w.seat) workers.items }
    ensures { IfOk result (λ r. All (λ seat. (seat.mail ≡ mail.now) × (seat.share ≡ 1)) r.0.items × (length r.0.items ≡ length workers.items)) }
{
    let _ = mail;
    let _ = star;
    let mut seats = Vec::with_capacity(alloc, workers.len())?;
    let mut given = Vec::new(alloc);
    let mut tasks = Vec::new(alloc);
    while let Some(worker) = workers.pop() {
        let Worker {
            seat,
            number: _,
            asks: _,
            next: _,
            given: mut its_given,
            got: mut its_got,
        } = worker;
        seats.push(seat)?;
        given.append(&mut its_given)?;
        tasks.append(&mut its_got)?;
    }
    Ok((seats, given, tasks))
}

/// Closes the mailboxes: the nodes that were given, and those that were got or left, by rising number.
fn settled(
    alloc: Global,
    mail: Mail<u32>,
    star: &Star,
    workers: Vec<Worker>,
) -> Result<(Vec<u32>, Vec<u32>), Memory>
    requires count { length workers.items ≡ mail.workers }
    requires workers { All (λ w. IsSeatOf mail (star_members star.now.leaves) w.number w.asks w.seat) workers.items }
{
    let (seats, mut given, mut tasks) = taken_apart(alloc, &mail, star, workers)?;
    mail.close(seats, &mut tasks)?;
    let mut nodes = nodes_of(alloc, &tasks)?;
    given.sort()?;
    nodes.sort()?;
    Ok((given, nodes))
}

fn nodes_of(alloc: Global, tasks: &[Task<u32>]) -> Result<Vec<u32>, Memory> {
    let mut nodes = Vec::with_capacity(alloc, tasks.len())?;
    for task in tasks {
        nodes.push(task.node)?;
    }
    Ok(nodes)
}

/// The workers of two threads, of which there are so many in each.
fn together(
    mail: &Mail<u32>,
    star: &Star,
    left: Result<Vec<Worker>, Memory>,
    right: Result<Vec<Worker>, Memory>,
    counts: (usize, usize),
) -> Result<Vec<Worker>, Memory>
    requires left { IfOk left (λ workers. All (λ w. IsSeatOf mail.now (star_members star.now.leaves) w.number w.asks w.seat) workers.items
        × (length workers.items ≡ counts.0)) }
    requires right { IfOk right (λ workers. All (λ w. IsSeatOf mail.now (star_members star.now.leaves) w.number w.asks w.seat) workers.items
        × (length workers.items ≡ counts.1)) }
    ensures { IfOk result (λ all. All (λ w. IsSeatOf mail.now (star_members star.now.leaves) w.number w.asks w.seat) all.items
        × (length all.items ≡ counts.0 + counts.1)) }
{
    let _ = mail;
    let _ = star;
    let _ = counts;
    let mut left = left?;
    let mut right = right?;
    left.append(&mut right)?;
    Ok(left)
}

/// Two groups of workers take their turns, each in a thread of its own.
fn in_two<R: Threads + Sync>(
    rt: &R,
    alloc: Global,
    mail: &Mail<u32>,
    star: &Star,
    workers: (Vec<Worker>, Vec<Worker>),
    turns: u32,
) -> Result<Vec<Worker>, Memory>
    requires leaves { star.now.leaves < 4294967295 }
    requires count { (1 < mail.now.workers) × (mail.now.workers ≤ 64) }
    requires first { All (λ w. IsSeatOf mail.now (star_members star.now.leaves) w.number w.asks w.seat) workers.0.items }
    requires second { All (λ w. IsSeatOf mail.now (star_members star.now.leaves) w.number w.asks w.seat) workers.1.items }
    ensures { IfOk result (λ after. All (λ w. IsSeatOf mail.now (star_members star.now.leaves) w.number w.asks w.seat) after.items
        × (length after.items ≡ length workers.0.items + length workers.1.items)) }
{
    let (left, right) = workers;
    let counts = (left.len(), right.len());
    let (left, right) = join(
        rt,
        || play(alloc, mail, star, left, turns),
        || play(alloc, mail, star, right, turns),
    );
    together(mail, star, left, right, counts)
}

/// The first half of the workers, and the second.
fn halves(
    mail: &Mail<u32>,
    star: &Star,
    mut workers: Vec<Worker>,
) -> Result<(Vec<Worker>, Vec<Worker>), Memory>
    requires { All (λ w. IsSeatOf mail.now (star_members star.now.leaves) w.number w.asks w.seat) workers.items }
    ensures first { IfOk result (λ r. All (λ w. IsSeatOf mail.now (star_members star.now.leaves) w.number w.asks w.seat) r.0.items) }
    ensures second { IfOk result (λ r. All (λ w. IsSeatOf mail.now (star_members star.now.leaves) w.number w.asks w.seat) r.1.items) }
    ensures count { IfOk result (λ r. length r.0.items + length r.1.items ≡ length workers.items) }
{
    let _ = mail;
    let _ = star;
    let second = workers.split_off(workers.len() / 2)?;
    Ok((workers, second))
}

/// As many workers in each of four threads.
fn in_four<R: Threads + Sync>(
    rt: &R,
    alloc: Global,
    mail: &Mail<u32>,
    star: &Star,
    workers: Vec<Worker>,
    turns: u32,
) -> Result<Vec<Worker>, Memory>
    requires leaves { star.now.leaves < 4294967295 }
    requires count { (1 < mail.now.workers) × (mail.now.workers ≤ 64) }
    requires workers { All (λ w. IsSeatOf mail.now (star_members star.now.leaves) w.number w.asks w.seat) workers.items }
    ensures { IfOk result (λ after. All (λ w. IsSeatOf mail.now (star_members star.now.leaves) w.number w.asks w.seat) after.items
        × (length after.items ≡ length workers.items)) }
{
    let (left, right) = halves(mail, star, workers)?;
    let counts = (left.len(), right.len());
    let left = halves(mail, star, left)?;
    let right = halves(mail, star, right)?;
    let (left, right) = join(
        rt,
        || -> Result<Vec<Worker>, Memory>
            requires { IsSync R.row × (star.now.leaves < 4294967295) × (1 < mail.now.workers) × (mail.now.workers ≤ 64)
                × All (λ w. IsSeatOf mail.now (star_members star.now.leaves) w.number w.asks w.seat) left.0.items
                × All (λ w. IsSeatOf mail.now (star_members star.now.leaves) w.number w.asks w.seat) left.1.items }
        { in_two(rt, alloc, mail, star, left, turns) },
        || -> Result<Vec<Worker>, Memory>
            requires { IsSync R.row × (star.now.leaves < 4294967295) × (1 < mail.now.workers) × (mail.now.workers ≤ 64)
                × All (λ w. IsSeatOf mail.now (star_members star.now.leaves) w.number w.asks w.seat) right.0.items
                × All (λ w. IsSeatOf mail.now (star_members star.now.leaves) w.number w.asks w.seat) right.1.items }
        { in_two(rt, alloc, mail, star, right, turns) },
    );
    together(mail, star, left, right, counts)
}

/// With more leaves than are given. Proofs don't see how many.
fn wide_star() -> Star
    ensures { result.leaves < 4294967295 }
{
    Star { leaves: 4_000_000 }
}

/// What two or four threads gave, and what they got or was left, where so many workers take so many turns.
fn traded<R: Threads + Sync>(
    rt: &R,
    alloc: Global,
    workers: u32,
    turns: u32,
    four: bool,
) -> Result<(Vec<u32>, Vec<u32>), Memory>
    requires { (1 < workers) × (workers ≤ 64) }
{
    let star = wide_star();
    let (mail, seats) = Mail::new(alloc, &star, workers)?;
    let all = seated(alloc, &mail, &star, seats)?;
    let all = if four {
        in_four(rt, alloc, &mail, &star, all, turns)?
    } else {
        let halves = halves(&mail, &star, all)?;
        in_two(rt, alloc, &mail, &star, halves, turns)?
    };
    settled(alloc, mail, &star, all)
}

// Whatever the schedule, what was got and what was left is what was given, each task once.
#[test]
fn two_threads_trade(rt: HostRuntime) -> Result<(), Fail> {
    let (given, nodes) = traded(&rt, rt.alloc(), 2, 100_000, false)?;
    assert!(rt; given == nodes);
    Ok(())
}

#[test]
fn four_threads_trade(rt: HostRuntime) -> Result<(), Fail> {
    for (workers, turns) in [(4, 20_000), (64, 2_000)] {
        let (given, nodes) = traded(&rt, rt.alloc(), workers, turns, true)?;
        assert!(rt; given == nodes, "{workers} workers");
    }
    Ok(())
}
