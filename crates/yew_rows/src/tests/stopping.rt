//! A worker that hands work over and is then told to stop, all on one thread.
ghost use Rattle.std.specs.Prelude.{◌≡◌, ◌≢◌, [], ◌∷◌, ◌++◌, ◌≤◌, true, Some, IfOk, IfErr};
ghost use Rattle.std.proofs.Props.{props};
ghost use Rattle.yew_laws.specs.SearchTree.{IsTask, search_tree};
ghost use Rattle.yew_laws.specs.Tasks.{members_of};
ghost use Rattle.yew_mail.specs.Seats.{new_seat};
ghost use Rattle.yew_mail.specs.Views.{first_of};
ghost use Rattle.yew_mail.specs.declared.view.Ask.TheVariants.{Nowhere, In};

use super::items::FOUR;
use super::root_task;
use std::alloc::Global;
use std::sync::{Mutex, Wait};
use std::test::Fail;
use std::thread::Threads;
use yew_best::Best;
use yew_crew::{Coord, End, Open, OpenSeat, Shared, Station, worker};
use yew_io::Gate;
use yew_kinds::NoTally;
use yew_laws::{Memory, Problem};
use yew_log::{Counts, Recorder};
use yew_mail::{Fetched, Mail, MailSeat, Seen};
use yew_pool::{Pool, PoolPass};
use yew_stack::Chunk;
use yew_walk::empty_hand;

/// A seat from which all are told to stop.
#[derive(Drop)]
struct Stopper<'a> {
    open: &'a Open,
    seat: OpenSeat,
    ghost same: { seat.tasks ≡ open.now } by { Prim.hlevel props },
}

impl<'a> Stopper<'a> {
    fn stop(&mut self) {
        self.open.stop(&mut self.seat);
    }
}

/// Tells all to stop at each task that is taken.
#[derive(Drop)]
struct StopAtTasks<'a> {
    stopper: Mutex<Stopper<'a>>,
}

impl<'a> Gate for StopAtTasks<'a> {
    fn at<R: Threads + Wait>(&self, rt: &R, _worker: u32, _taken: u64) {
        self.stopper.lock(rt).stop();
    }
}

/// The first worker opens its box, and the second one asks it for work. Answers whether the ask is in the box.
fn ask_first<P: Problem>(
    problem: &P,
    mail: &Mail<P::Node>,
    first: &mut MailSeat<P::Node>,
    second: &mut MailSeat<P::Node>,
) -> bool
    requires workers { mail.now.workers ≡ 2 }
    requires first { first.old ≡ new_seat mail.now (members_of (search_tree P.Problem problem.now)) 1 }
    requires second { second.old ≡ new_seat mail.now (members_of (search_tree P.Problem problem.now)) 2 }
    ensures mail { first.new.mail ≡ mail.now }
    ensures members { first.new.members ≡ Some (members_of (search_tree P.Problem problem.now)) }
    ensures number { first_of first.new.numbers ≡ 1 }
    ensures no_ask { first.new.ask ≡ Nowhere }
    ensures other { second.new.mail ≡ mail.now }
    ensures asked { result ≡ true → second.new.ask ≡ In 1 }
{
    let _ = problem;
    match mail.look(first) {
        Seen::Shut => {
            mail.open_box(first);
            mail.ask(second, 1)
        }
        _ => false,
    }
}

/// The first pass of a pool for two, which has put the root's task.
fn put_root<P: Problem>(
    alloc: Global,
    problem: &P,
    pool: &Pool<P::Node>,
    pass: &mut PoolPass<P::Node>,
) -> Result<(), Memory>
    requires root { P.sound problem.now (P.root problem.now) }
    requires pool { pass.old.pool ≡ pool.now }
    requires members { pass.old.members ≡ Some (members_of (search_tree P.Problem problem.now)) }
    ensures pool { pass.new.pool ≡ pool.now }
    ensures members { pass.new.members ≡ Some (members_of (search_tree P.Problem problem.now)) }
{
    let root = root_task(alloc, problem)?;
    match pool.put(pass, root) {
        Ok(()) => Ok(()),
        Err(_) => Err(Memory),
    }
}

/// Whether a worker that gives one task away where it is asked, and is told to stop at the root's task, has stopped, and
/// the task that was given to the one that asked has this path.
fn is_given<P: Problem, R: Threads + Wait + Sync>(
    rt: &R,
    alloc: Global,
    problem: &P,
    path: &[u32],
) -> Result<bool, Memory>
    requires root { P.sound problem.now (P.root problem.now) }
{
    let (best, best_seat) = Best::new(alloc, 1)?;
    let (tasks, mut first_open) = Open::new(alloc, 2)?;
    tasks.made(&mut first_open, 1);
    let second_open = tasks.split(&mut first_open);
    let (pool, mut passes) = Pool::new(alloc, problem, 2)?;
    let mut pass = passes.remove(0);
    put_root(alloc, problem, &pool, &mut pass)?;
    let (mail, mut seats) = Mail::new(alloc, problem, 2)?;
    let mut first = seats.remove(0);
    let mut second = seats.remove(0);
    if !ask_first(problem, &mail, &mut first, &mut second) {
        return Ok(false);
    }
    let shared = Shared {
        best,
        pool,
        mail,
        tasks,
        gap: 0,
    };
    let gate = StopAtTasks {
        stopper: Mutex::new(Stopper {
            open: &shared.tasks,
            seat: second_open,
        }),
    };
    let hand = empty_hand::<P::Node, _>(alloc, &NoTally)?;
    let station = Station {
        number: 1,
        best: best_seat,
        pool: pass,
        mail: first,
        tasks: first_open,
        hand,
        log: Counts::fresh(alloc, 1)?,
    };
    let report = worker(
        rt,
        alloc,
        problem,
        &NoTally,
        Coord::Steal(Chunk::One),
        &shared,
        &gate,
        station,
    );
    let stopped = matches!(report.end, End::Stopped);
    let given = match shared.mail.fetch(&mut second, 1) {
        Fetched::Tasks(tasks) => tasks.len() == 1 && tasks[0].path.numbers() == path,
        Fetched::Denied | Fetched::NotYet => false,
    };
    Ok(stopped && given)
}

// The first of two workers takes the root's task while the second asks for work, and is told to stop: it gives the root's
// first child away, ends its own task, and stops.
#[test]
fn a_worker_gives_and_stops(rt: HostRuntime) -> Result<(), Fail> {
    let alloc = rt.alloc();
    let Ok(problem) = yew_knap::read(alloc, FOUR) else {
        assert!(rt; false);
        return Ok(());
    };
    for _ in 0..3u8 {
        assert!(rt; is_given(&rt, alloc, &problem, &[0])?);
    }
    Ok(())
}
