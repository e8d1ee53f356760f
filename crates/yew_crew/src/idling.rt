//! What a worker does at the mailboxes while it has nothing to walk.
ghost use Rattle.std.specs.Prelude.{◌≡◌, ◌≢◌, ◌<◌, ◌≤◌, [], MatchBool};
ghost use Rattle.std.specs.List.{AllByRecursion};
ghost use Rattle.yew_laws.specs.SearchTree.{IsTask};
ghost use Rattle.yew_mail.specs.Fetching.{IfTasks, OnDenied, OnNotYet};
ghost use Rattle.yew_mail.specs.Views.{first_of};
ghost use Rattle.yew_crew.specs.Idling.{IsIdleStep, IsGift, IsAnswer};

use crate::handing::{Handing, Known};
use crate::station::End;
use crossbeam_utils::Backoff;
use std::sync::Wait;
use yew_laws::{Problem, Task};
use yew_mail::{Ask, Fetched, Seen};

/// What an idle worker has come to.
#[derive(Drop)]
pub(crate) enum Answer<N> {
    /// Another worker gave it these tasks.
    Gift(Vec<Task<N>>),
    /// It was given nothing so far.
    Nothing,
    /// It has come to its end.
    Over(End),
}

impl<'a, P: Problem> Handing<'a, P> {
    /// Closes the own box. A worker that is found asking there gets none.
    pub fn close(&mut self)
        ensures idle { IsIdleStep [] self.old self.new }
        ensures ask { self.new.seat.ask ≡ self.old.seat.ask }
    {
        match self.mail.close_box(&mut self.seat) {
            Seen::Asked(_) => {
                self.known = Known::Nothing;
                if let Seen::Asked(_) = self.mail.look(&mut self.seat) {
                    self.mail.deny(&mut self.seat);
                }
            }
            Seen::Shut => self.known = Known::Shut,
            Seen::Ready => self.known = Known::Shut,
            Seen::Given(_) => self.known = Known::Nothing,
            Seen::Denied(_) => self.known = Known::Nothing,
        }
    }

    /// Opens the own box, where it is known to be shut.
    pub fn open(&mut self)
        ensures idle { IsIdleStep [] self.old self.new }
        ensures ask { self.new.seat.ask ≡ self.old.seat.ask }
    {
        if self.known == Known::Shut {
            self.known = Known::Nothing;
            self.mail.open_box(&mut self.seat);
        }
    }

    // Asks another worker. The answer is whether its box was ready, and is then asked.
    fn ask(&mut self, victim: u32) -> bool
        requires victim { (0 < victim) × (victim ≤ self.old.seat.mail.workers) }
        requires other { first_of self.old.seat.numbers ≢ victim }
        requires no_ask { self.old.seat.ask ≡ Ask.Nowhere }
        ensures idle { IsIdleStep [] self.old self.new }
        ensures ask { MatchBool result (self.new.seat.ask ≡ Ask.In victim) (self.new.seat.ask ≡ Ask.Nowhere) }
    {
        self.mail.ask(&mut self.seat, victim)
    }

    // Looks for the answer of a worker that was asked.
    fn fetch(&mut self, victim: u32) -> Fetched<P::Node>
        requires ask { self.old.seat.ask ≡ Ask.In victim }
        ensures tasks { IfTasks result (λ tasks. IsGift (λ task. IsTask P.Problem self.old.problem task.path.numbers task.node) tasks self.old self.new) }
        ensures denied { OnDenied result (IsIdleStep [] self.old self.new × (self.new.seat.ask ≡ Ask.Nowhere)) }
        ensures not_yet { OnNotYet result (IsIdleStep [] self.old self.new × (self.new.seat.ask ≡ Ask.In victim)) }
    {
        self.mail.fetch(&mut self.seat, victim)
    }

    // Whether the worker has come to its end: somebody has told all to stop, or no task is open.
    fn is_over(&mut self) -> Answer<P::Node>
        ensures { IsAnswer (λ task. IsTask P.Problem self.old.problem task.path.numbers task.node) self.old.seat.ask self.old self.new result }
    {
        if self.stopped() {
            return Answer::Over(End::Stopped);
        }
        if self.load() == 0 {
            return Answer::Over(End::Done);
        }
        Answer::Nothing
    }

    // Waits for the answer of a worker that was asked, and looks meanwhile whether it has come to its end.
    fn await_answer<R: Wait>(&mut self, rt: &R, victim: u32) -> Answer<P::Node>
        requires ask { self.old.seat.ask ≡ Ask.In victim }
        ensures { IsAnswer (λ task. IsTask P.Problem self.old.problem task.path.numbers task.node) Ask.Nowhere self.old self.new result }
    {
        let backoff = Backoff::new();
        for _ in rt.forever() {
            match self.fetch(victim) {
                Fetched::Tasks(tasks) => return Answer::Gift(tasks),
                Fetched::Denied => return Answer::Nothing,
                Fetched::NotYet => {}
            }
            match self.is_over() {
                Answer::Nothing => backoff.snooze(),
                answer => return answer,
            }
        }
        unreachable!()
    }

    // Asks one other worker, and waits for its answer.
    fn ask_one<R: Wait>(&mut self, rt: &R, victim: u32) -> Answer<P::Node>
        requires victim { (0 < victim) × (victim ≤ self.old.seat.mail.workers) }
        requires other { first_of self.old.seat.numbers ≢ victim }
        requires no_ask { self.old.seat.ask ≡ Ask.Nowhere }
        ensures { IsAnswer (λ task. IsTask P.Problem self.old.problem task.path.numbers task.node) Ask.Nowhere self.old self.new result }
    {
        if self.ask(victim) {
            self.await_answer(rt, victim)
        } else {
            Answer::Nothing
        }
    }

    // Asks the other workers in turn, by rising number from the next one and round, until one gives tasks.
    fn ask_others<R: Wait>(&mut self, rt: &R, number: u32) -> Answer<P::Node>
        requires number { first_of self.old.seat.numbers ≡ number }
        requires no_ask { self.old.seat.ask ≡ Ask.Nowhere }
        ensures { IsAnswer (λ task. IsTask P.Problem self.old.problem task.path.numbers task.node) Ask.Nowhere self.old self.new result }
    {
        let workers = self.mail.workers();
        let mut victim = number;
        for _ in 0..workers {
            victim = next_worker(victim, workers);
            if victim != number {
                match self.ask_one(rt, victim) {
                    Answer::Nothing => {}
                    answer => return answer,
                }
            }
        }
        Answer::Nothing
    }

    /// One turn of a worker with nothing to walk: it closes its box, asks the others, and looks whether it has come to its
    /// end.
    pub(crate) fn idle<R: Wait>(&mut self, rt: &R, number: u32) -> Answer<P::Node>
        requires number { first_of self.old.seat.numbers ≡ number }
        requires no_ask { self.old.seat.ask ≡ Ask.Nowhere }
        ensures { IsAnswer (λ task. IsTask P.Problem self.old.problem task.path.numbers task.node) Ask.Nowhere self.old self.new result }
    {
        self.close();
        match self.ask_others(rt, number) {
            Answer::Nothing => self.is_over(),
            answer => answer,
        }
    }
}

// The worker behind this one, and round.
fn next_worker(number: u32, workers: u32) -> u32
    requires { 0 < workers }
    ensures { (0 < result) × (result ≤ workers) }
{
    if number < workers { number + 1 } else { 1 }
}
