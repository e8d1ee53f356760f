//! A worker's outlet where it hands tasks to the workers that ask it.
ghost use Rattle.std.specs.Prelude.{◌≡◌, ◌+◌, ◌++◌, ◌∷◌, [], true, false, ◌||◌, Some, OnOk, OnErr};
ghost use Rattle.std.specs.List.{AllByRecursion};
ghost use Rattle.std.specs.Option.{option_map};
ghost use Rattle.yew_laws.specs.Bag.{SameBag};
ghost use Rattle.yew_laws.specs.SearchTree.{IsTask};
ghost use Rattle.yew_walk.specs.Outlets.{IsSentPart};
ghost use Rattle.yew_crew.specs.OpenSeats.{IsExact};
ghost use Rattle.yew_crew.specs.Outlets.{KeepsHanding, IsLaterHanding, answers_of};

use crate::open_tasks::{Open, OpenSeat};
use std::marker::Model;
use yew_laws::{Memory, Problem, Task};
use yew_mail::{Mail, MailSeat, Seen};
use yew_walk::Outlet;

/// What a worker knows of its own box when it runs.
#[derive(Clone, Copy, Debug, PartialEq, Eq)]
pub enum Known {
    /// Nothing that lasts.
    Nothing,
    /// It is shut, until it is opened.
    Shut,
    /// A worker asks there, whom it has to answer.
    Asker,
}

/// The side of a worker that hands its tasks over: its seat at the mailboxes, and its seat at the open tasks. Each task is
/// counted as made before a mailbox has it. Tasks are wanted exactly where a worker asks in the own box.
#[derive(Drop)]
pub struct Handing<'a, P: Problem> {
    pub problem: &'a P,
    pub mail: &'a Mail<P::Node>,
    pub open: &'a Open,
    pub seat: MailSeat<P::Node>,
    pub tasks: OpenSeat,
    pub known: Known,
}

impl<'a, P: Problem> Model for Handing<'a, P> {
    ghost use Rattle.std.specs.Prelude.{◌≡◌, Some};
    ghost use Rattle.yew_crew.specs.Outlets.{HandingView};
    ghost use Rattle.yew_crew.specs.OwnBoxes.{IsKnown};
    ghost use Rattle.yew_laws.specs.SearchTree.{search_tree};
    ghost use Rattle.yew_laws.specs.Tasks.{members_of};

    ghost Value = { HandingView P P.Node };

    ghost view = { λ o. record { problem = o.problem.now; seat = o.seat; tasks = o.tasks } };

    ghost invariant = { λ o. (o.seat.mail ≡ o.mail.now) × (o.tasks.tasks ≡ o.open.now) × (o.seat.members ≡ Some (members_of (search_tree P.Problem o.problem.now)))
        × P.sound o.problem.now (P.root o.problem.now) × IsKnown o.known o.seat.own };
}

impl<'a, P: Problem> Handing<'a, P> {
    /// Counts a task as ended.
    pub fn ended(&mut self)
        ensures { self.new ≡ record self.old { tasks = record self.old.tasks { ended = self.old.tasks.ended + 1 } } }
    {
        self.open.ended(&mut self.tasks);
    }

    /// Loads the count of open tasks.
    pub fn load(&mut self) -> u64
        ensures loaded { self.new ≡ record self.old { tasks = record self.old.tasks { last = Some result; knew = self.old.tasks.knows } } }
        ensures whole { self.old.tasks.share ≡ self.old.tasks.tasks.seats → IsExact self.old.tasks result }
    {
        self.open.load(&mut self.tasks)
    }

    /// Tells all to stop.
    pub fn stop(&mut self)
        ensures { self.new ≡ record self.old { tasks = record self.old.tasks { stops = self.old.tasks.stops + 1 } } }
    {
        self.open.stop(&mut self.tasks);
    }

    /// Whether somebody has told all to stop.
    pub fn stopped(&mut self) -> bool
        ensures { self.new ≡ record self.old { tasks = record self.old.tasks { saw = self.old.tasks.saw || result } } }
    {
        self.open.stopped(&mut self.tasks)
    }
}

impl<'a, P: Problem> Outlet<P> for Handing<'a, P> {
    ghost use Rattle.std.specs.Prelude.{Some};
    ghost use Rattle.yew_crew.specs.HandingLaws.{keeps_handing_same, keeps_handing_twice, later_handing_same, later_handing_twice};
    ghost use Rattle.yew_crew.specs.Outlets.{KeepsHanding, IsLaterHanding, answers_of};

    ghost problem = { λ o. o.problem };

    ghost sent = { λ o. o.seat.given };

    ghost answers = { λ o. Some (answers_of o.seat.found) };

    ghost kept = { KeepsHanding };

    ghost later = { IsLaterHanding };

    ghost goes = { λ _ _ _. Unit {0} };

    ghost kept_same = { keeps_handing_same };

    ghost kept_twice = { keeps_handing_twice };

    ghost later_same = { later_handing_same };

    ghost later_twice = { later_handing_twice };

    ghost goes_none = { λ _. tt };

    ghost goes_on = { λ _ _ _ _ _ _ _. tt };

    #[inline]
    fn wanted(&mut self) -> bool {
        match self.mail.look(&mut self.seat) {
            Seen::Asked(_) => {
                self.known = Known::Asker;
                true
            }
            Seen::Shut => {
                self.mail.open_box(&mut self.seat);
                self.known = Known::Nothing;
                false
            }
            _ => {
                self.known = Known::Nothing;
                false
            }
        }
    }

    fn send(&mut self, tasks: Vec<Task<P::Node>>) -> Result<(), Memory>
        requires { AllByRecursion (λ task. IsTask P.Problem self.old.problem task.path.numbers task.node) tasks.items }
        ensures ok { OnOk result (SameBag self.new.seat.given (self.old.seat.given ++ tasks.items)) }
        ensures err { OnErr result (IsSentPart (λ task. IsTask P.Problem self.old.problem task.path.numbers task.node) self.old.seat.given tasks.items self.new.seat.given) }
        ensures answers { Some (answers_of self.new.seat.found) ≡ Some (answers_of self.old.seat.found) }
        ensures problem { self.new.problem ≡ self.old.problem }
        ensures kept { KeepsHanding self.old self.new }
        ensures later { OnOk result (IsLaterHanding self.old self.new) }
        ensures goes { OnOk result (Unit {0}) }
    {
        if self.known != Known::Asker {
            return Err(Memory);
        }
        self.known = Known::Nothing;
        if tasks.is_empty() {
            self.mail.deny(&mut self.seat);
            return Ok(());
        }
        self.open.made(&mut self.tasks, tasks.len() as u64);
        self.mail.give(&mut self.seat, tasks);
        Ok(())
    }
}
