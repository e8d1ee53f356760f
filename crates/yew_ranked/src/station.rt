//! What the workers of an ordered search share, what each of them carries, and what it hands back.
use crate::claims::{ClaimSeat, Claims};
use crate::task::RankedTask;
use yew_best::{Best, BestSeat};
use yew_crew::{End, Open, OpenSeat};
use yew_walk::Hand;

/// What all workers of an ordered search share: the incumbent word, the counter of claims, the word by which all are
/// told to stop, and the tasks, in the order of their numbers.
#[derive(Drop)]
pub(crate) struct RankedShared {
    pub best: Best,
    pub claims: Claims,
    pub stop: Open,
    pub tasks: Vec<RankedTask>,
}

/// What one worker carries: its number, from 1, its seats, what it has found, and its log.
#[derive(Drop)]
pub(crate) struct RankedStation<S, R> {
    pub number: u32,
    pub best: BestSeat,
    pub claims: ClaimSeat,
    pub stop: OpenSeat,
    pub hand: Hand<S>,
    pub log: R,
}

/// What a worker hands back: its station as it left it, and why it came to its end.
#[derive(Drop)]
pub(crate) struct RankedReport<S, R> {
    pub station: RankedStation<S, R>,
    pub end: End,
}
