//! What the workers of a crew share, what each of them carries, and what it hands back.

use crate::open_tasks::{Open, OpenSeat};
use yew_best::{Best, BestSeat};
use yew_mail::{Mail, MailSeat};
use yew_pool::{Pool, PoolPass};
use yew_walk::{Hand, SearchFault};

/// What all workers of a crew share: the incumbent word, the pool, the mailboxes, the count of open tasks, and by how
/// much a node that is cut off may better the held value.
#[derive(Drop)]
pub struct Shared<N> {
    pub best: Best,
    pub pool: Pool<N>,
    pub mail: Mail<N>,
    pub tasks: Open,
    pub gap: u64,
}

/// What one worker carries: its number, from 1, its seats and its pass, what it has found, and its log.
#[derive(Drop)]
pub struct Station<N, S, R> {
    pub number: u32,
    pub best: BestSeat,
    pub pool: PoolPass<N>,
    pub mail: MailSeat<N>,
    pub tasks: OpenSeat,
    pub hand: Hand<S>,
    pub log: R,
}

/// Why a worker came to its end.
#[derive(Drop)]
pub enum End {
    /// There were no open tasks left.
    Done,
    /// It was told to stop.
    Stopped,
    /// Its own walk was refused, for this reason.
    Fault(SearchFault),
}

/// What a worker hands back: its station as it left it, and why it came to its end.
#[derive(Drop)]
pub struct Report<N, S, R> {
    pub station: Station<N, S, R>,
    pub end: End,
}
