//! The walk over a tree that every skeleton runs, and the sequential search.
//!
//! [`walk`] runs one task to its end, depth first (the generic skeleton of Archibald, Maier, Stewart and Trinder, PPoPP
//! 2020). [`consider`] decides by one load of the incumbent word whether a node is visited or cut off. A [`Policy`] says
//! after each visit, cut and backtrack whether children of the lowest level are split off: [`Plain`] never does,
//! [`Depth`] and [`Budget`] spawn them, and [`Hungry`] hands them over. An [`Outlet`] takes these tasks and says whether
//! any are wanted. What the worker has found is in its [`Hand`].
//!
//! A walk that ends has dealt with each node of its task exactly once: it was visited, or lies at or below one that was
//! cut off or sent. Its log, the words that were read and offered, the sum and the best visit fit together. A walk that is
//! refused leaves a log that broke off, which deals with no node twice. [`search_plain`] is one walk from the root: its
//! answer is right for the tree, and its log is the one sequential log. What holds of several walks of one worker together
//! is said in [`laws`].
#![tactic(auto)]

mod fault;
mod hand;
mod keying;
pub mod laws;
mod outlet;
mod policy;
mod search;
mod share;
#[cfg(test)]
mod tests;
mod verdict;
mod walking;

pub use fault::SearchFault;
pub use hand::{Hand, empty_hand};
pub use keying::Keying;
pub use outlet::{Outbox, Outlet};
pub use policy::{Act, Budget, Depth, Event, Hungry, Plain, Policy};
pub use search::{Found, search_plain};
pub use verdict::{Verdict, consider, judge};
pub use walking::walk;
