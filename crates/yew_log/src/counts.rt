//! A log of totals alone.

use crate::entry::{LogEnd, Totals, What, count, zero};
use crate::recorder::Recorder;
use std::alloc::Global;
use std::marker::Model;
use yew_laws::{Memory, Path};

/// A log that keeps the totals alone. It takes no memory, and always has room.
#[derive(Drop)]
pub struct Counts {
    worker: u32,
    totals: Totals,
}

impl Model for Counts {
    ghost use Rattle.yew_log.specs.Logs.{CountsLog};

    ghost Value = { CountsLog };

    ghost view = { λ a. record { number = a.worker; totals = a.totals } };
}

impl Recorder for Counts {
    ghost use Rattle.std.specs.Prelude.{None, ◌≡◌, IsOk};
    ghost use Rattle.yew_log.specs.Totals.{next_totals};

    ghost told = { λ _. None };

    ghost totals = { λ log. log.totals };

    ghost number = { λ log. log.number };

    fn fresh(_alloc: Global, worker: u32) -> Result<Counts, Memory> {
        Ok(Counts {
            worker,
            totals: zero(),
        })
    }

    /// Adds 1 to the total of this kind. It takes no memory and always answers `Ok`.
    #[inline]
    fn note(&mut self, what: What, _path: &Path, _first: u64, _second: u64) -> Result<(), LogEnd>
        ensures ok { IsOk result }
        ensures totals { self.new ≡ record self.old { totals = next_totals self.old.totals what } }
    {
        count(&mut self.totals, what);
        Ok(())
    }

    #[inline]
    fn totals(&self) -> Totals {
        self.totals
    }

    fn worker(&self) -> u32 {
        self.worker
    }
}
