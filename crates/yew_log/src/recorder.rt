//! What every log does.

ghost use Rattle.std.specs.Prelude.{◌≡◌, ℕ, List, [], ◌∷◌, ◌++◌, Option, IfOk, IfSome, OnOk, OnErr};
ghost use Rattle.std.specs.Option.{option_map};
ghost use Rattle.yew_log.specs.declared.entry.Totals.{Totals as TotalsValue};
ghost use Rattle.yew_log.specs.Notes.{Note};
ghost use Rattle.yew_log.specs.Recording.{note_of, HasRoom, IfFull, IsFull};
ghost use Rattle.yew_log.specs.Totals.{no_totals, next_totals};

use crate::entry::{LogEnd, Totals, What};
use std::alloc::Global;
use yew_laws::{Memory, Path};

/// The log of one worker.
///
/// Contracts see its totals, the worker's number and, where the log tells them, its entries. A log that tells its
/// entries has at most 2^18 of them, whose paths have at most 2^22 numbers together; any other log has no limit.
pub trait Recorder: Send + Drop {
    /// The entries so far, where the log tells them.
    ghost told: { Self → Option (List Note) };

    /// How many entries of each kind there were.
    ghost totals: { Self → TotalsValue };

    /// The number of the worker.
    ghost number: { Self → ℕ };

    /// The log of a worker, counted from 1, that has recorded nothing.
    ///
    /// # Errors
    ///
    /// `Memory` where memory ran out.
    fn fresh(alloc: Global, worker: u32) -> Result<Self, Memory>
        ensures told { IfOk result (λ log. IfSome (told log) (λ notes. notes ≡ [])) }
        ensures totals { IfOk result (λ log. totals log ≡ no_totals) }
        ensures worker { IfOk result (λ log. number log ≡ worker) };

    /// Records what happened at a path. The two numbers are the worth and the held value of a visit, or the bound and
    /// the held value of a cut; for the other kinds they are ignored.
    ///
    /// # Errors
    ///
    /// `Full` exactly where the log has no room for the path, with its numbers of entries and of path numbers, which are
    /// within the limits of a log; and `Memory` where memory ran out. The log is then unchanged.
    fn note(&mut self, what: What, path: &Path, first: u64, second: u64) -> Result<(), LogEnd>
        ensures told { OnOk result (told self.new ≡ option_map (λ notes. notes ++ note_of what path.now.numbers first second ∷ []) (told self.old)) }
        ensures totals { OnOk result (totals self.new ≡ next_totals (totals self.old) what) }
        ensures room { OnOk result (HasRoom (told self.old) path.now.numbers) }
        ensures no_room { IfFull result (λ entries numbers. IsFull (told self.old) path.now.numbers entries numbers) }
        ensures unchanged_told { OnErr result (told self.new ≡ told self.old) }
        ensures unchanged_totals { OnErr result (totals self.new ≡ totals self.old) }
        ensures worker { number self.new ≡ number self.old };

    /// How many entries of each kind there were.
    fn totals(&self) -> Totals
        ensures { result ≡ totals self.now };

    /// The number of the worker.
    fn worker(&self) -> u32
        ensures { result ≡ number self.now };
}
