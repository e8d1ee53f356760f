//! A log of all entries.

ghost use Rattle.std.specs.Prelude.{◌≡◌, ◌≤◌, [], ◌∷◌, ◌++◌, length, IfOk, OnOk, OnErr};
ghost use Rattle.yew_log.specs.Entries.{entry_notes};

use crate::entry::{Entry, LogEnd, Totals, What, count, entry_of, zero};
use crate::recorder::Recorder;
use std::alloc::Global;
use std::marker::Model;
use yew_laws::{Memory, Path};

/// The most entries of a log: 2^18.
const MOST_ENTRIES: usize = 262144;

/// The most numbers that the paths of a log have together: 2^22.
const MOST_NUMBERS: usize = 4194304;

/// A log that keeps its entries: at most 2^18, whose paths have at most 2^22 numbers together.
#[derive(Drop)]
pub struct Full {
    worker: u32,
    kept: Vec<Entry>,
    numbers: usize,
    totals: Totals,
}

impl Model for Full {
    ghost use Rattle.yew_log.specs.Entries.{entry_notes};
    ghost use Rattle.yew_log.specs.Logs.{FullLog, IsKept};

    ghost Value = { FullLog };

    ghost view = { λ a. record { number = a.worker; notes = entry_notes a.kept.items; totals = a.totals } };

    ghost invariant = { λ a. IsKept a.kept.items a.numbers };
}

impl Full {
    /// The entries so far, in order.
    pub fn entries(&self) -> &[Entry]
        ensures { entry_notes result.now ≡ self.now.notes }
    {
        self.kept.as_slice()
    }
}

impl Recorder for Full {
    ghost use Rattle.std.specs.Prelude.{Some};

    ghost told = { λ log. Some log.notes };

    ghost totals = { λ log. log.totals };

    ghost number = { λ log. log.number };

    fn fresh(alloc: Global, worker: u32) -> Result<Full, Memory> {
        Ok(Full {
            worker,
            kept: Vec::new(alloc),
            numbers: 0,
            totals: zero(),
        })
    }

    fn note(&mut self, what: What, path: &Path, first: u64, second: u64) -> Result<(), LogEnd> {
        let more = path.numbers().len();
        let entries = self.kept.len();
        let numbers = self.numbers;
        if entries >= MOST_ENTRIES || more > MOST_NUMBERS - numbers {
            return Err(LogEnd::Full {
                entries: entries as u64,
                numbers: numbers as u64,
            });
        }
        let path = copy_of(*self.kept.allocator(), path, more as u32)?;
        keep(&mut self.kept, entry_of(what, path, first, second))?;
        self.numbers = numbers + more;
        count(&mut self.totals, what);
        Ok(())
    }

    #[inline]
    fn totals(&self) -> Totals {
        self.totals
    }

    fn worker(&self) -> u32 {
        self.worker
    }
}

/// The path again, in memory of its own.
fn copy_of(alloc: Global, path: &Path, space: u32) -> Result<Path, Memory>
    requires { length path.now.numbers ≤ space }
    ensures { IfOk result (λ copy. copy.numbers ≡ path.now.numbers) }
{
    let mut copy = Path::empty(alloc, space)?;
    copy.set(path);
    Ok(copy)
}

/// Appends an entry.
fn keep(kept: &mut Vec<Entry>, entry: Entry) -> Result<(), Memory>
    ensures ok { OnOk result (kept.new.items ≡ kept.old.items ++ entry ∷ []) }
    ensures err { OnErr result (kept.new.items ≡ kept.old.items) }
{
    kept.push(entry)?;
    Ok(())
}
