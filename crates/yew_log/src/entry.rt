//! What a log records.

ghost use Rattle.std.specs.Prelude.{◌≡◌};
ghost use Rattle.yew_log.specs.Entries.{entry_note};
ghost use Rattle.yew_log.specs.Recording.{note_of};
ghost use Rattle.yew_log.specs.Totals.{next_totals, no_totals};

use yew_laws::{Memory, Path};

/// What happened to a task or a node.
#[derive(Clone, Copy, Debug, PartialEq, Eq)]
pub enum What {
    /// A task was taken, to be searched from its node on.
    Taken,
    /// A node was visited.
    Visited,
    /// A node was cut, and with it all below it.
    Cut,
    /// A task was put into the pool.
    Spawned,
    /// A task was handed to another worker.
    Handed,
    /// All below a visited node was dealt with.
    Ended,
}

/// One entry of a log, with the path of its node. A visit has the worth of the node and the held value, which is the
/// best worth that the worker had read; a cut has the bound of the node and the held value.
#[derive(Drop)]
pub enum Entry {
    /// A task was taken.
    Taken(Path),
    /// A node was visited: its path, its worth and the held value.
    Visited(Path, u64, u64),
    /// A node was cut: its path, its bound and the held value.
    Cut(Path, u64, u64),
    /// A task was put into the pool.
    Spawned(Path),
    /// A task was handed to another worker.
    Handed(Path),
    /// All below a visited node was dealt with.
    Ended(Path),
}

/// How many entries of each kind there were. Each count stays at 2^64 - 1 once it is there.
#[derive(Clone, Copy, Debug, PartialEq, Eq)]
pub struct Totals {
    /// Tasks taken.
    pub taken: u64,
    /// Tasks put into the pool.
    pub spawned: u64,
    /// Tasks handed to another worker.
    pub handed: u64,
    /// Nodes visited.
    pub visited: u64,
    /// Nodes cut.
    pub cut: u64,
}

/// Why an entry was refused.
#[derive(Clone, Copy, Debug, PartialEq, Eq)]
pub enum LogEnd {
    /// The log has no room for the entry: it has so many entries, whose paths have so many numbers together.
    Full { entries: u64, numbers: u64 },
    /// Memory ran out.
    Memory,
}

impl From<Memory> for LogEnd {
    ghost use Rattle.yew_log.specs.declared.entry.LogEnd.{LogEnd};
    ghost use Rattle.yew_log.specs.declared.entry.LogEnd.TheVariants.{Memory};

    ghost from_gives = { λ _ end. end ≡ Memory };

    fn from(_: Memory) -> LogEnd {
        LogEnd::Memory
    }
}

/// The totals of a new log.
pub(crate) const fn zero() -> Totals
    ensures { result ≡ no_totals }
{
    Totals {
        taken: 0,
        spawned: 0,
        handed: 0,
        visited: 0,
        cut: 0,
    }
}

/// Counts one more entry of this kind.
#[inline]
pub(crate) fn count(totals: &mut Totals, what: What)
    ensures { totals.new ≡ next_totals totals.old what }
{
    match what {
        What::Taken => totals.taken = totals.taken.saturating_add(1),
        What::Visited => totals.visited = totals.visited.saturating_add(1),
        What::Cut => totals.cut = totals.cut.saturating_add(1),
        What::Spawned => totals.spawned = totals.spawned.saturating_add(1),
        What::Handed => totals.handed = totals.handed.saturating_add(1),
        What::Ended => {}
    }
}

/// The entry of this kind. Only a visit and a cut keep the two numbers.
#[inline]
pub(crate) fn entry_of(what: What, path: Path, first: u64, second: u64) -> Entry
    ensures { entry_note result ≡ note_of what path.numbers first second }
{
    match what {
        What::Taken => Entry::Taken(path),
        What::Visited => Entry::Visited(path, first, second),
        What::Cut => Entry::Cut(path, first, second),
        What::Spawned => Entry::Spawned(path),
        What::Handed => Entry::Handed(path),
        What::Ended => Entry::Ended(path),
    }
}
