//! Why a search has no answer.

use thiserror::Error;
use yew_laws::Memory;

/// Why a search has no answer.
#[derive(Debug, Drop, Error)]
#[error("SearchFault")]
pub enum SearchFault {
    /// Memory ran out.
    Memory,
    /// The log of a worker has no room for its next entry: it has so many entries, whose paths have so many numbers
    /// together.
    AuditFull {
        worker: u32,
        entries: u64,
        numbers: u64,
    },
    /// A task would need this number, which is past the last one.
    TooManyTasks {
        number: u64,
    },
}

impl From<Memory> for SearchFault {
    ghost use Rattle.std.specs.Prelude.{◌≡◌};
    ghost use Rattle.yew_walk.specs.declared.fault.SearchFault.TheVariants.{Memory};

    ghost from_gives = { λ _ fault. fault ≡ Memory };

    fn from(_: Memory) -> SearchFault {
        SearchFault::Memory
    }
}
