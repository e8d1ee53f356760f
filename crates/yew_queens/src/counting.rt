//! How many ways there are.

ghost use Rattle.std.specs.Prelude.{◌≡◌, ◌≤◌, IfOk};
ghost use Rattle.yew_kinds.specs.DepthCounts.{saturated};
ghost use Rattle.yew_queens.specs.Boards.{number_of_ways};

use crate::board::{Board, Size, is_whole, no_queen, one_queen_more};
use crate::laws::nodes_by_row;
use crate::placement::Placement;
use std::alloc::Global;
use std::marker::Brand;
use yew_calls::ByCalls;
use yew_kinds::laws::fold_by_depth;
use yew_kinds::{Answer, ByDepth, Kind};
use yew_log::Counts;
use yew_walk::{Found, SearchFault, search_plain};

/// In how many ways as many queens as a board has rows stand on it so that none attacks another; 2^64 - 1 where there
/// are more. A board has at most 65,535 rows.
///
/// # Errors
///
/// `Memory` where memory ran out.
pub fn ways(alloc: Global, size: u32) -> Result<u64, SearchFault>
    requires { size ≤ 65535 }
    ensures { IfOk result (λ count. count ≡ saturated (number_of_ways size)) }
{
    ways_on::<Brand>(alloc, size)
}

/// The same, where the size is picked.
fn ways_on<K: Size>(alloc: Global, size: u32) -> Result<u64, SearchFault>
    requires { size ≡ K.size }
    ensures { IfOk result (λ count. count ≡ saturated (number_of_ways size)) }
{
    let calls: ByCalls<Board<K>, _, _, _, _> = ByCalls::new(
        no_queen,
        |alloc: Global, placed: &Placement| one_queen_more(alloc, size, placed),
        |placed: &Placement| is_whole(size, placed),
        |_placed: &Placement| 1,
    );
    let tally = ByDepth { depths: size };
    let Found { answer, logs: _ } = search_plain::<_, _, Counts>(
        alloc,
        &calls,
        Kind::Count,
        &tally,
    )?;
    fold_by_depth(&calls, tally);
    nodes_by_row(size);
    match answer {
        Answer::Count(sum) => Ok(sum.counts()[size as usize]),
        Answer::Best { .. } | Answer::Reach(_) => unreachable!(),
    }
}
