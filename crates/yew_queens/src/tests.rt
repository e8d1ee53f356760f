ghost use Rattle.std.specs.Prelude.{◌≡◌, ◌≤◌, [], ◌∷◌, ◌++◌};

use crate::{Board, Placement, Size, is_whole, laws, no_queen, one_queen_more, ways};
use std::alloc::Global;
use std::marker::Brand;
use std::sync::Wait;
use std::test::Fail;
use std::thread::Threads;
use yew_calls::ByCalls;
use yew_crew::{Coord, search_crew};
use yew_io::OpenGate;
use yew_kinds::{Answer, ByDepth, Kind};
use yew_laws::Memory;
use yew_log::Counts;
use yew_walk::{Found, SearchFault};

// OEIS A000170, from the board without a row on.
#[test]
fn counts_ways(rt: HostRuntime) -> Result<(), Fail> {
    let known: [u64; 9] = [1, 1, 0, 0, 2, 10, 4, 40, 92];
    for (size, count) in known.iter().enumerate() {
        let size = u32::try_from(size).unwrap_or(0);
        assert!(rt; size <= 65535);
        assert_eq!(rt; ways(rt.alloc(), size)?, *count, "at {size}");
    }
    Ok(())
}

/// How many nodes the board of 8 by 8 has in each row, by two workers.
fn rows_by_two<R: Threads + Wait + Sync>(rt: &R, alloc: Global) -> Result<bool, SearchFault> {
    let calls: ByCalls<Board<Brand>, _, _, _, _> = ByCalls::new(
        no_queen,
        |alloc: Global, placed: &Placement| one_queen_more(alloc, 8, placed),
        |placed: &Placement| is_whole(8, placed),
        |_placed: &Placement| 1,
    );
    let Found { answer, logs: _ } = search_crew::<_, _, Counts, _, _>(
        rt,
        alloc,
        &calls,
        Kind::Count,
        &ByDepth { depths: 8 },
        Coord::Depth(1),
        2,
        &OpenGate,
    )?;
    match answer {
        Answer::Count(sum) => Ok(
            sum.counts() == [1, 8, 42, 140, 344, 568, 550, 312, 92].as_slice(),
        ),
        Answer::Best { .. } | Answer::Reach(_) => Ok(false),
    }
}

// The rows of the board of 8 by 8: Knuth, The Art of Computer Programming, volume 4B, section 7.2.2.
#[test]
fn two_workers_count_each_row(rt: HostRuntime) -> Result<(), Fail> {
    laws::nodes_by_row(8);
    assert!(rt; rows_by_two(&rt, rt.alloc())?);
    Ok(())
}

/// A placement with these columns.
fn placed(alloc: Global, columns: &[u32]) -> Result<Placement, Memory> {
    let mut placement = Placement::empty(alloc);
    for column in columns {
        placement = placement.with(alloc, *column)?;
    }
    Ok(placement)
}

// On the board of 4 by 4 a queen in column 1 of the first row leaves column 3 of the second.
#[test]
fn sets_queens_where_none_attacks(rt: HostRuntime) -> Result<(), Fail> {
    let alloc = rt.alloc();
    let first = placed(alloc, &[1])?;
    let nodes = one_queen_more(alloc, 4, &first)?;
    assert_eq!(rt; nodes.len(), 1);
    assert_eq!(rt; nodes[0].columns(), [1, 3].as_slice());
    assert_eq!(rt; (nodes[0].is_free(0), nodes[0].is_free(2)), (true, false));
    assert_eq!(rt; (is_whole(4, &first), is_whole(1, &first)), (0, 1));
    assert_eq!(rt; no_queen(alloc)?.columns().len(), 0);
    Ok(())
}
