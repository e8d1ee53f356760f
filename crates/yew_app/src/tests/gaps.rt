//! Runs that permit a gap.

use super::{CALM, FOUR, FOUR_CITIES, expect, joined, lines, run, run_crew};
use std::alloc::Global;
use std::test::Fail;

/// The sets of the four items that can be carried: their profits and their texts.
const SETS: [(u64, &str); 10] = [
    (0, ""),
    (10, " 1"),
    (40, " 2"),
    (30, " 3"),
    (50, " 4"),
    (50, " 1 2"),
    (60, " 1 4"),
    (70, " 2 3"),
    (90, " 2 4"),
    (80, " 3 4"),
];

/// The tours of the four cities: their lengths and their texts.
const TOURS: [(u64, &str); 6] = [
    (95, " 1 2 3 4"),
    (80, " 1 2 4 3"),
    (95, " 1 3 2 4"),
    (80, " 1 3 4 2"),
    (95, " 1 4 2 3"),
    (95, " 1 4 3 2"),
];

/// The file of the four cities.
fn four_cities(alloc: Global) -> Result<Vec<u8>, Fail> {
    joined(
        alloc,
        &[
            FOUR_CITIES,
            "0 10 15 20\n10 0 35 25\n15 35 0 30\n20 25 30 0\nEOF\n",
        ],
    )
}

/// Whether the text is one of these solutions, whose values are from the least to the most, within this gap.
fn is_within(
    alloc: Global,
    text: &[u8],
    word: &str,
    solutions: &[(u64, &str)],
    least: u64,
    most: u64,
    gap: u64,
) -> Result<bool, Fail> {
    for (value, solution) in solutions {
        let found = format!(in alloc; "found {value}\nwithin {gap}\n{word}{solution}\n")?;
        if least <= *value && *value <= most && found.as_bytes() == text {
            return Ok(true);
        }
    }
    Ok(false)
}

// The worth of a set is its profit and 1. Where 51 is held, the gap permits to cut off a bound of at most 51 and the gap:
// 106, the greatest below the first item, from 55 on. By one worker the answer is the first of the greatest that it visits.
#[test]
fn gaps_in_preorder(rt: HostRuntime) -> Result<(), Fail> {
    let alloc = rt.alloc();
    let four = four_cities(alloc)?;
    let files: [(&str, &[u8]); 2] = [("k1", FOUR), ("t1", &four)];
    for (line, out) in [
        (
            "knapsack sequential k1 --gap 0",
            "found 90\nwithin 0\nitems 2 4\n",
        ),
        (
            "knapsack sequential k1 --gap 54",
            "found 90\nwithin 54\nitems 2 4\n",
        ),
        (
            "knapsack sequential k1 --gap 55",
            "found 50\nwithin 55\nitems 4\n",
        ),
        (
            "knapsack sequential k1 --gap 1099511627774",
            "found 0\nwithin 1099511627774\nitems\n",
        ),
        (
            "tsp sequential t1 --gap 0",
            "found 80\nwithin 0\ntour 1 2 4 3\n",
        ),
        (
            "tsp sequential t1 --gap 1099511627774",
            "found 95\nwithin 1099511627774\ntour 1 2 3 4\n",
        ),
    ] {
        let alone = run(alloc, line, &files, CALM)?;
        expect(&rt, line, &alone, 0, out.as_bytes(), "");
        let together = run_crew(&rt, alloc, line, &files, CALM)?;
        expect(&rt, line, &together, 0, out.as_bytes(), "");
    }
    Ok(())
}

// By depth 1 the children of the root are tasks, and with one worker there is one schedule.
#[test]
fn audits_with_a_gap(rt: HostRuntime) -> Result<(), Fail> {
    let alloc = rt.alloc();
    let files: [(&str, &[u8]); 1] = [("k1", FOUR)];
    let line = "knapsack sequential k1 --gap 60 --audit";
    let alone = run(alloc, line, &files, CALM)?;
    let sequential = lines(
        alloc,
        &[
            "found 50",
            "within 60",
            "items 4",
            "audit 1",
            "worker 1",
            "take /",
            "visit / 1 0",
            "visit /0 51 1",
            "cut /0/0 106 51",
            "cut /0/1 83 51",
            "cut /0/2 61 51",
            "end /0",
            "cut /1 71 51",
            "cut /2 39 51",
            "cut /3 11 51",
            "end /",
            "done",
        ],
    )?;
    expect(&rt, line, &alone, 0, &sequential, "");
    let line = "knapsack depth k1 --depth 1 --workers 1 --gap 60 --audit";
    let together = run_crew(&rt, alloc, line, &files, CALM)?;
    let by_depth = lines(
        alloc,
        &[
            "found 50",
            "within 60",
            "items 4",
            "audit 1",
            "worker 1",
            "take /",
            "visit / 1 0",
            "spawn /0",
            "spawn /1",
            "spawn /2",
            "spawn /3",
            "end /",
            "take /0",
            "visit /0 51 1",
            "cut /0/0 106 51",
            "cut /0/1 83 51",
            "cut /0/2 61 51",
            "end /0",
            "take /1",
            "cut /1 71 51",
            "take /2",
            "cut /2 39 51",
            "take /3",
            "cut /3 11 51",
            "done",
        ],
    )?;
    expect(&rt, line, &together, 0, &by_depth, "");
    Ok(())
}

// Which solution a crew writes depends on the schedule. Its value is within the gap of the best, which is 90 and 80.
#[test]
fn gaps_of_crews(rt: HostRuntime) -> Result<(), Fail> {
    let alloc = rt.alloc();
    let four = four_cities(alloc)?;
    let files: [(&str, &[u8]); 2] = [("k1", FOUR), ("t1", &four)];
    for words in [
        "depth k1 --depth 2 --workers 3",
        "budget k1 --budget 1 --workers 4",
        "steal k1 --workers 2",
        "steal k1 --chunk all --workers 8",
    ] {
        for gap in [0u64, 10, 39, 40, 54, 55, 60, 1099511627774] {
            let line = format!(in alloc; "knapsack {words} --gap {gap}")?;
            let ended = run_crew(&rt, alloc, line.as_str(), &files, CALM)?;
            let least = 90u64.saturating_sub(gap);
            assert_eq!(rt; ended.status, 0, "{line}");
            assert!(rt;
                is_within(alloc, &ended.out, "items", &SETS, least, 90, gap)?,
                "{line}"
            );
            assert!(rt; ended.err.is_empty(), "{line}");
        }
    }
    for words in [
        "depth t1 --workers 3",
        "budget t1 --budget 1 --workers 4",
        "steal t1 --workers 2",
    ] {
        for gap in [0u64, 14, 15, 1099511627774] {
            let line = format!(in alloc; "tsp {words} --gap {gap}")?;
            let ended = run_crew(&rt, alloc, line.as_str(), &files, CALM)?;
            let most = gap.saturating_add(80);
            assert_eq!(rt; ended.status, 0, "{line}");
            assert!(rt;
                is_within(alloc, &ended.out, "tour", &TOURS, 80, most, gap)?,
                "{line}"
            );
            assert!(rt; ended.err.is_empty(), "{line}");
        }
    }
    Ok(())
}

// A gap is not for tasks in order, and not beside a target.
#[test]
fn gaps_that_are_not_here(rt: HostRuntime) -> Result<(), Fail> {
    let alloc = rt.alloc();
    let files: [(&str, &[u8]); 1] = [("k1", FOUR)];
    for (line, err) in [
        ("knapsack ordered k1 --gap 1", "yew: word 4: not here\n"),
        (
            "knapsack sequential k1 --target 90 --gap 1",
            "yew: word 6: not here\n",
        ),
        (
            "knapsack sequential k1 --gap 1 --target 90",
            "yew: word 6: not here\n",
        ),
        (
            "subgraph sequential k1 k1 --gap 1",
            "yew: word 5: not here\n",
        ),
    ] {
        let alone = run(alloc, line, &files, CALM)?;
        expect(&rt, line, &alone, 1, b"", err);
        let together = run_crew(&rt, alloc, line, &files, CALM)?;
        expect(&rt, line, &together, 1, b"", err);
    }
    Ok(())
}
