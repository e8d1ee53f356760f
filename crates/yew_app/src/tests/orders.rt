//! Tours with the nearest cities first, and tours whose bound takes a least spanning tree into account.

use super::{CALM, FOUR, expect, joined, mixed, run, run_crew};
use std::alloc::Global;
use std::test::Fail;
use yew_lines::{push_line_end, push_number, push_spaced};

const UPPER_ROW_OF_FOUR: &str =
    "NAME: t\nTYPE: TSP\nDIMENSION: 4\nEDGE_WEIGHT_TYPE: EXPLICIT\nEDGE_WEIGHT_FORMAT: UPPER_ROW\nEDGE_WEIGHT_SECTION\n";

const TWO_WAYS: &[u8] =
    b"NAME: two\nTYPE: ATSP\nDIMENSION: 2\nEDGE_WEIGHT_TYPE: EXPLICIT\nEDGE_WEIGHT_FORMAT: FULL_MATRIX\nEDGE_WEIGHT_SECTION\n0 3\n4 0\nEOF\n";

/// Every way to search, but for what stands behind the file.
const SKELETONS: [(&str, &str); 6] = [
    ("sequential", ""),
    ("depth", " --depth 1 --workers 2"),
    ("budget", " --budget 3 --workers 3"),
    ("steal", " --workers 2"),
    ("steal", " --chunk all --workers 3"),
    ("ordered", " --depth 2 --workers 3"),
];

/// Of t8 the two shortest tours are one and its way back: 15 + 25 + 30 + 10. From city 1 the nearest is city 3. Of t9 the tour in the
/// order of the cities has 1 + 10 + 1 + 10. A least spanning tree of its four cities weighs 12, so that a list that begins with 1 3
/// or 1 4 has at least 10 + 12. The weights of t7 differ by their direction, and no bound takes a tree into account.
#[test]
fn worked_orders(rt: HostRuntime) -> Result<(), Fail> {
    let alloc = rt.alloc();
    let t8 = joined(alloc, &[UPPER_ROW_OF_FOUR, "15 10 20\n35 30\n25\nEOF\n"])?;
    let t9 = joined(alloc, &[UPPER_ROW_OF_FOUR, "1 10 10\n10 10\n1\nEOF\n"])?;
    let files: [(&str, &[u8]); 4] = [("t8", &t8), ("t9", &t9), ("t7", TWO_WAYS), ("k1", FOUR)];
    for (line, out) in [
        ("tsp sequential t8", "best 80\ntour 1 2 4 3\n"),
        ("tsp sequential t8 --near", "best 80\ntour 1 3 4 2\n"),
        (
            "tsp ordered t8 --near --workers 4",
            "best 80\ntour 1 3 4 2\n",
        ),
        (
            "tsp sequential t9 --report",
            "best 22\ntour 1 2 3 4\nworkers 1\ntaken 1\nspawned 0\nhanded 0\nvisited 10\ncut 4\n",
        ),
        (
            "tsp sequential t9 --span --report",
            "best 22\ntour 1 2 3 4\nworkers 1\ntaken 1\nspawned 0\nhanded 0\nvisited 4\ncut 3\n",
        ),
        (
            "tsp sequential t7 --span --audit",
            "best 7\ntour 1 2\naudit 1\nworker 1\ntake /\nvisit / 0 0\nvisit /0 137438953465 0\nend /0\nend /\ndone\n",
        ),
    ] {
        let ended = run_crew(&rt, alloc, line, &files, CALM)?;
        expect(&rt, line, &ended, 0, out.as_bytes(), "");
        if line != "tsp ordered t8 --near --workers 4" {
            let alone = run(alloc, line, &files, CALM)?;
            expect(&rt, line, &alone, 0, out.as_bytes(), "");
        }
    }
    let line = "knapsack sequential k1 --near";
    let ended = run_crew(&rt, alloc, line, &files, CALM)?;
    expect(&rt, line, &ended, 1, b"", "yew: word 4: not here\n");
    Ok(())
}

/// A file of so many cities, whose weights are below a dozen, and are the same in both directions where that is asked for.
fn drawn_cities(alloc: Global, seed: u64, cities: u64, alike: bool) -> Result<Vec<u8>, Fail> {
    let mut file = Vec::from_slice(alloc, b"TYPE: ATSP\nDIMENSION: ")?;
    push_number(&mut file, cities)?;
    file.extend_from_slice(
        b"\nEDGE_WEIGHT_TYPE: EXPLICIT\nEDGE_WEIGHT_FORMAT: FULL_MATRIX\nEDGE_WEIGHT_SECTION\n",
    )?;
    for from in 1..cities.saturating_add(1) {
        for to in 1..cities.saturating_add(1) {
            let weight = if alike {
                mixed(seed, from.min(to), from.max(to))
            } else {
                mixed(seed, from, to)
            };
            push_spaced(&mut file, weight % 12)?;
        }
        push_line_end(&mut file)?;
    }
    Ok(file)
}

fn first_line(alloc: Global, text: &[u8]) -> Result<Vec<u8>, Fail> {
    let mut line = Vec::new(alloc);
    for byte in text {
        if *byte == b'\n' {
            break;
        }
        line.push(*byte)?;
    }
    Ok(line)
}

/// Whichever way they are searched, the least length of tours is the same.
#[test]
fn one_least_length(rt: HostRuntime) -> Result<(), Fail> {
    let alloc = rt.alloc();
    for (seed, cities, alike) in [
        (1u64, 5u64, true),
        (2, 6, false),
        (3, 7, true),
        (4, 7, false),
    ] {
        let file = drawn_cities(alloc, seed, cities, alike)?;
        let files: [(&str, &[u8]); 1] = [("t", &file)];
        let plain = run(alloc, "tsp sequential t", &files, CALM)?;
        assert_eq!(rt; plain.status, 0, "{seed}");
        let least = first_line(alloc, &plain.out)?;
        for (skeleton, rest) in SKELETONS {
            for flags in ["", " --near", " --span", " --near --span"] {
                let line = format!(in alloc; "tsp {skeleton} t{rest}{flags}")?;
                let ended = run_crew(&rt, alloc, line.as_str(), &files, CALM)?;
                assert_eq!(rt; ended.status, 0, "{line} {seed}");
                let found = first_line(alloc, &ended.out)?;
                assert_eq!(rt; found.as_slice(), least.as_slice(), "{line} {seed}");
                assert!(rt; ended.err.is_empty(), "{line} {seed}");
            }
        }
    }
    Ok(())
}

/// With both flags, tasks that are claimed in order find what one worker finds, and a gap is kept.
#[test]
fn both_flags(rt: HostRuntime) -> Result<(), Fail> {
    let alloc = rt.alloc();
    for seed in 0..6u64 {
        let file = drawn_cities(alloc, seed, 7, true)?;
        let files: [(&str, &[u8]); 1] = [("t", &file)];
        let wanted = run(alloc, "tsp sequential t --near --span", &files, CALM)?;
        assert_eq!(rt; wanted.status, 0, "{seed}");
        let line = "tsp ordered t --span --near --workers 3";
        let ordered = run_crew(&rt, alloc, line, &files, CALM)?;
        assert_eq!(rt; ordered.status, 0, "{seed}");
        assert_eq!(rt; ordered.out.as_slice(), wanted.out.as_slice(), "{seed}");
        let line = "tsp sequential t --near --span --gap 0";
        let within = run(alloc, line, &files, CALM)?;
        assert_eq!(rt; within.status, 0, "{seed}");
        assert!(rt; within.out.starts_with(b"found "), "{seed}");
    }
    Ok(())
}
