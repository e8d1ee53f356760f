//! Audits of one worker, which are the same in every run, and audits that are full.

use super::vectors::two_halves;
use super::{CALM, FOUR, TRIANGLE, expect, lines, run, run_crew};
use std::test::Fail;

// The same search in preorder, by one worker alone and by a crew. The worth of a tour is 2^37 less its length, here 7.
#[test]
fn audits_in_preorder(rt: HostRuntime) -> Result<(), Fail> {
    let alloc = rt.alloc();
    let two = lines(
        alloc,
        &[
            "NAME: two",
            "TYPE: ATSP",
            "DIMENSION: 2",
            "EDGE_WEIGHT_TYPE: EXPLICIT",
            "EDGE_WEIGHT_FORMAT: FULL_MATRIX",
            "EDGE_WEIGHT_SECTION",
            "0 3",
            "4 0",
            "EOF",
        ],
    )?;
    let files: [(&str, &[u8]); 3] = [("four", FOUR), ("one", b"1 5\n3 2\n"), ("two", &two)];
    for (line, out) in [
        (
            "knapsack sequential one --audit",
            lines(
                alloc,
                &[
                    "best 3",
                    "items 1",
                    "audit 1",
                    "worker 1",
                    "take /",
                    "visit / 1 0",
                    "visit /0 4 1",
                    "end /0",
                    "end /",
                    "done",
                ],
            )?,
        ),
        (
            "knapsack sequential four --audit",
            lines(
                alloc,
                &[
                    "best 90",
                    "items 2 4",
                    "audit 1",
                    "worker 1",
                    "take /",
                    "visit / 1 0",
                    "visit /0 51 1",
                    "visit /0/0 91 51",
                    "end /0/0",
                    "cut /0/1 83 91",
                    "cut /0/2 61 91",
                    "end /0",
                    "cut /1 71 91",
                    "cut /2 39 91",
                    "cut /3 11 91",
                    "end /",
                    "done",
                ],
            )?,
        ),
        (
            "tsp sequential two --audit",
            lines(
                alloc,
                &[
                    "best 7",
                    "tour 1 2",
                    "audit 1",
                    "worker 1",
                    "take /",
                    "visit / 0 0",
                    "visit /0 137438953465 0",
                    "end /0",
                    "end /",
                    "done",
                ],
            )?,
        ),
    ] {
        let alone = run(alloc, line, &files, CALM)?;
        expect(&rt, line, &alone, 0, &out, "");
        let together = run_crew(&rt, alloc, line, &files, CALM)?;
        expect(&rt, line, &together, 0, &out, "");
    }
    Ok(())
}

// With one worker there is one schedule. By depth 1 the root's child is a task; by budget 1 the second child of that is
// one, after the first has ended.
#[test]
fn audits_of_one_worker(rt: HostRuntime) -> Result<(), Fail> {
    let alloc = rt.alloc();
    for (line, out) in [
        (
            "semigroups budget --genus 2 --budget 1 --workers 1 --audit",
            lines(
                alloc,
                &[
                    "0 1",
                    "1 1",
                    "2 2",
                    "audit 1",
                    "worker 1",
                    "take /",
                    "visit / 0 0",
                    "visit /0 0 0",
                    "visit /0/0 0 0",
                    "end /0/0",
                    "spawn /0/1",
                    "end /0",
                    "end /",
                    "take /0/1",
                    "visit /0/1 0 0",
                    "end /0/1",
                    "done",
                ],
            )?,
        ),
        (
            "semigroups depth --genus 2 --depth 1 --workers 1 --audit",
            lines(
                alloc,
                &[
                    "0 1",
                    "1 1",
                    "2 2",
                    "audit 1",
                    "worker 1",
                    "take /",
                    "visit / 0 0",
                    "spawn /0",
                    "end /",
                    "take /0",
                    "visit /0 0 0",
                    "visit /0/0 0 0",
                    "end /0/0",
                    "visit /0/1 0 0",
                    "end /0/1",
                    "end /0",
                    "done",
                ],
            )?,
        ),
        (
            "semigroups steal --genus 2 --workers 1 --report --audit",
            lines(
                alloc,
                &[
                    "0 1",
                    "1 1",
                    "2 2",
                    "workers 1",
                    "taken 1",
                    "spawned 0",
                    "handed 0",
                    "visited 4",
                    "cut 0",
                    "audit 1",
                    "worker 1",
                    "take /",
                    "visit / 0 0",
                    "visit /0 0 0",
                    "visit /0/0 0 0",
                    "end /0/0",
                    "visit /0/1 0 0",
                    "end /0/1",
                    "end /0",
                    "end /",
                    "done",
                ],
            )?,
        ),
    ] {
        let ended = run_crew(&rt, alloc, line, &[], CALM)?;
        expect(&rt, line, &ended, 0, &out, "");
    }
    Ok(())
}

// The log of the one worker is full below the child of number 510: each child of the root has 514 entries, with 1026
// numbers in their paths, and the root has two entries before them.
#[test]
fn an_audit_of_two_halves_is_full(rt: HostRuntime) -> Result<(), Fail> {
    let alloc = rt.alloc();
    let halves = two_halves(alloc)?;
    let files: [(&str, &[u8]); 2] = [("g1", TRIANGLE), ("g7", &halves)];
    let line = "subgraph sequential g1 g7 --audit";
    let full = "yew: worker 1: audit full at 262144 entries and 523263 numbers\n";
    let ended = run_crew(&rt, alloc, line, &files, CALM)?;
    expect(&rt, line, &ended, 4, b"", full);
    Ok(())
}
