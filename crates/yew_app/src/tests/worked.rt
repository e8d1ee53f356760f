//! Worked runs by any number of workers: what is written is the same in every schedule.

use super::vectors::{TEN, equal_items, four_cities, four_cities_in};
use super::{
    CALM, FOUR, FOUR_CYCLE, PATH_OF_THREE, TRIANGLE, expect, lines, run, run_crew, spelled,
};
use std::alloc::Global;
use std::process::Abort;
use std::sync::Wait;
use std::test::Fail;
use std::thread::Threads;
use yew_lines::{push_line_end, push_spaced};

/// A line of words, its status, and what is written to the sinks of the answer and of the refusal.
type Run = (&'static str, u8, &'static str, &'static str);

/// Checks what is left by runs by one worker alone and by a crew.
fn by_one_worker<R: Abort + Threads + Wait + Sync>(
    rt: &R,
    alloc: Global,
    files: &[(&str, &[u8])],
    runs: &[Run],
) -> Result<(), Fail> {
    for (line, status, out, err) in runs {
        let alone = run(alloc, line, files, CALM)?;
        expect(rt, line, &alone, *status, out.as_bytes(), err);
        let together = run_crew(rt, alloc, line, files, CALM)?;
        expect(rt, line, &together, *status, out.as_bytes(), err);
    }
    Ok(())
}

// Words that a crew refuses as one worker does, and searches by one worker.
#[test]
fn one_worker_of_a_crew(rt: HostRuntime) -> Result<(), Fail> {
    let alloc = rt.alloc();
    let upper = four_cities_in(alloc, "UPPER_ROW", &["10 15", "20 35 25 30"])?;
    let lower = four_cities_in(alloc, "LOWER_ROW", &["10", "15 35", "20 25 30"])?;
    let diagonal = four_cities_in(
        alloc,
        "LOWER_DIAG_ROW",
        &["0", "10 0", "15 35 0", "20 25 30 0"],
    )?;
    let shown = lines(
        alloc,
        &[
            "NAME : four",
            "TYPE : TSP (made by hand)",
            "COMMENT : four cities",
            "DIMENSION : 4",
            "EDGE_WEIGHT_TYPE : EXPLICIT",
            "EDGE_WEIGHT_FORMAT : UPPER_DIAG_ROW",
            "DISPLAY_DATA_TYPE : TWOD_DISPLAY",
            "EDGE_WEIGHT_SECTION",
            "0 10 15 20",
            "0 35 25 0 30",
            "0",
            "DISPLAY_DATA_SECTION",
            "1 1.5 2.0",
            "2 3.0 2.5",
            "3 0.0 0.5",
            "4 4.5 4.0",
            "EOF",
        ],
    )?;
    let short = four_cities_in(alloc, "UPPER_ROW", &["10 15 20", "35 25"])?;
    let whole = four_cities(alloc, 0, &[])?;
    let many = equal_items(alloc, 257, 5, 1)?;
    let files: [(&str, &[u8]); 20] = [
        ("four", FOUR),
        ("no_items", b"0 5\n"),
        ("weightless", b"2 0\n7 3\n5 0\n"),
        ("equal", b"5 10\n10 5\n40 4\n30 6\n50 3\n40 4\n"),
        ("ten", TEN),
        ("empty", b""),
        ("surplus", b"4 10\n10 5\n40 4\n30 6\n50 3\n1\n"),
        ("letters", b"4 10\n10 5\n40 4\n30 6\n50 x5\n"),
        ("many", &many),
        ("cities", &whole),
        ("upper", &upper),
        ("lower", &lower),
        ("diagonal", &diagonal),
        ("shown", &shown),
        ("short", &short),
        ("triangle", TRIANGLE),
        ("cycle", FOUR_CYCLE),
        ("path", PATH_OF_THREE),
        ("none", b"0\n"),
        ("loop", b"1\n1 0\n"),
    ];
    let runs: [Run; 32] = [
        ("knapsack sequential four", 0, "best 90\nitems 2 4\n", ""),
        ("knapsack sequential no_items", 0, "best 0\nitems\n", ""),
        ("knapsack sequential weightless", 0, "best 5\nitems 2\n", ""),
        ("knapsack sequential equal", 0, "best 90\nitems 2 4\n", ""),
        (
            "knapsack sequential ten",
            0,
            "best 309\nitems 1 2 3 4 6\n",
            "",
        ),
        (
            "knapsack sequential four --target 90",
            0,
            "yes\nitems 2 4\n",
            "",
        ),
        ("knapsack sequential four --target 91", 0, "no\n", ""),
        (
            "knapsack sequential many",
            4,
            "",
            "yew: many: 257 is past 256\n",
        ),
        (
            "knapsack sequential empty",
            3,
            "",
            "yew: empty: line 1: ends early\n",
        ),
        (
            "knapsack sequential surplus",
            3,
            "",
            "yew: surplus: line 6: surplus\n",
        ),
        (
            "knapsack sequential letters",
            3,
            "",
            "yew: letters: line 5: not a number\n",
        ),
        (
            "knapsack sequential nofile",
            2,
            "",
            "yew: nofile: read fault\n",
        ),
        ("tsp sequential cities", 0, "best 80\ntour 1 2 4 3\n", ""),
        ("tsp sequential upper", 0, "best 80\ntour 1 2 4 3\n", ""),
        ("tsp sequential lower", 0, "best 80\ntour 1 2 4 3\n", ""),
        ("tsp sequential diagonal", 0, "best 80\ntour 1 2 4 3\n", ""),
        ("tsp sequential shown", 0, "best 80\ntour 1 2 4 3\n", ""),
        (
            "tsp sequential short",
            3,
            "",
            "yew: short: line 9: ends early\n",
        ),
        ("subgraph sequential triangle cycle", 0, "no\n", ""),
        ("subgraph sequential loop triangle", 0, "no\n", ""),
        (
            "subgraph sequential path triangle",
            0,
            "yes\nmap 1 0 2\n",
            "",
        ),
        ("subgraph sequential none cycle", 0, "yes\nmap\n", ""),
        ("semigroups sequential --genus 0", 0, "0 1\n", ""),
        (
            "semigroups sequential --genus 10",
            0,
            "0 1\n1 1\n2 2\n3 4\n4 7\n5 12\n6 23\n7 39\n8 67\n9 118\n10 204\n",
            "",
        ),
        (
            "knapsack depth four --workers 0",
            1,
            "",
            "yew: word 5: out of range\n",
        ),
        (
            "knapsack depth four --workers 07",
            1,
            "",
            "yew: word 5: not a number\n",
        ),
        (
            "knapsack depth four --depth 2 --depth 3",
            1,
            "",
            "yew: word 6: repeated\n",
        ),
        ("clique sequential four", 1, "", "yew: word 1: unknown\n"),
        ("knapsack sequential", 1, "", "yew: word 3: missing\n"),
        (
            "knapsack sequential four --workers 2",
            1,
            "",
            "yew: word 4: not here\n",
        ),
        (
            "make knapsack --seed 42 --size 2",
            0,
            "2 527\n784 98\n825 956\n",
            "",
        ),
        (
            "make knapsack --seed 42 --size 2 --solve",
            0,
            "made knapsack 2 42\nbest 784\nvisited 2\ncut 0\n",
            "",
        ),
    ];
    by_one_worker(&rt, alloc, &files, &runs)
}

// Each best set and each map here is the only one, so that each skeleton writes it.
#[test]
fn answers_of_crews(rt: HostRuntime) -> Result<(), Fail> {
    let alloc = rt.alloc();
    let files: [(&str, &[u8]); 7] = [
        ("four", FOUR),
        ("none", b"0 5\n"),
        ("weightless", b"2 0\n7 3\n5 0\n"),
        ("ten", TEN),
        ("triangle", TRIANGLE),
        ("cycle", FOUR_CYCLE),
        ("empty", b"0\n"),
    ];
    for (job, rest, out) in [
        ("knapsack ", " four", "best 90\nitems 2 4\n"),
        ("knapsack ", " none", "best 0\nitems\n"),
        ("knapsack ", " weightless", "best 5\nitems 2\n"),
        (
            "knapsack ",
            " ten --workers 4",
            "best 309\nitems 1 2 3 4 6\n",
        ),
        (
            "knapsack ",
            " ten --workers 64",
            "best 309\nitems 1 2 3 4 6\n",
        ),
        ("knapsack ", " four --target 90", "yes\nitems 2 4\n"),
        ("knapsack ", " four --target 91", "no\n"),
        ("subgraph ", " triangle cycle", "no\n"),
        ("subgraph ", " empty cycle", "yes\nmap\n"),
        ("semigroups ", " --genus 0 --workers 1", "0 1\n"),
        (
            "semigroups ",
            " --genus 10",
            "0 1\n1 1\n2 2\n3 4\n4 7\n5 12\n6 23\n7 39\n8 67\n9 118\n10 204\n",
        ),
    ] {
        for skeleton in ["depth", "budget", "steal"] {
            let line = spelled(alloc, &[job, skeleton, rest])?;
            let ended = run_crew(&rt, alloc, line.as_str(), &files, CALM)?;
            expect(&rt, line.as_str(), &ended, 0, out.as_bytes(), "");
            let alone = run(alloc, line.as_str(), &files, CALM)?;
            expect(
                &rt,
                line.as_str(),
                &alone,
                1,
                b"",
                "yew: word 2: not here\n",
            );
        }
    }
    Ok(())
}

// The greatest profit that 256 items can have, by each skeleton that has no order.
#[test]
fn crews_fill_the_greatest_knapsack(rt: HostRuntime) -> Result<(), Fail> {
    let alloc = rt.alloc();
    let greatest = equal_items(alloc, 256, 256, 2147483647)?;
    let mut answer = Vec::from_slice(alloc, b"best 549755813632\nitems")?;
    for number in 1..257 {
        push_spaced(&mut answer, number)?;
    }
    push_line_end(&mut answer)?;
    for line in [
        "knapsack sequential k",
        "knapsack depth k",
        "knapsack budget k",
        "knapsack steal k",
    ] {
        let ended = run_crew(&rt, alloc, line, &[("k", &greatest)], CALM)?;
        expect(&rt, line, &ended, 0, &answer, "");
    }
    Ok(())
}

// A tour has the length of its way back, so there are two shortest ones.
#[test]
fn crews_find_a_shortest_tour(rt: HostRuntime) -> Result<(), Fail> {
    let alloc = rt.alloc();
    let cities = four_cities(alloc, 0, &[])?;
    for line in [
        "tsp depth t",
        "tsp depth t --depth 1 --workers 2",
        "tsp budget t --budget 1",
        "tsp steal t",
        "tsp steal t --chunk all --workers 8",
    ] {
        for _round in 0..20 {
            let ended = run_crew(&rt, alloc, line, &[("t", &cities)], CALM)?;
            assert_eq!(rt; ended.status, 0, "{line}");
            assert!(rt; ended.err.is_empty(), "{line}");
            let out = ended.out.as_slice();
            assert!(rt;
                out == b"best 80\ntour 1 2 4 3\n".as_slice()
                    || out == b"best 80\ntour 1 3 4 2\n".as_slice(),
                "{line}"
            );
        }
    }
    Ok(())
}

// A file of 2^24 bytes and one more, by a crew.
#[test]
fn a_file_is_too_long(rt: HostRuntime) -> Result<(), Fail> {
    let alloc = rt.alloc();
    let long = vec![in alloc; b' '; (1 << 24) + 1]?;
    let line = "knapsack steal f";
    let ended = run_crew(&rt, alloc, line, &[("f", &long)], CALM)?;
    expect(
        &rt,
        line,
        &ended,
        4,
        b"",
        "yew: f: longer than 16777216 bytes\n",
    );
    Ok(())
}
