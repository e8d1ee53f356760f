//! Runs whose tasks are claimed in order write what one worker in preorder writes.

use super::{CALM, Ended, FOUR, FOUR_CITIES, PATH_OF_THREE, TRIANGLE, joined, run};
use crate::run as run_crew;
use std::alloc::Global;
use std::sync::Wait;
use std::test::Fail;
use std::thread::Threads;
use yew_io::{MemoryShelf, MemorySink, OpenGate};

/// Five items, of which the second and the last are equal.
const EQUAL: &[u8] = b"5 10\n10 5\n40 4\n30 6\n50 3\n40 4\n";

const ELEVEN: &[u8] =
    b"10 165\n92 23\n57 31\n49 29\n68 44\n60 53\n43 38\n67 63\n84 85\n87 89\n72 82\n";

/// The run of a crew.
fn run_in_threads<H: Threads + Wait + Sync>(
    rt: &H,
    alloc: Global,
    words: &str,
    files: &[(&str, &[u8])],
) -> Result<Ended, Fail> {
    let mut list = Vec::new(alloc);
    for word in words.split(' ') {
        list.push(String::from_str(alloc, word)?)?;
    }
    let mut pairs = Vec::new(alloc);
    for (name, bytes) in files {
        pairs.push((String::from_str(alloc, name)?, bytes.to_vec(alloc)?))?;
    }
    let mut shelf = MemoryShelf::new(pairs, Vec::new(alloc));
    let mut out = MemorySink::new(alloc, 1 << 16, 1 << 20, Vec::new(alloc))?;
    let mut err = MemorySink::new(alloc, 1 << 12, 1 << 12, Vec::new(alloc))?;
    let status = run_crew(rt, alloc, &list, &mut shelf, &mut out, &mut err, &OpenGate);
    Ok(Ended {
        status,
        out: out.written().to_vec(alloc)?,
        err: err.written().to_vec(alloc)?,
    })
}

/// Items 2 and 5 are equal, and the first best set has item 2.
#[test]
fn equal_items_in_order(rt: HostRuntime) -> Result<(), Fail> {
    let alloc = rt.alloc();
    let files: [(&str, &[u8]); 2] = [("k4", EQUAL), ("k7", ELEVEN)];
    for (words, out) in [
        ("knapsack ordered k4 --workers 8", "best 90\nitems 2 4\n"),
        (
            "knapsack ordered k7 --workers 4",
            "best 309\nitems 1 2 3 4 6\n",
        ),
    ] {
        let ended = run_in_threads(&rt, alloc, words, &files)?;
        assert_eq!(rt; ended.status, 0, "{words}");
        assert_eq!(rt; ended.out.as_slice(), out.as_bytes(), "{words}");
        assert!(rt; ended.err.is_empty(), "{words}");
    }
    Ok(())
}

#[test]
fn the_bytes_of_one_worker(rt: HostRuntime) -> Result<(), Fail> {
    let alloc = rt.alloc();
    let four = joined(
        alloc,
        &[
            FOUR_CITIES,
            "0 10 15 20\n10 0 35 25\n15 35 0 30\n20 25 30 0\nEOF\n",
        ],
    )?;
    let files: [(&str, &[u8]); 6] = [
        ("k1", FOUR),
        ("k4", EQUAL),
        ("k7", ELEVEN),
        ("t1", &four),
        ("path", PATH_OF_THREE),
        ("triangle", TRIANGLE),
    ];
    for (job, rest) in [
        ("knapsack", "k1"),
        ("knapsack", "k4"),
        ("knapsack", "k7"),
        ("knapsack", "k1 --target 90"),
        ("knapsack", "k1 --target 91"),
        ("tsp", "t1"),
        ("subgraph", "path triangle"),
        ("semigroups", "--genus 10"),
    ] {
        let alone = format!(in alloc; "{job} sequential {rest}")?;
        let wanted = run(alloc, alone.as_str(), &files, CALM)?;
        assert_eq!(rt; wanted.status, 0, "{alone}");
        for (depth, workers) in [(1u32, 1u32), (1, 4), (2, 2), (3, 8), (9, 3)] {
            let words = format!(in alloc;
                "{job} ordered {rest} --depth {depth} --workers {workers}"
            )?;
            let ended = run_in_threads(&rt, alloc, words.as_str(), &files)?;
            assert_eq!(rt; ended.status, 0, "{words}");
            assert_eq!(rt; ended.out.as_slice(), wanted.out.as_slice(), "{words}");
            assert!(rt; ended.err.is_empty(), "{words}");
        }
    }
    Ok(())
}

/// One worker, whose tasks are the four children of the root. The root has number 0.
#[test]
fn the_audit_of_tasks_in_order(rt: HostRuntime) -> Result<(), Fail> {
    let alloc = rt.alloc();
    let files: [(&str, &[u8]); 1] = [("k1", FOUR)];
    let words = "knapsack ordered k1 --workers 1 --depth 1 --audit";
    let ended = run_in_threads(&rt, alloc, words, &files)?;
    let text =
        "best 90\nitems 2 4\naudit 1\nworker 1\ntake /\nvisit / 1 0\nspawn /0\nspawn /1\nspawn /2\nspawn /3\nend /\n";
    assert_eq!(rt; ended.status, 0);
    assert!(rt; ended.out.starts_with(text.as_bytes()));
    assert!(rt; ended.out.ends_with(b"done\n"));
    Ok(())
}

#[test]
fn too_many_tasks(rt: HostRuntime) -> Result<(), Fail> {
    let alloc = rt.alloc();
    let words = "semigroups ordered --genus 28 --depth 28";
    let ended = run_in_threads(&rt, alloc, words, &[])?;
    assert_eq!(rt; ended.status, 4);
    assert!(rt; ended.out.is_empty());
    assert_eq!(rt;
        ended.err.as_slice(),
        b"yew: task number 1048576 is past the limit\n".as_slice()
    );
    Ok(())
}
