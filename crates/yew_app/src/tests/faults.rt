//! Shelves and sinks that fail.

use super::{CALM, FOUR, Outside, PATH_OF_THREE, TRIANGLE, run};
use std::test::Fail;

#[test]
fn faults_of_the_outside(rt: HostRuntime) -> Result<(), Fail> {
    let alloc = rt.alloc();
    let four = Outside { most: 4, ..CALM };
    for (outside, status, out, err) in [
        (
            Outside {
                reads: &[1],
                ..CALM
            },
            2,
            "",
            "yew: k1: read fault\n",
        ),
        (
            Outside {
                reads: &[2],
                ..CALM
            },
            2,
            "",
            "yew: k1: read fault\n",
        ),
        (
            Outside {
                reads: &[3],
                ..CALM
            },
            2,
            "",
            "yew: k1: read fault\n",
        ),
        (
            Outside {
                writes: &[1],
                ..CALM
            },
            5,
            "",
            "yew: write fault\n",
        ),
        (
            Outside {
                writes: &[2],
                ..four
            },
            5,
            "best",
            "yew: write fault\n",
        ),
        (
            Outside { says: &[1], ..CALM },
            0,
            "best 90\nitems 2 4\n",
            "",
        ),
        (
            Outside {
                reads: &[3],
                says: &[1],
                ..CALM
            },
            2,
            "",
            "",
        ),
        (
            Outside {
                reads: &[3],
                says: &[3],
                ..CALM
            },
            2,
            "",
            "yew: k1",
        ),
        (four, 0, "best 90\nitems 2 4\n", ""),
    ] {
        let ended = run(alloc, "knapsack sequential k1", &[("k1", FOUR)], outside)?;
        assert_eq!(rt; ended.status, status);
        assert_eq!(rt; ended.out.as_slice(), out.as_bytes());
        assert_eq!(rt; ended.err.as_slice(), err.as_bytes());
    }
    Ok(())
}

#[test]
fn an_answer_that_breaks_off(rt: HostRuntime) -> Result<(), Fail> {
    let alloc = rt.alloc();
    let text = b"best 90\nitems 2 4\n".as_slice();
    for taken in 0..18 {
        let slow = Outside {
            most: 1,
            writes: &[taken as u64 + 1],
            ..CALM
        };
        let ended = run(alloc, "knapsack sequential k1", &[("k1", FOUR)], slow)?;
        assert_eq!(rt; ended.status, 5);
        assert_eq!(rt; ended.out.as_slice(), &text[..taken]);
    }
    let small = Outside { room: 5, ..CALM };
    let ended = run(alloc, "knapsack sequential k1", &[("k1", FOUR)], small)?;
    assert_eq!(rt; ended.status, 5);
    assert_eq!(rt; ended.out.as_slice(), b"best ".as_slice());
    let mute = Outside {
        room_to_say: 0,
        ..CALM
    };
    let ended = run(alloc, "knapsack sequential nofile", &[("k1", FOUR)], mute)?;
    assert_eq!(rt; ended.status, 2);
    assert_eq!(rt; ended.err.len(), 0);
    Ok(())
}

/// A small file is opened, read, and read to its end: three calls each, the pattern's first.
#[test]
fn faults_at_each_of_two_files(rt: HostRuntime) -> Result<(), Fail> {
    let alloc = rt.alloc();
    let files: [(&str, &[u8]); 2] = [("p", PATH_OF_THREE), ("t", TRIANGLE)];
    for (call, status, out, err) in [
        (1, 2, "", "yew: p: read fault\n"),
        (2, 2, "", "yew: p: read fault\n"),
        (3, 2, "", "yew: p: read fault\n"),
        (4, 2, "", "yew: t: read fault\n"),
        (5, 2, "", "yew: t: read fault\n"),
        (6, 2, "", "yew: t: read fault\n"),
        (7, 0, "yes\nmap 1 0 2\n", ""),
    ] {
        let fault = Outside {
            reads: &[call],
            ..CALM
        };
        let ended = run(alloc, "subgraph sequential p t", &files, fault)?;
        assert_eq!(rt; ended.status, status, "{call}");
        assert_eq!(rt; ended.out.as_slice(), out.as_bytes(), "{call}");
        assert_eq!(rt; ended.err.as_slice(), err.as_bytes(), "{call}");
    }
    Ok(())
}

#[test]
fn a_long_text_breaks_off(rt: HostRuntime) -> Result<(), Fail> {
    let alloc = rt.alloc();
    let text =
        b"0 1\n1 1\nworkers 1\ntaken 1\nspawned 0\nhanded 0\nvisited 2\ncut 0\naudit 1\nworker 1\ntake /\nvisit / 0 0\nvisit /0 0 0\nend /0\nend /\ndone\n".as_slice();
    let words = "semigroups sequential --genus 1 --report --audit";
    let ended = run(alloc, words, &[], CALM)?;
    assert_eq!(rt; ended.status, 0);
    assert_eq!(rt; ended.out.as_slice(), text);
    for room in [0, 7, 8, 40, 64, 100] {
        let small = Outside { room, ..CALM };
        let ended = run(alloc, words, &[], small)?;
        assert_eq!(rt; ended.status, 5);
        assert_eq!(rt; ended.out.len(), room);
        assert!(rt; text.starts_with(&ended.out));
        assert_eq!(rt; ended.err.as_slice(), b"yew: write fault\n".as_slice());
    }
    Ok(())
}
