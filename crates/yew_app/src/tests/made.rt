//! Instances that are made, and their solutions.

use super::{CALM, run};
use std::test::Fail;
use yew_make::make_text;
use yew_words::Made;

/// The numbers of the made texts were computed apart from this program.
#[test]
fn made_texts(rt: HostRuntime) -> Result<(), Fail> {
    let alloc = rt.alloc();
    for (words, status, out, err) in [
        (
            "make knapsack --seed 42 --size 2",
            0,
            "2 527\n784 98\n825 956\n",
            "",
        ),
        (
            "make knapsack --size 3 --seed 18446744073709551615",
            0,
            "3 767\n832 299\n227 770\n609 465\n",
            "",
        ),
        (
            "make tsp --seed 42 --size 3",
            0,
            "NAME: made\nTYPE: TSP\nDIMENSION: 3\nEDGE_WEIGHT_TYPE: EXPLICIT\nEDGE_WEIGHT_FORMAT: UPPER_ROW\nEDGE_WEIGHT_SECTION\n784 98\n825\nEOF\n",
            "",
        ),
        (
            "make knapsack --seed 42 --size 2 --solve",
            0,
            "made knapsack 2 42\nbest 784\nvisited 2\ncut 0\n",
            "",
        ),
        (
            "make tsp --solve --seed 42 --size 3",
            0,
            "made tsp 3 42\nbest 1707\nvisited 4\ncut 1\n",
            "",
        ),
        (
            "make lad --seed 42 --size 8",
            0,
            "8\n1 3\n1 4\n0\n2 0 6\n1 1\n0\n2 3 7\n1 6\n",
            "",
        ),
        ("make lad --seed 42 --size 0", 0, "0\n", ""),
        (
            "make knapsack --seed 42 --size 257",
            1,
            "",
            "yew: word 6: out of range\n",
        ),
        (
            "make lad --seed 42 --size 8 --audit",
            1,
            "",
            "yew: word 7: not here\n",
        ),
    ] {
        let ended = run(alloc, words, &[], CALM)?;
        assert_eq!(rt; ended.status, status, "{words}");
        assert_eq!(rt; ended.out.as_slice(), out.as_bytes(), "{words}");
        assert_eq!(rt; ended.err.as_slice(), err.as_bytes(), "{words}");
    }
    Ok(())
}

#[test]
fn made_texts_are_files(rt: HostRuntime) -> Result<(), Fail> {
    let alloc = rt.alloc();
    let small = run(alloc, "make lad --seed 42 --size 8", &[], CALM)?;
    for (words, made, seed, size, job, start) in [
        (
            "make knapsack --seed 42 --size 1",
            Made::Knapsack,
            42,
            1,
            "knapsack sequential f",
            "best ",
        ),
        (
            "make knapsack --seed 7 --size 20",
            Made::Knapsack,
            7,
            20,
            "knapsack sequential f",
            "best ",
        ),
        (
            "make tsp --seed 42 --size 3",
            Made::Tsp,
            42,
            3,
            "tsp sequential f",
            "best 1707\ntour 1 2 3\n",
        ),
        (
            "make tsp --seed 9 --size 8",
            Made::Tsp,
            9,
            8,
            "tsp sequential f",
            "best ",
        ),
        (
            "make lad --seed 42 --size 8",
            Made::Lad,
            42,
            8,
            "subgraph sequential f f",
            "yes\nmap",
        ),
        (
            "make lad --seed 5 --size 60",
            Made::Lad,
            5,
            60,
            "subgraph sequential small f",
            "",
        ),
    ] {
        let made_text = run(alloc, words, &[], CALM)?;
        let wanted = make_text(alloc, made, seed, size)?;
        assert_eq!(rt; made_text.status, 0, "{words}");
        assert_eq!(rt; made_text.out.as_slice(), wanted.as_slice(), "{words}");
        let files: [(&str, &[u8]); 2] = [("f", &made_text.out), ("small", &small.out)];
        let ended = run(alloc, job, &files, CALM)?;
        assert_eq!(rt; ended.status, 0, "{words}");
        assert!(rt; ended.out.starts_with(start.as_bytes()), "{words}");
        assert!(rt; ended.err.is_empty(), "{words}");
    }
    Ok(())
}
