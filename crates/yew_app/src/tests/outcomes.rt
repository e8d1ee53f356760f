//! What is answered, and what is refused and how.

use super::{CALM, FOUR, run};
use std::test::Fail;
use yew_lines::{push_line_end, push_number, push_spaced};

#[test]
fn answers_and_refusals(rt: HostRuntime) -> Result<(), Fail> {
    let alloc = rt.alloc();
    let files: [(&str, &[u8]); 8] = [
        ("k1", FOUR),
        ("k4", b"5 10\n10 5\n40 4\n30 6\n50 3\n40 4\n".as_slice()),
        ("k2", b"0 5\n".as_slice()),
        ("k3", b"2 0\n7 3\n5 0\n".as_slice()),
        (
            "k7",
            b"10 165\n92 23\n57 31\n49 29\n68 44\n60 53\n43 38\n67 63\n84 85\n87 89\n72 82\n".as_slice(),
        ),
        ("empty", b"".as_slice()),
        ("surplus", b"4 10\n10 5\n40 4\n30 6\n50 3\n1\n".as_slice()),
        ("letters", b"4 10\n10 5\n40 4\n30 6\n50 x5\n".as_slice()),
    ];
    for (words, status, out, err) in [
        ("knapsack sequential k1", 0, "best 90\nitems 2 4\n", ""),
        ("knapsack sequential k2", 0, "best 0\nitems\n", ""),
        ("knapsack sequential k3", 0, "best 5\nitems 2\n", ""),
        ("knapsack sequential k4", 0, "best 90\nitems 2 4\n", ""),
        (
            "knapsack sequential k7",
            0,
            "best 309\nitems 1 2 3 4 6\n",
            "",
        ),
        (
            "knapsack sequential k1 --target 90",
            0,
            "yes\nitems 2 4\n",
            "",
        ),
        ("knapsack sequential k1 --target 91", 0, "no\n", ""),
        ("knapsack sequential k2 --target 0", 0, "yes\nitems\n", ""),
        (
            "knapsack sequential k1 --target 1099511627774",
            0,
            "no\n",
            "",
        ),
        (
            "knapsack sequential empty",
            3,
            "",
            "yew: empty: line 1: ends early\n",
        ),
        (
            "knapsack sequential surplus",
            3,
            "",
            "yew: surplus: line 6: surplus\n",
        ),
        (
            "knapsack sequential letters",
            3,
            "",
            "yew: letters: line 5: not a number\n",
        ),
        (
            "knapsack sequential nofile",
            2,
            "",
            "yew: nofile: read fault\n",
        ),
        (
            "knapsack depth k1 --workers 0",
            1,
            "",
            "yew: word 5: out of range\n",
        ),
        (
            "knapsack depth k1 --workers 07",
            1,
            "",
            "yew: word 5: not a number\n",
        ),
        (
            "knapsack depth k1 --depth 2 --depth 3",
            1,
            "",
            "yew: word 6: repeated\n",
        ),
        ("clique sequential k1", 1, "", "yew: word 1: unknown\n"),
        ("knapsack sequential", 1, "", "yew: word 3: missing\n"),
        (
            "knapsack sequential -k1",
            1,
            "",
            "yew: word 3: not a file name\n",
        ),
        (
            "knapsack sequential k1 --workers 2",
            1,
            "",
            "yew: word 4: not here\n",
        ),
        ("knapsack steal k1", 1, "", "yew: word 2: not here\n"),
        ("", 1, "", "yew: word 1: missing\n"),
        (
            "knapsack sequential k1 --report --report",
            1,
            "",
            "yew: word 5: repeated\n",
        ),
        ("tsp sequential k1", 3, "", "yew: k1: line 1: bad line\n"),
        (
            "make knapsack --seed 1 --size 3 --solve --report",
            1,
            "",
            "yew: word 8: not here\n",
        ),
        (
            "make tsp --solve --seed 1 --audit --size 3",
            1,
            "",
            "yew: word 6: not here\n",
        ),
        (
            "make lad --seed 1 --solve --size 3",
            1,
            "",
            "yew: word 5: not here\n",
        ),
        ("semigroups sequential --genus 0", 0, "0 1\n", ""),
        (
            "semigroups sequential --genus 10",
            0,
            "0 1\n1 1\n2 2\n3 4\n4 7\n5 12\n6 23\n7 39\n8 67\n9 118\n10 204\n",
            "",
        ),
        (
            "semigroups sequential --genus 41",
            1,
            "",
            "yew: word 4: out of range\n",
        ),
    ] {
        let ended = run(alloc, words, &files, CALM)?;
        assert_eq!(rt; ended.status, status, "{words}");
        assert_eq!(rt; ended.out.as_slice(), out.as_bytes(), "{words}");
        assert_eq!(rt; ended.err.as_slice(), err.as_bytes(), "{words}");
    }
    Ok(())
}

#[test]
fn files_that_are_not_in_their_grammar(rt: HostRuntime) -> Result<(), Fail> {
    let alloc = rt.alloc();
    for (file, status, out, err) in [
        (&FOUR[..24], 0, "best 90\nitems 2 4\n", ""),
        (
            b"4 10\r\n10 5\r\n40 4\r\n30 6\r\n50 3\r\n".as_slice(),
            0,
            "best 90\nitems 2 4\n",
            "",
        ),
        (
            b"4 10\n\xff 5\n40 4\n30 6\n50 3\n".as_slice(),
            3,
            "",
            "yew: f: line 2: not a number\n",
        ),
        (
            b"18446744073709551616 5\n".as_slice(),
            3,
            "",
            "yew: f: line 1: number too big\n",
        ),
        (
            b"9223372036854775807 5\n".as_slice(),
            3,
            "",
            "yew: f: line 2: ends early\n",
        ),
        (
            b"1 5\n2147483648 1\n".as_slice(),
            4,
            "",
            "yew: f: 2147483648 is past 2147483647\n",
        ),
        (
            b"0 1099511627776\n".as_slice(),
            4,
            "",
            "yew: f: 1099511627776 is past 1099511627775\n",
        ),
        (
            b"1 5\n2147483648 x\n".as_slice(),
            3,
            "",
            "yew: f: line 2: not a number\n",
        ),
        (b"001 5 007 0".as_slice(), 0, "best 7\nitems 1\n", ""),
    ] {
        let ended = run(alloc, "knapsack sequential f", &[("f", file)], CALM)?;
        assert_eq!(rt; ended.status, status);
        assert_eq!(rt; ended.out.as_slice(), out.as_bytes());
        assert_eq!(rt; ended.err.as_slice(), err.as_bytes());
    }
    let mut line = 1u64;
    for len in 0..24 {
        let mut wanted = Vec::from_slice(alloc, b"yew: f: line ")?;
        push_number(&mut wanted, line)?;
        wanted.extend_from_slice(b": ends early\n")?;
        let ended = run(alloc, "knapsack sequential f", &[("f", &FOUR[..len])], CALM)?;
        assert_eq!(rt; ended.status, 3);
        assert_eq!(rt; ended.err.as_slice(), wanted.as_slice());
        if FOUR[len] == b'\n' {
            line = line.wrapping_add(1);
        }
    }
    Ok(())
}

#[test]
fn limits(rt: HostRuntime) -> Result<(), Fail> {
    let alloc = rt.alloc();
    let mut greatest = Vec::from_slice(alloc, b"256 256\n")?;
    let mut answer = Vec::from_slice(alloc, b"best 549755813632\nitems")?;
    let mut many = Vec::from_slice(alloc, b"257 5\n1 1\n")?;
    for number in 1..257 {
        greatest.extend_from_slice(b"2147483647 1\n")?;
        many.extend_from_slice(b"1 1\n")?;
        push_spaced(&mut answer, number)?;
    }
    push_line_end(&mut answer)?;
    let ended = run(alloc, "knapsack sequential k5", &[("k5", &greatest)], CALM)?;
    assert_eq!(rt; ended.status, 0);
    assert_eq!(rt; ended.out.as_slice(), answer.as_slice());

    let ended = run(alloc, "knapsack sequential k6", &[("k6", &many)], CALM)?;
    assert_eq!(rt; ended.status, 4);
    assert_eq!(rt;
        ended.err.as_slice(),
        b"yew: k6: 257 is past 256\n".as_slice()
    );

    let long = vec![in alloc; b' '; (1 << 24) + 1]?;
    let ended = run(alloc, "knapsack sequential f", &[("f", &long)], CALM)?;
    assert_eq!(rt; ended.status, 4);
    assert_eq!(rt;
        ended.err.as_slice(),
        b"yew: f: longer than 16777216 bytes\n".as_slice()
    );
    Ok(())
}
