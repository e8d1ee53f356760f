//! Flow shops: worked ones under every skeleton, refused files, and a gap.

use super::{CALM, expect, run, run_crew};
use std::test::Fail;

/// Three jobs on two machines. The orders 2 1 3 and 2 3 1 take 8, and no order takes less.
const THREE_JOBS: &[u8] = b"3 2\n3 2\n1 4\n2 1\n";

#[test]
fn least_makespans(rt: HostRuntime) -> Result<(), Fail> {
    let alloc = rt.alloc();
    for (file, out) in [
        (THREE_JOBS, "best 8\norder 2 1 3\n"),
        (b"1 1\n7\n".as_slice(), "best 7\norder 1\n"),
        (
            b"1 3\n1048575 1048575 1048575".as_slice(),
            "best 3145725\norder 1\n",
        ),
    ] {
        let ended = run(alloc, "flow sequential f", &[("f", file)], CALM)?;
        expect(&rt, out, &ended, 0, out.as_bytes(), "");
    }
    Ok(())
}

// The value is the same under every skeleton, and of a search in order the order as well.
#[test]
fn several_workers_order_jobs(rt: HostRuntime) -> Result<(), Fail> {
    let alloc = rt.alloc();
    let files = [("f", THREE_JOBS)];
    let ended = run_crew(&rt, alloc, "flow ordered f --workers 3", &files, CALM)?;
    expect(&rt, "ordered", &ended, 0, b"best 8\norder 2 1 3\n", "");
    for line in [
        "flow depth f --workers 3",
        "flow budget f --budget 1 --workers 3",
        "flow steal f --workers 3",
    ] {
        let ended = run_crew(&rt, alloc, line, &files, CALM)?;
        assert_eq!(rt; ended.status, 0, "{line}");
        assert!(rt;
            ended.out.as_slice() == b"best 8\norder 2 1 3\n".as_slice()
                || ended.out.as_slice() == b"best 8\norder 2 3 1\n".as_slice(),
            "{line}"
        );
    }
    Ok(())
}

#[test]
fn refused_flow_shops(rt: HostRuntime) -> Result<(), Fail> {
    let alloc = rt.alloc();
    for (file, status, err) in [
        ("", 3, "yew: f: line 1: ends early\n"),
        ("0 3\n", 3, "yew: f: line 1: bad line\n"),
        ("1\n0\n", 3, "yew: f: line 2: bad line\n"),
        ("2 2\n1 2\n3", 3, "yew: f: line 3: ends early\n"),
        ("1 1\n7\n8\n", 3, "yew: f: line 3: surplus\n"),
        ("1 1\n-7\n", 3, "yew: f: line 2: not a number\n"),
        (
            "1 9223372036854775808\n",
            3,
            "yew: f: line 1: number too big\n",
        ),
        ("1 1\n1048576\n", 4, "yew: f: 1048576 is past 1048575\n"),
    ] {
        let ended = run(alloc, "flow sequential f", &[("f", file.as_bytes())], CALM)?;
        expect(&rt, file, &ended, status, b"", err);
    }
    Ok(())
}

// The first order that is met, 1 2 3, takes 10: with a gap of 2 no other need be looked at.
#[test]
fn jobs_within_a_gap(rt: HostRuntime) -> Result<(), Fail> {
    let alloc = rt.alloc();
    let files = [("f", THREE_JOBS)];
    for (line, status, out, err) in [
        (
            "flow sequential f --gap 0",
            0,
            "found 8\nwithin 0\norder 2 1 3\n",
            "",
        ),
        (
            "flow sequential f --gap 2",
            0,
            "found 10\nwithin 2\norder 1 2 3\n",
            "",
        ),
        ("flow ordered f --gap 0", 1, "", "yew: word 4: not here\n"),
        (
            "flow sequential f --target 8",
            1,
            "",
            "yew: word 4: not here\n",
        ),
    ] {
        let ended = run(alloc, line, &files, CALM)?;
        expect(&rt, line, &ended, status, out.as_bytes(), err);
    }
    Ok(())
}
