//! Hostile files, and shelves and sinks that fail, by each skeleton that has no order.

use super::vectors::four_cities;
use super::{CALM, FOUR, Outside, PATH_OF_THREE, TRIANGLE, expect, lines, run, run_crew, spelled};
use std::alloc::Global;
use std::process::Abort;
use std::sync::Wait;
use std::test::Fail;
use std::thread::Threads;
use yew_lines::{push_line_end, push_number, push_spaced};

const SKELETONS: [&str; 4] = ["sequential", "depth", "budget", "steal"];

/// Checks what is said of a file by each skeleton of a crew, and by one worker alone.
fn refused<'w, R: Abort + Threads + Wait + Sync>(
    rt: &R,
    alloc: Global,
    job: &'w str,
    names: &'w str,
    files: &[(&str, &[u8])],
    status: u8,
    err: &str,
) -> Result<(), Fail> {
    for skeleton in SKELETONS {
        let line = spelled(alloc, &[job, skeleton, names])?;
        let ended = run_crew(rt, alloc, line.as_str(), files, CALM)?;
        expect(rt, line.as_str(), &ended, status, b"", err);
    }
    let line = spelled(alloc, &[job, "sequential", names])?;
    let ended = run(alloc, line.as_str(), files, CALM)?;
    expect(rt, line.as_str(), &ended, status, b"", err);
    Ok(())
}

/// Checks that each skeleton has this answer, whose file it is given with others.
fn answered<R: Abort + Threads + Wait + Sync>(
    rt: &R,
    alloc: Global,
    file: &[u8],
    out: &[u8],
) -> Result<(), Fail> {
    for skeleton in SKELETONS {
        let line = spelled(alloc, &["knapsack ", skeleton, " f"])?;
        let ended = run_crew(rt, alloc, line.as_str(), &[("f", file)], CALM)?;
        expect(rt, line.as_str(), &ended, 0, out, "");
    }
    let ended = run(alloc, "knapsack sequential f", &[("f", file)], CALM)?;
    expect(rt, "knapsack sequential f", &ended, 0, out, "");
    Ok(())
}

// A knapsack file that is cut off ends early, in the line that it was cut in, until its last byte: that ends a line.
#[test]
fn knapsacks_cut_off(rt: HostRuntime) -> Result<(), Fail> {
    let alloc = rt.alloc();
    let mut line = 1u64;
    let mut head = Vec::new(alloc);
    for byte in FOUR {
        if head.len() == 24 {
            answered(&rt, alloc, &head, b"best 90\nitems 2 4\n")?;
        } else {
            let mut wanted = String::from_str(alloc, "yew: f: line ")?;
            let mut digits = Vec::new(alloc);
            push_number(&mut digits, line)?;
            match str::from_utf8(&digits) {
                Ok(text) => wanted.push_str(text)?,
                Err(_) => assert!(rt; false),
            }
            wanted.push_str(": ends early\n")?;
            let files: [(&str, &[u8]); 1] = [("f", &head)];
            refused(&rt, alloc, "knapsack ", " f", &files, 3, wanted.as_str())?;
        }
        if *byte == b'\n' {
            line = line.wrapping_add(1);
        }
        head.push(*byte)?;
    }
    answered(
        &rt,
        alloc,
        b"4 10\r\n10 5\r\n40 4\r\n30 6\r\n50 3\r\n",
        b"best 90\nitems 2 4\n",
    )
}

#[test]
fn hostile_knapsacks(rt: HostRuntime) -> Result<(), Fail> {
    let alloc = rt.alloc();
    for (file, status, err) in [
        (
            b"4 10\n\xff 5\n40 4\n30 6\n50 3\n".as_slice(),
            3,
            "yew: f: line 2: not a number\n",
        ),
        (
            b"18446744073709551616 5\n".as_slice(),
            3,
            "yew: f: line 1: number too big\n",
        ),
        (
            b"9223372036854775807 5\n".as_slice(),
            3,
            "yew: f: line 2: ends early\n",
        ),
        (
            b"1 5\n2147483648 1\n".as_slice(),
            4,
            "yew: f: 2147483648 is past 2147483647\n",
        ),
        (
            b"0 1099511627776\n".as_slice(),
            4,
            "yew: f: 1099511627776 is past 1099511627775\n",
        ),
    ] {
        refused(&rt, alloc, "knapsack ", " f", &[("f", file)], status, err)?;
    }
    Ok(())
}

#[test]
fn hostile_tours(rt: HostRuntime) -> Result<(), Fail> {
    let alloc = rt.alloc();
    for (line, instead, status, err) in [
        (3, [].as_slice(), 3, "yew: f: line 5: bad line\n"),
        (
            3,
            ["DIMENSION: 1"].as_slice(),
            3,
            "yew: f: line 3: bad line\n",
        ),
        (
            3,
            ["DIMENSION: 4 5"].as_slice(),
            3,
            "yew: f: line 3: not a number\n",
        ),
        (
            3,
            ["DIMENSION: 9223372036854775807"].as_slice(),
            3,
            "yew: f: line 11: ends early\n",
        ),
        (2, ["TYPE: SOP"].as_slice(), 3, "yew: f: line 2: bad line\n"),
        (
            2,
            ["TYPE: TSP", "TYPE: TSP"].as_slice(),
            3,
            "yew: f: line 3: bad line\n",
        ),
        (6, ["EOF"].as_slice(), 3, "yew: f: line 6: ends early\n"),
        (
            7,
            ["-1 10 15 20"].as_slice(),
            3,
            "yew: f: line 7: not a number\n",
        ),
        (
            7,
            ["2147483648 10 15 20"].as_slice(),
            4,
            "yew: f: 2147483648 is past 2147483647\n",
        ),
        (11, ["7"].as_slice(), 3, "yew: f: line 11: surplus\n"),
    ] {
        let file = four_cities(alloc, line, instead)?;
        refused(&rt, alloc, "tsp ", " f", &[("f", &file)], status, err)?;
    }
    let whole = four_cities(alloc, 0, &[])?;
    let cut =
        b"NAME: four\nTYPE: TSP\nDIMENSION: 4\nEDGE_WEIGHT_TYPE: EXPLICIT\nEDGE_WEIGHT_FORMAT: FULL_MATRIX\nEDGE_WEIGHT_SECTION\n0 10 15 20\n10";
    assert!(rt; whole.starts_with(cut));
    refused(
        &rt,
        alloc,
        "tsp ",
        " f",
        &[("f", cut)],
        3,
        "yew: f: line 8: ends early\n",
    )?;
    let mut many = lines(
        alloc,
        &[
            "NAME: four",
            "TYPE: TSP",
            "DIMENSION: 61",
            "EDGE_WEIGHT_TYPE: EXPLICIT",
            "EDGE_WEIGHT_FORMAT: FULL_MATRIX",
            "EDGE_WEIGHT_SECTION",
        ],
    )?;
    for _number in 0..3721 {
        push_spaced(&mut many, 0)?;
    }
    push_line_end(&mut many)?;
    refused(
        &rt,
        alloc,
        "tsp ",
        " f",
        &[("f", &many)],
        4,
        "yew: f: 61 is past 60\n",
    )?;
    let mut tail = four_cities(alloc, 0, &[])?;
    tail.extend_from_slice(b"\xff\xfe\x00 7 \x80\n")?;
    for skeleton in SKELETONS {
        let line = spelled(alloc, &["tsp ", skeleton, " f"])?;
        let ended = run_crew(&rt, alloc, line.as_str(), &[("f", &tail)], CALM)?;
        assert_eq!(rt; ended.status, 0, "{skeleton}");
        assert!(rt; ended.out.starts_with(b"best 80\ntour 1 "), "{skeleton}");
    }
    let ended = run(alloc, "tsp sequential f", &[("f", &tail)], CALM)?;
    expect(
        &rt,
        "tsp sequential f",
        &ended,
        0,
        b"best 80\ntour 1 2 4 3\n",
        "",
    );
    Ok(())
}

#[test]
fn hostile_graphs(rt: HostRuntime) -> Result<(), Fail> {
    let alloc = rt.alloc();
    let mut many = Vec::from_slice(alloc, b"65\n")?;
    for _vertex in 0..65 {
        many.extend_from_slice(b"0\n")?;
    }
    let files: [(&str, &[u8]); 3] = [("f", &many), ("g", TRIANGLE), ("h", b"1\n1 1\n")];
    refused(
        &rt,
        alloc,
        "subgraph ",
        " f g",
        &files,
        4,
        "yew: f: 65 is past 64\n",
    )?;
    refused(
        &rt,
        alloc,
        "subgraph ",
        " h g",
        &files,
        3,
        "yew: h: line 2: number too big\n",
    )?;
    refused(
        &rt,
        alloc,
        "subgraph ",
        " g h",
        &files,
        3,
        "yew: h: line 2: number too big\n",
    )?;
    Ok(())
}

// A small file is opened, read, and read to its end: three calls each, the pattern's first.
#[test]
fn each_call_of_the_shelf_fails(rt: HostRuntime) -> Result<(), Fail> {
    let alloc = rt.alloc();
    let files: [(&str, &[u8]); 3] = [("k", FOUR), ("p", PATH_OF_THREE), ("t", TRIANGLE)];
    for skeleton in SKELETONS {
        let one = spelled(alloc, &["knapsack ", skeleton, " k"])?;
        for call in 1..4 {
            let fault = Outside {
                reads: &[call],
                ..CALM
            };
            let ended = run_crew(&rt, alloc, one.as_str(), &files, fault)?;
            expect(&rt, one.as_str(), &ended, 2, b"", "yew: k: read fault\n");
        }
        let past = Outside {
            reads: &[4],
            ..CALM
        };
        let ended = run_crew(&rt, alloc, one.as_str(), &files, past)?;
        expect(&rt, one.as_str(), &ended, 0, b"best 90\nitems 2 4\n", "");
        let two = spelled(alloc, &["subgraph ", skeleton, " p t"])?;
        for call in 1..7 {
            let fault = Outside {
                reads: &[call],
                ..CALM
            };
            let ended = run_crew(&rt, alloc, two.as_str(), &files, fault)?;
            let err = if call < 4 {
                "yew: p: read fault\n"
            } else {
                "yew: t: read fault\n"
            };
            expect(&rt, two.as_str(), &ended, 2, b"", err);
        }
        let past = Outside {
            reads: &[7],
            ..CALM
        };
        let ended = run_crew(&rt, alloc, two.as_str(), &files, past)?;
        assert_eq!(rt; ended.status, 0, "{skeleton}");
        assert!(rt; ended.out.starts_with(b"yes\nmap "), "{skeleton}");
    }
    Ok(())
}

// The sink takes one byte a call, and the call of each byte fails.
#[test]
fn each_call_of_the_sink_fails(rt: HostRuntime) -> Result<(), Fail> {
    let alloc = rt.alloc();
    let text = b"best 90\nitems 2 4\n".as_slice();
    for skeleton in SKELETONS {
        let line = spelled(alloc, &["knapsack ", skeleton, " k"])?;
        let files = [("k", FOUR)];
        let mut head = Vec::new(alloc);
        for (taken, byte) in text.iter().enumerate() {
            let slow = Outside {
                most: 1,
                writes: &[(taken as u64).saturating_add(1)],
                ..CALM
            };
            let ended = run_crew(&rt, alloc, line.as_str(), &files, slow)?;
            expect(&rt, line.as_str(), &ended, 5, &head, "yew: write fault\n");
            head.push(*byte)?;
        }
        let whole = Outside {
            most: 1,
            writes: &[19],
            ..CALM
        };
        let ended = run_crew(&rt, alloc, line.as_str(), &files, whole)?;
        expect(&rt, line.as_str(), &ended, 0, text, "");
        let small = Outside { room: 5, ..CALM };
        let ended = run_crew(&rt, alloc, line.as_str(), &files, small)?;
        expect(
            &rt,
            line.as_str(),
            &ended,
            5,
            b"best ",
            "yew: write fault\n",
        );
    }
    Ok(())
}

// Where nothing can be said, the status is as it would be.
#[test]
fn a_sink_without_room_changes_no_status(rt: HostRuntime) -> Result<(), Fail> {
    let alloc = rt.alloc();
    let mute = Outside {
        room_to_say: 0,
        ..CALM
    };
    let small = Outside { room: 5, ..mute };
    let files: [(&str, &[u8]); 3] = [("k", FOUR), ("f", b"1 5\n"), ("g", b"0 1099511627776\n")];
    for skeleton in SKELETONS {
        for (names, outside, status, out) in [
            (" k", mute, 0, "best 90\nitems 2 4\n"),
            ("", mute, 1, ""),
            (" nofile", mute, 2, ""),
            (" f", mute, 3, ""),
            (" g", mute, 4, ""),
            (" k", small, 5, "best "),
        ] {
            let line = spelled(alloc, &["knapsack ", skeleton, names])?;
            let ended = run_crew(&rt, alloc, line.as_str(), &files, outside)?;
            expect(&rt, line.as_str(), &ended, status, out.as_bytes(), "");
        }
        let line = spelled(alloc, &["semigroups ", skeleton, " --genus 2"])?;
        let ended = run_crew(&rt, alloc, line.as_str(), &[], mute)?;
        expect(&rt, line.as_str(), &ended, 0, b"0 1\n1 1\n2 2\n", "");
    }
    Ok(())
}
