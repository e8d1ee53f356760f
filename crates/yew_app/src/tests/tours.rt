//! Tours: worked ones, refused files, and all tours of small matrices.

use super::{CALM, FOUR_CITIES, Outside, THREE_CITIES, joined, mixed, run};
use std::alloc::Global;
use std::test::Fail;
use yew_lines::{push_line_end, push_number, push_numbers_line, push_spaced};

/// A file of so many cities whose weights are all one number.
fn equal_weights(alloc: Global, cities: u64, weight: u64) -> Result<Vec<u8>, Fail> {
    let mut text = Vec::from_slice(alloc, b"TYPE: TSP\nDIMENSION: ")?;
    push_number(&mut text, cities)?;
    text.extend_from_slice(
        b"\nEDGE_WEIGHT_TYPE: EXPLICIT\nEDGE_WEIGHT_FORMAT: FULL_MATRIX\nEDGE_WEIGHT_SECTION\n",
    )?;
    for _row in 0..cities {
        for _column in 0..cities {
            push_spaced(&mut text, weight)?;
        }
        push_line_end(&mut text)?;
    }
    Ok(text)
}

/// The tours' lengths are sums of the tables below: of the four cities 1 2 4 3 has 10 + 25 + 30 + 15, and of the five the
/// edges of 1 3 5 2 4 are all that have less than 20.
#[test]
fn shortest_tours(rt: HostRuntime) -> Result<(), Fail> {
    let alloc = rt.alloc();
    for (file, out) in [
        (
            "NAME: four\nTYPE: TSP\nDIMENSION: 4\nEDGE_WEIGHT_TYPE: EXPLICIT\nEDGE_WEIGHT_FORMAT: FULL_MATRIX\nEDGE_WEIGHT_SECTION\n0 10 15 20\n10 0 35 25\n15 35 0 30\n20 25 30 0\nEOF\n",
            "best 80\ntour 1 2 4 3\n",
        ),
        (
            "NAME: four\nTYPE: TSP\nDIMENSION: 4\nEDGE_WEIGHT_TYPE: EXPLICIT\nEDGE_WEIGHT_FORMAT: UPPER_ROW\nEDGE_WEIGHT_SECTION\n10 15 20\n35 25\n30\nEOF\n",
            "best 80\ntour 1 2 4 3\n",
        ),
        (
            "NAME: five\nTYPE: TSP\nDIMENSION: 5\nEDGE_WEIGHT_TYPE: EXPLICIT\nEDGE_WEIGHT_FORMAT: LOWER_DIAG_ROW\nEDGE_WEIGHT_SECTION\n0\n20 0\n2 20 0\n6 5 20 0\n20 4 3 20 0\nEOF\n",
            "best 20\ntour 1 3 5 2 4\n",
        ),
        (
            "NAME: two\nTYPE: ATSP\nDIMENSION: 2\nEDGE_WEIGHT_TYPE: EXPLICIT\nEDGE_WEIGHT_FORMAT: FULL_MATRIX\nEDGE_WEIGHT_SECTION\n0 3\n4 0\nEOF\n",
            "best 7\ntour 1 2\n",
        ),
        (
            "NAME: three\nTYPE: ATSP\nDIMENSION: 3\nEDGE_WEIGHT_TYPE: EXPLICIT\nEDGE_WEIGHT_FORMAT: FULL_MATRIX\nEDGE_WEIGHT_SECTION\n0 9 1\n1 0 9\n9 1 0\nEOF\n",
            "best 3\ntour 1 3 2\n",
        ),
    ] {
        let files = [("t", file.as_bytes())];
        let ended = run(alloc, "tsp sequential t", &files, CALM)?;
        assert_eq!(rt; ended.status, 0, "{file}");
        assert_eq!(rt; ended.out.as_slice(), out.as_bytes(), "{file}");
        assert!(rt; ended.err.is_empty());
    }
    let most = equal_weights(alloc, 3, 2147483647)?;
    let ended = run(alloc, "tsp sequential t", &[("t", &most)], CALM)?;
    assert_eq!(rt; ended.status, 0);
    assert_eq!(rt;
        ended.out.as_slice(),
        b"best 6442450941\ntour 1 2 3\n".as_slice()
    );
    Ok(())
}

#[test]
fn refused_tours(rt: HostRuntime) -> Result<(), Fail> {
    let alloc = rt.alloc();
    for (head, rows, status, err) in [
        ("", "", 3, "yew: t: line 1: ends early\n"),
        ("NAME: t\n", "TYPE: SOP\n", 3, "yew: t: line 2: bad line\n"),
        (
            "NAME: t\nTYPE: TSP\n",
            "DIMENSION: 4x\n",
            3,
            "yew: t: line 3: not a number\n",
        ),
        (
            FOUR_CITIES,
            "-1 10 15 20\n",
            3,
            "yew: t: line 7: not a number\n",
        ),
        (
            FOUR_CITIES,
            "9223372036854775808 10\n",
            3,
            "yew: t: line 7: number too big\n",
        ),
        (
            FOUR_CITIES,
            "0 10 15 20\n10 0 35 25\n15 35 0 30\n20 25 30\nEOF\n",
            3,
            "yew: t: line 11: ends early\n",
        ),
        (
            FOUR_CITIES,
            "0 10 15 20\n10 0 35 25\n15 35 0 30\n20 25 30 0\n7\n",
            3,
            "yew: t: line 11: surplus\n",
        ),
        (
            FOUR_CITIES,
            "2147483648 10 15 20\n",
            3,
            "yew: t: line 8: ends early\n",
        ),
        (
            FOUR_CITIES,
            "0 10 15 20\n10 0 35 25\n15 35 0 2147483648\n20 25 30 0\nEOF\n",
            4,
            "yew: t: 2147483648 is past 2147483647\n",
        ),
    ] {
        let text = joined(alloc, &[head, rows])?;
        let ended = run(alloc, "tsp sequential t", &[("t", &text)], CALM)?;
        assert_eq!(rt; ended.status, status, "{err}");
        assert_eq!(rt; ended.err.as_slice(), err.as_bytes(), "{err}");
        assert!(rt; ended.out.is_empty());
    }
    let many = equal_weights(alloc, 61, 2147483648)?;
    let ended = run(alloc, "tsp sequential t", &[("t", &many)], CALM)?;
    assert_eq!(rt; ended.status, 4);
    assert_eq!(rt; ended.err.as_slice(), b"yew: t: 61 is past 60\n".as_slice());
    let good = joined(alloc, &[THREE_CITIES, "0 9 1\n1 0 9\n9 1 0\n"])?;
    for call in 1..4 {
        let fault = Outside {
            reads: &[call],
            ..CALM
        };
        let ended = run(alloc, "tsp sequential t", &[("t", &good)], fault)?;
        assert_eq!(rt; ended.status, 2);
        assert_eq!(rt; ended.err.as_slice(), b"yew: t: read fault\n".as_slice());
        assert!(rt; ended.out.is_empty());
    }
    let ended = run(alloc, "tsp sequential u", &[("t", &good)], CALM)?;
    assert_eq!(rt; ended.status, 2);
    assert_eq!(rt; ended.err.as_slice(), b"yew: u: read fault\n".as_slice());
    Ok(())
}

/// The weight from a city to another.
fn weight_of(seed: u64, from: u64, to: u64) -> u64 {
    mixed(seed, from, to) % 12
}

/// The length of the tour from city 1 over the cities of a code, or nothing where it is none: with n cities the last n - 1
/// digits of the code to the base 5 and 2 to each are the other cities in order.
fn slow_length(seed: u64, cities: u64, code: u64) -> Option<u64> {
    let mut rest = code;
    let mut next = 1;
    let mut length = 0u64;
    let mut seen = 0u64;
    for _step in 1..cities {
        let city = rest % 5 + 2;
        rest /= 5;
        let mark = 1u64 << city;
        if city > cities || seen & mark != 0 {
            return None;
        }
        seen |= mark;
        length = length.wrapping_add(weight_of(seed, city, next));
        next = city;
    }
    Some(length.wrapping_add(weight_of(seed, 1, next)))
}

/// The text of the tour of a code.
fn slow_tour(alloc: Global, cities: u64, code: u64, length: u64) -> Result<Vec<u8>, Fail> {
    let mut text = Vec::new(alloc);
    push_numbers_line(&mut text, b"best", &[length])?;
    text.extend_from_slice(b"tour 1")?;
    for (place, scale) in [(5, 625), (4, 125), (3, 25), (2, 5), (1, 1)] {
        if place < cities {
            push_spaced(&mut text, code / u64::max(scale, 1) % 5 + 2)?;
        }
    }
    push_line_end(&mut text)?;
    Ok(text)
}

/// Each tour of up to six cities is tried, and the first of least length, by its cities in order, is the answer.
#[test]
fn the_first_of_all_shortest_tours(rt: HostRuntime) -> Result<(), Fail> {
    let alloc = rt.alloc();
    for (cities, codes) in [(2, 5), (3, 25), (4, 125), (5, 625), (6, 3125)] {
        for seed in 0..12 {
            let mut file = Vec::from_slice(alloc, b"TYPE: ATSP\nDIMENSION: ")?;
            push_number(&mut file, cities)?;
            file.extend_from_slice(
                b"\nEDGE_WEIGHT_TYPE: EXPLICIT\nEDGE_WEIGHT_FORMAT: FULL_MATRIX\nEDGE_WEIGHT_SECTION\n",
            )?;
            for from in 1..cities + 1 {
                for to in 1..cities + 1 {
                    push_spaced(&mut file, weight_of(seed, from, to))?;
                }
                push_line_end(&mut file)?;
            }
            let mut best = None;
            for code in 0..codes {
                match (slow_length(seed, cities, code), best) {
                    (Some(length), None) => best = Some((length, code)),
                    (Some(length), Some((least, _))) if length < least => {
                        best = Some((length, code));
                    }
                    _ => {}
                }
            }
            let Some((length, code)) = best else {
                panic!(rt; "no tour");
            };
            let wanted = slow_tour(alloc, cities, code, length)?;
            let ended = run(alloc, "tsp sequential f", &[("f", &file)], CALM)?;
            assert_eq!(rt; ended.status, 0);
            assert_eq!(rt; ended.out.as_slice(), wanted.as_slice(), "{cities} {seed}");
        }
    }
    Ok(())
}
