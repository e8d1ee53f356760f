//! Maps of graphs: worked ones, and all maps of small graphs.

use super::{CALM, FOUR_CYCLE, PATH_OF_THREE, TRIANGLE, mixed, run};
use std::alloc::Global;
use std::test::Fail;
use yew_lines::{push_line_end, push_number, push_spaced, push_text};

/// A graph of so many vertices, and no arc.
fn loose_graph(alloc: Global, vertices: u64) -> Result<Vec<u8>, Fail> {
    let mut text = Vec::new(alloc);
    push_number(&mut text, vertices)?;
    push_line_end(&mut text)?;
    for _vertex in 0..vertices {
        text.extend_from_slice(b"0\n")?;
    }
    Ok(text)
}

#[test]
fn maps_of_graphs(rt: HostRuntime) -> Result<(), Fail> {
    let alloc = rt.alloc();
    let many = loose_graph(alloc, 65)?;
    let most = loose_graph(alloc, 1024)?;
    let past = loose_graph(alloc, 1025)?;
    let files: [(&str, &[u8]); 12] = [
        ("triangle", TRIANGLE),
        ("cycle", FOUR_CYCLE),
        ("path", PATH_OF_THREE),
        ("none", b"0\n"),
        ("one", b"1 0"),
        ("loop", b"1\n1 0\n"),
        ("arc", b"2\n3 1 1 1\n0\n"),
        ("arcs", b"3\n1 1\n0\n1 1\n"),
        ("many", &many),
        ("most", &most),
        ("past", &past),
        ("letters", b"2\n1 x\n0\n"),
    ];
    for (words, status, out, err) in [
        (
            "subgraph sequential path triangle",
            0,
            "yes\nmap 1 0 2\n",
            "",
        ),
        ("subgraph sequential triangle cycle", 0, "no\n", ""),
        ("subgraph sequential cycle triangle", 0, "no\n", ""),
        ("subgraph sequential none cycle", 0, "yes\nmap\n", ""),
        ("subgraph sequential one loop", 0, "yes\nmap 0\n", ""),
        ("subgraph sequential loop triangle", 0, "no\n", ""),
        ("subgraph sequential arc arcs", 0, "yes\nmap 0 1\n", ""),
        ("subgraph sequential one many", 0, "yes\nmap 0\n", ""),
        ("subgraph sequential one most", 0, "yes\nmap 0\n", ""),
        (
            "subgraph sequential one past",
            4,
            "",
            "yew: past: 1025 is past 1024\n",
        ),
        (
            "subgraph sequential many most",
            4,
            "",
            "yew: many: 65 is past 64\n",
        ),
        (
            "subgraph sequential past past",
            4,
            "",
            "yew: past: 1025 is past 64\n",
        ),
        (
            "subgraph sequential many letters",
            4,
            "",
            "yew: many: 65 is past 64\n",
        ),
        (
            "subgraph sequential letters past",
            3,
            "",
            "yew: letters: line 2: not a number\n",
        ),
        (
            "subgraph sequential letters nofile",
            3,
            "",
            "yew: letters: line 2: not a number\n",
        ),
        (
            "subgraph sequential path letters",
            3,
            "",
            "yew: letters: line 2: not a number\n",
        ),
        (
            "subgraph sequential nofile letters",
            2,
            "",
            "yew: nofile: read fault\n",
        ),
        (
            "subgraph sequential path nofile",
            2,
            "",
            "yew: nofile: read fault\n",
        ),
    ] {
        let ended = run(alloc, words, &files, CALM)?;
        assert_eq!(rt; ended.status, status, "{words}");
        assert_eq!(rt; ended.out.as_slice(), out.as_bytes(), "{words}");
        assert_eq!(rt; ended.err.as_slice(), err.as_bytes(), "{words}");
    }
    Ok(())
}

#[test]
fn the_greatest_pattern(rt: HostRuntime) -> Result<(), Fail> {
    let alloc = rt.alloc();
    let pattern = loose_graph(alloc, 64)?;
    let target = loose_graph(alloc, 65)?;
    let mut answer = Vec::from_slice(alloc, b"yes\nmap")?;
    for vertex in 0..64 {
        push_spaced(&mut answer, vertex)?;
    }
    push_line_end(&mut answer)?;
    let files: [(&str, &[u8]); 2] = [("p", &pattern), ("t", &target)];
    let ended = run(alloc, "subgraph sequential p t", &files, CALM)?;
    assert_eq!(rt; ended.status, 0);
    assert_eq!(rt; ended.out.as_slice(), answer.as_slice());
    Ok(())
}

/// Whether a graph has an arc: of a thousand, as many as `share` say yes.
fn has_arc(seed: u64, share: u64, from: u64, to: u64) -> bool {
    mixed(seed, from, to) < share
}

/// The file of a graph of so many vertices.
fn graph_file(alloc: Global, seed: u64, share: u64, vertices: u64) -> Result<Vec<u8>, Fail> {
    let mut text = Vec::new(alloc);
    push_number(&mut text, vertices)?;
    push_line_end(&mut text)?;
    for from in 0..vertices {
        let mut count = 0u64;
        let mut line = Vec::new(alloc);
        for to in 0..vertices {
            if has_arc(seed, share, from, to) {
                count = count.wrapping_add(1);
                push_spaced(&mut line, to)?;
            }
        }
        push_number(&mut text, count)?;
        push_text(&mut text, &line)?;
        push_line_end(&mut text)?;
    }
    Ok(text)
}

/// The image of a vertex below 4: its digit in a code to the base 4.
fn image_of(code: u64, vertex: u64) -> u64 {
    match vertex {
        0 => code % 4,
        1 => code / 4 % 4,
        2 => code / 16 % 4,
        _ => code / 64 % 4,
    }
}

/// Two graphs: for each its seed, its share of arcs and its vertices.
#[derive(Clone, Copy)]
struct Pair {
    seed: u64,
    share: u64,
    vertices: u64,
    target_seed: u64,
    target_share: u64,
    target_vertices: u64,
}

/// Whether a code maps the pattern into the target: different vertices to different ones, and arcs to arcs.
fn is_slow_map(pair: Pair, code: u64) -> bool {
    for u in 0..pair.vertices {
        if image_of(code, u) >= pair.target_vertices {
            return false;
        }
        for v in 0..pair.vertices {
            if u != v && image_of(code, u) == image_of(code, v) {
                return false;
            }
            if has_arc(pair.seed, pair.share, u, v)
                && !has_arc(
                    pair.target_seed,
                    pair.target_share,
                    image_of(code, u),
                    image_of(code, v),
                )
            {
                return false;
            }
        }
    }
    true
}

/// How many maps there are, and whether the text is that of one of them.
fn slow_maps(alloc: Global, pair: Pair, text: &[u8]) -> Result<(u64, bool), Fail> {
    let mut maps = 0u64;
    let mut told = false;
    for code in 0..256 {
        if is_slow_map(pair, code) {
            let mut line = Vec::from_slice(alloc, b"yes\nmap")?;
            for vertex in 0..pair.vertices {
                push_spaced(&mut line, image_of(code, vertex))?;
            }
            push_line_end(&mut line)?;
            maps = maps.wrapping_add(1);
            told = told || line.as_slice() == text;
        }
    }
    Ok((maps, told))
}

/// Each map of up to four vertices into up to four is tried.
#[test]
fn maps_by_trying_all(rt: HostRuntime) -> Result<(), Fail> {
    let alloc = rt.alloc();
    let mut yes = 0u64;
    let mut no = 0u64;
    for vertices in 0..5 {
        for target_vertices in 0..5 {
            for seed in 0..8 {
                let pair = Pair {
                    seed,
                    share: 350,
                    vertices,
                    target_seed: seed.wrapping_add(100),
                    target_share: 650,
                    target_vertices,
                };
                let pattern = graph_file(alloc, pair.seed, pair.share, vertices)?;
                let target = graph_file(
                    alloc,
                    pair.target_seed,
                    pair.target_share,
                    target_vertices,
                )?;
                let files: [(&str, &[u8]); 2] = [("p", &pattern), ("t", &target)];
                let ended = run(alloc, "subgraph sequential p t", &files, CALM)?;
                assert_eq!(rt; ended.status, 0);
                let (maps, told) = slow_maps(alloc, pair, &ended.out)?;
                if maps == 0 {
                    no = no.wrapping_add(1);
                    assert_eq!(rt; ended.out.as_slice(), b"no\n".as_slice());
                } else {
                    yes = yes.wrapping_add(1);
                    assert!(rt; told, "{vertices} {target_vertices} {seed}");
                }
            }
        }
    }
    assert!(rt; yes > 50, "{yes}");
    assert!(rt; no > 50, "{no}");
    Ok(())
}
