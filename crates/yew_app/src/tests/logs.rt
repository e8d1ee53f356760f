//! Reports and audits that are worked by hand, and audits that are full.

use super::{CALM, FOUR_CITIES, FOUR_CYCLE, Outside, PATH_OF_THREE, TRIANGLE, joined, run};
use std::alloc::Global;
use std::process::Abort;
use std::test::Fail;

/// Checks the texts of one search: its answer alone, with the report, with the audit, and with both, in either order of the
/// two words.
fn texts_of(
    rt: &impl Abort,
    alloc: Global,
    files: &[(&str, &[u8])],
    words: &str,
    answer: &str,
    report: &str,
    audit: &str,
) -> Result<(), Fail> {
    for (more, parts) in [
        ("", [answer, "", ""]),
        (" --report", [answer, report, ""]),
        (" --audit", [answer, "", audit]),
        (" --report --audit", [answer, report, audit]),
        (" --audit --report", [answer, report, audit]),
    ] {
        let mut line = String::from_str(alloc, words)?;
        line.push_str(more)?;
        let wanted = joined(alloc, &parts)?;
        let ended = run(alloc, line.as_str(), files, CALM)?;
        assert_eq!(rt; ended.status, 0, "{words}{more}");
        assert_eq!(rt; ended.out.as_slice(), wanted.as_slice(), "{words}{more}");
        assert!(rt; ended.err.is_empty(), "{words}{more}");
    }
    Ok(())
}

/// Three items, tried as they stand: the first two fill the knapsack, and no other set is better.
#[test]
fn logs_of_a_knapsack(rt: HostRuntime) -> Result<(), Fail> {
    let alloc = rt.alloc();
    let files: [(&str, &[u8]); 1] = [("k", b"3 5\n3 2\n4 3\n2 2\n")];
    texts_of(
        &rt,
        alloc,
        &files,
        "knapsack sequential k",
        "best 7\nitems 1 2\n",
        "workers 1\ntaken 1\nspawned 0\nhanded 0\nvisited 3\ncut 3\n",
        "audit 1\nworker 1\ntake /\nvisit / 1 0\nvisit /0 4 1\nvisit /0/0 8 4\nend /0/0\ncut /0/1 6 8\nend /0\ncut /1 7 8\ncut /2 3 8\nend /\ndone\n",
    )?;
    texts_of(
        &rt,
        alloc,
        &files,
        "knapsack sequential k --target 6",
        "yes\nitems 1 2\n",
        "workers 1\ntaken 1\nspawned 0\nhanded 0\nvisited 3\ncut 3\n",
        "audit 1\nworker 1\ntake /\nvisit / 0 0\nvisit /0 0 0\nvisit /0/0 1 0\nend /0/0\ncut /0/1 0 1\nend /0\ncut /1 1 1\ncut /2 0 1\nend /\ndone\n",
    )?;
    texts_of(
        &rt,
        alloc,
        &files,
        "knapsack sequential k --target 8",
        "no\n",
        "workers 1\ntaken 1\nspawned 0\nhanded 0\nvisited 1\ncut 3\n",
        "audit 1\nworker 1\ntake /\nvisit / 0 0\ncut /0 0 0\ncut /1 0 0\ncut /2 0 0\nend /\ndone\n",
    )
}

/// The tree of genus 3 has 1 + 1 + 2 + 4 semigroups: below the one of genus 1, whose gap is 1, those of gaps 1 2 and 1 3,
/// and below those three and one.
#[test]
fn logs_of_semigroups(rt: HostRuntime) -> Result<(), Fail> {
    texts_of(
        &rt,
        rt.alloc(),
        &[],
        "semigroups sequential --genus 3",
        "0 1\n1 1\n2 2\n3 4\n",
        "workers 1\ntaken 1\nspawned 0\nhanded 0\nvisited 8\ncut 0\n",
        "audit 1\nworker 1\ntake /\nvisit / 0 0\nvisit /0 0 0\nvisit /0/0 0 0\nvisit /0/0/0 0 0\nend /0/0/0\nvisit /0/0/1 0 0\nend /0/0/1\nvisit /0/0/2 0 0\nend /0/0/2\nend /0/0\nvisit /0/1 0 0\nvisit /0/1/0 0 0\nend /0/1/0\nend /0/1\nend /0\nend /\ndone\n",
    )
}

/// The worths and the bounds are 2^37 = 137438953472 less a length: 80, the best, or 95. The least weights of the cities are
/// 10, 10, 15 and 20.
#[test]
fn logs_of_tours(rt: HostRuntime) -> Result<(), Fail> {
    let alloc = rt.alloc();
    let four = joined(
        alloc,
        &[
            FOUR_CITIES,
            "0 10 15 20\n10 0 35 25\n15 35 0 30\n20 25 30 0\nEOF\n",
        ],
    )?;
    texts_of(
        &rt,
        alloc,
        &[("t", &four)],
        "tsp sequential t",
        "best 80\ntour 1 2 4 3\n",
        "workers 1\ntaken 1\nspawned 0\nhanded 0\nvisited 11\ncut 4\n",
        "audit 1\nworker 1\ntake /\nvisit / 0 0\nvisit /0 0 0\nvisit /0/0 0 0\nvisit /0/0/0 137438953377 0\nend /0/0/0\nend /0/0\nvisit /0/1 0 137438953377\nvisit /0/1/0 137438953392 137438953377\nend /0/1/0\nend /0/1\nend /0\nvisit /1 0 137438953392\ncut /1/0 137438953392 137438953392\nvisit /1/1 0 137438953392\ncut /1/1/0 137438953392 137438953392\nend /1/1\nend /1\nvisit /2 0 137438953392\nvisit /2/0 0 137438953392\ncut /2/0/0 137438953377 137438953392\nend /2/0\nvisit /2/1 0 137438953392\ncut /2/1/0 137438953377 137438953392\nend /2/1\nend /2\nend /\ndone\n",
    )
}

/// The middle of the path is mapped first. Of the triangle and the cycle, whatever two vertices go to, none is left for the
/// third.
#[test]
fn logs_of_graphs(rt: HostRuntime) -> Result<(), Fail> {
    let alloc = rt.alloc();
    let files: [(&str, &[u8]); 3] = [
        ("path", PATH_OF_THREE),
        ("triangle", TRIANGLE),
        ("cycle", FOUR_CYCLE),
    ];
    texts_of(
        &rt,
        alloc,
        &files,
        "subgraph sequential path triangle",
        "yes\nmap 1 0 2\n",
        "workers 1\ntaken 1\nspawned 0\nhanded 0\nvisited 4\ncut 3\n",
        "audit 1\nworker 1\ntake /\nvisit / 0 0\nvisit /0 0 0\nvisit /0/0 0 0\nvisit /0/0/0 1 0\nend /0/0/0\nend /0/0\ncut /0/1 1 1\nend /0\ncut /1 1 1\ncut /2 1 1\nend /\ndone\n",
    )?;
    texts_of(
        &rt,
        alloc,
        &files,
        "subgraph sequential triangle cycle",
        "no\n",
        "workers 1\ntaken 1\nspawned 0\nhanded 0\nvisited 5\ncut 8\n",
        "audit 1\nworker 1\ntake /\nvisit / 0 0\nvisit /0 0 0\ncut /0/0 0 0\ncut /0/1 0 0\nend /0\nvisit /1 0 0\ncut /1/0 0 0\ncut /1/1 0 0\nend /1\nvisit /2 0 0\ncut /2/0 0 0\ncut /2/1 0 0\nend /2\nvisit /3 0 0\ncut /3/0 0 0\ncut /3/1 0 0\nend /3\nend /\ndone\n",
    )
}

/// Of 256 items of profit 2 and weight 2 three fit, and never more: their profit is 6, and the bound of any node with
/// items enough to come is 7. Below the item of number i there are (256 - i)^2 entries, so 257056 are those of the root
/// and of the first four items.
#[test]
fn an_audit_full_of_entries(rt: HostRuntime) -> Result<(), Fail> {
    let alloc = rt.alloc();
    let mut file = Vec::from_slice(alloc, b"256 7\n")?;
    for _item in 0..256 {
        file.extend_from_slice(b"2 2\n")?;
    }
    for words in [
        "knapsack sequential k --target 7 --audit",
        "knapsack sequential k --target 7 --report --audit",
    ] {
        let ended = run(alloc, words, &[("k", &file)], CALM)?;
        assert_eq!(rt; ended.status, 4, "{words}");
        assert_eq!(rt;
            ended.err.as_slice(),
            b"yew: worker 1: audit full at 262144 entries and 784367 numbers\n".as_slice(),
            "{words}"
        );
        assert!(rt; ended.out.is_empty());
    }
    let ended = run(
        alloc,
        "knapsack sequential k --target 8 --audit",
        &[("k", &file)],
        CALM,
    )?;
    assert_eq!(rt; ended.status, 0);
    assert!(rt; ended.out.starts_with(b"no\naudit 1\nworker 1\ntake /\nvisit / 0 0\ncut /0 0 0\n"));
    Ok(())
}

/// The entries of genus 20, two for each semigroup and one for the root, have 3450808 numbers. Those of genus 21 have more
/// than 4194304, which a list of the gaps apart from this program comes to at its entry 210228.
#[test]
fn an_audit_full_of_numbers(rt: HostRuntime) -> Result<(), Fail> {
    let alloc = rt.alloc();
    let ended = run(alloc, "semigroups sequential --genus 21 --audit", &[], CALM)?;
    assert_eq!(rt; ended.status, 4);
    assert_eq!(rt;
        ended.err.as_slice(),
        b"yew: worker 1: audit full at 210227 entries and 4194301 numbers\n".as_slice()
    );
    assert!(rt; ended.out.is_empty());
    let large = Outside {
        room: 1 << 24,
        ..CALM
    };
    let ended = run(
        alloc,
        "semigroups sequential --genus 20 --audit",
        &[],
        large,
    )?;
    assert_eq!(rt; ended.status, 0);
    assert!(rt; ended.err.is_empty());
    assert!(rt; ended.out.as_slice().ends_with(b"\nend /0\nend /\ndone\n"));
    let mut lines = 0u64;
    for byte in &ended.out {
        if *byte == b'\n' {
            lines = lines.wrapping_add(1);
        }
    }
    assert_eq!(rt; lines, 21 + 2 + 186285 + 1);
    Ok(())
}
