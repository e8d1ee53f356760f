//! Which options each job and skeleton has, one behind another: a target and a gap keep each other out, and none stands in for one
//! that is required.

use super::*;

/// The first words with the files, the options that are for them, and those that may not be absent.
const HEADS: [(&str, &str, &str); 28] = [
    (
        "knapsack sequential k1",
        "--target --gap --report --audit",
        "",
    ),
    (
        "knapsack depth k1",
        "--workers --depth --target --gap --report --audit",
        "",
    ),
    (
        "knapsack budget k1",
        "--workers --budget --target --gap --report --audit",
        "",
    ),
    (
        "knapsack steal k1",
        "--workers --chunk --target --gap --report --audit",
        "",
    ),
    (
        "knapsack ordered k1",
        "--workers --depth --target --report --audit",
        "",
    ),
    (
        "tsp sequential t1",
        "--gap --near --span --report --audit",
        "",
    ),
    (
        "tsp depth t1",
        "--workers --depth --gap --near --span --report --audit",
        "",
    ),
    (
        "tsp budget t1",
        "--workers --budget --gap --near --span --report --audit",
        "",
    ),
    (
        "tsp steal t1",
        "--workers --chunk --gap --near --span --report --audit",
        "",
    ),
    (
        "tsp ordered t1",
        "--workers --depth --near --span --report --audit",
        "",
    ),
    ("subgraph sequential g1 g2", "--report --audit", ""),
    (
        "subgraph depth g1 g2",
        "--workers --depth --report --audit",
        "",
    ),
    (
        "subgraph budget g1 g2",
        "--workers --budget --report --audit",
        "",
    ),
    (
        "subgraph steal g1 g2",
        "--workers --chunk --report --audit",
        "",
    ),
    (
        "subgraph ordered g1 g2",
        "--workers --depth --report --audit",
        "",
    ),
    (
        "semigroups sequential",
        "--genus --report --audit",
        "--genus",
    ),
    (
        "semigroups depth",
        "--workers --depth --genus --report --audit",
        "--genus",
    ),
    (
        "semigroups budget",
        "--workers --budget --genus --report --audit",
        "--genus",
    ),
    (
        "semigroups steal",
        "--workers --chunk --genus --report --audit",
        "--genus",
    ),
    (
        "semigroups ordered",
        "--workers --depth --genus --report --audit",
        "--genus",
    ),
    ("flow sequential f1", "--gap --report --audit", ""),
    (
        "flow depth f1",
        "--workers --depth --gap --report --audit",
        "",
    ),
    (
        "flow budget f1",
        "--workers --budget --gap --report --audit",
        "",
    ),
    (
        "flow steal f1",
        "--workers --chunk --gap --report --audit",
        "",
    ),
    ("flow ordered f1", "--workers --depth --report --audit", ""),
    ("make knapsack", "--seed --size --solve", "--seed --size"),
    ("make tsp", "--seed --size --solve", "--seed --size"),
    ("make lad", "--seed --size", "--seed --size"),
];

/// Each option's name, and its words.
const OPTIONS: [(&str, &str); 14] = [
    ("--workers", "--workers 3"),
    ("--depth", "--depth 2"),
    ("--budget", "--budget 9"),
    ("--chunk", "--chunk all"),
    ("--target", "--target 7"),
    ("--gap", "--gap 60"),
    ("--genus", "--genus 5"),
    ("--near", "--near"),
    ("--span", "--span"),
    ("--report", "--report"),
    ("--audit", "--audit"),
    ("--seed", "--seed 1"),
    ("--size", "--size 8"),
    ("--solve", "--solve"),
];

fn is_among(names: &str, name: &str) -> bool {
    names.split(' ').any(|other| other == name)
}

/// Whether the one keeps out the other.
fn are_apart(one: &str, other: &str) -> bool {
    (one == "--target" && other == "--gap") || (one == "--gap" && other == "--target")
}

fn expect_fault_behind(rt: &impl Abort, words: &[String], front: usize, kind: UsageKind) {
    match read_words(words) {
        Ok(plan) => panic!(rt; "{words:?}: {plan:?}"),
        Err(usage) => {
            assert_eq!(rt; usage.kind, kind, "{words:?}");
            assert_eq!(rt; usage.place as usize, front.saturating_add(1), "{words:?}");
        }
    }
}

/// A first option behind the head, and each option behind that.
fn expect_behind(
    rt: &impl Abort,
    alloc: Global,
    head: &str,
    has: &str,
    needs: &str,
    first: &str,
    first_words: &str,
) -> Result<(), AllocError> {
    let mut front = split(alloc, head)?;
    let at = front.len();
    push_words(alloc, &mut front, first_words)?;
    let behind = front.len();
    for (second, second_words) in OPTIONS {
        let mut words = front.clone()?;
        push_words(alloc, &mut words, second_words)?;
        if !is_among(has, first) {
            expect_fault_behind(rt, &words, at, UsageKind::NotHere);
        } else if !is_among(has, second) || are_apart(first, second) {
            expect_fault_behind(rt, &words, behind, UsageKind::NotHere);
        } else if first == second {
            expect_fault_behind(rt, &words, behind, UsageKind::Repeated);
        } else if is_short(needs, first, second) {
            expect_fault_behind(rt, &words, words.len(), UsageKind::Missing);
        } else if let Err(usage) = read_words(&words) {
            panic!(rt; "{words:?}: {usage:?}");
        }
    }
    Ok(())
}

fn push_words(alloc: Global, words: &mut Vec<String>, line: &str) -> Result<(), AllocError> {
    for word in line.split(' ') {
        words.push(String::from_str(alloc, word)?)?;
    }
    Ok(())
}

/// Whether one of the names is neither of the two.
fn is_short(names: &str, first: &str, second: &str) -> bool {
    names
        .split(' ')
        .any(|name| name != "" && name != first && name != second)
}

/// Each option behind the head, and each behind that.
fn expect_head(
    rt: &impl Abort,
    alloc: Global,
    head: &str,
    has: &str,
    needs: &str,
) -> Result<(), AllocError> {
    for (first, first_words) in OPTIONS {
        expect_behind(rt, alloc, head, has, needs, first, first_words)?;
    }
    Ok(())
}

#[test]
fn pairs_of_options(rt: HostRuntime) -> Result<(), Fail> {
    for (head, has, needs) in HEADS {
        expect_head(&rt, rt.alloc(), head, has, needs)?;
    }
    Ok(())
}
