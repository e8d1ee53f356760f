//! Lines of words with their plans and their faults, read off the tables of options, and short lists by what any answer keeps.

mod pairs;

use super::*;
use std::alloc::{AllocError, Global};
use std::process::Abort;
use std::test::Fail;

/// The words of a line, with one space between.
fn split(alloc: Global, line: &str) -> Result<Vec<String>, AllocError> {
    let mut words = Vec::new(alloc);
    for word in line.split(' ') {
        words.push(String::from_str(alloc, word)?)?;
    }
    Ok(words)
}

/// A search of a knapsack with nothing else, and its files left out.
fn plain() -> Plan<'static> {
    Plan {
        job: Job::Knapsack,
        skeleton: Skeleton::Sequential,
        files: &[],
        workers: 1,
        target: None,
        gap: None,
        genus: 0,
        near: false,
        span: false,
        audit: false,
        report: false,
        seed: 0,
        size: 0,
        solve: false,
    }
}

/// A search of a knapsack with this skeleton and the number of workers where none is named.
fn crew(skeleton: Skeleton) -> Plan<'static> {
    Plan {
        skeleton,
        workers: 4,
        ..plain()
    }
}

fn expect_plan(rt: &impl Abort, line: &str, words: &[String], files: &[&str], want: Plan<'_>) {
    let plan = match read_words(words) {
        Ok(plan) => plan,
        Err(usage) => panic!(rt; "{line}: {usage:?}"),
    };
    assert_eq!(rt; plan.job, want.job, "job: {line}");
    assert_eq!(rt; plan.skeleton, want.skeleton, "skeleton: {line}");
    assert_eq!(rt; plan.workers, want.workers, "workers: {line}");
    assert_eq!(rt; plan.target, want.target, "target: {line}");
    assert_eq!(rt; plan.gap, want.gap, "gap: {line}");
    assert_eq!(rt; plan.genus, want.genus, "genus: {line}");
    assert_eq!(rt; plan.near, want.near, "near: {line}");
    assert_eq!(rt; plan.span, want.span, "span: {line}");
    assert_eq!(rt; plan.audit, want.audit, "audit: {line}");
    assert_eq!(rt; plan.report, want.report, "report: {line}");
    assert_eq!(rt; plan.seed, want.seed, "seed: {line}");
    assert_eq!(rt; plan.size, want.size, "size: {line}");
    assert_eq!(rt; plan.solve, want.solve, "solve: {line}");
    assert_eq!(rt; plan.files.len(), files.len(), "files: {line}");
    for (file, name) in plan.files.iter().zip(files) {
        assert!(rt; file.as_str() == *name, "files: {line}");
    }
}

#[test]
fn plans_of_searches(rt: HostRuntime) -> Result<(), Fail> {
    let rows = [
        ("knapsack sequential k1", plain()),
        (
            "knapsack sequential k1 --target 0",
            Plan {
                target: Some(0),
                ..plain()
            },
        ),
        (
            "knapsack sequential k1 --target 1099511627774 --audit",
            Plan {
                target: Some(1099511627774),
                audit: true,
                ..plain()
            },
        ),
        (
            "knapsack sequential k1 --gap 60 --audit",
            Plan {
                gap: Some(60),
                audit: true,
                ..plain()
            },
        ),
        (
            "tsp budget k1 --gap 0",
            Plan {
                job: Job::Tsp,
                gap: Some(0),
                ..crew(Skeleton::Budget(1000))
            },
        ),
        (
            "tsp sequential k1 --near",
            Plan {
                job: Job::Tsp,
                near: true,
                ..plain()
            },
        ),
        (
            "tsp ordered k1 --span --audit",
            Plan {
                job: Job::Tsp,
                span: true,
                audit: true,
                ..crew(Skeleton::Ordered(2))
            },
        ),
        (
            "tsp steal k1 --span --gap 3 --near",
            Plan {
                job: Job::Tsp,
                gap: Some(3),
                near: true,
                span: true,
                ..crew(Skeleton::Steal { all: false })
            },
        ),
        (
            "knapsack steal k1 --workers 2 --gap 1099511627774",
            Plan {
                workers: 2,
                gap: Some(1099511627774),
                ..crew(Skeleton::Steal { all: false })
            },
        ),
        ("knapsack depth k1", crew(Skeleton::Depth(2))),
        (
            "knapsack depth k1 --workers 64 --depth 255",
            Plan {
                workers: 64,
                ..crew(Skeleton::Depth(255))
            },
        ),
        (
            "knapsack depth k1 --report --depth 1 --audit --workers 1",
            Plan {
                workers: 1,
                report: true,
                audit: true,
                ..crew(Skeleton::Depth(1))
            },
        ),
        ("knapsack budget k1", crew(Skeleton::Budget(1000))),
        ("knapsack budget k1 --budget 1", crew(Skeleton::Budget(1))),
        (
            "knapsack budget k1 --budget 4294967295",
            crew(Skeleton::Budget(4294967295)),
        ),
        ("knapsack steal k1", crew(Skeleton::Steal { all: false })),
        (
            "knapsack steal k1 --chunk one",
            crew(Skeleton::Steal { all: false }),
        ),
        (
            "knapsack steal k1 --chunk all",
            crew(Skeleton::Steal { all: true }),
        ),
        ("knapsack ordered k1", crew(Skeleton::Ordered(2))),
        ("knapsack ordered k1 --depth 7", crew(Skeleton::Ordered(7))),
        (
            "tsp sequential k1 --report",
            Plan {
                job: Job::Tsp,
                report: true,
                ..plain()
            },
        ),
    ];
    for (line, want) in rows {
        let words = split(rt.alloc(), line)?;
        expect_plan(&rt, line, &words, &["k1"], want);
    }
    Ok(())
}

#[test]
fn plans_of_other_jobs(rt: HostRuntime) -> Result<(), Fail> {
    let line = "subgraph sequential g1 g2";
    let words = split(rt.alloc(), line)?;
    expect_plan(
        &rt,
        line,
        &words,
        &["g1", "g2"],
        Plan {
            job: Job::Subgraph,
            ..plain()
        },
    );

    let counting = Plan {
        job: Job::Semigroups,
        ..plain()
    };
    let rows = [
        ("semigroups sequential --genus 0", counting),
        (
            "semigroups sequential --audit --genus 40",
            Plan {
                genus: 40,
                audit: true,
                ..counting
            },
        ),
        (
            "semigroups depth --genus 5 --depth 2 --workers 3 --report",
            Plan {
                skeleton: Skeleton::Depth(2),
                genus: 5,
                workers: 3,
                report: true,
                ..counting
            },
        ),
        (
            "make knapsack --seed 42 --size 1",
            Plan {
                job: Job::Make(Made::Knapsack),
                seed: 42,
                size: 1,
                ..plain()
            },
        ),
        (
            "make knapsack --size 256 --seed 0 --solve",
            Plan {
                job: Job::Make(Made::Knapsack),
                size: 256,
                solve: true,
                ..plain()
            },
        ),
        (
            "make tsp --size 60 --solve --seed 18446744073709551615",
            Plan {
                job: Job::Make(Made::Tsp),
                size: 60,
                solve: true,
                seed: 18446744073709551615,
                ..plain()
            },
        ),
        (
            "make tsp --size 2 --seed 1",
            Plan {
                job: Job::Make(Made::Tsp),
                size: 2,
                seed: 1,
                ..plain()
            },
        ),
        (
            "make lad --seed 7 --size 0",
            Plan {
                job: Job::Make(Made::Lad),
                seed: 7,
                ..plain()
            },
        ),
        (
            "make lad --seed 7 --size 1024",
            Plan {
                job: Job::Make(Made::Lad),
                seed: 7,
                size: 1024,
                ..plain()
            },
        ),
    ];
    for (line, want) in rows {
        let words = split(rt.alloc(), line)?;
        expect_plan(&rt, line, &words, &[], want);
    }
    Ok(())
}

fn expect_fault(rt: &impl Abort, line: &str, words: &[String], place: u32, kind: UsageKind) {
    match read_words(words) {
        Ok(plan) => panic!(rt; "{line}: {plan:?}"),
        Err(usage) => assert_eq!(rt; usage, Usage { place, kind }, "{line}"),
    }
}

#[test]
fn first_words_and_files(rt: HostRuntime) -> Result<(), Fail> {
    expect_fault(&rt, "no words", &[], 1, UsageKind::Missing);
    let rows = [
        ("", 1, UsageKind::Unknown),
        ("clique sequential k1", 1, UsageKind::Unknown),
        ("--help", 1, UsageKind::Unknown),
        ("Knapsack sequential k1", 1, UsageKind::Unknown),
        ("tsp", 2, UsageKind::Missing),
        ("flow sequential", 3, UsageKind::Missing),
        ("make", 2, UsageKind::Missing),
        ("tsp lad t1", 2, UsageKind::Unknown),
        ("tsp --depth t1", 2, UsageKind::Unknown),
        ("make subgraph --seed 1 --size 1", 2, UsageKind::Unknown),
        ("make depth", 2, UsageKind::Unknown),
        ("knapsack sequential", 3, UsageKind::Missing),
        ("subgraph sequential g1", 4, UsageKind::Missing),
        ("tsp sequential ", 3, UsageKind::NotFile),
        ("tsp sequential --report", 3, UsageKind::NotFile),
        ("subgraph sequential g1 -g2", 4, UsageKind::NotFile),
        ("subgraph sequential g1 g2 g3", 5, UsageKind::Unknown),
        ("semigroups sequential s1 --genus 2", 3, UsageKind::Unknown),
        ("make lad f --seed 1 --size 1", 3, UsageKind::Unknown),
    ];
    for (line, place, kind) in rows {
        let words = split(rt.alloc(), line)?;
        expect_fault(&rt, line, &words, place, kind);
    }
    Ok(())
}

#[test]
fn names_of_options(rt: HostRuntime) -> Result<(), Fail> {
    let rows = [
        ("knapsack depth k1 --", 4, UsageKind::Unknown),
        ("knapsack depth k1 --depth=2", 4, UsageKind::Unknown),
        ("knapsack depth k1 -depth 2", 4, UsageKind::Unknown),
        ("knapsack sequential k1 --workers 2", 4, UsageKind::NotHere),
        ("knapsack sequential k1 --depth 2", 4, UsageKind::NotHere),
        ("knapsack budget k1 --depth 2", 4, UsageKind::NotHere),
        ("knapsack steal k1 --budget 2", 4, UsageKind::NotHere),
        ("knapsack ordered k1 --chunk one", 4, UsageKind::NotHere),
        ("tsp sequential t1 --target 2", 4, UsageKind::NotHere),
        ("flow sequential f1 --target 2", 4, UsageKind::NotHere),
        ("knapsack ordered k1 --gap 2", 4, UsageKind::NotHere),
        ("tsp ordered t1 --gap 2", 4, UsageKind::NotHere),
        ("flow ordered f1 --gap 2", 4, UsageKind::NotHere),
        ("subgraph steal g1 g2 --gap 2", 5, UsageKind::NotHere),
        ("semigroups sequential --gap 2", 3, UsageKind::NotHere),
        ("make tsp --gap 2", 3, UsageKind::NotHere),
        ("knapsack sequential k1 --near", 4, UsageKind::NotHere),
        ("flow ordered f1 --span", 4, UsageKind::NotHere),
        ("make tsp --near", 3, UsageKind::NotHere),
        (
            "tsp ordered t1 --near --span --near",
            6,
            UsageKind::Repeated,
        ),
        ("tsp sequential t1 --near=1", 4, UsageKind::Unknown),
        ("tsp sequential t1 --span 1", 5, UsageKind::Unknown),
        (
            "knapsack sequential k1 --target 5 --gap 2",
            6,
            UsageKind::NotHere,
        ),
        (
            "knapsack depth k1 --gap 2 --report --target 5",
            7,
            UsageKind::NotHere,
        ),
        ("tsp depth t1 --gap 2 --gap 2", 6, UsageKind::Repeated),
        ("knapsack sequential k1 --genus 5", 4, UsageKind::NotHere),
        ("knapsack sequential k1 --seed 5", 4, UsageKind::NotHere),
        ("knapsack sequential k1 --size 5", 4, UsageKind::NotHere),
        ("knapsack sequential k1 --solve", 4, UsageKind::NotHere),
        ("make lad --solve", 3, UsageKind::NotHere),
        ("make tsp --report", 3, UsageKind::NotHere),
        ("make tsp --audit", 3, UsageKind::NotHere),
        ("make tsp --workers 0", 3, UsageKind::NotHere),
        (
            "knapsack depth k1 --depth 2 --depth 3",
            6,
            UsageKind::Repeated,
        ),
        (
            "tsp steal t1 --audit --report --audit",
            6,
            UsageKind::Repeated,
        ),
        ("make tsp --seed 1 --solve --seed", 6, UsageKind::Repeated),
        ("semigroups sequential --audit", 4, UsageKind::Missing),
        ("make tsp --seed 1", 5, UsageKind::Missing),
        ("make lad --size 1", 5, UsageKind::Missing),
        ("semigroups depth --audit --nothing", 4, UsageKind::Unknown),
    ];
    for (line, place, kind) in rows {
        let words = split(rt.alloc(), line)?;
        expect_fault(&rt, line, &words, place, kind);
    }
    Ok(())
}

#[test]
fn values_of_options(rt: HostRuntime) -> Result<(), Fail> {
    let rows = [
        ("knapsack depth k1 --depth", 5, UsageKind::Missing),
        ("knapsack steal k1 --chunk", 5, UsageKind::Missing),
        ("knapsack steal k1 --chunk two", 5, UsageKind::Unknown),
        ("knapsack steal k1 --chunk --report", 5, UsageKind::Unknown),
        ("knapsack depth k1 --workers 07", 5, UsageKind::NotNumber),
        ("knapsack depth k1 --workers 00", 5, UsageKind::NotNumber),
        ("knapsack depth k1 --depth +2", 5, UsageKind::NotNumber),
        ("knapsack depth k1 --depth -2", 5, UsageKind::NotNumber),
        ("knapsack depth k1 --depth ", 5, UsageKind::NotNumber),
        ("knapsack depth k1 --depth 2x", 5, UsageKind::NotNumber),
        (
            "knapsack depth k1 --depth \u{0662}",
            5,
            UsageKind::NotNumber,
        ),
        ("knapsack depth k1 --workers 0", 5, UsageKind::OutOfRange),
        ("knapsack depth k1 --workers 65", 5, UsageKind::OutOfRange),
        ("knapsack depth k1 --depth 0", 5, UsageKind::OutOfRange),
        ("knapsack depth k1 --depth 256", 5, UsageKind::OutOfRange),
        ("knapsack budget k1 --budget 0", 5, UsageKind::OutOfRange),
        (
            "knapsack budget k1 --budget 4294967296",
            5,
            UsageKind::OutOfRange,
        ),
        (
            "knapsack sequential k1 --target 1099511627775",
            5,
            UsageKind::OutOfRange,
        ),
        (
            "tsp sequential t1 --gap 1099511627775",
            5,
            UsageKind::OutOfRange,
        ),
        ("tsp sequential t1 --gap", 5, UsageKind::Missing),
        ("tsp sequential t1 --gap 1%", 5, UsageKind::NotNumber),
        ("semigroups sequential --genus 41", 4, UsageKind::OutOfRange),
        (
            "semigroups depth --depth 0 --nothing",
            4,
            UsageKind::OutOfRange,
        ),
        (
            "make tsp --seed 18446744073709551616",
            4,
            UsageKind::OutOfRange,
        ),
        (
            "make tsp --seed 100000000000000000000000000000000000000000",
            4,
            UsageKind::OutOfRange,
        ),
        ("make knapsack --size 0", 4, UsageKind::OutOfRange),
        ("make knapsack --size 257", 4, UsageKind::OutOfRange),
        ("make tsp --size 1", 4, UsageKind::OutOfRange),
        ("make tsp --size 61", 4, UsageKind::OutOfRange),
        ("make lad --size 1025", 4, UsageKind::OutOfRange),
    ];
    for (line, place, kind) in rows {
        let words = split(rt.alloc(), line)?;
        expect_fault(&rt, line, &words, place, kind);
    }
    Ok(())
}

/// A word is missing exactly right behind the last one, and an offence does not depend on the words behind it.
fn expect_lawful(rt: &impl Abort, words: &[String]) {
    let Err(usage) = read_words(words) else {
        return;
    };
    let place = usage.place as usize;
    assert!(rt;
        1 <= place && place <= words.len().saturating_add(1),
        "{words:?}: {usage:?}"
    );
    let is_missing = usage.kind == UsageKind::Missing;
    assert_eq!(rt; is_missing, place > words.len(), "{words:?}: {usage:?}");
    if let Some(front) = words.get(..place) {
        match read_words(front) {
            Ok(plan) => panic!(rt; "{words:?}: {plan:?}"),
            Err(again) => assert_eq!(rt; again, usage, "{words:?}"),
        }
    }
}

#[test]
fn short_lists(rt: HostRuntime) -> Result<(), Fail> {
    let alphabet = [
        "knapsack",
        "make",
        "depth",
        "k1",
        "--workers",
        "--depth",
        "--seed",
        "3",
        "0",
    ];
    for length in 0..5u32 {
        let mut lists = 1usize;
        for _ in 0..length {
            lists = lists.saturating_mul(alphabet.len());
        }
        for list in 0..lists {
            let mut number = list;
            let mut words = Vec::new(rt.alloc());
            for _ in 0..length {
                words.push(String::from_str(rt.alloc(), alphabet[number % alphabet.len()])?)?;
                number /= alphabet.len();
            }
            expect_lawful(&rt, &words);
        }
    }
    Ok(())
}
