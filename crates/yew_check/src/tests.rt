ghost use Rattle.std.specs.Prelude.{◌-◌};
ghost use Rattle.yew_check.specs.SmallTree.{numbers_from, first_of, end_of, children_of, rank_of, worth_of, bound_of, IsBelowEight, picks-ranked, picks-bounded, picks-countable, picks-root_rank};

use crate::laws::audits_are_read_back;
use crate::{AuditFile, Judged, judge, read_audit};
use std::alloc::Global;
use std::test::Fail;
use yew_laws::{Memory, Path, Problem};
use yew_lines::{push_line_end, push_spaced, push_text};
use yew_log::{Entry, Full, Recorder, What, audit_text};
use yew_text::{FileEnd, TextKind};

/// Items 4, 2, 3 and 1 of profit 50, 40, 30 and 10, one or two of them, the second only behind item 4. The worth is the
/// profit and 1, and the bounds are those of a knapsack of capacity 10.
#[derive(Clone, Copy)]
struct Picks;

/// The children from one number on, below another.
#[derive(Clone, Copy)]
struct Numbers {
    next: u32,
    end: u32,
}

impl Problem for Picks {
    type Node = u32;

    type Kids = Numbers;

    ghost root = { λ _. 0 };

    ghost children = { λ _. children_of };

    ghost rank = { λ _. rank_of };

    ghost sound = { λ _. IsBelowEight };

    ghost remaining = { λ _ kids. numbers_from kids.next (kids.end - kids.next) };

    ghost worth = { λ _. worth_of };

    ghost bound = { λ _. bound_of };

    ghost ranked = { λ _. picks-ranked };

    ghost root_rank = { λ _ _. picks-root_rank };

    ghost bounded = { λ _. picks-bounded };

    ghost countable = { λ _. picks-countable };

    fn root(&self, _alloc: Global) -> Result<u32, Memory> {
        Ok(0)
    }

    fn open(&self, _alloc: Global, node: u32) -> Result<Numbers, Memory> {
        if node == 0 {
            return Ok(Numbers { next: 1, end: 5 });
        }
        if node == 1 {
            return Ok(Numbers { next: 5, end: 8 });
        }
        Ok(Numbers { next: 8, end: 8 })
    }

    #[tactic(auto, using(crate::specs::SmallTree::first_left, crate::specs::SmallTree::none_left))]
    fn next(&self, _alloc: Global, kids: &mut Numbers) -> Result<Option<u32>, Memory> {
        if kids.next >= kids.end {
            return Ok(None);
        }
        let node = kids.next;
        kids.next += 1;
        Ok(Some(node))
    }

    fn worth(&self, node: &u32) -> u64 {
        let n = *node;
        if n == 0 {
            return 1;
        }
        if n == 1 {
            return 51;
        }
        if n == 2 {
            return 41;
        }
        if n == 3 {
            return 31;
        }
        if n == 4 {
            return 11;
        }
        if n == 5 {
            return 91;
        }
        if n == 6 {
            return 81;
        }
        61
    }

    fn bound(&self, node: &u32) -> u64 {
        let n = *node;
        if n == 0 {
            return 131;
        }
        if n == 1 {
            return 106;
        }
        if n == 2 {
            return 71;
        }
        if n == 3 {
            return 39;
        }
        if n == 4 {
            return 11;
        }
        if n == 5 {
            return 106;
        }
        if n == 6 {
            return 83;
        }
        61
    }
}

/// An answer and its audit, as a sequential search of a knapsack writes them.
const AUDIT: &str = "best 90
items 2 4
audit 1
worker 1
take /
visit / 1 0
visit /0 51 1
visit /0/0 91 51
end /0/0
cut /0/1 83 91
cut /0/2 61 91
end /0
cut /1 71 91
cut /2 39 91
cut /3 11 91
end /
done
";

/// What the judge says of a text, with a gap; a text that does not read is `None`.
fn judged(alloc: Global, text: &str, gap: u64) -> Result<Option<Judged>, Memory> {
    match read_audit(alloc, text.as_bytes()) {
        Ok(file) => Ok(Some(judge(alloc, &Picks, gap, &file)?)),
        Err(FileEnd::Memory) => Err(Memory),
        Err(_) => Ok(None),
    }
}

/// The audit with one part of its text in place of another.
fn changed(alloc: Global, old: &str, new: &str) -> Result<String, Fail> {
    Ok(AUDIT.replace(alloc, old, new)?)
}

/// Whether an entry is this cut.
fn is_cut(entry: &Entry, place: &Path, value: u64, read: u64) -> bool {
    match entry {
        Entry::Cut(path, bound, held) => path == place && *bound == value && *held == read,
        _ => false,
    }
}

/// The kind and the line of a refusal.
fn refusal(alloc: Global, text: &[u8]) -> Option<(TextKind, u64)> {
    match read_audit(alloc, text) {
        Err(FileEnd::Refused(fault)) => Some((fault.kind, fault.line)),
        _ => None,
    }
}

#[test]
fn the_audit_covers(rt: HostRuntime) -> Result<(), Fail> {
    let alloc = rt.alloc();
    assert_eq!(rt; judged(alloc, AUDIT, 0)?, Some(Judged::Covers));
    assert_eq!(rt; judged(alloc, AUDIT, 7)?, Some(Judged::Covers));
    Ok(())
}

#[test]
fn changed_audits_are_rejected(rt: HostRuntime) -> Result<(), Fail> {
    let alloc = rt.alloc();
    let rows = [
        ("cut /3 11 91\n", "", Judged::Cover),
        (
            "cut /1 71 91\n",
            "cut /1 71 91\ncut /1 71 91\n",
            Judged::Double,
        ),
        ("cut /1 71 91\n", "cut /1 71 60\n", Judged::Number),
        ("cut /1 71 91\n", "cut /1 72 91\n", Judged::Number),
        ("cut /1 71 91\n", "cut /1 71 0\n", Judged::Number),
        ("cut /1 71 91\n", "cut /4 71 91\n", Judged::Cover),
        ("cut /1 71 91\n", "cut /1/0 71 91\n", Judged::Cover),
        ("cut /1 71 91\n", "visit /1 41 91\n", Judged::Covers),
        ("cut /1 71 91\n", "visit /1 40 91\n", Judged::Number),
        ("visit /0/0 91 51\n", "visit /0/0 90 51\n", Judged::Number),
        ("visit /0/0 91 51\n", "visit /0/0 91 50\n", Judged::Number),
        ("visit /0/0 91 51\n", "visit /0/0 91 0\n", Judged::Covers),
        ("visit /0/0 91 51\n", "", Judged::Cover),
        ("visit /0 51 1\n", "", Judged::Cover),
        ("visit / 1 0\n", "", Judged::Cover),
        ("visit / 1 0\n", "cut / 131 0\n", Judged::Cover),
        ("visit / 1 0\n", "visit / 2 0\n", Judged::Number),
        ("take /\n", "", Judged::Covers),
        ("end /0\n", "spawn /7/7\n", Judged::Covers),
        (
            "cut /0/1 83 91\n",
            "worker 2\ncut /0/1 83 91\n",
            Judged::Covers,
        ),
    ];
    for (old, new, expected) in rows {
        let text = changed(alloc, old, new)?;
        assert_eq!(rt; judged(alloc, &text, 0)?, Some(expected));
    }
    Ok(())
}

#[test]
fn a_gap_permits_more(rt: HostRuntime) -> Result<(), Fail> {
    let alloc = rt.alloc();
    let text = changed(alloc, "cut /1 71 91\n", "cut /1 71 51\n")?;
    assert_eq!(rt; judged(alloc, &text, 0)?, Some(Judged::Number));
    assert_eq!(rt; judged(alloc, &text, 19)?, Some(Judged::Number));
    assert_eq!(rt; judged(alloc, &text, 20)?, Some(Judged::Covers));
    assert_eq!(rt; judged(alloc, &text, u64::MAX)?, Some(Judged::Covers));
    Ok(())
}

#[test]
fn first_offences_are_told(rt: HostRuntime) -> Result<(), Fail> {
    let alloc = rt.alloc();
    let rows = [
        ("done\n", "", TextKind::EndsEarly, 17),
        ("audit 1\n", "audit 2\n", TextKind::EndsEarly, 18),
        ("done\n", "done\n\n", TextKind::Surplus, 18),
        ("done\n", "done\nend /", TextKind::Surplus, 18),
        ("done\n", "don", TextKind::BadLine, 17),
        ("worker 1\n", "worker 2\n", TextKind::BadLine, 4),
        ("worker 1\n", "worker 01\n", TextKind::BadLine, 4),
        ("worker 1\n", "", TextKind::BadLine, 4),
        ("take /\n", "take\n", TextKind::BadLine, 5),
        ("take /\n", "take / \n", TextKind::BadLine, 5),
        ("take /\n", "take /0/\n", TextKind::BadLine, 5),
        ("take /\n", "taken /\n", TextKind::BadLine, 5),
        ("visit /0 51 1\n", "visit /0 051 1\n", TextKind::BadLine, 7),
        ("visit /0 51 1\n", "visit /0 51\n", TextKind::BadLine, 7),
        ("visit /0 51 1\n", "visit /0 51 1 1\n", TextKind::BadLine, 7),
        ("end /0\n", "end /4294967295\n", TextKind::BadLine, 12),
        ("end /0\n", "end 0\n", TextKind::BadLine, 12),
        (
            "cut /3 11 91\n",
            "cut /3 9223372036854775808 91\n",
            TextKind::BadLine,
            15,
        ),
        ("end /\n", "\n", TextKind::BadLine, 16),
    ];
    for (old, new, kind, line) in rows {
        let text = changed(alloc, old, new)?;
        assert_eq!(rt; refusal(alloc, text.as_bytes()), Some((kind, line)));
    }
    assert_eq!(rt; refusal(alloc, b""), Some((TextKind::EndsEarly, 1)));
    assert_eq!(rt; refusal(alloc, b"audit 1"), Some((TextKind::EndsEarly, 1)));
    assert_eq!(rt;
        refusal(alloc, b"audit 1\nworker 1\n"),
        Some((TextKind::EndsEarly, 3))
    );
    Ok(())
}

#[test]
fn unusual_audits_are_read(rt: HostRuntime) -> Result<(), Fail> {
    let alloc = rt.alloc();
    let rows = [
        ("done\n", "done", Some(Judged::Covers)),
        ("end /0\n", "hand /4294967294/0\n", Some(Judged::Covers)),
        (
            "cut /3 11 91\n",
            "cut /3 9223372036854775807 91\n",
            Some(Judged::Number),
        ),
        ("best 90\n", "audit\n", Some(Judged::Covers)),
    ];
    for (old, new, expected) in rows {
        let text = changed(alloc, old, new)?;
        assert_eq!(rt; judged(alloc, &text, 0)?, expected);
    }
    assert_eq!(rt; judged(alloc, "audit 1\ndone\n", 0)?, Some(Judged::Cover));
    Ok(())
}

/// A text of so many workers without entries.
fn idle_workers(alloc: Global, count: u64) -> Result<Vec<u8>, Memory> {
    let mut text = Vec::new(alloc);
    push_text(&mut text, b"audit 1\n")?;
    for k in 0..count {
        push_text(&mut text, b"worker")?;
        push_spaced(&mut text, k + 1)?;
        push_line_end(&mut text)?;
    }
    push_text(&mut text, b"done\n")?;
    Ok(text)
}

#[test]
fn at_most_64_workers_are_read(rt: HostRuntime) -> Result<(), Fail> {
    let alloc = rt.alloc();
    let most = idle_workers(alloc, 64)?;
    let file = read_audit(alloc, &most)?;
    assert_eq!(rt; file.logs().len(), 64);
    let past = idle_workers(alloc, 65)?;
    assert_eq!(rt; refusal(alloc, &past), Some((TextKind::BadLine, 66)));
    Ok(())
}

#[test]
fn what_is_written_is_read_back(rt: HostRuntime) -> Result<(), Fail> {
    let alloc = rt.alloc();
    let mut log = Full::fresh(alloc, 1)?;
    let root = Path::empty(alloc, 4)?;
    let far = root.child(7)?.child(4294967294)?;
    log.note(What::Taken, &root, 0, 0)?;
    log.note(What::Visited, &root, 1, 0)?;
    log.note(What::Spawned, &far, 0, 0)?;
    log.note(What::Cut, &far, 9223372036854775807, 1)?;
    log.note(What::Ended, &root, 0, 0)?;
    let logs = vec![in alloc; log]?;
    let mut text = Vec::from_slice(alloc, b"best 0\n")?;
    text.extend_from_slice(&audit_text(alloc, &logs)?)?;
    let file = read_audit(alloc, &text)?;
    assert_eq!(rt; file.head(), b"best 0\n".as_slice());
    assert_eq!(rt; file.logs().len(), 1);
    let read = &file.logs()[0];
    assert_eq!(rt; read.len(), 5);
    assert!(rt; is_cut(&read[3], &far, 9223372036854775807, 1));
    audits_are_read_back();
    Ok(())
}

#[test]
fn logs_are_judged_as_they_are(rt: HostRuntime) -> Result<(), Fail> {
    let alloc = rt.alloc();
    let root = Path::empty(alloc, 0)?;
    let log = vec![in alloc; Entry::Visited(root, 1, 0)]?;
    let file = AuditFile::new(Vec::new(alloc), vec![in alloc; log]?);
    assert!(rt; file.head().is_empty());
    assert_eq!(rt; judge(alloc, &Picks, 0, &file)?, Judged::Cover);
    Ok(())
}
