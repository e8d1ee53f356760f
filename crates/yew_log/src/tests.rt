use crate::entry::count;
use crate::{Counts, Entry, Full, LogEnd, Recorder, Totals, What, audit_text};
use std::alloc::Global;
use std::test::Fail;
use yew_laws::Path;

type Row = (What, &'static [u32], u64, u64);

// A knapsack of four items under a bound: five nodes are cut.
const SEARCH: [Row; 12] = [
    (What::Taken, &[], 5, 6),
    (What::Visited, &[], 1, 0),
    (What::Visited, &[0], 51, 1),
    (What::Visited, &[0, 0], 91, 51),
    (What::Ended, &[0, 0], 7, 8),
    (What::Cut, &[0, 1], 83, 91),
    (What::Cut, &[0, 2], 61, 91),
    (What::Ended, &[0], 0, 0),
    (What::Cut, &[1], 71, 91),
    (What::Cut, &[2], 39, 91),
    (What::Cut, &[3], 11, 91),
    (What::Ended, &[], 0, 0),
];

const SEARCH_TEXT: &str = "audit 1
worker 1
take /
visit / 1 0
visit /0 51 1
visit /0/0 91 51
end /0/0
cut /0/1 83 91
cut /0/2 61 91
end /0
cut /1 71 91
cut /2 39 91
cut /3 11 91
end /
worker 2
take /10/4294967295
spawn /10/4294967295/0
hand /7
done
";

const NOTHING: Totals = Totals {
    taken: 0,
    spawned: 0,
    handed: 0,
    visited: 0,
    cut: 0,
};

fn path_of(alloc: Global, numbers: &[u32]) -> Result<Path, Fail> {
    let mut path = Path::empty(alloc, 0)?;
    for number in numbers {
        path = path.child(*number)?;
    }
    Ok(path)
}

fn recorded<R: Recorder>(alloc: Global, worker: u32, rows: &[Row]) -> Result<R, Fail> {
    let mut log = R::fresh(alloc, worker)?;
    for (what, numbers, first, second) in rows {
        log.note(*what, &path_of(alloc, numbers)?, *first, *second)?;
    }
    Ok(log)
}

#[test]
fn one_entry(rt: HostRuntime) -> Result<(), Fail> {
    let log: Full = recorded(rt.alloc(), 7, &[(What::Taken, &[], 1, 2)])?;
    assert_eq!(rt; log.entries().len(), 1);
    if let Entry::Taken(path) = &log.entries()[0] {
        assert!(rt; path.numbers().is_empty());
    } else {
        panic!(rt; "another entry");
    }
    assert_eq!(rt;
        log.totals(),
        Totals {
            taken: 1,
            ..NOTHING
        }
    );
    assert_eq!(rt; log.worker(), 7);
    Ok(())
}

#[test]
fn texts(rt: HostRuntime) -> Result<(), Fail> {
    let empty = [Full::fresh(rt.alloc(), 1)?];
    assert_eq!(rt;
        audit_text(rt.alloc(), &empty)?.as_slice(),
        b"audit 1\nworker 1\ndone\n".as_slice()
    );
    assert_eq!(rt;
        audit_text(rt.alloc(), &[])?.as_slice(),
        b"audit 1\ndone\n".as_slice()
    );
    let sent = [
        (What::Taken, [10, u32::MAX].as_slice(), 0, 0),
        (What::Spawned, [10, u32::MAX, 0].as_slice(), 3, 4),
        (What::Handed, [7].as_slice(), 0, 0),
    ];
    let logs = [
        recorded::<Full>(rt.alloc(), 1, &SEARCH)?,
        recorded::<Full>(rt.alloc(), 2, &sent)?,
    ];
    assert_eq!(rt;
        audit_text(rt.alloc(), &logs)?.as_slice(),
        SEARCH_TEXT.as_bytes()
    );
    Ok(())
}

#[test]
fn counts_as_full(rt: HostRuntime) -> Result<(), Fail> {
    let full: Full = recorded(rt.alloc(), 1, &SEARCH)?;
    let counts: Counts = recorded(rt.alloc(), 1, &SEARCH)?;
    let wanted = Totals {
        taken: 1,
        visited: 3,
        cut: 5,
        ..NOTHING
    };
    assert_eq!(rt; full.totals(), wanted);
    assert_eq!(rt; counts.totals(), wanted);
    let mut last = Totals {
        visited: u64::MAX,
        ..NOTHING
    };
    count(&mut last, What::Visited);
    assert_eq!(rt; last.visited, u64::MAX);
    Ok(())
}

#[test]
fn full_at_its_limits(rt: HostRuntime) -> Result<(), Fail> {
    let root = path_of(rt.alloc(), &[])?;
    let mut log = Full::fresh(rt.alloc(), 1)?;
    for _ in 0..262144 {
        log.note(What::Ended, &root, 0, 0)?;
    }
    let end = LogEnd::Full {
        entries: 262144,
        numbers: 0,
    };
    assert_eq!(rt; log.note(What::Visited, &root, 0, 0), Err(end));
    assert_eq!(rt; log.totals(), NOTHING);
    assert_eq!(rt; log.entries().len(), 262144);

    let long = path_of(rt.alloc(), &[1; 4096])?;
    let short = path_of(rt.alloc(), &[1])?;
    log = Full::fresh(rt.alloc(), 1)?;
    for _ in 0..1024 {
        log.note(What::Spawned, &long, 0, 0)?;
    }
    let end = LogEnd::Full {
        entries: 1024,
        numbers: 4194304,
    };
    assert_eq!(rt; log.note(What::Spawned, &short, 0, 0), Err(end));
    log.note(What::Spawned, &root, 0, 0)?;
    assert_eq!(rt; log.totals().spawned, 1025);
    Ok(())
}
