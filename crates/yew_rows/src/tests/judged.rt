//! The judge of logs on logs that are written by hand.

use super::increasing::Increasing;
use super::judging::are_right_logs;
use std::alloc::Global;
use std::test::Fail;
use yew_kinds::Kind;
use yew_laws::{Memory, Path};
use yew_log::What::{Cut, Ended, Handed, Spawned, Taken, Visited};
use yew_log::{Full, Recorder, What};

/// An entry: what happened, at which child of the root or at the root itself, and two numbers.
type Line = (What, Option<u32>, u64, u64);

/// Whether the judge takes this log as that of a worker of this number who searched the root, of worth 1 and bound 2, and
/// its child, of worth 1 and bound 1, for a best node.
fn is_taken(alloc: Global, worker: u32, lines: &[Line]) -> Result<bool, Memory> {
    let tree = Increasing {
        parents: Vec::from_slice(alloc, &[0, 0])?,
        worths: Vec::from_slice(alloc, &[1, 1])?,
    };
    let root = Path::empty(alloc, 1)?;
    let mut log = Full::fresh(alloc, worker)?;
    for (what, child, first, second) in lines {
        let noted = match child {
            Some(number) => log.note(*what, &root.child(*number)?, *first, *second),
            None => log.note(*what, &root, *first, *second),
        };
        if noted.is_err() {
            return Err(Memory);
        }
    }
    are_right_logs(alloc, &tree, Kind::Best, &[log])
}

#[test]
fn right_logs_are_taken(rt: HostRuntime) -> Result<(), Fail> {
    for lines in [
        [
            (Taken, None, 0, 0),
            (Visited, None, 1, 0),
            (Cut, Some(0), 1, 1),
            (Ended, None, 0, 0),
        ]
        .as_slice(),
        [
            (Taken, None, 0, 0),
            (Visited, None, 1, 0),
            (Spawned, Some(0), 0, 0),
            (Ended, None, 0, 0),
            (Taken, Some(0), 0, 0),
            (Visited, Some(0), 1, 1),
            (Ended, Some(0), 0, 0),
        ]
        .as_slice(),
        [
            (Taken, None, 0, 0),
            (Visited, None, 1, 0),
            (Handed, Some(0), 0, 0),
            (Ended, None, 0, 0),
            (Taken, Some(0), 0, 0),
            (Cut, Some(0), 1, 1),
        ]
        .as_slice(),
    ] {
        assert!(rt; is_taken(rt.alloc(), 1, lines)?);
        assert!(rt; !is_taken(rt.alloc(), 2, lines)?);
    }
    Ok(())
}

#[test]
fn wrong_logs_are_not_taken(rt: HostRuntime) -> Result<(), Fail> {
    for (what, lines) in [
        ("nothing", [].as_slice()),
        (
            "no entry of the child",
            [
                (Taken, None, 0, 0),
                (Visited, None, 1, 0),
                (Ended, None, 0, 0),
            ]
            .as_slice(),
        ),
        (
            "two cuts",
            [
                (Taken, None, 0, 0),
                (Visited, None, 1, 0),
                (Cut, Some(0), 1, 1),
                (Cut, Some(0), 1, 1),
                (Ended, None, 0, 0),
            ]
            .as_slice(),
        ),
        (
            "a visit and a cut",
            [
                (Taken, None, 0, 0),
                (Visited, None, 1, 0),
                (Visited, Some(0), 1, 1),
                (Ended, Some(0), 0, 0),
                (Cut, Some(0), 1, 1),
                (Ended, None, 0, 0),
            ]
            .as_slice(),
        ),
        (
            "a cut whose bound is above the held value",
            [
                (Taken, None, 0, 0),
                (Visited, None, 1, 0),
                (Cut, Some(0), 1, 0),
                (Ended, None, 0, 0),
            ]
            .as_slice(),
        ),
        (
            "a held value that no visit has as its worth",
            [
                (Taken, None, 0, 0),
                (Visited, None, 1, 0),
                (Cut, Some(0), 1, 2),
                (Ended, None, 0, 0),
            ]
            .as_slice(),
        ),
        (
            "another bound",
            [
                (Taken, None, 0, 0),
                (Visited, None, 1, 0),
                (Cut, Some(0), 0, 1),
                (Ended, None, 0, 0),
            ]
            .as_slice(),
        ),
        (
            "another worth",
            [
                (Taken, None, 0, 0),
                (Visited, None, 2, 0),
                (Cut, Some(0), 1, 2),
                (Ended, None, 0, 0),
            ]
            .as_slice(),
        ),
        (
            "a cut of the root",
            [(Taken, None, 0, 0), (Cut, None, 2, 2)].as_slice(),
        ),
        (
            "a child that is not there",
            [
                (Taken, None, 0, 0),
                (Visited, None, 1, 0),
                (Cut, Some(0), 1, 1),
                (Cut, Some(1), 1, 1),
                (Ended, None, 0, 0),
            ]
            .as_slice(),
        ),
        (
            "no end",
            [
                (Taken, None, 0, 0),
                (Visited, None, 1, 0),
                (Cut, Some(0), 1, 1),
            ]
            .as_slice(),
        ),
        (
            "a task that nobody took",
            [
                (Taken, None, 0, 0),
                (Visited, None, 1, 0),
                (Handed, Some(0), 0, 0),
                (Cut, Some(0), 1, 1),
                (Ended, None, 0, 0),
            ]
            .as_slice(),
        ),
        (
            "a task that nobody sent",
            [
                (Taken, None, 0, 0),
                (Visited, None, 1, 0),
                (Ended, None, 0, 0),
                (Taken, Some(0), 0, 0),
                (Cut, Some(0), 1, 1),
            ]
            .as_slice(),
        ),
        (
            "a root that nobody took",
            [
                (Visited, None, 1, 0),
                (Cut, Some(0), 1, 1),
                (Ended, None, 0, 0),
            ]
            .as_slice(),
        ),
    ] {
        assert!(rt; !is_taken(rt.alloc(), 1, lines)?, "{what}");
    }
    Ok(())
}
