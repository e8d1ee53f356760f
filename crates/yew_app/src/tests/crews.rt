//! Runs by several workers: reports, meetings, and logs that are full.

use super::{CALM, expect, lines, run_crew, run_past};
use std::sync::Wait;
use std::sync::atomic::{AtomicU64, Ordering};
use std::test::Fail;
use std::thread::{Threads, yield_now};
use yew_io::Gate;
use yew_lines::{push_line_end, push_number, push_spaced};

/// A gate for two workers that knows which of them have called it after the first call. The third call waits until both
/// have, for so many turns at most.
#[derive(Drop)]
struct Meeting {
    turns: u64,
    calls: AtomicU64,
    first: AtomicU64,
    second: AtomicU64,
}

impl Meeting {
    /// Whether both workers have called.
    fn is_held(&self) -> bool {
        self.first.load(Ordering::SeqCst) > 0 && self.second.load(Ordering::SeqCst) > 0
    }

    /// Waits until both workers have called.
    fn wait(&self) {
        for _turn in 0..self.turns {
            if self.is_held() {
                return;
            }
            yield_now();
        }
    }
}

impl Gate for Meeting {
    fn at<R: Threads + Wait>(&self, _rt: &R, worker: u32, _taken: u64) {
        let call = self.calls.fetch_add(1, Ordering::SeqCst);
        if call == 0 {
            return;
        }
        match worker {
            1 => self.first.store(1, Ordering::SeqCst),
            2 => self.second.store(1, Ordering::SeqCst),
            _ => {}
        }
        if call == 2 {
            self.wait();
        }
    }
}

// The first two tasks are the root and its only child. Whichever worker takes the third, a fourth is there for the other.
#[test]
fn two_workers_take_part(rt: HostRuntime) -> Result<(), Fail> {
    let alloc = rt.alloc();
    let gate = Meeting {
        turns: 10000000,
        calls: AtomicU64::new(0),
        first: AtomicU64::new(0),
        second: AtomicU64::new(0),
    };
    let line = "semigroups depth --genus 12 --depth 6 --workers 2";
    let ended = run_past(&rt, alloc, line, &[], CALM, &gate)?;
    let counts = lines(
        alloc,
        &[
            "0 1", "1 1", "2 2", "3 4", "4 7", "5 12", "6 23", "7 39", "8 67", "9 118", "10 204",
            "11 343", "12 592",
        ],
    )?;
    expect(&rt, line, &ended, 0, &counts, "");
    assert!(rt; gate.is_held());
    Ok(())
}

// By depth 2 the root, its child and the two children of that are tasks, in every schedule.
#[test]
fn reports_by_depth(rt: HostRuntime) -> Result<(), Fail> {
    let alloc = rt.alloc();
    let line = "semigroups depth --genus 5 --depth 2 --workers 3 --report";
    let wanted = lines(
        alloc,
        &[
            "0 1",
            "1 1",
            "2 2",
            "3 4",
            "4 7",
            "5 12",
            "workers 3",
            "taken 4",
            "spawned 3",
            "handed 0",
            "visited 27",
            "cut 0",
        ],
    )?;
    for _round in 0..20 {
        let ended = run_crew(&rt, alloc, line, &[], CALM)?;
        expect(&rt, line, &ended, 0, &wanted, "");
    }
    Ok(())
}

// The numbers of semigroups of genus 0 to 20 (OEIS, A007323), and their sum. How many tasks are handed over depends on the
// schedule.
#[test]
fn the_greatest_crew_reports(rt: HostRuntime) -> Result<(), Fail> {
    let alloc = rt.alloc();
    let counts = [
        1, 1, 2, 4, 7, 12, 23, 39, 67, 118, 204, 343, 592, 1001, 1693, 2857, 4806, 8045, 13467,
        22464, 37396,
    ];
    let mut head = Vec::new(alloc);
    for (genus, count) in counts.iter().enumerate() {
        push_number(&mut head, genus as u64)?;
        push_spaced(&mut head, *count)?;
        push_line_end(&mut head)?;
    }
    head.extend_from_slice(b"workers 64\ntaken ")?;
    let line = "semigroups steal --genus 20 --chunk all --workers 64 --report";
    let ended = run_crew(&rt, alloc, line, &[], CALM)?;
    assert_eq!(rt; ended.status, 0);
    assert!(rt; ended.err.is_empty());
    assert!(rt; ended.out.starts_with(&head));
    assert!(rt; ended.out.as_slice().ends_with(b"\nvisited 93142\ncut 0\n"));
    Ok(())
}

// The trees of genus 23 below the tasks of depth 3 have more entries than two logs have room for.
#[test]
fn an_audit_of_two_workers_is_full(rt: HostRuntime) -> Result<(), Fail> {
    let line = "semigroups depth --genus 23 --depth 3 --workers 2 --audit";
    let ended = run_crew(&rt, rt.alloc(), line, &[], CALM)?;
    assert_eq!(rt; ended.status, 4);
    assert!(rt; ended.out.is_empty());
    let err = ended.err.as_slice();
    assert!(rt;
        err.starts_with(b"yew: worker 1: audit full at ")
            || err.starts_with(b"yew: worker 2: audit full at ")
    );
    assert!(rt; err.ends_with(b" numbers\n"));
    Ok(())
}
