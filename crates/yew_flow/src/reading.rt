//! The reader of files of flow shops.
//!
//! The file is the number of jobs and the number of machines, neither of which is 0, then for each job its times on the
//! machines in order, then the end. Line breaks have no meaning. This file is the program's own: it is what the files of
//! Taillard's instances have behind their heads, with the jobs as rows.

ghost use Rattle.std.specs.Prelude.{◌≡◌, ◌≤◌, ◌∷◌, [], IfOk, IfErr, MatchResult};
ghost use Rattle.std.specs.Option.{option_map};
ghost use Rattle.yew_text.specs.Grammar.{first_past};
ghost use Rattle.yew_text.specs.Position.{SameText};
ghost use Rattle.yew_flow.specs.Files.{head_limits, IsFlowFile, HasNonePast, EndsReading};
ghost use Rattle.yew_flow.specs.Instance.{IsWithinLimits};
ghost use Rattle.yew_flow.specs.Nodes.{root_of, IsNode};
ghost use Rattle.yew_flow.specs.Reading.{limited, TakesCount, KeepsTime, TimesRead, EndsTimes};

use crate::flow::Flow;
use std::alloc::Global;
use yew_laws::Memory;
use yew_text::{Cursor, FileEnd, TextFault, TextKind};

/// The greatest number of jobs.
const MOST_JOBS: u64 = 64;

/// The greatest number of machines.
const MOST_MACHINES: u64 = 32;

/// The greatest time of a job on a machine, 2^20 - 1.
const MOST_TIME: u64 = 1_048_575;

/// A number past its limit.
#[derive(Clone, Copy, Debug)]
struct Past {
    number: u64,
    limit: u64,
}

/// Reads a number of jobs or of machines, which may not be 0.
fn read_count(cursor: &mut Cursor<'_>) -> Result<u64, TextFault>
    ensures taken { TakesCount cursor.old result cursor.new }
    ensures same { SameText cursor.old cursor.new }
{
    let number = cursor.number()?;
    if number == 0 {
        return Err(TextFault {
            kind: TextKind::BadLine,
            line: cursor.line(),
        });
    }
    Ok(number)
}

/// The first of the two numbers at the head of a file that is past its limit.
fn past_head(jobs: u64, machines: u64) -> Option<Past>
    ensures { option_map limited result ≡ first_past (head_limits jobs machines) }
{
    if jobs > MOST_JOBS {
        return Some(Past {
            number: jobs,
            limit: MOST_JOBS,
        });
    }
    if machines > MOST_MACHINES {
        return Some(Past {
            number: machines,
            limit: MOST_MACHINES,
        });
    }
    None
}

/// Keeps a time, while no number of the file is past its limit, and gives the first number that is.
fn keep_time(times: &mut Vec<u32>, past: Option<Past>, time: u64) -> Result<Option<Past>, Memory>
    ensures { IfOk result (λ after. KeepsTime times.old.items past time times.new.items after) }
{
    if past.is_some() {
        return Ok(past);
    }
    if time > MOST_TIME {
        return Ok(Some(Past {
            number: time,
            limit: MOST_TIME,
        }));
    }
    times.push(time as u32)?;
    Ok(None)
}

/// The times of a file, kept while no number is past its limit, and the first number that is.
#[derive(Drop)]
struct ReadTimes {
    times: Vec<u32>,
    past: Option<Past>,
}

/// Reads the times of so many jobs on so many machines.
fn read_times(
    alloc: Global,
    cursor: &mut Cursor<'_>,
    jobs: u64,
    machines: u64,
) -> Result<ReadTimes, FileEnd>
    ensures read { MatchResult result (λ r. TimesRead cursor.old jobs machines r.times.items r.past cursor.new) (λ end. EndsTimes cursor.old jobs machines end) }
    ensures same { SameText cursor.old cursor.new }
{
    let mut times = Vec::new(alloc);
    let mut past = past_head(jobs, machines);
    for _k in 0..jobs as u128 * machines as u128 {
        let time = match cursor.number() {
            Ok(number) => number,
            Err(fault) => return Err(FileEnd::Refused(fault)),
        };
        past = match keep_time(&mut times, past, time) {
            Ok(past) => past,
            Err(_) => return Err(FileEnd::Memory),
        };
    }
    Ok(ReadTimes { times, past })
}

/// The problem of a file of a flow shop.
///
/// # Errors
///
/// `Refused` with the first offence of a file that is not in its grammar, and of one that is, `TooLarge` with the first
/// number past its limit: 64 jobs, 32 machines, and a time of 2^20 - 1. A number of jobs or of machines that is 0 is a bad
/// line. `Memory` where the problem finds no room.
pub fn read(alloc: Global, bytes: &[u8]) -> Result<Flow, FileEnd>
    ensures file { IfOk result (λ problem. IsFlowFile bytes.now problem) }
    ensures none_past { IfOk result (λ problem. HasNonePast bytes.now) }
    ensures limits { IfOk result (λ problem. IsWithinLimits problem) }
    ensures root { IfOk result (λ problem. IsNode problem (root_of problem)) }
    ensures end { IfErr result (λ end. EndsReading bytes.now end) }
{
    let mut cursor = Cursor::new(bytes);
    let jobs = match read_count(&mut cursor) {
        Ok(number) => number,
        Err(fault) => return Err(FileEnd::Refused(fault)),
    };
    let machines = match read_count(&mut cursor) {
        Ok(number) => number,
        Err(fault) => return Err(FileEnd::Refused(fault)),
    };
    let ReadTimes { times, past } = match read_times(alloc, &mut cursor, jobs, machines) {
        Ok(read) => read,
        Err(end) => return Err(end),
    };
    match cursor.end() {
        Ok(()) => {}
        Err(fault) => return Err(FileEnd::Refused(fault)),
    }
    if let Some(past) = past {
        return Err(FileEnd::TooLarge {
            number: past.number,
            limit: past.limit,
        });
    }
    match Flow::new(jobs as usize, machines as usize, times) {
        Ok(problem) => Ok(problem),
        Err(_) => Err(FileEnd::Memory),
    }
}
