//! Whole runs over files and sinks in memory.

mod audits;
mod crews;
mod faults;
mod flow;
mod gaps;
mod graphs;
mod hostile;
mod knapsack;
mod logs;
mod made;
mod ordered;
mod orders;
mod outcomes;
mod semigroups;
mod tours;
mod vectors;
mod worked;

use crate::run_plain;
use std::alloc::Global;
use std::process::Abort;
use std::sync::Wait;
use std::test::Fail;
use std::thread::Threads;
use yew_io::{Gate, MemoryShelf, MemorySink, OpenGate};
use yew_lines::{push_line_end, push_text};

const FOUR: &[u8] = b"4 10\n10 5\n40 4\n30 6\n50 3\n";

/// The head of a file of three cities or four, up to its weights.
const THREE_CITIES: &str =
    "NAME: t\nTYPE: ATSP\nDIMENSION: 3\nEDGE_WEIGHT_TYPE: EXPLICIT\nEDGE_WEIGHT_FORMAT: FULL_MATRIX\nEDGE_WEIGHT_SECTION\n";

const FOUR_CITIES: &str =
    "NAME: t\nTYPE: TSP\nDIMENSION: 4\nEDGE_WEIGHT_TYPE: EXPLICIT\nEDGE_WEIGHT_FORMAT: FULL_MATRIX\nEDGE_WEIGHT_SECTION\n";

const TRIANGLE: &[u8] = b"3\n2 1 2\n2 0 2\n2 0 1\n";

const FOUR_CYCLE: &[u8] = b"4\n2 1 3\n2 0 2\n2 1 3\n2 0 2\n";

const PATH_OF_THREE: &[u8] = b"3\n1 1\n2 0 2\n1 1\n";

/// What a run left: its status, and what the two sinks have.
#[derive(Drop)]
struct Ended {
    status: u8,
    out: Vec<u8>,
    err: Vec<u8>,
}

/// How the outside behaves: the numbers of the calls that fail, how many bytes the sink of the answer takes a call, and
/// the rooms of the two sinks.
#[derive(Clone, Copy)]
struct Outside<'a> {
    reads: &'a [u64],
    writes: &'a [u64],
    says: &'a [u64],
    most: usize,
    room: usize,
    room_to_say: usize,
}

const CALM: Outside<'static> = Outside {
    reads: &[],
    writes: &[],
    says: &[],
    most: 1 << 20,
    room: 1 << 16,
    room_to_say: 1 << 12,
};

/// The words of a line.
fn words_of(alloc: Global, line: &str) -> Result<Vec<String>, Fail> {
    let mut words = Vec::new(alloc);
    for word in line.split(' ') {
        if !word.is_empty() {
            words.push(String::from_str(alloc, word)?)?;
        }
    }
    Ok(words)
}

/// The files, and copies of their bytes.
fn pairs_of(alloc: Global, files: &[(&str, &[u8])]) -> Result<Vec<(String, Vec<u8>)>, Fail> {
    let mut pairs = Vec::new(alloc);
    for (name, bytes) in files {
        pairs.push((String::from_str(alloc, name)?, bytes.to_vec(alloc)?))?;
    }
    Ok(pairs)
}

/// The sink of the answer.
fn answers(alloc: Global, outside: Outside) -> Result<MemorySink, Fail> {
    let writes = outside.writes.to_vec(alloc)?;
    Ok(MemorySink::new(alloc, outside.room, outside.most.max(1), writes)?)
}

/// The sink of the line of a refusal.
fn refusals(alloc: Global, outside: Outside) -> Result<MemorySink, Fail> {
    let says = outside.says.to_vec(alloc)?;
    Ok(MemorySink::new(alloc, outside.room_to_say, 1 << 12, says)?)
}

/// Runs a line of words with one worker.
fn run(
    alloc: Global,
    line: &str,
    files: &[(&str, &[u8])],
    outside: Outside,
) -> Result<Ended, Fail> {
    let words = words_of(alloc, line)?;
    let mut shelf = MemoryShelf::new(pairs_of(alloc, files)?, outside.reads.to_vec(alloc)?);
    let mut out = answers(alloc, outside)?;
    let mut err = refusals(alloc, outside)?;
    let status = run_plain(alloc, &words, &mut shelf, &mut out, &mut err);
    Ok(Ended {
        status,
        out: out.written().to_vec(alloc)?,
        err: err.written().to_vec(alloc)?,
    })
}

/// Runs a line of words with as many workers as they say, who pass this gate.
fn run_past<R: Threads + Wait + Sync, G: Gate>(
    rt: &R,
    alloc: Global,
    line: &str,
    files: &[(&str, &[u8])],
    outside: Outside,
    gate: &G,
) -> Result<Ended, Fail> {
    let words = words_of(alloc, line)?;
    let mut shelf = MemoryShelf::new(pairs_of(alloc, files)?, outside.reads.to_vec(alloc)?);
    let mut out = answers(alloc, outside)?;
    let mut err = refusals(alloc, outside)?;
    let status = crate::run(rt, alloc, &words, &mut shelf, &mut out, &mut err, gate);
    Ok(Ended {
        status,
        out: out.written().to_vec(alloc)?,
        err: err.written().to_vec(alloc)?,
    })
}

/// Runs a line of words with as many workers as they say.
fn run_crew<R: Threads + Wait + Sync>(
    rt: &R,
    alloc: Global,
    line: &str,
    files: &[(&str, &[u8])],
    outside: Outside,
) -> Result<Ended, Fail> {
    run_past(rt, alloc, line, files, outside, &OpenGate)
}

/// Checks what a run left.
fn expect(rt: &impl Abort, line: &str, ended: &Ended, status: u8, out: &[u8], err: &str) {
    assert_eq!(rt; ended.status, status, "{line}");
    assert_eq!(rt; ended.out.as_slice(), out, "{line}");
    assert_eq!(rt; ended.err.as_slice(), err.as_bytes(), "{line}");
}

/// The parts one after another, as a line of words.
fn spelled(alloc: Global, parts: &[&str]) -> Result<String, Fail> {
    let mut line = String::new(alloc);
    for part in parts {
        line.push_str(part)?;
    }
    Ok(line)
}

/// The lines, each with its end.
fn lines(alloc: Global, lines: &[&str]) -> Result<Vec<u8>, Fail> {
    let mut text = Vec::new(alloc);
    for line in lines {
        push_text(&mut text, line.as_bytes())?;
        push_line_end(&mut text)?;
    }
    Ok(text)
}

/// The parts one after another.
fn joined(alloc: Global, parts: &[&str]) -> Result<Vec<u8>, Fail> {
    let mut text = Vec::new(alloc);
    for part in parts {
        push_text(&mut text, part.as_bytes())?;
    }
    Ok(text)
}

/// A number below a thousand, from three.
fn mixed(seed: u64, from: u64, to: u64) -> u64 {
    let mut draw = seed
        .wrapping_mul(6364136223846793005)
        .wrapping_add(from.wrapping_mul(1442695040888963407))
        .wrapping_add(to.wrapping_mul(3935559000370003845));
    draw ^= draw >> 29;
    draw = draw.wrapping_mul(13787848793156543929);
    (draw >> 32) % 1000
}
