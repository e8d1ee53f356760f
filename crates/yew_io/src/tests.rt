//! Worked rows of the outside in memory.
ghost use Rattle.std.specs.Prelude.{◌<◌};

use super::*;
use std::alloc::{AllocError, Global};
use std::test::Fail;

const TEXT: &[u8] = b"yes\nmap 1 0 2\n";

fn shelf_of(
    alloc: Global,
    files: &[(&str, &str)],
    fails: &[u64],
) -> Result<MemoryShelf<'static>, AllocError> {
    let mut pairs = Vec::new(alloc);
    for (name, text) in files {
        let bytes = text.as_bytes().to_vec(alloc)?;
        pairs.push((String::from_str(alloc, name)?, bytes))?;
    }
    Ok(MemoryShelf::new(pairs, fails.to_vec(alloc)?))
}

fn sink_of(
    alloc: Global,
    room: usize,
    most: usize,
    fails: &[u64],
) -> Result<MemorySink, &'static str>
    requires { 0 < most }
{
    let fails = fails.to_vec(alloc).ok().ok_or("memory")?;
    MemorySink::new(alloc, room, most, fails)
        .ok()
        .ok_or("memory")
}

#[test]
fn a_file_is_read_up_to_the_limit(rt: HostRuntime) -> Result<(), Fail> {
    let alloc = rt.alloc();
    let files = [("k2", "0 5\n"), ("empty", ""), ("k2", "1")];
    let mut shelf = shelf_of(alloc, &files, &[])?;
    for (name, limit, want) in [
        ("k2", 4, Ok("0 5\n")),
        ("k2", 3, Err(ReadEnd::TooLong)),
        ("k2", 5, Ok("0 5\n")),
        ("k2", 0, Err(ReadEnd::TooLong)),
        ("k3", 4, Err(ReadEnd::Fault)),
        ("empty", 0, Ok("")),
        ("k2", 1 << 24, Ok("0 5\n")),
    ] {
        assert!(rt; limit <= 1 << 24);
        match (read_all(alloc, &mut shelf, name, limit), want) {
            (Ok(bytes), Ok(text)) => assert_eq!(rt; bytes.as_slice(), text.as_bytes()),
            (Err(end), Err(other)) => assert_eq!(rt; end, other),
            _ => assert!(rt; false, "{name} at {limit}"),
        }
    }
    Ok(())
}

#[test]
fn a_large_file_is_read_up_to_the_limit(rt: HostRuntime) -> Result<(), Fail> {
    let alloc = rt.alloc();
    let limit = 1 << 24;
    for (len, whole) in [(limit, true), (limit + 1, false)] {
        let mut files = Vec::new(alloc);
        files.push((String::from_str(alloc, "f")?, vec![in alloc; b' '; len]?))?;
        let mut shelf = MemoryShelf::new(files, Vec::new(alloc));
        match read_all(alloc, &mut shelf, "f", limit as u64) {
            Ok(read) => assert!(rt; whole && read.len() == len),
            Err(end) => assert!(rt; !whole && end == ReadEnd::TooLong),
        }
    }
    Ok(())
}

#[test]
fn each_call_fails_in_turn(rt: HostRuntime) -> Result<(), Fail> {
    let alloc = rt.alloc();
    // Call 1 opens, call 2 reads the bytes, and call 3 finds the end.
    for (call, want) in [
        (1, Some(ReadEnd::Fault)),
        (2, Some(ReadEnd::Fault)),
        (3, Some(ReadEnd::Fault)),
        (4, None),
    ] {
        let mut shelf = shelf_of(alloc, &[("k1", "3 10\n")], &[call])?;
        let end = read_all(alloc, &mut shelf, "k1", 100).err();
        assert_eq!(rt; end, want, "call {call}");
        // After a fault the shelf reads on.
        let again = read_all(alloc, &mut shelf, "k1", 100);
        assert_eq!(rt; again.is_ok(), call < 4, "after call {call}");
    }
    Ok(())
}

#[test]
fn a_shelf_has_one_open_file(rt: HostRuntime) -> Result<(), Fail> {
    let alloc = rt.alloc();
    let mut shelf = shelf_of(alloc, &[("a", "123456"), ("b", "78")], &[])?;
    let mut buf = [0; 4];
    for (name, want) in [("a", "1234"), ("b", "78"), ("a", "1234")] {
        shelf.open(name).ok().ok_or("open")?;
        let count = shelf.read(&mut buf).ok().ok_or("read")?;
        assert_eq!(rt; &buf[..count], want.as_bytes());
    }
    assert_eq!(rt; shelf.open("c"), Err(Failed));
    Ok(())
}

#[test]
fn a_sink_takes_what_it_has_room_for(rt: HostRuntime) -> Result<(), Fail> {
    let mut sink = sink_of(rt.alloc(), 8, 4, &[])?;
    for (piece, want, written) in [
        ("", Ok(0), ""),
        ("best 90", Ok(4), "best"),
        ("  90", Ok(4), "best  90"),
        ("0", Err(Failed), "best  90"),
        ("", Ok(0), "best  90"),
    ] {
        assert_eq!(rt; sink.write(piece.as_bytes()), want, "{piece}");
        assert_eq!(rt; sink.written(), written.as_bytes());
    }
    Ok(())
}

#[test]
fn a_text_is_written_whole_or_to_the_fault(rt: HostRuntime) -> Result<(), Fail> {
    for (room, most, call, taken) in [
        (100, 1, 0, 14),
        (100, 3, 0, 14),
        (100, 14, 0, 14),
        (14, 15, 2, 14),
        (100, 4, 1, 0),
        (100, 4, 2, 4),
        (100, 4, 3, 8),
        (100, 4, 4, 12),
        (100, 4, 5, 14),
        (6, 4, 0, 6),
    ] {
        assert!(rt; most > 0 && taken <= TEXT.len());
        let mut sink = sink_of(rt.alloc(), room, most, &[call])?;
        let outcome = write_whole(&mut sink, TEXT);
        assert_eq!(rt;
            outcome.is_ok(),
            taken == TEXT.len(),
            "{room} {most} {call}"
        );
        assert_eq!(rt; sink.written(), &TEXT[..taken], "{room} {most} {call}");
    }
    Ok(())
}

// Takes two bytes a call, and keeps the lengths that it was handed.
#[derive(Drop)]
struct Lengths {
    handed: Vec<usize>,
}

impl Sink for Lengths {
    ghost use Rattle.std.specs.Prelude.{None};

    ghost written = { λ _. None };

    ghost faults = { λ _. 0 };

    fn write(&mut self, bytes: &[u8]) -> Result<usize, Failed> {
        let _ = self.handed.push(bytes.len());
        Ok(bytes.len().min(2))
    }
}

#[test]
fn each_call_is_handed_all_that_is_left(rt: HostRuntime) {
    let mut sink = Lengths {
        handed: Vec::new(rt.alloc()),
    };
    assert_eq!(rt; write_whole(&mut sink, b"1234567"), Ok(()));
    assert_eq!(rt; sink.handed.as_slice(), [7, 5, 3, 1].as_slice());
}

#[test]
fn an_open_gate_lets_every_call_pass(rt: HostRuntime) {
    OpenGate.at(&rt, 1, 1);
}
