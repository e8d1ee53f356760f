//! A sink in memory, of a fixed room, with calls that are to fail.
ghost use Rattle.std.specs.Prelude.{◌≡◌, ◌<◌, ◌≤◌, length, vec_len, vec_capacity};
ghost use Rattle.yew_io.specs.MemorySink.{SinkState};

use crate::calls::is_listed;
use crate::shelf::Failed;
use crate::sink::Sink;
use std::alloc::Global;
use std::marker::Model;
use yew_laws::Memory;

/// A sink in memory, which takes no memory once it is made. The calls of `write` are numbered from 1; the numbers stay
/// at 2^64-1.
#[derive(Drop)]
pub struct MemorySink {
    written: Vec<u8>,
    room: usize,
    most: usize,
    fails: Vec<u64>,
    calls: u64,
    faults: u64,
}

impl Model for MemorySink {
    ghost Value = { SinkState };

    ghost view = { λ s. record { written = s.written.items; room = s.room; most = s.most; fails = s.fails.items; calls = s.calls; faults = s.faults } };

    ghost invariant = { λ s. (vec_len s.written ≤ s.room) × (s.room ≤ vec_capacity s.written) × (0 < s.most) };
}

impl MemorySink {
    ghost use Rattle.std.specs.Prelude.{[], IfOk};

    /// An empty sink that takes `room` bytes in all, and at most `most` in one call. A call fails exactly where its
    /// number is in `fails`, or where it is handed a piece that is not empty and the room is used up.
    ///
    /// # Errors
    ///
    /// `Memory` where memory ran out.
    pub fn new(
        alloc: Global,
        room: usize,
        most: usize,
        fails: Vec<u64>,
    ) -> Result<MemorySink, Memory>
        requires { 0 < most }
        ensures { IfOk result (λ sink. sink ≡ record { written = []; room = room; most = most; fails = fails.items; calls = 0; faults = 0 }) }
    {
        let written = Vec::with_capacity(alloc, room)?;
        Ok(MemorySink {
            written,
            room,
            most,
            fails,
            calls: 0,
            faults: 0,
        })
    }

    /// What was written.
    pub fn written(&self) -> &[u8]
        ensures { result.now ≡ self.now.written }
    {
        &self.written
    }
}

impl Sink for MemorySink {
    ghost use Rattle.std.specs.Prelude.{◌-◌, ◌++◌, ◌↔◌, ◌⊎◌, Some, min, take, IsErr, IfOk, OnErr, Contains};
    ghost use Rattle.yew_io.specs.Faults.{one_more};

    ghost written = { λ s. Some s.written };

    ghost faults = { λ s. s.faults };

    fn write(&mut self, bytes: &[u8]) -> Result<usize, Failed>
        ensures fails { IsErr result ↔ (Contains self.old.fails (one_more self.old.calls) ⊎ ((0 < length bytes.now) × (self.old.room ≤ length self.old.written))) }
        ensures count { IfOk result (λ count. count ≡ min (length bytes.now) (min self.old.most (self.old.room - length self.old.written))) }
        ensures some { IfOk result (λ count. 0 < length bytes.now → 0 < count) }
        ensures counted { self.old.faults ≤ self.new.faults }
        ensures ok { IfOk result (λ count. self.new ≡ record self.old { written = self.old.written ++ take count bytes.now; calls = one_more self.old.calls }) }
        ensures err { OnErr result (self.new ≡ record self.old { calls = one_more self.old.calls; faults = one_more self.old.faults }) }
    {
        self.calls = self.calls.saturating_add(1);
        let room = self.room - self.written.len();
        if is_listed(&self.fails, self.calls) || (room == 0 && !bytes.is_empty()) {
            self.faults = self.faults.saturating_add(1);
            return Err(Failed);
        }
        let count = bytes.len().min(self.most.min(room));
        // The room was reserved, so this takes no memory and does not fail.
        let _ = self.written.extend_from_slice(&bytes[..count]);
        Ok(count)
    }
}
