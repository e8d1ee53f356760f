//! The standard output and the standard error as sinks. They tell no content.
ghost use Rattle.std.specs.Prelude.{None};

use std::io::Write;
use yew_io::{Failed, Sink};

/// A stream of the system. Its count of faults rises at each `Err`, and where it takes nothing of a piece that is not
/// empty, and stays at 2^64-1.
#[derive(Drop)]
pub struct StandardSink<W: Write + Drop> {
    stream: W,
    faults: u64,
}

impl<W: Write + Drop> StandardSink<W> {
    /// Nothing was written yet.
    pub fn new(stream: W) -> Self {
        StandardSink { stream, faults: 0 }
    }
}

impl<W: Write + Drop> Sink for StandardSink<W> {
    ghost written = { λ _. None };

    ghost faults = { λ s. s.faults };

    fn write(&mut self, bytes: &[u8]) -> Result<usize, Failed> {
        if let Ok(count) = self.stream.write(bytes) {
            if count > 0 || bytes.is_empty() {
                return Ok(count);
            }
        }
        self.faults = self.faults.saturating_add(1);
        Err(Failed)
    }
}

#[cfg(test)]
mod tests {
    use super::*;
    use yew_io::write_whole;

    #[test]
    fn both_streams_take_a_text(rt: HostRuntime) {
        assert_eq!(rt;
            write_whole(&mut StandardSink::new(rt.stdout()), b""),
            Ok(())
        );
        assert_eq!(rt;
            write_whole(&mut StandardSink::new(rt.stderr()), b""),
            Ok(())
        );
    }
}
