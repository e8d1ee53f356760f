//! A place that bytes are written to.

use crate::shelf::Failed;

/// A place that bytes are written to, one after the other.
///
/// A sink need not tell what was written: then nothing is known of its content, and all else holds.
pub trait Sink {
    ghost use Rattle.std.specs.Prelude.{◌≡◌, ◌<◌, ◌≤◌, ℕ, List, length, take, Option, IfOk, OnErr};
    ghost use Rattle.yew_io.specs.Faults.{Rose};
    ghost use Rattle.yew_io.specs.Sink.{Appends};

    /// All bytes that were written, where the sink tells them.
    ghost written: { Self → Option (List ℕ) };

    /// How many faults there were. It never falls.
    ghost faults: { Self → ℕ };

    /// Writes some of the bytes, from the first on, and gives their number. To take nothing of a piece that is not
    /// empty is a fault. A call that fails has written nothing.
    fn write(&mut self, bytes: &[u8]) -> Result<usize, Failed>
        ensures within { IfOk result (λ count. count ≤ length bytes.now) }
        ensures taken { IfOk result (λ count. Appends (written self.old) (take count bytes.now) (written self.new)) }
        ensures some { IfOk result (λ count. 0 < length bytes.now → 0 < count) }
        ensures none { OnErr result (written self.new ≡ written self.old) }
        ensures counted { faults self.old ≤ faults self.new }
        ensures cause { OnErr result (Rose (faults self.old) (faults self.new)) };
}
