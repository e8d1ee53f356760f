//! A text that is written whole.
ghost use Rattle.std.specs.Prelude.{◌≤◌, OnOk, OnErr};
ghost use Rattle.yew_io.specs.Faults.{Rose};
ghost use Rattle.yew_io.specs.Sink.{Appends, AppendsPrefix};

use crate::shelf::Failed;
use crate::sink::Sink;

/// Writes all the bytes, or fails where the sink does; then a prefix of them was written. Each call of the sink is
/// handed all bytes that are not yet taken. It takes no memory.
///
/// # Errors
///
/// `Failed` where a call of the sink failed.
pub fn write_whole<K: Sink>(sink: &mut K, bytes: &[u8]) -> Result<(), Failed>
    ensures whole { OnOk result (Appends (K.written sink.old) bytes.now (K.written sink.new)) }
    ensures prefix { OnErr result (AppendsPrefix (K.written sink.old) bytes.now (K.written sink.new)) }
    ensures counted { K.faults sink.old ≤ K.faults sink.new }
    ensures cause { OnErr result (Rose (K.faults sink.old) (K.faults sink.new)) }
{
    let mut taken = 0;
    while taken < bytes.len() {
        taken += sink.write(&bytes[taken..])?;
    }
    Ok(())
}
