//! Files that are opened by name and read from front to end, one at a time.

/// The outside failed: a name that is not there, or a call that the system refused.
#[derive(Clone, Copy, Debug, PartialEq, Eq)]
pub struct Failed;

/// A shelf of files, of which at most one is open. Names live for `'a`, and are seen as their bytes.
///
/// A shelf need not tell its content: then nothing is known of the bytes that it gives, and all else holds.
pub trait Shelf<'a> {
    ghost use Rattle.std.specs.Prelude.{◌≡◌, ◌<◌, ◌≤◌, ℕ, List, [], length, take, Bool, false, Option, Some, IsSome, IfOk, OnOk, OnErr, is_err, None};
    ghost use Rattle.yew_io.specs.Faults.{Rose};
    ghost use Rattle.yew_io.specs.Shelf.{File, Opens, Gives, IsAtEnd};

    /// The files, where the shelf tells them.
    ghost files: { Self → Option (List File) };

    /// The bytes of the open file that are still to be read, where the shelf tells them.
    ghost left: { Self → Option (List ℕ) };

    /// How many faults there were. It never falls.
    ghost faults: { Self → ℕ };

    /// The name that was handed to `open` last; none before the first call.
    ghost name: { Self → Option (List ℕ) };

    /// Whether the last call answered `Failed`; false before the first call.
    ghost failed: { Self → Bool };

    /// Opens the file of that name, to be read from its first byte. The file that was open before is closed, also
    /// where this call fails. A name that is not there is a fault.
    fn open(&mut self, file_name: &'a str) -> Result<(), Failed>
        ensures opened { OnOk result (Opens (files self.old) file_name.now (left self.new)) }
        ensures closed { OnErr result (left self.new ≡ None) }
        ensures files { files self.new ≡ files self.old }
        ensures name { name self.new ≡ Some file_name.now }
        ensures failed { failed self.new ≡ is_err result }
        ensures counted { faults self.old ≤ faults self.new }
        ensures cause { OnErr result (Rose (faults self.old) (faults self.new)) };

    /// Reads the next bytes of the open file into the front of `buf`, and gives their number. 0 bytes into a buffer
    /// that is not empty mean that the file is at its end.
    fn read(&mut self, buf: &mut [u8]) -> Result<usize, Failed>
        requires opened { IsSome (name self.old) }
        requires whole { failed self.old ≡ false }
        ensures within { IfOk result (λ count. count ≤ length buf.new) }
        ensures given { IfOk result (λ count. Gives (left self.old) (take count buf.new) (left self.new)) }
        ensures ends { IfOk result (λ count. count ≡ 0 → 0 < length buf.new → IsAtEnd (left self.old)) }
        ensures files { files self.new ≡ files self.old }
        ensures name { name self.new ≡ name self.old }
        ensures failed { failed self.new ≡ is_err result }
        ensures counted { faults self.old ≤ faults self.new }
        ensures cause { OnErr result (Rose (faults self.old) (faults self.new)) };
}
