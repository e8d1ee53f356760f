//! The files of a plan, read whole and turned into values.

ghost use Rattle.std.specs.Prelude.{◌≡◌, ◌≤◌, ◌^◌, true, length, List, ℕ, IfSome, IfOk, IfErr, IsErrAnd, Some};
ghost use Rattle.yew_io.specs.Faults.{Rose};
ghost use Rattle.yew_io.specs.Reading.{IsWhole};
ghost use Rattle.yew_text.specs.declared.text.TextKind.{TextKind as Offence};
ghost use Rattle.yew_app.specs.Judging.{IsRead, IsUnread, IsFileReason, IsEndOf};
ghost use Rattle.yew_app.specs.Reasons.{reason_of, reason_of_end};
ghost use Rattle.yew_app.specs.Refusals.{CannotRead};

use crate::refusal::Refusal;
use std::alloc::Global;
use yew_io::{ReadEnd, Shelf, read_all};
use yew_text::FileEnd;

/// The most bytes that a file may have.
const MOST_BYTES: u64 = 1 << 24;

/// A kind of file: which bytes say which value, and why others are refused.
pub(crate) trait FileKind {
    /// What a good file says.
    type Value;

    /// These bytes are good, and say this value.
    ghost is_good: { Self → List ℕ → Self.Value → Type 0 };

    /// The first offence of these bytes against the grammar, and its line.
    ghost is_offence: { Self → List ℕ → Offence → ℕ → Type 0 };

    /// The first number of these bytes past its limit, and the limit.
    ghost is_past: { Self → List ℕ → ℕ → ℕ → Type 0 };

    /// What holds of a value beside, whether the bytes are told or not.
    ghost fits: { Self → Self.Value → Type 0 };

    /// The value that the bytes say, or why they say none.
    fn parse(&self, alloc: Global, bytes: &[u8]) -> Result<Self::Value, FileEnd>
        ensures good { IfOk result (λ value. is_good self.now bytes.now value) }
        ensures fits { IfOk result (λ value. fits self.now value) }
        ensures end { IfErr result (λ end. IsEndOf (is_offence self.now) (is_past self.now) bytes.now end) };
}

/// All bytes of the file of that name.
fn read_bytes<'a, S: Shelf<'a>>(
    alloc: Global,
    shelf: &mut S,
    name: &'a str,
) -> Result<Vec<u8>, Refusal<'a>>
    ensures whole { IfOk result (λ bytes. IsWhole (S.files shelf.old) name.now bytes.items) }
    ensures within { IfOk result (λ bytes. length bytes.items ≤ 2 ^ 24) }
    ensures refused { IfErr result (λ refusal. IsUnread (S.files shelf.old) name.now (reason_of refusal)) }
    ensures cause { IsErrAnd result (λ refusal. reason_of refusal ≡ CannotRead name.now) → Rose (S.faults shelf.old) (S.faults shelf.new) × (S.failed shelf.new ≡ true) }
    ensures name { S.name shelf.new ≡ Some name.now }
    ensures files { S.files shelf.new ≡ S.files shelf.old }
    ensures counted { S.faults shelf.old ≤ S.faults shelf.new }
{
    match read_all(alloc, shelf, name, MOST_BYTES) {
        Ok(bytes) => Ok(bytes),
        Err(ReadEnd::Fault) => Err(Refusal::ReadFault(name)),
        Err(ReadEnd::TooLong) => Err(Refusal::TooLong(name)),
        Err(ReadEnd::Memory) => Err(Refusal::Memory),
    }
}

/// Why the file of that name gives no value, where its bytes were read.
fn refusal_of<'a>(name: &'a str, end: FileEnd) -> Refusal<'a>
    ensures { reason_of result ≡ reason_of_end name.now end }
{
    match end {
        FileEnd::Refused(fault) => Refusal::NotInGrammar(name, fault),
        FileEnd::TooLarge { number, limit } => Refusal::TooLarge {
            name,
            number,
            limit,
        },
        FileEnd::Memory => Refusal::Memory,
    }
}

/// The value that the file of that name says.
pub(crate) fn read_file<'a, F: FileKind, S: Shelf<'a>>(
    alloc: Global,
    shelf: &mut S,
    kind: &F,
    name: &'a str,
) -> Result<F::Value, Refusal<'a>>
    ensures read { IfOk result (λ value. IfSome (S.files shelf.old) (λ told. IsRead (F.is_good kind.now) told name.now value)) }
    ensures fits { IfOk result (λ value. F.fits kind.now value) }
    ensures refused { IfErr result (λ refusal. IsFileReason (F.is_offence kind.now) (F.is_past kind.now) (S.files shelf.old) name.now (reason_of refusal)) }
    ensures cause { IsErrAnd result (λ refusal. reason_of refusal ≡ CannotRead name.now) → Rose (S.faults shelf.old) (S.faults shelf.new) × (S.failed shelf.new ≡ true) }
    ensures name { S.name shelf.new ≡ Some name.now }
    ensures files { S.files shelf.new ≡ S.files shelf.old }
    ensures counted { S.faults shelf.old ≤ S.faults shelf.new }
{
    let bytes = match read_bytes(alloc, shelf, name) {
        Ok(bytes) => bytes,
        Err(refusal) => return Err(refusal),
    };
    match kind.parse(alloc, &bytes) {
        Ok(value) => Ok(value),
        Err(end) => Err(refusal_of(name, end)),
    }
}
