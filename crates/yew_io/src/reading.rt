//! A file that is read whole, within a limit.
ghost use Rattle.std.specs.Prelude.{◌≡◌, ◌+◌, ◌^◌, ◌<◌, ◌≤◌, ◌↔◌, length, vec_len, take, drop, false, Some, IsSome, IsTrue, IfOk, OnOk, OnErr, IsErrOf, is_err};
ghost use Rattle.yew_io.specs.Faults.{Rose};
ghost use Rattle.yew_io.specs.Shelf.{Gives, IsAtEnd};
ghost use Rattle.yew_io.specs.Reading.{IsWhole, IsLonger, IsAnswer};

use crate::shelf::{Failed, Shelf};
use std::alloc::{AllocError, Global};
use thiserror::Error;

/// Why a file was not read whole.
#[derive(Debug, PartialEq, Eq, Drop, Error)]
#[error("ReadEnd")]
pub enum ReadEnd {
    /// The shelf failed, as where no file has the name.
    Fault,
    /// The file has more bytes than the limit.
    TooLong,
    /// Memory ran out.
    Memory,
}

// The bytes of the first piece that is asked for. Each further piece is as long as all before it.
const FIRST_PIECE: usize = 1 << 16;

/// Reads the file of that name from its first byte to its end, if it has at most `limit` bytes.
///
/// # Errors
///
/// `TooLong` comes exactly where more than `limit` bytes were read without a fault, and `Fault` exactly where the
/// shelf's last call failed. `Memory` where memory ran out.
pub fn read_all<'a, S: Shelf<'a>>(
    alloc: Global,
    shelf: &mut S,
    name: &'a str,
    limit: u64,
) -> Result<Vec<u8>, ReadEnd>
    requires { limit ≤ 2 ^ 24 }
    ensures whole { IfOk result (λ bytes. IsWhole (S.files shelf.old) name.now bytes.items) }
    ensures within { IfOk result (λ bytes. vec_len bytes ≤ limit) }
    ensures too_long { IsErrOf result ReadEnd.TooLong → IsLonger (S.files shelf.old) name.now limit }
    ensures cause { IsErrOf result ReadEnd.Fault → Rose (S.faults shelf.old) (S.faults shelf.new) }
    ensures failed { IsErrOf result ReadEnd.Fault ↔ IsTrue (S.failed shelf.new) }
    // With no fault the answer is the one for the file's bytes.
    ensures answer { ¬ Rose (S.faults shelf.old) (S.faults shelf.new) → IsAnswer (S.files shelf.old) name.now limit result }
    ensures name { S.name shelf.new ≡ Some name.now }
    ensures files { S.files shelf.new ≡ S.files shelf.old }
    ensures counted { S.faults shelf.old ≤ S.faults shelf.new }
{
    if shelf.open(name).is_err() {
        return Err(ReadEnd::Fault);
    }
    // With one byte more than the limit, a file of just the limit is told from a longer one.
    let most = limit as usize + 1;
    let mut bytes = Vec::new(alloc);
    let mut len = 0;
    while len < most {
        if make_room(&mut bytes, len, most).is_err() {
            return Err(ReadEnd::Memory);
        }
        match read_piece(shelf, &mut bytes, len) {
            Ok(0) => {
                bytes.truncate(len);
                return Ok(bytes);
            }
            Ok(count) => len += count,
            Err(Failed) => return Err(ReadEnd::Fault),
        }
    }
    Err(ReadEnd::TooLong)
}

// Makes the buffer longer than what it holds of the file, up to `most` bytes.
fn make_room(bytes: &mut Vec<u8>, len: usize, most: usize) -> Result<(), AllocError>
    requires below { len < most }
    requires held { len ≤ vec_len bytes.old }
    requires within { vec_len bytes.old ≤ most }
    requires small { most ≤ 2 ^ 32 }
    ensures room { OnOk result (len < vec_len bytes.new) }
    ensures held { len ≤ vec_len bytes.new }
    ensures within { vec_len bytes.new ≤ most }
    ensures front { take len bytes.new.items ≡ take len bytes.old.items }
{
    if len < bytes.len() {
        return Ok(());
    }
    bytes.resize((2 * len).max(FIRST_PIECE).min(most), 0)
}

// One read into the buffer, after the bytes that it holds of the file.
fn read_piece<'a, S: Shelf<'a>>(
    shelf: &mut S,
    bytes: &mut Vec<u8>,
    len: usize,
) -> Result<usize, Failed>
    requires room { len < vec_len bytes.old }
    requires opened { IsSome (S.name shelf.old) }
    requires whole { S.failed shelf.old ≡ false }
    ensures len { vec_len bytes.new ≡ vec_len bytes.old }
    ensures front { take len bytes.new.items ≡ take len bytes.old.items }
    ensures within { IfOk result (λ count. len + count ≤ vec_len bytes.new) }
    ensures given { IfOk result (λ count. Gives (S.left shelf.old) (take count (drop len bytes.new.items)) (S.left shelf.new)) }
    ensures ends { IfOk result (λ count. count ≡ 0 → IsAtEnd (S.left shelf.old)) }
    ensures files { S.files shelf.new ≡ S.files shelf.old }
    ensures name { S.name shelf.new ≡ S.name shelf.old }
    ensures failed { S.failed shelf.new ≡ is_err result }
    ensures counted { S.faults shelf.old ≤ S.faults shelf.new }
    ensures cause { OnErr result (Rose (S.faults shelf.old) (S.faults shelf.new)) }
{
    shelf.read(&mut bytes[len..])
}
