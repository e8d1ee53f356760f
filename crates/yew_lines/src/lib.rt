//! Lines of words and numbers: what every text of the program is made of.
//!
//! Each call appends to a text that is being made, and can only fail for want of memory; what the text has then is not
//! said, since a text that is not whole is never written.
#![tactic(auto)]

ghost use Rattle.std.specs.Prelude.{◌≡◌, ◌++◌, ◌∷◌, [], OnOk, decimal};
ghost use Rattle.yew_lines.specs.Spelling.{spaced, count_text, numbers_line};

use itoa::Buffer;
use yew_laws::Memory;

/// Appends these bytes.
///
/// # Errors
///
/// `Memory` where memory ran out.
#[inline]
pub fn push_text(out: &mut Vec<u8>, text: &[u8]) -> Result<(), Memory>
    ensures { OnOk result (out.new.items ≡ out.old.items ++ text.now) }
{
    out.extend_from_slice(text)?;
    Ok(())
}

/// Appends a number in decimal.
///
/// # Errors
///
/// `Memory` where memory ran out.
pub fn push_number(out: &mut Vec<u8>, number: u64) -> Result<(), Memory>
    ensures { OnOk result (out.new.items ≡ out.old.items ++ decimal number) }
{
    let mut buffer = Buffer::new();
    out.extend_from_slice(buffer.format(number).as_bytes())?;
    Ok(())
}

/// Appends a space and a number in decimal.
///
/// # Errors
///
/// `Memory` where memory ran out.
pub fn push_spaced(out: &mut Vec<u8>, number: u64) -> Result<(), Memory>
    ensures { OnOk result (out.new.items ≡ out.old.items ++ spaced number) }
{
    out.push(b' ')?;
    push_number(out, number)
}

/// Appends a count: in decimal, with `>=` in front where it stands at 2^64 - 1, where it may be more.
///
/// # Errors
///
/// `Memory` where memory ran out.
pub fn push_count(out: &mut Vec<u8>, count: u64) -> Result<(), Memory>
    ensures { OnOk result (out.new.items ≡ out.old.items ++ count_text count) }
{
    if count == u64::MAX {
        push_text(out, b">=")?;
    }
    push_number(out, count)
}

/// Ends a line.
///
/// # Errors
///
/// `Memory` where memory ran out.
#[inline]
pub fn push_line_end(out: &mut Vec<u8>) -> Result<(), Memory>
    ensures { OnOk result (out.new.items ≡ out.old.items ++ 10 ∷ []) }
{
    out.push(b'\n')?;
    Ok(())
}

/// Appends a line of a word and of numbers, each after one space. A line without numbers has no space at its end.
///
/// # Errors
///
/// `Memory` where memory ran out.
pub fn push_numbers_line(out: &mut Vec<u8>, word: &[u8], numbers: &[u64]) -> Result<(), Memory>
    ensures { OnOk result (out.new.items ≡ out.old.items ++ numbers_line word.now numbers.now) }
{
    push_text(out, word)?;
    for number in numbers {
        push_spaced(out, *number)?;
    }
    push_line_end(out)
}

#[cfg(test)]
mod tests {
    use super::*;
    use std::test::Fail;

    #[test]
    fn spells_lines(rt: HostRuntime) -> Result<(), Fail> {
        let mut out = Vec::new(rt.alloc());
        push_numbers_line(&mut out, b"items", &[])?;
        push_numbers_line(&mut out, b"best", &[0, 7, 18446744073709551615])?;
        push_text(&mut out, b"cut ")?;
        push_count(&mut out, 18446744073709551614)?;
        push_spaced(&mut out, 10)?;
        push_line_end(&mut out)?;
        push_count(&mut out, 18446744073709551615)?;
        let wanted =
            b"items\nbest 0 7 18446744073709551615\ncut 18446744073709551614 10\n>=18446744073709551615";
        assert_eq!(rt; out.as_slice(), wanted.as_slice());
        Ok(())
    }
}
