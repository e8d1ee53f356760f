//! Texts with their words, numbers, fields and ends.

use crate::{Cursor, TextFault, TextKind};
use std::test::Fail;

/// Whether the words of a text are these, each with its line, and nothing more.
fn has_words(text: &[u8], words: &[(&str, u64)]) -> bool {
    let mut cursor = Cursor::new(text);
    for expected in words {
        match cursor.word() {
            Some(word) => {
                if word.text != expected.0.as_bytes() {
                    return false;
                }
                if word.line != expected.1 || cursor.line() != expected.1 {
                    return false;
                }
            }
            None => return false,
        }
    }
    cursor.word().is_none() && cursor.end().is_ok()
}

#[test]
fn words(rt: HostRuntime) {
    assert!(rt; has_words(b"".as_slice(), [].as_slice()));
    assert!(rt; has_words(b" \t\r\n\n".as_slice(), [].as_slice()));
    assert!(rt;
        has_words(
            b"4 10\n\n x5".as_slice(),
            [("4", 1), ("10", 1), ("x5", 3)].as_slice()
        )
    );
    assert!(rt; has_words(b"4\r\n5\r\n".as_slice(), [("4", 1), ("5", 2)].as_slice()));
    assert!(rt; has_words(b"\n\na\tb\n".as_slice(), [("a", 3), ("b", 3)].as_slice()));
    assert!(rt;
        has_words(
            b"a\rb\x0bc\n:".as_slice(),
            [("a", 1), ("b\x0bc", 1), (":", 2)].as_slice()
        )
    );
}

/// A fault of this kind in this line.
fn refused(kind: TextKind, line: u64) -> Result<u64, TextFault> {
    Err(TextFault { kind, line })
}

#[test]
fn numbers(rt: HostRuntime) {
    let table = [
        ("0", Ok(0)),
        (" 007 8", Ok(7)),
        ("000000000000000000000000000000000000000041", Ok(41)),
        ("9223372036854775807", Ok(9_223_372_036_854_775_807)),
        ("\n9223372036854775808", refused(TextKind::TooBig, 2)),
        ("18446744073709551616 5", refused(TextKind::TooBig, 1)),
        (
            "1234567890123456789012345678901234567890",
            refused(TextKind::TooBig, 1),
        ),
        ("92233720368547758080\n", refused(TextKind::TooBig, 1)),
        (
            "1234567890123456789012345678901234567890x",
            refused(TextKind::NotNumber, 1),
        ),
        ("\n\n1x", refused(TextKind::NotNumber, 3)),
        ("\r\n-1", refused(TextKind::NotNumber, 2)),
        ("1:", refused(TextKind::NotNumber, 1)),
        ("", refused(TextKind::EndsEarly, 1)),
        (" \n\t\n", refused(TextKind::EndsEarly, 3)),
    ];
    for row in &table {
        let mut cursor = Cursor::new(row.0.as_bytes());
        let answer = cursor.number();
        assert_eq!(rt; answer, row.1, "{}", row.0);
        if answer.is_err() {
            assert_eq!(rt; cursor.line(), 1, "{}", row.0);
            assert_eq!(rt; cursor.number(), row.1, "{}", row.0);
        }
    }
}

#[test]
fn number_after_number(rt: HostRuntime) {
    let mut cursor = Cursor::new(b"1\n2 x\n3".as_slice());
    assert_eq!(rt; cursor.number(), Ok(1));
    assert_eq!(rt; cursor.number(), Ok(2));
    assert_eq!(rt; cursor.line(), 2);
    assert_eq!(rt; cursor.number(), refused(TextKind::NotNumber, 2));
    assert!(rt; cursor.word().is_some());
    let surplus = TextFault {
        kind: TextKind::Surplus,
        line: 3,
    };
    assert_eq!(rt; cursor.end(), Err(surplus));
    assert_eq!(rt; cursor.number(), Ok(3));
    assert_eq!(rt; cursor.end(), Ok(()));
    assert_eq!(rt; cursor.number(), refused(TextKind::EndsEarly, 3));
}

/// Whether the next field has this key, value, colon and line.
fn has_field(cursor: &mut Cursor<'_>, key: &str, value: &str, colon: bool, line: u64) -> bool {
    match cursor.field() {
        Some(field) => {
            field.key == key.as_bytes()
                && field.value == value.as_bytes()
                && field.colon == colon
                && field.line == line
        }
        None => false,
    }
}

#[test]
fn fields(rt: HostRuntime) {
    let text =
        b"TYPE : TSP (made by hand) \n\n \t\r\nDIMENSION:4\r\n  EDGE_WEIGHT_SECTION\n1 2\n 3".as_slice();
    let mut cursor = Cursor::new(text);
    assert!(rt; has_field(&mut cursor, "TYPE", "TSP (made by hand)", true, 1));
    assert!(rt; has_field(&mut cursor, "DIMENSION", "4", true, 4));
    assert!(rt; has_field(&mut cursor, "EDGE_WEIGHT_SECTION", "", false, 5));
    assert_eq!(rt; cursor.number(), Ok(1));
    assert_eq!(rt; cursor.line(), 6);
    assert!(rt; has_field(&mut cursor, "2", "", false, 6));
    assert!(rt; has_field(&mut cursor, "3", "", false, 7));
    assert!(rt; cursor.field().is_none());
    assert_eq!(rt; cursor.number(), refused(TextKind::EndsEarly, 7));
}

#[test]
fn odd_fields(rt: HostRuntime) {
    let text = b": v\na b : c \n\tk\t:\t: w\t\nk:\n :\nNAME".as_slice();
    let mut cursor = Cursor::new(text);
    assert!(rt; has_field(&mut cursor, "", "v", true, 1));
    assert!(rt; has_field(&mut cursor, "a", "b : c", false, 2));
    assert!(rt; has_field(&mut cursor, "k", ": w", true, 3));
    assert!(rt; has_field(&mut cursor, "k", "", true, 4));
    assert!(rt; has_field(&mut cursor, "", "", true, 5));
    assert!(rt; has_field(&mut cursor, "NAME", "", false, 6));
    assert!(rt; cursor.field().is_none());
    assert!(rt; Cursor::new(b" \r\n\t\n".as_slice()).field().is_none());
    assert!(rt; Cursor::new(b"".as_slice()).field().is_none());
}

/// A text as long as a file may be, in which every second byte is a word.
#[test]
fn long_text(rt: HostRuntime) -> Result<(), Fail> {
    let mut text = Vec::with_capacity(rt.alloc(), 1 << 24)?;
    for _ in 0..1u32 << 22 {
        text.extend_from_slice(b"7 8\n".as_slice())?;
    }
    let mut cursor = Cursor::new(text.as_slice());
    for _ in 0..1u32 << 22 {
        assert_eq!(rt; cursor.number(), Ok(7));
        assert_eq!(rt; cursor.number(), Ok(8));
    }
    assert_eq!(rt; cursor.end(), Ok(()));
    assert_eq!(rt;
        cursor.number(),
        refused(TextKind::EndsEarly, (1 << 22) + 1)
    );
    Ok(())
}
