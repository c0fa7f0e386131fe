// Numbers, names, lines and words at their edges. The expected values were worked by hand.

use super::{
    first_word, is_binary, is_skipped, only_word, push_name, push_number, read_name, read_number,
    split_line,
};
use std::test::Fail;

/// Texts, and the numbers that they are.
const NUMBERS: [(&str, Option<u64>); 8] = [
    ("0", Some(0)),
    ("00", None),
    ("70", Some(70)),
    ("", None),
    ("+7", None),
    ("7a", None),
    ("18446744073709551615", Some(u64::MAX)),
    ("18446744073709551616", None),
];

/// Words, and the names that they code.
const NAMES: [(&str, Option<&[u8]>); 8] = [
    ("a%25%ff%Fe~", Some(b"a%\xFF\xFE~")),
    ("%00%7F%20", Some(b"\x00\x7F ")),
    ("", Some(b"")),
    ("%41", None),
    ("%2", None),
    ("%", None),
    ("%2g", None),
    ("a b", None),
];

#[test]
fn numbers(rt: HostRuntime) -> Result<(), Fail> {
    for (text, wanted) in NUMBERS {
        assert_eq!(rt; read_number(text.as_bytes()), wanted, "at {text}");
    }
    let mut text = Vec::new(rt.alloc());
    push_number(rt.alloc(), &mut text, 0)?;
    push_number(rt.alloc(), &mut text, u64::MAX)?;
    assert_eq!(rt; &text[..], b"018446744073709551615".as_slice());
    Ok(())
}

#[test]
fn names(rt: HostRuntime) -> Result<(), Fail> {
    for (text, wanted) in NAMES {
        match (read_name(rt.alloc(), text.as_bytes())?, wanted) {
            (None, None) => {}
            (Some(name), Some(bytes)) => assert_eq!(rt; name.items(), bytes, "at {text}"),
            _ => panic!(rt; "at {text}"),
        }
    }
    let mut text = Vec::new(rt.alloc());
    push_name(&mut text, b"a% \x00\xFF~")?;
    assert_eq!(rt; &text[..], b"a%25%20%00%FF~".as_slice());
    Ok(())
}

/// The last LF may be missing, and a line is a remark only where `#` is its first byte.
#[test]
fn lines(rt: HostRuntime) {
    let (first, rest) = split_line(b"@ 0\n  b  ");
    assert_eq!(rt; first, b"@ 0".as_slice());
    assert_eq!(rt; rest, b"  b  ".as_slice());
    let (last, none) = split_line(b"b");
    assert!(rt; last == b"b".as_slice() && none.is_empty());
    assert!(rt; is_skipped(b"#x") && is_skipped(b"  ") && !is_skipped(b" #x"));
    assert!(rt; only_word(rest).is_some() && only_word(first).is_none());
    assert!(rt; first_word(first).is_some_and(|word| word.rest == b"0".as_slice()));
    assert!(rt; is_binary(b"01") && !is_binary(b"") && !is_binary(b"2"));
}
