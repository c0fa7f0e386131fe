// Each public call once with ample memory, and the edges of widths. The expected words were worked
// by hand.

ghost use Rattle.std.specs.Prelude.{◌≡◌, length};

use super::{Bits, NoMemory, TextFault};
use std::process::Abort;

// A call that makes a word of one or two words.
#[derive(Clone, Copy, Drop)]
enum Call {
    Copy,
    And,
    Or,
    Xor,
    Not,
    Concat,
    Slice { at: u32, width: u32 },
    Extend { width: u32, signed: bool },
    Shl(u32),
    Shr { by: u32, fill: bool },
}

// A call, its words, and the word that it makes. What takes one word is given the other for nothing.
const CALLS: [(Call, &str, &str, &str); 26] = [
    (Call::Copy, "0110", "0000", "0110"),
    (Call::And, "1100", "1010", "1000"),
    (Call::Or, "1100", "1010", "1110"),
    (Call::Xor, "1100", "1010", "0110"),
    (Call::Not, "1010", "0000", "0101"),
    (Call::Concat, "01", "110", "11001"),
    (Call::Slice { at: 1, width: 2 }, "110", "0", "11"),
    (Call::Slice { at: 0, width: 2 }, "110", "0", "10"),
    (
        Call::Extend {
            width: 5,
            signed: true,
        },
        "110",
        "0",
        "11110",
    ),
    (
        Call::Extend {
            width: 5,
            signed: false,
        },
        "110",
        "0",
        "00110",
    ),
    (
        Call::Extend {
            width: 3,
            signed: true,
        },
        "01",
        "0",
        "001",
    ),
    (
        Call::Extend {
            width: 2,
            signed: true,
        },
        "110",
        "0",
        "10",
    ),
    (Call::Shl(0), "1001", "0", "1001"),
    (Call::Shl(1), "1001", "0", "0010"),
    (Call::Shl(3), "1001", "0", "1000"),
    (Call::Shl(4), "1001", "0", "0000"),
    (Call::Shl(u32::MAX), "1001", "0", "0000"),
    (Call::Shr { by: 0, fill: false }, "1001", "0", "1001"),
    (Call::Shr { by: 1, fill: false }, "1001", "0", "0100"),
    (Call::Shr { by: 1, fill: true }, "1001", "0", "1100"),
    (Call::Shr { by: 3, fill: false }, "1001", "0", "0001"),
    (Call::Shr { by: 3, fill: true }, "1001", "0", "1111"),
    (Call::Shr { by: 4, fill: false }, "1001", "0", "0000"),
    (Call::Shr { by: 4, fill: true }, "1001", "0", "1111"),
    (
        Call::Shr {
            by: u32::MAX,
            fill: false,
        },
        "1001",
        "0",
        "0000",
    ),
    (
        Call::Shr {
            by: u32::MAX,
            fill: true,
        },
        "1001",
        "0",
        "1111",
    ),
];

// A word, and whether all of its bits, one of them, and an odd number of them are 1.
const REDUCTIONS: [(&str, bool, bool, bool); 5] = [
    ("0", false, false, false),
    ("1", true, true, true),
    ("01", false, true, true),
    ("11", true, true, false),
    ("0111", false, true, true),
];

// A width, a number, and the number that the word of that width holds.
const NUMBERS: [(u32, u128, u128); 7] = [
    (1, 2, 0),
    (1, 3, 1),
    (4, 10, 10),
    (4, 31, 15),
    (127, u128::MAX, (1 << 127) - 1),
    (128, u128::MAX, u128::MAX),
    (128, 1 << 127, 1 << 127),
];

// A text, and the place of its first byte that is no digit.
const TEXTS: [(&str, Option<u32>); 5] = [
    ("0110", None),
    ("x", Some(0)),
    ("01a0b", Some(2)),
    ("10/", Some(2)),
    ("12", Some(1)),
];

// The word of a text of digits.
fn word(rt: &(impl Abort + AllocGlobal), text: &str) -> Bits
    ensures { length result ≡ length text.now }
{
    assert!(rt; !text.is_empty());
    assert!(rt; text.len() <= 65_536);
    let word = Bits::from_text(rt.alloc(), text.as_bytes()).expect(rt, "digits");
    assert!(rt; word.width() as usize == text.len());
    word
}

// What a call makes of these words, which fit it.
fn made(
    rt: &(impl Abort + AllocGlobal),
    call: Call,
    first: &Bits,
    second: &Bits,
) -> Result<Bits, NoMemory> {
    let alloc = rt.alloc();
    let width = first.width();
    assert!(rt; width == second.width() || !matches!(call, Call::And | Call::Or | Call::Xor));
    match call {
        Call::Copy => first.copy(alloc),
        Call::And => first.and(alloc, second),
        Call::Or => first.or(alloc, second),
        Call::Xor => first.xor(alloc, second),
        Call::Not => first.not(alloc),
        Call::Concat => {
            assert!(rt; width + second.width() <= 65_536);
            first.concat(alloc, second)
        }
        Call::Slice { at, width: bits } => {
            assert!(rt; at <= width && bits <= width - at);
            first.slice(alloc, at, bits)
        }
        Call::Extend {
            width: bits,
            signed,
        } => {
            assert!(rt; 0 < width && bits <= 65_536);
            first.extend(alloc, bits, signed)
        }
        Call::Shl(by) => first.shl(alloc, by),
        Call::Shr { by, fill } => first.shr(alloc, by, fill),
    }
}

#[test]
fn calls(rt: HostRuntime) {
    for (call, first, second, want) in CALLS {
        let answer = made(&rt, call, &word(&rt, first), &word(&rt, second)).expect(&rt, "memory");
        let text = answer.to_text(rt.alloc()).expect(&rt, "memory");
        assert_eq!(rt;
            text.as_slice(),
            want.as_bytes(),
            "{want} of {first} and {second}"
        );
    }
}

#[test]
fn reductions(rt: HostRuntime) {
    for (digits, all, any, odd) in REDUCTIONS {
        let word = word(&rt, digits);
        assert_eq!(rt; word.reduce_and(), all, "{digits}");
        assert_eq!(rt; word.reduce_or(), any, "{digits}");
        assert_eq!(rt; word.reduce_xor(), odd, "{digits}");
    }
}

#[test]
fn numbers(rt: HostRuntime) {
    for (width, number, want) in NUMBERS {
        assert!(rt; 1 <= width && width <= 128);
        let word = Bits::from_u128(rt.alloc(), width, number).expect(&rt, "memory");
        assert_eq!(rt; word.width(), width);
        assert!(rt; word.width() <= 128);
        assert_eq!(rt; word.to_u128(), want, "{number} at width {width}");
    }
}

#[test]
fn bad_digits(rt: HostRuntime) {
    for (text, want) in TEXTS {
        assert!(rt; !text.is_empty());
        assert!(rt; text.len() <= 65_536);
        let place = match Bits::from_text(rt.alloc(), text.as_bytes()) {
            Err(TextFault::BadDigit(place)) => Some(place),
            _ => None,
        };
        assert_eq!(rt; place, want, "{text}");
    }
}

#[test]
fn single_bits(rt: HostRuntime) {
    let lowest_first = [false, true, true, false]
        .to_vec(rt.alloc())
        .expect(&rt, "memory");
    let mut six = Bits::of(lowest_first);
    assert!(rt; six.equals(&word(&rt, "0110")));
    assert!(rt; six.width() == 4);
    assert!(rt; !six.get(0) && six.get(1));
    six.set(3, true);
    six.set(1, false);
    assert!(rt; six.equals(&word(&rt, "1100")));
    assert!(rt; !six.equals(&word(&rt, "0110")));
    assert_eq!(rt; six.bits(), [false, false, true, true].as_slice());
}

#[test]
fn no_bits_and_most(rt: HostRuntime) {
    let none = Bits::zeros(rt.alloc(), 0).expect(&rt, "memory");
    assert_eq!(rt; none.width(), 0);
    assert_eq!(rt; none.to_u128(), 0);
    assert!(rt; none.reduce_and() && !none.reduce_or() && !none.reduce_xor());
    let shifted = none.shr(rt.alloc(), 1, true).expect(&rt, "memory");
    assert!(rt; shifted.equals(&none));
    let widest = Bits::zeros(rt.alloc(), 65_536).expect(&rt, "memory");
    assert_eq!(rt; widest.width(), 65_536);
    assert!(rt; !widest.reduce_or());
}
