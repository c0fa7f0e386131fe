// Terms whose widths, words and costs were worked by hand from what the forms mean.

ghost use Rattle.std.specs.Prelude.{◌≡◌, length, map, IfOk};

use super::{Op1, Op2, Term};
use cif_bits::{Bits, NoMemory};
use std::alloc::Global;
use std::process::Abort;
use std::test::Fail;

/// A term as a table holds it.
#[derive(Clone, Copy)]
enum Form {
    Value(u32),
    Taint(u32),
    /// The word of 1 to 128 bits, or of none, that has this number.
    Const(u32, u128),
    Bound(u32),
    Pick(&'static Form, &'static [u32]),
    Join(&'static Form, &'static Form),
    One(Op1, &'static Form),
    Two(Op2, &'static Form, &'static Form),
    Choose(&'static Form, &'static Form, &'static Form),
    Let(&'static Form, &'static Form),
    /// A part, how many bits it has and is to have, and whether it is signed.
    Extended(&'static Form, u32, u32, bool),
}

use Form::{Bound, Choose, Const, Extended, Join, Let, One, Pick, Taint, Two, Value};

/// The widths of terms where the operands have 4, 1, 128, 129 and 65,536 bits.
const WIDTHS: &[(Form, Option<u32>)] = &[
    (Value(0), Some(4)),
    (Taint(1), Some(1)),
    (Value(4), Some(65_536)),
    (Value(5), None),
    (Taint(5), None),
    (Const(3, 5), Some(3)),
    (Const(0, 0), None),
    (Bound(0), None),
    (Pick(&Value(0), &[3, 3, 0, 1, 3]), Some(5)),
    (Pick(&Value(0), &[0, 4]), None),
    (Pick(&Value(0), &[]), None),
    (Join(&Value(0), &Taint(1)), Some(5)),
    (Join(&Value(4), &Value(1)), None),
    (One(Op1::Not, &Value(0)), Some(4)),
    (One(Op1::ReduceAnd, &Value(4)), Some(1)),
    (One(Op1::ReduceOr, &Value(4)), Some(1)),
    (One(Op1::ReduceXor, &Value(4)), Some(1)),
    (Two(Op2::And, &Value(3), &Taint(3)), Some(129)),
    (Two(Op2::Or, &Value(3), &Taint(3)), Some(129)),
    (Two(Op2::Xor, &Value(3), &Taint(3)), Some(129)),
    (Two(Op2::And, &Value(0), &Value(1)), None),
    (Two(Op2::Or, &Value(0), &Value(1)), None),
    (Two(Op2::Xor, &Value(0), &Value(1)), None),
    (Two(Op2::Equal, &Value(3), &Taint(3)), Some(1)),
    // numbers have 128 bits at most
    (Two(Op2::Add, &Value(2), &Taint(2)), Some(128)),
    (Two(Op2::Mul, &Value(2), &Taint(2)), Some(128)),
    (Two(Op2::Div, &Value(2), &Taint(2)), Some(128)),
    (Two(Op2::LessUnsigned, &Value(2), &Taint(2)), Some(1)),
    (Two(Op2::LessSigned, &Value(2), &Taint(2)), Some(1)),
    (Two(Op2::Add, &Value(3), &Taint(3)), None),
    (Two(Op2::Mul, &Value(3), &Taint(3)), None),
    (Two(Op2::Div, &Value(3), &Taint(3)), None),
    (Two(Op2::LessUnsigned, &Value(3), &Taint(3)), None),
    (Two(Op2::LessSigned, &Value(3), &Taint(3)), None),
    (Choose(&Value(1), &Value(0), &Taint(0)), Some(4)),
    (Choose(&Const(2, 1), &Value(0), &Taint(0)), None),
    (Choose(&Value(1), &Value(0), &Value(1)), None),
    (Let(&Value(0), &Join(&Bound(0), &Bound(0))), Some(8)),
    (Let(&Value(1), &Bound(1)), None),
    (Let(&Value(0), &Let(&Value(1), &Bound(1))), Some(4)),
    (Let(&Value(5), &Value(0)), None),
];

const JOINED: Form = Join(&Value(0), &Value(1));

/// The words of terms where the operands are 1100 with the taint 1010, 1 with 0, zeros of 65,536 bits with ones, and
/// the greatest number of 128 bits with 1.
const WORDS: &[(Form, &str)] = &[
    (Value(0), "1100"),
    (Value(1), "1"),
    (Taint(0), "1010"),
    (Taint(1), "0"),
    (Const(3, 4), "100"),
    (Pick(&Value(0), &[3, 0, 0]), "001"),
    (Pick(&Taint(0), &[0, 1, 3, 1]), "1110"),
    (Join(&Value(0), &Value(1)), "11100"),
    (Join(&Taint(1), &Value(0)), "11000"),
    (One(Op1::Not, &Value(0)), "0011"),
    (One(Op1::ReduceAnd, &Const(4, 12)), "0"),
    (One(Op1::ReduceOr, &Const(4, 12)), "1"),
    (One(Op1::ReduceXor, &Const(4, 12)), "0"),
    (One(Op1::ReduceAnd, &Const(3, 7)), "1"),
    (One(Op1::ReduceOr, &Const(3, 7)), "1"),
    (One(Op1::ReduceXor, &Const(3, 7)), "1"),
    (One(Op1::ReduceAnd, &Const(2, 0)), "0"),
    (One(Op1::ReduceOr, &Const(2, 0)), "0"),
    (One(Op1::ReduceXor, &Const(2, 0)), "0"),
    (Two(Op2::And, &Const(4, 12), &Const(4, 10)), "1000"),
    (Two(Op2::Or, &Const(4, 12), &Const(4, 10)), "1110"),
    (Two(Op2::Xor, &Const(4, 12), &Const(4, 10)), "0110"),
    // 12 + 6 is 16 + 2, and 11 * 5 is 3 * 16 + 7
    (Two(Op2::Add, &Const(4, 12), &Const(4, 6)), "0010"),
    (Two(Op2::Mul, &Const(4, 11), &Const(4, 5)), "0111"),
    (Two(Op2::Div, &Const(4, 13), &Const(4, 3)), "0100"),
    (Two(Op2::Div, &Const(4, 3), &Const(4, 13)), "0000"),
    (Two(Op2::Div, &Const(4, 13), &Const(4, 0)), "0000"),
    (Two(Op2::LessUnsigned, &Const(4, 6), &Const(4, 12)), "1"),
    (Two(Op2::LessUnsigned, &Const(4, 12), &Const(4, 6)), "0"),
    (Two(Op2::LessUnsigned, &Const(4, 12), &Const(4, 12)), "0"),
    // 6 and -4, and -6 and -4
    (Two(Op2::LessSigned, &Const(4, 6), &Const(4, 12)), "0"),
    (Two(Op2::LessSigned, &Const(4, 12), &Const(4, 6)), "1"),
    (Two(Op2::LessSigned, &Const(4, 10), &Const(4, 12)), "1"),
    (Two(Op2::LessSigned, &Const(4, 12), &Const(4, 12)), "0"),
    (Two(Op2::Equal, &Const(4, 12), &Const(4, 12)), "1"),
    (Two(Op2::Equal, &Const(4, 12), &Const(4, 4)), "0"),
    (Choose(&Value(1), &Value(0), &Taint(0)), "1010"),
    (Choose(&Taint(1), &Value(0), &Taint(0)), "1100"),
    (Let(&Value(0), &Join(&Bound(0), &Taint(0))), "10101100"),
    // the nearest, a taint, low, and the other above it
    (
        Let(&Value(0), &Let(&Taint(0), &Join(&Bound(0), &Bound(1)))),
        "11001010",
    ),
    // what is named may name what is around it, and is of no more use outside
    (
        Let(
            &Value(0),
            &Join(&Let(&One(Op1::Not, &Bound(0)), &Bound(0)), &Bound(0)),
        ),
        "11000011",
    ),
    (Extended(&Value(0), 4, 6, true), "111100"),
    (Extended(&Value(0), 4, 6, false), "001100"),
    (Extended(&Taint(0), 4, 2, false), "10"),
    (One(Op1::ReduceAnd, &One(Op1::Not, &Value(2))), "1"),
    (One(Op1::ReduceAnd, &Taint(2)), "1"),
    (Two(Op2::Equal, &Value(2), &Taint(2)), "0"),
    (
        One(Op1::ReduceOr, &Two(Op2::Add, &Value(3), &Taint(3))),
        "0",
    ),
    (Two(Op2::LessSigned, &Value(3), &Taint(3)), "1"),
];

/// The costs of terms where the operands have 4, 1, 4,096, 4,097 and 65,536 bits: one cell for each 4,096 bits, and where
/// there are several of them one that reduces theirs.
const COSTS: &[(Form, u64)] = &[
    (Value(4), 0),
    (Join(&Value(0), &Const(1, 1)), 0),
    (One(Op1::Not, &Value(0)), 1),
    (One(Op1::Not, &Value(2)), 1),
    (One(Op1::Not, &Value(3)), 2),
    (One(Op1::Not, &Value(4)), 16),
    (One(Op1::ReduceXor, &Value(0)), 1),
    (One(Op1::ReduceXor, &Value(2)), 1),
    (One(Op1::ReduceXor, &Value(3)), 3),
    (One(Op1::ReduceXor, &Value(4)), 17),
    (Two(Op2::And, &Value(2), &Taint(2)), 1),
    (Two(Op2::And, &Value(3), &Taint(3)), 2),
    (Two(Op2::And, &Value(4), &Taint(4)), 16),
    (Two(Op2::Equal, &Value(2), &Taint(2)), 1),
    (Two(Op2::Equal, &Value(3), &Taint(3)), 3),
    (Two(Op2::Equal, &Value(4), &Taint(4)), 17),
    // 17, 2, and 2 for the choice itself
    (
        Choose(
            &One(Op1::ReduceOr, &Value(4)),
            &One(Op1::Not, &Value(3)),
            &Taint(3),
        ),
        21,
    ),
    // what is named is paid for once, and a place of it costs nothing
    (
        Let(
            &Choose(
                &One(Op1::ReduceOr, &Value(4)),
                &One(Op1::Not, &Value(3)),
                &Taint(3),
            ),
            &Pick(&Two(Op2::Or, &Bound(0), &Bound(0)), &[4_096]),
        ),
        23,
    ),
];

/// The word of this width and number.
fn constant(alloc: Global, width: u32, number: u128) -> Result<Bits, NoMemory> {
    if width == 0 {
        Bits::zeros(alloc, 0)
    } else {
        Bits::from_u128(alloc, width.min(128), number)
    }
}

/// The term of a form.
fn term(alloc: Global, form: &Form) -> Result<Term, NoMemory> {
    match form {
        Value(place) => Ok(Term::Value(*place)),
        Taint(place) => Ok(Term::Taint(*place)),
        Const(width, number) => Ok(Term::Const(constant(alloc, *width, *number)?)),
        Bound(depth) => Ok(Term::Bound(*depth)),
        Pick(part, places) => {
            let places = Vec::from_slice(alloc, places)?;
            Term::pick(alloc, term(alloc, part)?, places)
        }
        Join(low, high) => Term::join(alloc, term(alloc, low)?, term(alloc, high)?),
        One(op, part) => Term::one(alloc, *op, term(alloc, part)?),
        Two(op, first, second) => Term::two(alloc, *op, term(alloc, first)?, term(alloc, second)?),
        Choose(select, zero, one) => {
            let select = term(alloc, select)?;
            Term::choose(alloc, select, term(alloc, zero)?, term(alloc, one)?)
        }
        Let(named, body) => Term::name(alloc, term(alloc, named)?, term(alloc, body)?),
        Extended(part, of, width, signed) => {
            let width = (*width).min(65_536);
            Term::extended(alloc, term(alloc, part)?, *of, width, *signed)
        }
    }
}

fn widths_of(alloc: Global, words: &[Bits]) -> Result<Vec<u32>, Fail>
    ensures { IfOk result (λ v. v.items ≡ map length words.now) }
{
    Ok(words.iter().map(|word| word.width()).collect(alloc)?)
}

/// The term has this word.
fn check_word(
    rt: &impl Abort,
    alloc: Global,
    term: &Term,
    values: &[Bits],
    taints: &[Bits],
    wanted: &str,
) -> Result<(), Fail> {
    let widths = widths_of(alloc, values)?;
    let taint_widths = widths_of(alloc, taints)?;
    assert!(rt; widths.as_slice() == taint_widths.as_slice());
    let width = term
        .width(&widths)
        .expect(rt, "a term that isn't well formed");
    let word = term.eval(alloc, values, taints)?;
    assert_eq!(rt; word.width(), width, "{wanted}");
    let text = word.to_text(alloc)?;
    assert_eq!(rt; text.as_slice(), wanted.as_bytes());
    Ok(())
}

#[test]
fn widths(rt: HostRuntime) -> Result<(), Fail> {
    for (form, wanted) in WIDTHS {
        let term = term(rt.alloc(), form)?;
        assert_eq!(rt; term.width(&[4, 1, 128, 129, 65_536]), *wanted);
    }
    // the widest words, and wider ones
    let joined = term(rt.alloc(), &JOINED)?;
    assert_eq!(rt; joined.width(&[65_535, 1]), Some(65_536));
    assert_eq!(rt; joined.width(&[0, 1]), None);
    assert_eq!(rt; joined.width(&[65_537, 1]), None);
    Ok(())
}

#[test]
fn words(rt: HostRuntime) -> Result<(), Fail> {
    let alloc = rt.alloc();
    let values = [
        Bits::from_u128(alloc, 4, 12)?,
        Bits::from_u128(alloc, 1, 1)?,
        Bits::zeros(alloc, 65_536)?,
        Bits::from_u128(alloc, 128, u128::MAX)?,
    ];
    let taints = [
        Bits::from_u128(alloc, 4, 10)?,
        Bits::zeros(alloc, 1)?,
        Bits::of(vec![in alloc; true; 65_536]?),
        Bits::from_u128(alloc, 128, 1)?,
    ];
    for (form, wanted) in WORDS {
        let term = term(alloc, form)?;
        check_word(&rt, alloc, &term, &values, &taints, wanted)?;
    }
    Ok(())
}

#[test]
fn costs(rt: HostRuntime) -> Result<(), Fail> {
    for (form, wanted) in COSTS {
        let term = term(rt.alloc(), form)?;
        assert_eq!(rt; term.cost(&[4, 1, 4_096, 4_097, 65_536]), *wanted);
    }
    Ok(())
}
