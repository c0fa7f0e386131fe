// The width of a term, which tells whether it is well formed.

ghost use Rattle.std.specs.Prelude.{◌≡◌, nat_lt, [], slice_get};
ghost use Rattle.std.specs.List.{list_all};
ghost use Rattle.cif_term.specs.Formulas.{choose_width, is_on_numbers, join_width, one_width, one_width_option, pick_width, same_width, sized, sized_option, two_width, two_width_option, width_of};
ghost use Rattle.cif_term.specs.Scopes.{named_in};
ghost use Rattle.cif_term.specs.TermView.{formula_of};

use crate::ops::{Op1, Op2};
use crate::scope::Scope;
use crate::term::Term;

/// This width, where a part can have it: 1 to 65,536 bits.
pub(crate) fn sized(width: usize) -> Option<u32>
    ensures { result ≡ sized width }
{
    if 1 <= width && width <= 65_536 {
        Some(width as u32)
    } else {
        None
    }
}

/// The width of an operand.
pub(crate) fn operand_width(operands: &[u32], place: u32) -> Option<u32>
    ensures { result ≡ sized_option (slice_get operands.now place) }
{
    sized(*operands.get(place as usize)? as usize)
}

/// The width of what is named at a depth.
pub(crate) fn bound_width(names: &Scope<u32>, depth: u32) -> Option<u32>
    ensures { result ≡ sized_option (slice_get (named_in names.now) depth) }
{
    sized(*names.get(depth)? as usize)
}

/// Whether each place lies in a part of this width.
fn are_within(places: &[u32], width: u32) -> bool
    ensures { result ≡ list_all (λ i. nat_lt i width) places.now }
{
    places.iter().all(|place| *place < width)
}

/// As many bits as there are places, where each of them lies in the part.
pub(crate) fn pick_width(places: &[u32], part: Option<u32>) -> Option<u32>
    ensures { result ≡ pick_width places.now part }
{
    let part = part?;
    if are_within(places, part) {
        sized(places.len())
    } else {
        None
    }
}

/// The widths of both parts together.
pub(crate) fn join_width(low: Option<u32>, high: Option<u32>) -> Option<u32>
    ensures { result ≡ join_width low high }
{
    let low = low?;
    let high = high?;
    sized(low as usize + high as usize)
}

/// What an operation on one part gives.
pub(crate) fn one_width(op: Op1, part: Option<u32>) -> Option<u32>
    ensures { result ≡ one_width_option op part }
{
    let part = part?;
    match op {
        Op1::Not => Some(part),
        Op1::ReduceAnd | Op1::ReduceOr | Op1::ReduceXor => Some(1),
    }
}

/// The width of two parts, where it is the same.
pub(crate) fn same_width(first: Option<u32>, second: Option<u32>) -> Option<u32>
    ensures { result ≡ same_width first second }
{
    let first = first?;
    let second = second?;
    if first == second { Some(first) } else { None }
}

/// What an operation on two parts of this width gives.
pub(crate) fn two_width(op: Op2, parts: Option<u32>) -> Option<u32>
    ensures { result ≡ two_width_option op parts }
{
    let parts = parts?;
    match op {
        Op2::And | Op2::Or | Op2::Xor => Some(parts),
        Op2::Equal => Some(1),
        _ if parts > 128 => None,
        Op2::LessUnsigned | Op2::LessSigned => Some(1),
        Op2::Add | Op2::Mul | Op2::Div => Some(parts),
    }
}

/// The width of either part, where the select has one bit.
pub(crate) fn choose_width(select: Option<u32>, parts: Option<u32>) -> Option<u32>
    ensures { result ≡ choose_width select parts }
{
    if select? == 1 { parts } else { None }
}

/// The width inside what encloses the term.
fn width_in(term: &Term, operands: &[u32], names: &Scope<u32>) -> Option<u32>
    ensures { result ≡ width_of (formula_of term.now) operands.now (named_in names.now) }
{
    match term {
        Term::Value(place) | Term::Taint(place) => operand_width(operands, *place),
        Term::Const(word) => sized(word.width() as usize),
        Term::Bound(depth) => bound_width(names, *depth),
        Term::Pick(part, places) => pick_width(places.items(), width_in(part, operands, names)),
        Term::Join(low, high) => join_width(
            width_in(low, operands, names),
            width_in(high, operands, names),
        ),
        Term::One(op, part) => one_width(*op, width_in(part, operands, names)),
        Term::Two(op, first, second) => {
            let first = width_in(first, operands, names);
            let second = width_in(second, operands, names);
            two_width(*op, same_width(first, second))
        }
        Term::Choose(select, zero, one) => {
            let zero = width_in(zero, operands, names);
            let one = width_in(one, operands, names);
            choose_width(width_in(select, operands, names), same_width(zero, one))
        }
        Term::Let(named, body) => {
            let width = width_in(named, operands, names)?;
            width_in(body, operands, &Scope::Inside(&width, &*names))
        }
    }
}

impl Term {
    /// How many bits the term's word has, over operands of these widths. None where the term isn't well formed for them:
    /// where an operand or a `Let` that it names isn't there, a place lies outside its part, two parts of one operation
    /// differ in width, numbers have more than 128 bits, a select hasn't one bit, or a part hasn't 1 to 65,536 bits.
    pub fn width(&self, operands: &[u32]) -> Option<u32>
        ensures { result ≡ width_of (formula_of self.now) operands.now [] }
    {
        width_in(self, operands, &Scope::Outside)
    }
}
