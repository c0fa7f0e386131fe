// The cost of a term in cells.

ghost use Rattle.std.specs.Prelude.{◌≡◌, ◌+◌, ◌-◌, ◌^◌, max, min, [], unwrap_or};
ghost use Rattle.cif_term.specs.Formulas.{choose_width, cost_of, joined_pieces, one_cost, one_width_option, pieces, same_width, two_cost, two_width_option, width_of};
ghost use Rattle.cif_term.specs.Scopes.{named_in};
ghost use Rattle.cif_term.specs.TermView.{formula_of};

use crate::ops::{Op1, Op2};
use crate::scope::Scope;
use crate::term::Term;
use crate::width::{
    bound_width, choose_width, join_width, one_width, operand_width, pick_width, same_width, sized,
    two_width,
};

/// The width of a term and its cost. A cost of 2^64 - 1 stands for that many cells and more.
#[derive(Drop)]
struct Measure {
    width: Option<u32>,
    cost: u64,
}

impl Measure {
    /// What costs nothing.
    fn free(width: Option<u32>) -> Measure
        ensures width { result.width ≡ width }
        ensures cost { result.cost ≡ 0 }
    {
        Measure { width, cost: 0 }
    }

    /// The width, or 0 where there is none.
    fn bits(&self) -> u32
        ensures { result ≡ unwrap_or self.now.width 0 }
    {
        self.width.unwrap_or(0)
    }
}

/// How many pieces of 4,096 bits a word has.
fn pieces(width: u32) -> u64
    ensures { result ≡ pieces width }
{
    (width as u64 + 4_095) / 4_096
}

/// One more cell joins the bits of several pieces.
fn joined_pieces(width: u32) -> u64
    ensures { result ≡ joined_pieces (pieces width) }
{
    let pieces = pieces(width);
    if pieces > 1 { pieces + 1 } else { pieces }
}

/// What an operation on one part adds.
fn one_cost(op: Op1, width: u32) -> u64
    ensures { result ≡ one_cost op width }
{
    match op {
        Op1::Not => pieces(width),
        Op1::ReduceAnd | Op1::ReduceOr | Op1::ReduceXor => joined_pieces(width),
    }
}

/// What an operation on two parts adds, of which this is the wider.
fn two_cost(op: Op2, width: u32) -> u64
    ensures { result ≡ two_cost op width }
{
    match op {
        Op2::Equal => joined_pieces(width),
        _ => pieces(width),
    }
}

/// The measure of an operation on one part.
fn measure_one(op: Op1, part: &Measure) -> Measure
    ensures width { result.width ≡ one_width_option op part.now.width }
    ensures cost { result.cost
        ≡ min (part.now.cost + one_cost op (unwrap_or part.now.width 0)) (2 ^ 64 - 1) }
{
    Measure {
        width: one_width(op, part.width),
        cost: part.cost.saturating_add(one_cost(op, part.bits())),
    }
}

/// The measure of an operation on two parts.
fn measure_two(op: Op2, first: &Measure, second: &Measure) -> Measure
    ensures width { result.width
        ≡ two_width_option op (same_width first.now.width second.now.width) }
    ensures cost { result.cost ≡ min (first.now.cost + second.now.cost
        + two_cost op (max (unwrap_or first.now.width 0) (unwrap_or second.now.width 0))) (2 ^ 64 - 1) }
{
    let added = two_cost(op, first.bits().max(second.bits()));
    Measure {
        width: two_width(op, same_width(first.width, second.width)),
        cost: first.cost.saturating_add(second.cost).saturating_add(added),
    }
}

/// The measure of a choice.
fn measure_choice(select: &Measure, zero: &Measure, one: &Measure) -> Measure
    ensures width { result.width
        ≡ choose_width select.now.width (same_width zero.now.width one.now.width) }
    ensures cost { result.cost ≡ min (select.now.cost + zero.now.cost + one.now.cost
        + pieces (max (unwrap_or select.now.width 0)
        (max (unwrap_or zero.now.width 0) (unwrap_or one.now.width 0)))) (2 ^ 64 - 1) }
{
    let added = pieces(select.bits().max(zero.bits().max(one.bits())));
    let parts = select
        .cost
        .saturating_add(zero.cost)
        .saturating_add(one.cost);
    Measure {
        width: choose_width(select.width, same_width(zero.width, one.width)),
        cost: parts.saturating_add(added),
    }
}

/// The measure inside what encloses the term.
fn measure_in(term: &Term, operands: &[u32], names: &Scope<u32>) -> Measure
    ensures width { result.width ≡ width_of (formula_of term.now) operands.now (named_in names.now) }
    ensures cost { result.cost
        ≡ min (cost_of (formula_of term.now) operands.now (named_in names.now)) (2 ^ 64 - 1) }
{
    match term {
        Term::Value(place) | Term::Taint(place) => Measure::free(operand_width(operands, *place)),
        Term::Const(word) => Measure::free(sized(word.width() as usize)),
        Term::Bound(depth) => Measure::free(bound_width(names, *depth)),
        Term::Pick(part, places) => {
            let part = measure_in(part, operands, names);
            let width = pick_width(places.items(), part.width);
            Measure {
                width,
                cost: part.cost,
            }
        }
        Term::Join(low, high) => {
            let low = measure_in(low, operands, names);
            let high = measure_in(high, operands, names);
            let width = join_width(low.width, high.width);
            let cost = low.cost.saturating_add(high.cost);
            Measure { width, cost }
        }
        Term::One(op, part) => measure_one(*op, &measure_in(part, operands, names)),
        Term::Two(op, first, second) => {
            let first = measure_in(first, operands, names);
            measure_two(*op, &first, &measure_in(second, operands, names))
        }
        Term::Choose(select, zero, one) => {
            let select = measure_in(select, operands, names);
            let zero = measure_in(zero, operands, names);
            measure_choice(&select, &zero, &measure_in(one, operands, names))
        }
        Term::Let(named, body) => {
            let named = measure_in(named, operands, names);
            let bits = named.bits();
            let body = measure_in(body, operands, &Scope::Inside(&bits, &*names));
            let width = if named.width.is_some() {
                body.width
            } else {
                None
            };
            let cost = named.cost.saturating_add(body.cost);
            Measure { width, cost }
        }
    }
}

impl Term {
    /// How many cells of an augmented netlist the term costs, over operands of these widths. The answer 2^64 - 1 stands
    /// for that many cells and more.
    pub fn cost(&self, operands: &[u32]) -> u64
        ensures { result ≡ min (cost_of (formula_of self.now) operands.now []) (2 ^ 64 - 1) }
    {
        measure_in(self, operands, &Scope::Outside).cost
    }
}
