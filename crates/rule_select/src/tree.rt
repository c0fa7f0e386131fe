// Trees of choices.
ghost use Rattle.std.specs.Prelude.{◌≡◌, ◌≤◌, ◌+◌, IfOk, [], ◌∷◌, true, false};
ghost use Rattle.cif_term.specs.TermView.{formula_of};
ghost use Rattle.cif_term.specs.Formulas.{Bound, Choose, Two};
ghost use Rattle.cif_term.specs.declared.ops.Op2.TheVariants.{Or, Xor};
ghost use Rattle.rule_select.specs.Trees.{select_bit, select_taint, stage_value, stage_taint, stage, staged, tree};
ghost use Rattle.rule_select.specs.Moves.{parts_by, order_by, FitsBy};

use crate::moves::{Moves, order, part};
use cif_bits::NoMemory;
use cif_term::{Op2, Term};
use std::alloc::Global;

/// One place.
fn single_place(alloc: Global, place: u32) -> Result<Vec<u32>, NoMemory>
    ensures { IfOk result (λ v. v.items ≡ place ∷ []) }
{
    Ok(vec![in alloc; place]?)
}

/// A bit of an operand.
pub fn bit_of(alloc: Global, operand: u32, place: u32) -> Result<Term, NoMemory>
    ensures { IfOk result (λ t. formula_of t ≡ select_bit operand place) }
{
    Term::pick(alloc, Term::Value(operand), single_place(alloc, place)?)
}

/// The taint of a bit of an operand.
pub fn taint_of_bit(alloc: Global, operand: u32, place: u32) -> Result<Term, NoMemory>
    ensures { IfOk result (λ t. formula_of t ≡ select_taint operand place) }
{
    Term::pick(alloc, Term::Taint(operand), single_place(alloc, place)?)
}

/// The word after a stage, where the word before is `Bound(1)`.
fn staged_value(alloc: Global, moves: Moves, operand: u32, select: u32) -> Result<Term, NoMemory>
    requires { FitsBy moves (select + 1) }
    ensures { IfOk result
        (λ t. formula_of t ≡ stage_value operand select (parts_by moves) (Bound 1)) }
{
    let zero = part(alloc, moves, select, false, false, Term::Bound(1))?;
    let one = part(alloc, moves, select, true, false, Term::Bound(1))?;
    Term::choose(alloc, bit_of(alloc, operand, select)?, zero, one)
}

/// The taint of the part that a stage chooses, where the taint before is `Bound(1)`.
fn chosen_taint(alloc: Global, moves: Moves, operand: u32, select: u32) -> Result<Term, NoMemory>
    requires { FitsBy moves (select + 1) }
    ensures { IfOk result (λ t. formula_of t ≡ Choose (select_bit operand select) (parts_by moves select false true (Bound 1)) (parts_by moves select true true (Bound 1))) }
{
    let zero = part(alloc, moves, select, false, true, Term::Bound(1))?;
    let one = part(alloc, moves, select, true, true, Term::Bound(1))?;
    Term::choose(alloc, bit_of(alloc, operand, select)?, zero, one)
}

/// Where the parts of a stage are tainted or differ: the word before is `Bound(2)`, and its taint `Bound(1)`.
fn either_taint(alloc: Global, moves: Moves, select: u32) -> Result<Term, NoMemory>
    requires { FitsBy moves (select + 1) }
    ensures { IfOk result (λ t. formula_of t ≡ Two Or (Two Or (parts_by moves select false true (Bound 1)) (parts_by moves select true true (Bound 1)))
        (Two Xor (parts_by moves select false false (Bound 2)) (parts_by moves select true false (Bound 2)))) }
{
    let zero_taint = part(alloc, moves, select, false, true, Term::Bound(1))?;
    let one_taint = part(alloc, moves, select, true, true, Term::Bound(1))?;
    let zero = part(alloc, moves, select, false, false, Term::Bound(2))?;
    let one = part(alloc, moves, select, true, false, Term::Bound(2))?;
    let either = Term::two(alloc, Op2::Or, zero_taint, one_taint)?;
    let differ = Term::two(alloc, Op2::Xor, zero, one)?;
    Term::two(alloc, Op2::Or, either, differ)
}

/// A stage, and then `body`.
fn stage_term(
    alloc: Global,
    moves: Moves,
    operand: u32,
    select: u32,
    body: Term,
) -> Result<Term, NoMemory>
    requires { FitsBy moves (select + 1) }
    ensures { IfOk result
        (λ t. formula_of t ≡ stage operand select (parts_by moves) (formula_of body)) }
{
    let value = staged_value(alloc, moves, operand, select)?;
    let chosen = chosen_taint(alloc, moves, operand, select)?;
    let either = either_taint(alloc, moves, select)?;
    let taint = Term::choose(alloc, taint_of_bit(alloc, operand, select)?, chosen, either)?;
    Term::name(alloc, value, Term::name(alloc, taint, body)?)
}

/// Stages `from` to `from + len` of `count`, and then `body`.
#[tactic(auto, using(crate::proofs::StageSteps::fits_before))]
pub fn staged_term(
    alloc: Global,
    moves: Moves,
    operand: u32,
    count: u32,
    from: u32,
    len: u32,
    body: Term,
) -> Result<Term, NoMemory>
    requires fits { FitsBy moves count }
    requires within { from + len ≤ count }
    ensures { IfOk result
        (λ t. formula_of t ≡ staged operand (order_by moves count) (parts_by moves) (formula_of body) len from) }
{
    let mut term = body;
    for done in 0..len {
        let select = order(moves, count, from + (len - 1 - done));
        term = stage_term(alloc, moves, operand, select, term)?;
    }
    Ok(term)
}

/// A word and its taint through `count` stages, each of which chooses by a bit of an operand, and then `body`, in which
/// the word is `Bound(1)` and its taint `Bound(0)`.
pub fn tree_term(
    alloc: Global,
    moves: Moves,
    operand: u32,
    count: u32,
    value: Term,
    taint: Term,
    body: Term,
) -> Result<Term, NoMemory>
    requires { FitsBy moves count }
    ensures { IfOk result (λ t.
        formula_of t ≡ tree operand (order_by moves count) (parts_by moves) (formula_of value) (formula_of taint) count (formula_of body)) }
{
    let staged = staged_term(alloc, moves, operand, count, 0, count, body)?;
    Term::name(alloc, value, Term::name(alloc, taint, staged)?)
}
