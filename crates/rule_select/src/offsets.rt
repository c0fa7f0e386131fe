// The terms of $shift and $shiftx.
ghost use Rattle.std.specs.Prelude.{◌≡◌, ◌≤◌, IfOk, false, max};
ghost use Rattle.cif_defs.specs.Cells.{a_signed, b_signed, y_width};
ghost use Rattle.cif_term.specs.TermView.{formula_of};
ghost use Rattle.cif_term.specs.Formulas.{Bound};
ghost use Rattle.rule_select.specs.Choices.{taint_choice};
ghost use Rattle.rule_select.specs.Trees.{select_bit, select_taint};
ghost use Rattle.rule_select.specs.Shifts.{IsNarrow, shift_formula};
ghost use Rattle.rule_select.specs.Offsets.{pair_of, pair_value, pair_taint, near_pair, far_pair, two_way_formula, offset_formula, cell_offset, shift_offset, shiftx_offset};

use crate::moves::{Moves, left, places};
use crate::shifts::{is_signed, moved, width_by};
use crate::tree::{bit_of, taint_of_bit, tree_term};
use cif_bits::NoMemory;
use cif_defs::Param;
use cif_kinds::Cell;
use cif_term::{Op2, Term};
use std::alloc::Global;

/// `width` bits of the word `Bound(1)`, and above them those of its taint `Bound(0)`.
pub fn pair(alloc: Global, width: u32) -> Result<Term, NoMemory>
    requires { width ≤ 65536 }
    ensures { IfOk result (λ t. formula_of t ≡ pair_of width) }
{
    let value = Term::pick(alloc, Term::Bound(1), places(alloc, 0, width)?)?;
    let taint = Term::pick(alloc, Term::Bound(0), places(alloc, 0, width)?)?;
    Term::join(alloc, value, taint)
}

/// The word of a pair.
pub fn value_of_pair(alloc: Global, width: u32, pair: u32) -> Result<Term, NoMemory>
    requires { width ≤ 65536 }
    ensures { IfOk result (λ t. formula_of t ≡ pair_value width (Bound pair)) }
{
    Term::pick(alloc, Term::Bound(pair), places(alloc, 0, width)?)
}

/// The taint of a pair.
pub fn taint_of_pair(alloc: Global, width: u32, pair: u32) -> Result<Term, NoMemory>
    requires { width ≤ 65536 }
    ensures { IfOk result (λ t. formula_of t ≡ pair_taint width (Bound pair)) }
{
    Term::pick(alloc, Term::Bound(pair), places(alloc, width, width)?)
}

/// `width` bits of A moved right by the lowest `count` bits of B, and their taint.
#[tactic(auto, unfolding(crate::specs::Moves::FitsBy))]
fn near(alloc: Global, width: u32, of: u32, signed: bool, count: u32) -> Result<Term, NoMemory>
    requires narrow { width ≤ 65536 }
    requires limit { of ≤ 65536 }
    ensures { IfOk result (λ t. formula_of t ≡ near_pair width of signed count) }
{
    let wide = of.max(width);
    let value = Term::extended(alloc, Term::Value(0), of, wide, signed)?;
    let taint = Term::extended(alloc, Term::Taint(0), of, wide, signed)?;
    let body = pair(alloc, width)?;
    tree_term(alloc, Moves::Right(wide), 1, count, value, taint, body)
}

/// The same 2 to the `count` places further left.
#[tactic(auto, unfolding(crate::specs::Moves::FitsBy))]
fn far(alloc: Global, width: u32, of: u32, signed: bool, count: u32) -> Result<Term, NoMemory>
    requires { width ≤ 65536 }
    ensures { IfOk result (λ t. formula_of t ≡ far_pair width of signed count) }
{
    let value = Term::extended(alloc, Term::Value(0), of, width, signed)?;
    let taint = Term::extended(alloc, Term::Taint(0), of, width, signed)?;
    let raised = left(alloc, width, 0, value)?;
    let raised_taint = left(alloc, width, 0, taint)?;
    let body = pair(alloc, width)?;
    tree_term(
        alloc,
        Moves::Rising(width),
        1,
        count,
        raised,
        raised_taint,
        body,
    )
}

/// The taint of the pair that the sign of B chooses: `Bound(1)` for 0, and `Bound(0)` for 1.
fn chosen_pair(alloc: Global, width: u32, sign: u32) -> Result<Term, NoMemory>
    requires { width ≤ 65536 }
    ensures { IfOk result (λ t. formula_of t ≡ taint_choice (select_bit 1 sign) (select_taint 1 sign)
        (pair_value width (Bound 1)) (pair_taint width (Bound 1)) (pair_value width (Bound 0)) (pair_taint width (Bound 0))) }
{
    let zero = taint_of_pair(alloc, width, 1)?;
    let one = taint_of_pair(alloc, width, 0)?;
    let chosen = Term::choose(alloc, bit_of(alloc, 1, sign)?, zero, one)?;
    let zero_taint = taint_of_pair(alloc, width, 1)?;
    let one_taint = taint_of_pair(alloc, width, 0)?;
    let either = Term::two(alloc, Op2::Or, zero_taint, one_taint)?;
    let zero_value = value_of_pair(alloc, width, 1)?;
    let one_value = value_of_pair(alloc, width, 0)?;
    let differ = Term::two(alloc, Op2::Xor, zero_value, one_value)?;
    let joined = Term::two(alloc, Op2::Or, either, differ)?;
    Term::choose(alloc, taint_of_bit(alloc, 1, sign)?, chosen, joined)
}

/// The taint of `width` bits of A, which has `of` bits, moved right by B, or left where its sign, bit `sign`, is 1.
fn two_way(alloc: Global, width: u32, of: u32, signed: bool, sign: u32) -> Result<Term, NoMemory>
    requires narrow { width ≤ 65536 }
    requires limit { of ≤ 65536 }
    ensures { IfOk result (λ t. formula_of t ≡ two_way_formula width of signed sign) }
{
    let right = near(alloc, width, of, signed, sign)?;
    let left = far(alloc, width, of, signed, sign)?;
    let last = chosen_pair(alloc, width, sign)?;
    Term::name(alloc, right, Term::name(alloc, left, last)?)
}

/// The taint of `width` bits of A moved by B, which has `by` bits and may be signed.
#[tactic(auto, unfolding(crate::specs::Moves::FitsBy))]
fn offset(
    alloc: Global,
    width: u32,
    of: u32,
    signed: bool,
    both_ways: bool,
    by: u32,
) -> Result<Term, NoMemory>
    requires narrow { width ≤ 65536 }
    requires limit { of ≤ 65536 }
    ensures { IfOk result (λ t. formula_of t ≡ offset_formula width of signed both_ways by) }
{
    if both_ways {
        two_way(alloc, width, of, signed, by.saturating_sub(1))
    } else {
        let wide = of.max(width);
        moved(alloc, Moves::Right(wide), wide, width, of, signed, by)
    }
}

/// Whether B is signed.
fn is_offset_signed(cell: &Cell) -> bool
    ensures { result ≡ b_signed cell.now }
{
    cell.number(Param::BSigned) == 1
}

/// The taint of A moved by B, where A is signed or not.
fn offset_term(alloc: Global, cell: &Cell, signed: bool) -> Result<Term, NoMemory>
    requires { IsNarrow cell.now }
    ensures { IfOk result (λ t. formula_of t ≡ cell_offset signed cell.now) }
{
    let width = width_by(cell, Param::YWidth);
    let of = width_by(cell, Param::AWidth);
    let by = width_by(cell, Param::BWidth);
    offset(alloc, width, of, signed, is_offset_signed(cell), by)
}

/// The taint of `$shift`.
pub fn either_shift_term(alloc: Global, cell: &Cell) -> Result<Term, NoMemory>
    requires { IsNarrow cell.now }
    ensures { IfOk result (λ t. formula_of t ≡ shift_offset cell.now) }
{
    offset_term(alloc, cell, is_signed(cell))
}

/// The taint of `$shiftx`.
pub fn indexed_term(alloc: Global, cell: &Cell) -> Result<Term, NoMemory>
    requires { IsNarrow cell.now }
    ensures { IfOk result (λ t. formula_of t ≡ shiftx_offset cell.now) }
{
    offset_term(alloc, cell, false)
}
