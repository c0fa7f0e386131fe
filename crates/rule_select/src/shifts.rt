// The terms of shifts.
ghost use Rattle.std.specs.Prelude.{ℕ, ◌≡◌, ◌≤◌, IfOk, max};
ghost use Rattle.cif_defs.specs.declared.kinds.Param.TheVariants.{BWidth};
ghost use Rattle.cif_defs.specs.Cells.{number_of, a_signed, y_width};
ghost use Rattle.cif_term.specs.TermView.{formula_of};
ghost use Rattle.rule_select.specs.Moves.{wide_by, FitsBy};
ghost use Rattle.rule_select.specs.Shifts.{shift_formula, cell_shift, left_moves, right_moves, right_width, signed_moves, IsNarrow};

use crate::moves::{Moves, places};
use crate::tree::tree_term;
use cif_bits::NoMemory;
use cif_defs::Param;
use cif_kinds::Cell;
use cif_term::Term;
use std::alloc::Global;

/// The number of a parameter that says how wide a port is.
pub fn width_by(cell: &Cell, param: Param) -> u32
    requires { number_of cell.now param ≤ 65536 }
    ensures { result ≡ number_of cell.now param }
{
    cell.number(param) as u32
}

/// Whether A is signed.
pub fn is_signed(cell: &Cell) -> bool
    ensures { result ≡ a_signed cell.now }
{
    cell.number(Param::ASigned) == 1
}

/// The width that a right shift works on.
fn shown_width(cell: &Cell) -> u32
    requires { IsNarrow cell.now }
    ensures { result ≡ right_width cell.now }
{
    width_by(cell, Param::AWidth).max(width_by(cell, Param::YWidth))
}

/// The taint of `shown` bits of A, which has `of` bits and is extended to `width`, moved by the `by` bits of B.
pub fn moved(
    alloc: Global,
    moves: Moves,
    width: u32,
    shown: u32,
    of: u32,
    signed: bool,
    by: u32,
) -> Result<Term, NoMemory>
    requires wide { width ≡ wide_by moves }
    requires fits { FitsBy moves by }
    requires limit { width ≤ 65536 }
    requires few { shown ≤ 65536 }
    ensures { IfOk result (λ t. formula_of t ≡ shift_formula moves shown of signed by) }
{
    let value = Term::extended(alloc, Term::Value(0), of, width, signed)?;
    let taint = Term::extended(alloc, Term::Taint(0), of, width, signed)?;
    let body = Term::pick(alloc, Term::Bound(0), places(alloc, 0, shown)?)?;
    tree_term(alloc, moves, 1, by, value, taint, body)
}

/// The taint of a shift whose words move as `moves` says, `width` bits wide.
fn shift_term(alloc: Global, cell: &Cell, moves: Moves, width: u32) -> Result<Term, NoMemory>
    requires narrow { IsNarrow cell.now }
    requires wide { width ≡ wide_by moves }
    requires fits { FitsBy moves (number_of cell.now BWidth) }
    requires limit { width ≤ 65536 }
    ensures { IfOk result (λ t. formula_of t ≡ cell_shift moves cell.now) }
{
    let shown = width_by(cell, Param::YWidth);
    let of = width_by(cell, Param::AWidth);
    let by = width_by(cell, Param::BWidth);
    moved(alloc, moves, width, shown, of, is_signed(cell), by)
}

/// The taint of `$shl` and `$sshl`.
#[tactic(auto, unfolding(crate::specs::Moves::FitsBy))]
pub fn left_term(alloc: Global, cell: &Cell) -> Result<Term, NoMemory>
    requires { IsNarrow cell.now }
    ensures { IfOk result (λ t. formula_of t ≡ cell_shift (left_moves cell.now) cell.now) }
{
    let width = width_by(cell, Param::YWidth);
    shift_term(alloc, cell, Moves::Left(width), width)
}

/// The taint of `$shr`.
#[tactic(auto, unfolding(crate::specs::Moves::FitsBy))]
pub fn right_term(alloc: Global, cell: &Cell) -> Result<Term, NoMemory>
    requires { IsNarrow cell.now }
    ensures { IfOk result (λ t. formula_of t ≡ cell_shift (right_moves cell.now) cell.now) }
{
    let width = shown_width(cell);
    shift_term(alloc, cell, Moves::Right(width), width)
}

/// How `$sshr` moves words of so many bits.
#[tactic(auto, unfolding(crate::specs::Moves::FitsBy))]
fn signed_stages(cell: &Cell, width: u32) -> Moves
    requires { width ≡ right_width cell.now }
    ensures value { result ≡ signed_moves cell.now }
    ensures wide { wide_by result ≡ width }
    ensures fits { width ≤ 65536 → (k : ℕ) → FitsBy result k }
{
    if is_signed(cell) {
        Moves::Signed(width)
    } else {
        Moves::Right(width)
    }
}

/// The taint of `$sshr`.
pub fn signed_term(alloc: Global, cell: &Cell) -> Result<Term, NoMemory>
    requires { IsNarrow cell.now }
    ensures { IfOk result (λ t. formula_of t ≡ cell_shift (signed_moves cell.now) cell.now) }
{
    let width = shown_width(cell);
    let moves = signed_stages(cell, width);
    shift_term(alloc, cell, moves, width)
}
