// Terms of bitwise kinds.
ghost use Rattle.std.specs.Prelude.{◌≡◌, ◌≤◌, true, IfOk};
ghost use Rattle.cif_defs.specs.Cells.{a_signed, both_signed, number_of, y_width};
ghost use Rattle.cif_defs.specs.Fitted.{IsFitted};
ghost use Rattle.cif_term.specs.TermView.{formula_of};
ghost use Rattle.rule_logic.specs.LogicFormulas.{is_unary, is_binary, and_formula, or_formula, binary_formula, either_taint_formula, taint_at, value_at};

use cif_bits::NoMemory;
use cif_kinds::{Cell, Param};
use cif_term::{Op1, Op2, Term};
use std::alloc::Global;

/// How an operand is extended: from how many bits to how many, and whether with its sign.
#[derive(Clone, Copy)]
pub struct Extension {
    pub from: u32,
    pub to: u32,
    pub signed: bool,
}

impl Extension {
    /// An operand's word, extended.
    fn value(&self, alloc: Global, port: u32) -> Result<Term, NoMemory>
        requires { self.now.to ≤ 65536 }
        ensures { IfOk result (λ t. formula_of t ≡ value_at self.now.to self.now.signed self.now.from port) }
    {
        Term::extended(alloc, Term::Value(port), self.from, self.to, self.signed)
    }

    /// An operand's taint, extended.
    fn taint(&self, alloc: Global, port: u32) -> Result<Term, NoMemory>
        requires { self.now.to ≤ 65536 }
        ensures { IfOk result (λ t. formula_of t ≡ taint_at self.now.to self.now.signed self.now.from port) }
    {
        Term::extended(alloc, Term::Taint(port), self.from, self.to, self.signed)
    }
}

/// How A of a unary cell is extended to the width of Y.
pub fn own_extension(cell: &Cell) -> Extension
    requires unary { is_unary cell.now.kind ≡ true }
    requires fitted { IsFitted cell.now }
    ensures from { result.from ≡ number_of cell.now Param.AWidth }
    ensures to { result.to ≡ y_width cell.now }
    ensures signed { result.signed ≡ a_signed cell.now }
    ensures limit { result.to ≤ 65536 }
{
    Extension {
        from: cell.number(Param::AWidth) as u32,
        to: cell.number(Param::YWidth) as u32,
        signed: cell.number(Param::ASigned) == 1,
    }
}

/// Whether both operands of a binary cell are signed.
fn are_signed(cell: &Cell) -> bool
    ensures { result ≡ both_signed cell.now }
{
    (cell.number(Param::ASigned) == 1) & (cell.number(Param::BSigned) == 1)
}

/// How A of a binary cell is extended to the width of Y.
pub fn a_extension(cell: &Cell) -> Extension
    requires binary { is_binary cell.now.kind ≡ true }
    requires fitted { IsFitted cell.now }
    ensures from { result.from ≡ number_of cell.now Param.AWidth }
    ensures to { result.to ≡ y_width cell.now }
    ensures signed { result.signed ≡ both_signed cell.now }
    ensures limit { result.to ≤ 65536 }
{
    Extension {
        from: cell.number(Param::AWidth) as u32,
        to: cell.number(Param::YWidth) as u32,
        signed: are_signed(cell),
    }
}

/// How B of a binary cell is extended to the width of Y.
fn b_extension(cell: &Cell) -> Extension
    requires binary { is_binary cell.now.kind ≡ true }
    requires fitted { IsFitted cell.now }
    ensures from { result.from ≡ number_of cell.now Param.BWidth }
    ensures to { result.to ≡ y_width cell.now }
    ensures signed { result.signed ≡ both_signed cell.now }
    ensures limit { result.to ≤ 65536 }
{
    Extension {
        from: cell.number(Param::BWidth) as u32,
        to: cell.number(Param::YWidth) as u32,
        signed: are_signed(cell),
    }
}

/// The taint of `$not` and `$pos`: that of A.
pub fn own_term(alloc: Global, cell: &Cell) -> Result<Term, NoMemory>
    requires unary { is_unary cell.now.kind ≡ true }
    requires fitted { IsFitted cell.now }
    ensures { IfOk result (λ t. formula_of t
        ≡ taint_at (y_width cell.now) (a_signed cell.now) (number_of cell.now Param.AWidth) 0) }
{
    let a = own_extension(cell);
    Ok(a.taint(alloc, 0)?)
}

/// The taint of `$and`, as GLIFT has it: a tainted bit shows where the other bit is 1 or tainted.
pub fn and_term(alloc: Global, cell: &Cell) -> Result<Term, NoMemory>
    requires binary { is_binary cell.now.kind ≡ true }
    requires fitted { IsFitted cell.now }
    ensures { IfOk result (λ t. formula_of t ≡ binary_formula and_formula cell.now) }
{
    let a = a_extension(cell);
    let b = b_extension(cell);
    let both = Term::two(alloc, Op2::And, a.taint(alloc, 0)?, b.taint(alloc, 1)?)?;
    let by_a = Term::two(alloc, Op2::And, a.taint(alloc, 0)?, b.value(alloc, 1)?)?;
    let by_b = Term::two(alloc, Op2::And, b.taint(alloc, 1)?, a.value(alloc, 0)?)?;
    let by_one = Term::two(alloc, Op2::Or, by_a, by_b)?;
    Term::two(alloc, Op2::Or, both, by_one)
}

/// The taint of `$or`: a tainted bit shows where the other bit is 0 or tainted.
pub fn or_term(alloc: Global, cell: &Cell) -> Result<Term, NoMemory>
    requires binary { is_binary cell.now.kind ≡ true }
    requires fitted { IsFitted cell.now }
    ensures { IfOk result (λ t. formula_of t ≡ binary_formula or_formula cell.now) }
{
    let a = a_extension(cell);
    let b = b_extension(cell);
    let both = Term::two(alloc, Op2::And, a.taint(alloc, 0)?, b.taint(alloc, 1)?)?;
    let b_clear = Term::one(alloc, Op1::Not, b.value(alloc, 1)?)?;
    let by_a = Term::two(alloc, Op2::And, a.taint(alloc, 0)?, b_clear)?;
    let a_clear = Term::one(alloc, Op1::Not, a.value(alloc, 0)?)?;
    let by_b = Term::two(alloc, Op2::And, b.taint(alloc, 1)?, a_clear)?;
    let by_one = Term::two(alloc, Op2::Or, by_a, by_b)?;
    Term::two(alloc, Op2::Or, both, by_one)
}

/// The taint of `$xor` and `$xnor`: any tainted bit shows.
pub fn either_term(alloc: Global, cell: &Cell) -> Result<Term, NoMemory>
    requires binary { is_binary cell.now.kind ≡ true }
    requires fitted { IsFitted cell.now }
    ensures { IfOk result (λ t. formula_of t ≡ either_taint_formula cell.now) }
{
    let a = a_extension(cell);
    let b = b_extension(cell);
    Term::two(alloc, Op2::Or, a.taint(alloc, 0)?, b.taint(alloc, 1)?)
}
