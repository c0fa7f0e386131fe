// The shadow of a cell that is a sum, a comparison or an equality.
ghost use Rattle.std.specs.Prelude.{◌≡◌, ◌≤◌, true, ◌<◌, length, map, List, [], Some, IfOk};
ghost use Rattle.cif_defs.specs.Words.{Word};
ghost use Rattle.cif_defs.specs.Cells.{a_signed, both_signed, number_of, y_width};
ghost use Rattle.cif_defs.specs.Fitted.{IsFitted, operand_widths};
ghost use Rattle.cif_defs.specs.Table.{outputs_of};
ghost use Rattle.cif_term.specs.Formulas.{value_of, width_of};
ghost use Rattle.cif_term.specs.CellTaints.{taint_word};
ghost use Rattle.cif_term.specs.TermView.{formula_of};
ghost use Rattle.rule_arith.specs.ArithFormulas.{alu_formula, arith_formula, covers_arith, is_pair};
ghost use Rattle.rule_arith.specs.SumFormulas.{neg_taint, of_own};

use crate::alu::{carry_output, sum_output, xor_term};
use crate::equals::equal_term;
use crate::operands::OperandPair;
use crate::orders::{greater_term, less_term};
use crate::sums::{add_term, neg_term, sub_term};
use cif_bits::NoMemory;
use cif_kinds::{Cell, Kind, Param, table};
use cif_term::{Shadow, Term};
use std::alloc::Global;
use std::marker::Model;

/// Whether both operands of a cell are signed.
fn are_signed(cell: &Cell) -> bool
    ensures { result ≡ both_signed cell.now }
{
    (cell.number(Param::ASigned) == 1) & (cell.number(Param::BSigned) == 1)
}

/// The operands A and B of a cell.
fn pair_of(cell: &Cell) -> OperandPair
    requires pair { is_pair cell.now.kind ≡ true }
    requires fitted { IsFitted cell.now }
    ensures signed { result.signed ≡ both_signed cell.now }
    ensures first { result.first_bits ≡ number_of cell.now Param.AWidth }
    ensures second { result.second_bits ≡ number_of cell.now Param.BWidth }
    ensures first_limit { result.first_bits ≤ 65536 }
    ensures second_limit { result.second_bits ≤ 65536 }
{
    OperandPair {
        signed: are_signed(cell),
        first_bits: cell.number(Param::AWidth) as u32,
        second_bits: cell.number(Param::BWidth) as u32,
    }
}

/// How many bits the outputs of a cell with operands A and B have.
fn width_of_output(cell: &Cell) -> u32
    requires pair { is_pair cell.now.kind ≡ true }
    requires fitted { IsFitted cell.now }
    ensures value { result ≡ y_width cell.now }
    ensures limit { result ≤ 65536 }
{
    cell.number(Param::YWidth) as u32
}

/// The taint of `$neg`.
fn own_term(alloc: Global, cell: &Cell) -> Result<Term, NoMemory>
    requires kind { cell.now.kind ≡ Kind.Neg }
    requires fitted { IsFitted cell.now }
    ensures { IfOk result (λ t. formula_of t ≡ of_own neg_taint cell.now) }
{
    let width = cell.number(Param::YWidth) as u32;
    let bits = cell.number(Param::AWidth) as u32;
    let signed = cell.number(Param::ASigned) == 1;
    Ok(neg_term(alloc, width, signed, bits)?)
}

/// The taint of an output of `$alu`.
fn alu_term(alloc: Global, cell: &Cell, output: u32) -> Result<Term, NoMemory>
    requires pair { is_pair cell.now.kind ≡ true }
    requires fitted { IsFitted cell.now }
    ensures { IfOk result (λ t. formula_of t ≡ alu_formula cell.now output) }
{
    let width = width_of_output(cell);
    let pair = pair_of(cell);
    match output {
        0 => Ok(xor_term(alloc, width, &pair)?),
        1 => Ok(sum_output(alloc, width, &pair)?),
        _ => Ok(carry_output(alloc, width, &pair)?),
    }
}

/// The taint of a cell with operands A and B and output Y.
#[tactic(auto, unfolding(crate::specs::ArithFormulas::formula_by))]
fn pair_term(alloc: Global, cell: &Cell, output: u32) -> Result<Term, NoMemory>
    requires pair { is_pair cell.now.kind ≡ true }
    requires fitted { IsFitted cell.now }
    ensures { IfOk result (λ t. formula_of t ≡ arith_formula cell.now output) }
{
    let width = width_of_output(cell);
    let pair = pair_of(cell);
    match cell.kind() {
        Kind::Add => Ok(add_term(alloc, width, &pair)?),
        Kind::Sub => Ok(sub_term(alloc, width, &pair)?),
        Kind::Lt | Kind::Ge => Ok(less_term(alloc, width, &pair)?),
        Kind::Gt | Kind::Le => Ok(greater_term(alloc, width, &pair)?),
        Kind::Alu => Ok(alu_term(alloc, cell, output)?),
        Kind::Eq | Kind::Ne | Kind::Eqx | Kind::Nex => Ok(equal_term(alloc, width, &pair)?),
        _ => unreachable!(),
    }
}

/// The term of the taint of an output.
#[tactic(auto, unfolding(crate::specs::ArithFormulas::formula_by))]
fn arith_term(alloc: Global, cell: &Cell, output: u32) -> Result<Term, NoMemory>
    requires covered { covers_arith cell.now.kind ≡ true }
    requires fitted { IsFitted cell.now }
    ensures { IfOk result (λ t. formula_of t ≡ arith_formula cell.now output) }
{
    match cell.kind() {
        Kind::Neg => Ok(own_term(alloc, cell)?),
        _ => Ok(pair_term(alloc, cell, output)?),
    }
}

/// The shadow logic of a cell that is a sum, a comparison or an equality: a term for each output.
#[derive(Drop)]
pub struct ArithShadow<'a> {
    cell: &'a Cell,
}

impl<'a> Model for ArithShadow<'a> {
    ghost use Rattle.std.specs.Prelude.{◌≡◌, true};
    ghost use Rattle.cif_defs.specs.Cells.{Cell as CellData};
    ghost use Rattle.cif_defs.specs.Fitted.{IsFitted};
    ghost use Rattle.rule_arith.specs.ArithFormulas.{covers_arith};

    ghost Value = { CellData };

    ghost view = { λ s. s.cell.now };

    ghost invariant = { λ s. (covers_arith s.cell.now.kind ≡ true) × IsFitted s.cell.now };
}

impl<'a> ArithShadow<'a> {
    /// The shadow of a cell.
    pub fn of(cell: &'a Cell) -> ArithShadow<'a>
        requires covered { covers_arith cell.now.kind ≡ true }
        requires fitted { IsFitted cell.now }
        ensures { result ≡ cell.now }
    {
        ArithShadow { cell }
    }
}

impl<'a> Shadow for ArithShadow<'a> {
    ghost widths = { operand_widths };

    ghost count = { λ c. length (outputs_of c.kind) };

    ghost formula = { arith_formula };

    ghost meant = { taint_word };

    fn outputs(&self) -> u32 {
        table::outputs(self.cell.kind()).len() as u32
    }

    fn term(&self, alloc: Global, output: u32) -> Result<Term, NoMemory> {
        let cell = self.cell;
        Ok(arith_term(alloc, cell, output)?)
    }
}
