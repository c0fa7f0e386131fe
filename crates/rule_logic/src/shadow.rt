// The shadow of a cell of a bitwise, reducing or wiring kind.
ghost use Rattle.std.specs.Prelude.{◌≡◌, ◌+◌, ◌≤◌, true, ◌<◌, length, map, List, [], ◌∷◌, Some, IfOk};
ghost use Rattle.std.specs.List.{range_with_len};
ghost use Rattle.cif_defs.specs.Words.{Word};
ghost use Rattle.cif_defs.specs.Cells.{number_of, y_width};
ghost use Rattle.cif_defs.specs.Fitted.{IsFitted, operand_widths};
ghost use Rattle.cif_defs.specs.Table.{outputs_of};
ghost use Rattle.cif_term.specs.Formulas.{value_of, width_of, Pick, Taint};
ghost use Rattle.cif_term.specs.CellTaints.{taint_word};
ghost use Rattle.cif_term.specs.TermView.{formula_of};
ghost use Rattle.rule_logic.specs.LogicFormulas.{covers_logic, is_unary, is_binary, logic_formula, flag_formula, fa_formula};

use crate::adder::{carry_term, sum_term};
use crate::bitwise::{a_extension, and_term, either_term, or_term, own_extension, own_term};
use crate::reduction::{
    flag_term, logic_and_term, logic_or_term, reduce_and_term, reduce_or_term, reduce_xor_term,
};
use cif_bits::NoMemory;
use cif_kinds::{Cell, Kind, Param, table};
use cif_term::{Shadow, Term};
use std::alloc::Global;
use std::marker::Model;

/// A bit that a cell with operand A shows in Y.
fn unary_flag(alloc: Global, cell: &Cell, bit: Term) -> Result<Term, NoMemory>
    requires unary { is_unary cell.now.kind ≡ true }
    requires fitted { IsFitted cell.now }
    ensures { IfOk result (λ t. formula_of t ≡ flag_formula (y_width cell.now) (formula_of bit)) }
{
    let extension = own_extension(cell);
    Ok(flag_term(alloc, extension.to, bit)?)
}

/// A bit that a cell with operands A and B shows in Y.
fn binary_flag(alloc: Global, cell: &Cell, bit: Term) -> Result<Term, NoMemory>
    requires binary { is_binary cell.now.kind ≡ true }
    requires fitted { IsFitted cell.now }
    ensures { IfOk result (λ t. formula_of t ≡ flag_formula (y_width cell.now) (formula_of bit)) }
{
    let extension = a_extension(cell);
    Ok(flag_term(alloc, extension.to, bit)?)
}

/// The `count` places from `from` on.
fn places_from(alloc: Global, from: u32, count: u32) -> Result<Vec<u32>, NoMemory>
    requires { from + count ≤ 65536 }
    ensures { IfOk result (λ v. v.items ≡ range_with_len from count) }
{
    let mut places = Vec::with_capacity(alloc, count as usize)?;
    for index in 0..count {
        places.push(from + index)?;
    }
    Ok(places)
}

/// The taint of `$slice`: that of the bits from OFFSET on.
fn slice_term(alloc: Global, cell: &Cell) -> Result<Term, NoMemory>
    requires kind { cell.now.kind ≡ Kind.Slice }
    requires fitted { IsFitted cell.now }
    ensures { IfOk result (λ t. formula_of t
        ≡ Pick (Taint 0) (range_with_len (number_of cell.now Param.Offset) (y_width cell.now))) }
{
    let offset = cell.number(Param::Offset) as u32;
    let width = cell.number(Param::YWidth) as u32;
    Ok(Term::pick(alloc, Term::Taint(0), places_from(alloc, offset, width)?)?)
}

/// The taint of an output of `$fa`: X is output 0, and Y output 1.
fn fa_term(alloc: Global, output: u32) -> Result<Term, NoMemory>
    ensures { IfOk result (λ t. formula_of t ≡ fa_formula output) }
{
    if output == 0 {
        carry_term(alloc)
    } else {
        sum_term(alloc)
    }
}

/// The term of the taint of output `output`.
#[tactic(auto, unfolding(crate::specs::LogicFormulas::logic_by))]
fn logic_term(alloc: Global, cell: &Cell, output: u32) -> Result<Term, NoMemory>
    requires covered { covers_logic cell.now.kind ≡ true }
    requires fitted { IsFitted cell.now }
    ensures { IfOk result (λ t. formula_of t ≡ logic_formula cell.now output) }
{
    match cell.kind() {
        Kind::Not | Kind::Pos => Ok(own_term(alloc, cell)?),
        Kind::And => Ok(and_term(alloc, cell)?),
        Kind::Or => Ok(or_term(alloc, cell)?),
        Kind::Xor | Kind::Xnor => Ok(either_term(alloc, cell)?),
        Kind::ReduceAnd => Ok(unary_flag(alloc, cell, reduce_and_term(alloc)?)?),
        Kind::ReduceOr | Kind::ReduceBool | Kind::LogicNot => {
            Ok(unary_flag(alloc, cell, reduce_or_term(alloc)?)?)
        }
        Kind::ReduceXor | Kind::ReduceXnor => {
            Ok(unary_flag(alloc, cell, reduce_xor_term(alloc)?)?)
        }
        Kind::LogicAnd => Ok(binary_flag(alloc, cell, logic_and_term(alloc)?)?),
        Kind::LogicOr => Ok(binary_flag(alloc, cell, logic_or_term(alloc)?)?),
        Kind::Concat => Ok(Term::join(alloc, Term::Taint(0), Term::Taint(1))?),
        Kind::Slice => Ok(slice_term(alloc, cell)?),
        Kind::Fa => Ok(fa_term(alloc, output)?),
        _ => unreachable!(),
    }
}

/// The shadow logic of a cell of a bitwise, reducing or wiring kind: a term for each output.
#[derive(Drop)]
pub struct LogicShadow<'a> {
    cell: &'a Cell,
}

impl<'a> Model for LogicShadow<'a> {
    ghost use Rattle.std.specs.Prelude.{◌≡◌, true};
    ghost use Rattle.cif_defs.specs.Cells.{Cell as CellData};
    ghost use Rattle.cif_defs.specs.Fitted.{IsFitted};
    ghost use Rattle.rule_logic.specs.LogicFormulas.{covers_logic};

    ghost Value = { CellData };

    ghost view = { λ s. s.cell.now };

    ghost invariant = { λ s. (covers_logic s.cell.now.kind ≡ true) × IsFitted s.cell.now };
}

impl<'a> LogicShadow<'a> {
    /// The shadow of a cell.
    pub fn of(cell: &'a Cell) -> LogicShadow<'a>
        requires covered { covers_logic cell.now.kind ≡ true }
        requires fitted { IsFitted cell.now }
        ensures { result ≡ cell.now }
    {
        LogicShadow { cell }
    }
}

impl<'a> Shadow for LogicShadow<'a> {
    ghost widths = { operand_widths };

    ghost count = { λ c. length (outputs_of c.kind) };

    ghost formula = { logic_formula };

    ghost meant = { taint_word };

    fn outputs(&self) -> u32 {
        table::outputs(self.cell.kind()).len() as u32
    }

    fn term(&self, alloc: Global, output: u32) -> Result<Term, NoMemory> {
        let cell = self.cell;
        Ok(logic_term(alloc, cell, output)?)
    }
}
