// Terms of the taint of registers.
ghost use Rattle.std.specs.Prelude.{◌≡◌, ◌≤◌, true, IfOk};
ghost use Rattle.cif_defs.specs.Kinds.{is_register, role_of};
ghost use Rattle.cif_defs.specs.Words.{bit, word};
ghost use Rattle.cif_defs.specs.Cells.{digits_of, number_of, width as width_of};
ghost use Rattle.cif_defs.specs.Fitted.{IsFitted};
ghost use Rattle.cif_defs.specs.declared.kinds.Role.TheVariants.{ResetRegister};
ghost use Rattle.cif_term.specs.TermView.{formula_of};
ghost use Rattle.rule_state.specs.Marks.{fixed_mark, operand_mark};
ghost use Rattle.rule_state.specs.MarkView.{mark_of};
ghost use Rattle.rule_state.specs.RegisterTerms.{enabled_mark, next_mark_by, reset_mark, shown_mark};
ghost use Rattle.rule_state.specs.RegisterTaints.{IsNextTaint, IsShownTaint};

use crate::marks::{Control, MarkedTerm, chosen_taint, chosen_value};
use cif_bits::{Bits, NoMemory};
use cif_kinds::{Cell, Kind, Param};
use cif_term::Term;
use std::alloc::{AllocError, Global};

/// The lowest `width` digits that a cell gives for a parameter. Those that it lacks are 0.
fn lowest_digits(
    alloc: Global,
    cell: &Cell,
    value: Param,
    width: u32,
) -> Result<Vec<bool>, AllocError>
    ensures { IfOk result (λ v. v.items ≡ word width (λ i. bit (digits_of cell.now value) i)) }
{
    (0..width)
        .map(|index| cell.digit(value, index))
        .collect(alloc)
}

/// A reset of a register: the operand that it is, and the parameters of its polarity and of its value.
#[derive(Clone, Copy)]
struct Reset {
    port: u32,
    polarity: Param,
    value: Param,
}

impl Reset {
    /// A synchronous reset at this operand.
    fn synchronous(port: u32) -> Reset
        ensures { result ≡ record { port = port; polarity = Param.SrstPolarity; value = Param.SrstValue } }
    {
        Reset {
            port,
            polarity: Param::SrstPolarity,
            value: Param::SrstValue,
        }
    }

    /// An asynchronous reset at this operand.
    fn asynchronous(port: u32) -> Reset
        ensures { result ≡ record { port = port; polarity = Param.ArstPolarity; value = Param.ArstValue } }
    {
        Reset {
            port,
            polarity: Param::ArstPolarity,
            value: Param::ArstValue,
        }
    }

    /// Its control.
    fn control(&self, cell: &Cell) -> Control
        ensures port { result.port ≡ self.now.port }
        ensures polarity { result.polarity ≡ number_of cell.now self.now.polarity }
    {
        Control {
            port: self.port,
            polarity: cell.number(self.polarity),
        }
    }

    /// Its value, of WIDTH bits, which is never tainted.
    #[tactic(auto, using(cif_defs::proofs::WordLaws::words))]
    fn word(&self, alloc: Global, cell: &Cell) -> Result<MarkedTerm, NoMemory>
        requires { width_of cell.now ≤ 4096 }
        ensures { IfOk result
            (λ m. mark_of m ≡ fixed_mark (width_of cell.now) (digits_of cell.now self.now.value)) }
    {
        let width = cell.number(Param::Width) as u32;
        let digits = lowest_digits(alloc, cell, self.value, width)?;
        let zeros = Bits::zeros(alloc, width)?;
        Ok(MarkedTerm {
            value: Term::Const(Bits::of(digits)),
            taint: Term::Const(zeros),
        })
    }
}

/// The enable of a register, which is operand 1.
fn enable_of(cell: &Cell) -> Control
    ensures port { result.port ≡ 1 }
    ensures polarity { result.polarity ≡ number_of cell.now Param.EnPolarity }
{
    Control {
        port: 1,
        polarity: cell.number(Param::EnPolarity),
    }
}

/// The taint of `d` where the enable is active, else of the stored word at operand `stored`.
fn enabled_taint(alloc: Global, cell: &Cell, d: MarkedTerm, stored: u32) -> Result<Term, NoMemory>
    ensures { IfOk result (λ t. formula_of t ≡ (enabled_mark cell.now (mark_of d) stored).taint) }
{
    chosen_taint(alloc, enable_of(cell), MarkedTerm::operand(stored), d)
}

/// The word at D where the enable is active, else the stored word at operand `stored`.
fn enabled_word(alloc: Global, cell: &Cell, stored: u32) -> Result<MarkedTerm, NoMemory>
    ensures { IfOk result (λ m. mark_of m ≡ enabled_mark cell.now (operand_mark 0) stored) }
{
    let value = chosen_value(alloc, enable_of(cell), Term::Value(stored), Term::Value(0))?;
    let taint = enabled_taint(alloc, cell, MarkedTerm::operand(0), stored)?;
    Ok(MarkedTerm { value, taint })
}

/// The taint of the reset value where the reset is active, else of `word`.
fn reset_taint(alloc: Global, cell: &Cell, reset: Reset, word: MarkedTerm) -> Result<Term, NoMemory>
    requires { width_of cell.now ≤ 4096 }
    ensures { IfOk result (λ t. formula_of t
        ≡ (reset_mark cell.now reset.polarity reset.value reset.port (mark_of word)).taint) }
{
    let value = reset.word(alloc, cell)?;
    chosen_taint(alloc, reset.control(cell), word, value)
}

/// The reset value where the reset is active, else the word at D.
fn reset_word(alloc: Global, cell: &Cell, reset: Reset) -> Result<MarkedTerm, NoMemory>
    requires { width_of cell.now ≤ 4096 }
    ensures { IfOk result (λ m. mark_of m
        ≡ reset_mark cell.now reset.polarity reset.value reset.port (operand_mark 0)) }
{
    let fixed = reset.word(alloc, cell)?;
    let value = chosen_value(alloc, reset.control(cell), Term::Value(0), fixed.value)?;
    let taint = reset_taint(alloc, cell, reset, MarkedTerm::operand(0))?;
    Ok(MarkedTerm { value, taint })
}

/// The taint of the next stored word by kind. The operands are D and the controls, and after them the stored word.
#[tactic(auto, unfolding(crate::specs::RegisterTerms::next_mark_by))]
fn next_term(alloc: Global, cell: &Cell) -> Result<Term, NoMemory>
    requires role { is_register (role_of cell.now.kind) ≡ true }
    requires limit { width_of cell.now ≤ 4096 }
    ensures { IfOk result (λ t. formula_of t ≡ (next_mark_by cell.now.kind cell.now).taint) }
{
    match cell.kind() {
        Kind::Dff => Ok(Term::Taint(0)),
        Kind::Dffe => Ok(enabled_taint(alloc, cell, MarkedTerm::operand(0), 2)?),
        Kind::Sdff => {
            let reset = Reset::synchronous(1);
            Ok(reset_taint(alloc, cell, reset, MarkedTerm::operand(0))?)
        }
        Kind::Sdffe => {
            let word = enabled_word(alloc, cell, 3)?;
            Ok(reset_taint(alloc, cell, Reset::synchronous(2), word)?)
        }
        Kind::Sdffce => {
            let word = reset_word(alloc, cell, Reset::synchronous(2))?;
            Ok(enabled_taint(alloc, cell, word, 3)?)
        }
        Kind::Adff => {
            let reset = Reset::asynchronous(1);
            Ok(reset_taint(alloc, cell, reset, MarkedTerm::operand(0))?)
        }
        Kind::Adffe => {
            let word = enabled_word(alloc, cell, 3)?;
            Ok(reset_taint(alloc, cell, Reset::asynchronous(2), word)?)
        }
        _ => unreachable!(),
    }
}

/// The taint of the word that is shown, where operand 0 is the reset, and operand 1 the stored word.
fn shown_term(alloc: Global, cell: &Cell) -> Result<Term, NoMemory>
    requires { width_of cell.now ≤ 4096 }
    ensures { IfOk result (λ t. formula_of t ≡ (shown_mark cell.now).taint) }
{
    let stored = MarkedTerm::operand(1);
    reset_taint(alloc, cell, Reset::asynchronous(0), stored)
}

/// The taint of what a register stores next. The stored word is the operand after the last.
///
/// The term is well formed for the operands of the cell and a stored word of WIDTH bits, 1 to 4,096. Its value is the
/// exact taint, for all values, taints and polarities, and it costs at most 31 cells. The meanings of registers are those
/// of the Yosys cell library for values without x, and a taint bit means what it does in GLIFT and CellIFT. The only error
/// is want of memory.
pub fn next_taint_term(alloc: Global, cell: &Cell) -> Result<Term, NoMemory>
    requires role { is_register (role_of cell.now.kind) ≡ true }
    requires fitted { IsFitted cell.now }
    ensures { IfOk result (λ t. IsNextTaint cell.now (formula_of t)) }
{
    Ok(next_term(alloc, cell)?)
}

/// The taint of what a register with asynchronous reset shows: operand 0 is its reset, and operand 1 the stored word.
///
/// The term is well formed for one bit and a stored word of WIDTH bits, 1 to 4,096. Its value is the exact taint, and it
/// costs at most 15 cells. That the reset value shows in the cycle of the reset is this project's own meaning. The only
/// error is want of memory.
pub fn show_taint_term(alloc: Global, cell: &Cell) -> Result<Term, NoMemory>
    requires role { role_of cell.now.kind ≡ ResetRegister }
    requires fitted { IsFitted cell.now }
    ensures { IfOk result (λ t. IsShownTaint cell.now (formula_of t)) }
{
    Ok(shown_term(alloc, cell)?)
}
