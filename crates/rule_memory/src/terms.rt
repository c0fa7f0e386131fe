// Terms of the taint of a memory.
ghost use Rattle.std.specs.Prelude.{◌≡◌, ◌≤◌, IfOk};
ghost use Rattle.cif_defs.specs.Kinds.{role_of};
ghost use Rattle.cif_defs.specs.Words.{word};
ghost use Rattle.cif_defs.specs.Cells.{width as width_of};
ghost use Rattle.cif_defs.specs.declared.kinds.Role.TheVariants.{MemoryBlock};
ghost use Rattle.cif_kinds.specs.StateCells.{HasMemoryNumbers};
ghost use Rattle.cif_term.specs.Formulas.{Const};
ghost use Rattle.cif_term.specs.TermView.{formula_of};
ghost use Rattle.rule_memory.specs.MemoryFormulas.{word_formula, enable_formula, flag_formula, is_tainted, possible_enables, memory_formulas, read_formula};
ghost use Rattle.rule_memory.specs.MemoryTaints.{AreMemoryTaints};
ghost use Rattle.rule_memory.specs.MemoryTermView.{formulas_of};

use cif_bits::{Bits, NoMemory};
use cif_kinds::{Cell, Param};
use cif_term::{Op1, Op2, Term};
use std::alloc::{AllocError, Global};

/// The terms of the taint of a memory. They are the same for each of its ports.
#[derive(Drop)]
pub struct MemoryTerms {
    /// The taint of a read, of WIDTH bits. The operands are the address, of ABITS bits, the flag, of one bit, and the
    /// stored taint that a plain read gives at that address, of WIDTH bits; only the taint of the address matters.
    pub read: Term,
    /// The enables with which a write port writes the stored taint, of WIDTH bits. The operands are the port's enables, of
    /// WIDTH bits, its address, of ABITS bits, and its data, of WIDTH bits.
    pub enable: Term,
    /// The word with which a write port writes the stored taint, of WIDTH bits. The operands are those of the enables.
    pub word: Term,
    /// The flag after a write port, of one bit. The operands are those of the enables, and after them the flag before the
    /// port, of one bit, whose taint doesn't matter.
    pub flag: Term,
}

/// `width` bits that are all this one.
fn same_bits(alloc: Global, width: u32, bit: bool) -> Result<Vec<bool>, AllocError>
    ensures { IfOk result (λ v. v.items ≡ word width (λ i. bit)) }
{
    (0..width).map(|_| bit).collect(alloc)
}

/// The word of `width` bits that are all this one.
#[tactic(auto, using(cif_defs::proofs::WordLaws::words))]
fn constant(alloc: Global, width: u32, bit: bool) -> Result<Term, NoMemory>
    requires { width ≤ 65536 }
    ensures { IfOk result (λ t. formula_of t ≡ Const (word width (λ i. bit))) }
{
    let bits = same_bits(alloc, width, bit)?;
    Ok(Term::Const(Bits::of(bits)))
}

/// Whether a bit of an operand is tainted, in one bit.
fn tainted_term(alloc: Global, port: u32) -> Result<Term, NoMemory>
    ensures { IfOk result (λ t. formula_of t ≡ is_tainted port) }
{
    Term::one(alloc, Op1::ReduceOr, Term::Taint(port))
}

/// The enables of a write port that are 1 or tainted.
fn possible_enables_term(alloc: Global) -> Result<Term, NoMemory>
    ensures { IfOk result (λ t. formula_of t ≡ possible_enables) }
{
    Term::two(alloc, Op2::Or, Term::Value(0), Term::Taint(0))
}

/// All ones where the address is tainted or the flag is set, else the stored taint.
fn read_term(alloc: Global, width: u32) -> Result<Term, NoMemory>
    requires { width ≤ 65536 }
    ensures { IfOk result (λ t. formula_of t ≡ read_formula width) }
{
    let all = Term::two(alloc, Op2::Or, tainted_term(alloc, 0)?, Term::Value(1))?;
    let ones = constant(alloc, width, true)?;
    Term::choose(alloc, all, Term::Value(2), ones)
}

/// None where the address is tainted, else the enables that are 1 or tainted.
fn enable_term(alloc: Global, width: u32) -> Result<Term, NoMemory>
    requires { width ≤ 65536 }
    ensures { IfOk result (λ t. formula_of t ≡ enable_formula width) }
{
    let none = constant(alloc, width, false)?;
    let enables = possible_enables_term(alloc)?;
    Term::choose(alloc, tainted_term(alloc, 1)?, enables, none)
}

/// The taint of the data or of the enable.
fn word_term(alloc: Global) -> Result<Term, NoMemory>
    ensures { IfOk result (λ t. formula_of t ≡ word_formula) }
{
    Term::two(alloc, Op2::Or, Term::Taint(2), Term::Taint(0))
}

/// Whether the flag is set before, or the address is tainted and an enable is 1 or tainted.
fn flag_term(alloc: Global) -> Result<Term, NoMemory>
    ensures { IfOk result (λ t. formula_of t ≡ flag_formula) }
{
    let enabled = Term::one(alloc, Op1::ReduceOr, possible_enables_term(alloc)?)?;
    let sets = Term::two(alloc, Op2::And, tainted_term(alloc, 1)?, enabled)?;
    Term::two(alloc, Op2::Or, Term::Value(3), sets)
}

impl MemoryTerms {
    /// The terms of a memory with words of WIDTH bits, 1 to 4,096, and addresses of ABITS bits, 1 to 32.
    ///
    /// They are well formed for operands of these widths, and right for all values and taints: what a read gives is its
    /// taint, also where its address lies outside; a plain memory of the same shape that is written with these enables and
    /// words at the same addresses stores the stored taint; and the flag, taken through the write ports from port 0 on, is
    /// that of the next cycle. At all ports together they cost, with two cells besides, no more than the memory weighs.
    /// What the taint of a memory is is this project's own meaning. The only error is want of memory.
    pub fn of(alloc: Global, cell: &Cell) -> Result<MemoryTerms, NoMemory>
        requires role { role_of cell.now.kind ≡ MemoryBlock }
        requires numbers { HasMemoryNumbers cell.now }
        ensures is { IfOk result (λ t. formulas_of t ≡ memory_formulas (width_of cell.now)) }
        ensures defined { IfOk result (λ t. AreMemoryTaints cell.now (formulas_of t)) }
    {
        let width = cell.number(Param::Width) as u32;
        Ok(MemoryTerms {
            read: read_term(alloc, width)?,
            enable: enable_term(alloc, width)?,
            word: word_term(alloc)?,
            flag: flag_term(alloc)?,
        })
    }
}
