// Terms as cells.

ghost use Rattle.std.specs.Prelude.{◌≡◌, ◌++◌, ℕ, [], get_or, map, IsSome, IfOk, OnErr, Some};
ghost use Rattle.cif_defs.specs.declared.raw_module.RawBit.TheVariants.{Zero as ZeroBit};
ghost use Rattle.cif_term.specs.Formulas.{width_of};
ghost use Rattle.cif_term.specs.TermView.{formula_of};
ghost use Rattle.cif_emit.specs.Constants.{constant_bits, picked_bits};
ghost use Rattle.cif_emit.specs.Handed.{IsKept};
ghost use Rattle.cif_emit.specs.Scopes.{named_in};
ghost use Rattle.cif_emit.specs.Emitted.{IsEmittedIn, value_bits, taint_bits, widths};

use crate::names::NameMaker;
use crate::pieces::{emit_choice, emit_one, emit_two};
use crate::scope::Scope;
use cif_bits::{Bits, NoMemory};
use cif_defs::{Listed, RawBit, RawBits, RawCell};
use cif_term::Term;
use std::alloc::{AllocError, Global};

/// The bits of an operand of a cell, and those of its taint.
#[derive(Debug, Drop)]
pub struct OperandPair {
    pub values: RawBits,
    pub taints: RawBits,
}

/// The operands of a cell, in the order of the table of kinds.
pub type OperandBits = Listed<OperandPair>;

/// The bits of an operand. Past the end there are none.
fn value_copy(alloc: Global, ports: &[OperandPair], place: u32) -> Result<Vec<RawBit>, NoMemory>
    ensures { IfOk result (λ bits. bits.items ≡ get_or (value_bits ports.now) place []) }
{
    match ports.get(place as usize) {
        Some(operand) => Ok(Vec::from_slice(alloc, operand.values.items())?),
        None => Ok(Vec::new(alloc)),
    }
}

/// The bits of an operand's taint. Past the end there are none.
fn taint_copy(alloc: Global, ports: &[OperandPair], place: u32) -> Result<Vec<RawBit>, NoMemory>
    ensures { IfOk result (λ bits. bits.items ≡ get_or (taint_bits ports.now) place []) }
{
    match ports.get(place as usize) {
        Some(operand) => Ok(Vec::from_slice(alloc, operand.taints.items())?),
        None => Ok(Vec::new(alloc)),
    }
}

/// The bits that are named at this depth. Past the outermost there are none.
fn named_copy(alloc: Global, scope: &Scope, depth: u32) -> Result<Vec<RawBit>, NoMemory>
    ensures { IfOk result (λ bits. bits.items ≡ get_or (named_in scope.now) depth []) }
{
    match scope.get(depth) {
        Some(bits) => Ok(Vec::from_slice(alloc, bits)?),
        None => Ok(Vec::new(alloc)),
    }
}

/// The bits of a constant.
fn constant(alloc: Global, word: &Bits) -> Result<Vec<RawBit>, AllocError>
    ensures { IfOk result (λ bits. bits.items ≡ constant_bits word.now) }
{
    word.bits()
        .iter()
        .map(|bit| if *bit { RawBit::One } else { RawBit::Zero })
        .collect(alloc)
}

/// The bit at a place, which is 0 past the end.
fn bit_at(bits: &[RawBit], place: u32) -> RawBit
    ensures { result ≡ get_or bits.now place ZeroBit }
{
    match bits.get(place as usize) {
        Some(bit) => *bit,
        None => RawBit::Zero,
    }
}

/// The bits at these places.
fn pick(alloc: Global, places: &[u32], bits: &[RawBit]) -> Result<Vec<RawBit>, AllocError>
    ensures { IfOk result (λ picked. picked.items ≡ picked_bits places.now bits.now) }
{
    places
        .iter()
        .map(|place| bit_at(bits, *place))
        .collect(alloc)
}

/// Appends cells that compute the term inside what encloses it, and gives the bits of its word.
fn emit_in(
    term: &Term,
    alloc: Global,
    ports: &[OperandPair],
    scope: &Scope,
    names: &mut NameMaker,
    cells: &mut Vec<RawCell>,
) -> Result<Vec<RawBit>, NoMemory>
    requires formed { (n : ℕ) × (width_of (formula_of term.now) (widths (value_bits ports.now)) (widths (named_in scope.now)) ≡ Some n) }
    requires shape { widths (taint_bits ports.now) ≡ widths (value_bits ports.now) }
    ensures kept { IsKept names.old names.new }
    ensures ok { IfOk result (λ bits. IsEmittedIn names.old names.new cells.old.items cells.new.items
        (formula_of term.now) ports.now (named_in scope.now) bits.items) }
{
    match term {
        Term::Value(place) => value_copy(alloc, ports, *place),
        Term::Taint(place) => taint_copy(alloc, ports, *place),
        Term::Const(word) => Ok(constant(alloc, word)?),
        Term::Bound(depth) => named_copy(alloc, scope, *depth),
        Term::Pick(part, places) => {
            let bits = emit_in(part, alloc, ports, scope, names, cells)?;
            Ok(pick(alloc, places.items(), &bits)?)
        }
        Term::Join(low, high) => {
            let mut bits = emit_in(low, alloc, ports, scope, names, cells)?;
            let high = emit_in(high, alloc, ports, scope, names, cells)?;
            bits.extend_from_slice(&high)?;
            Ok(bits)
        }
        Term::One(op, part) => {
            let bits = emit_in(part, alloc, ports, scope, names, cells)?;
            emit_one(alloc, *op, &bits, names, cells)
        }
        Term::Two(op, first, second) => {
            let first = emit_in(first, alloc, ports, scope, names, cells)?;
            let second = emit_in(second, alloc, ports, scope, names, cells)?;
            emit_two(alloc, *op, &first, &second, names, cells)
        }
        Term::Choose(select, zero, one) => {
            let select = emit_in(select, alloc, ports, scope, names, cells)?;
            let zero = emit_in(zero, alloc, ports, scope, names, cells)?;
            let one = emit_in(one, alloc, ports, scope, names, cells)?;
            emit_choice(alloc, &select, &zero, &one, names, cells)
        }
        Term::Let(named, body) => {
            let bits = emit_in(named, alloc, ports, scope, names, cells)?;
            emit_in(
                body,
                alloc,
                ports,
                &Scope::Inside(&bits, &*scope),
                names,
                cells,
            )
        }
    }
}

/// Appends cells that compute the term, all or none of them, and gives the bits of its word.
fn emit_whole(
    alloc: Global,
    term: &Term,
    ports: &[OperandPair],
    names: &mut NameMaker,
    cells: &mut Vec<RawCell>,
) -> Result<Vec<RawBit>, NoMemory>
    requires formed { (n : ℕ) × (width_of (formula_of term.now) (widths (value_bits ports.now)) [] ≡ Some n) }
    requires shape { widths (taint_bits ports.now) ≡ widths (value_bits ports.now) }
    ensures kept { IsKept names.old names.new }
    ensures ok { IfOk result
        (λ bits. IsEmittedIn names.old names.new cells.old.items cells.new.items (formula_of term.now) ports.now [] bits.items) }
    ensures err { OnErr result (cells.new.items ≡ cells.old.items) }
{
    let mut added = Vec::new(alloc);
    let bits = emit_in(term, alloc, ports, &Scope::Outside, names, &mut added)?;
    cells.append(&mut added)?;
    Ok(bits)
}

/// Appends cells that compute the term over these operands, and gives the bits of its word.
///
/// The term is well formed for operands of these widths, and each taint has the width of its operand. `begin` has been
/// called on `names`. Under every assignment of the net numbers that meets the appended cells, the bits read the value of
/// the term. The cells have the next names of `names` and drive the net numbers that it hands out; where the operands are
/// constants and nets, the cells and the answer read these alone, and what cells before them drive. There are at most as
/// many cells as the term's cost. After want of memory, `names` and `cells` are what they were.
pub fn emit(
    alloc: Global,
    term: &Term,
    ports: &OperandBits,
    names: &mut NameMaker,
    cells: &mut Vec<RawCell>,
) -> Result<RawBits, NoMemory>
    requires formed { (n : ℕ) × (width_of (formula_of term.now) (widths (value_bits ports.now)) [] ≡ Some n) }
    requires shape { widths (taint_bits ports.now) ≡ widths (value_bits ports.now) }
    requires begun { IsSome names.old.cell }
    ensures ok { IfOk result
        (λ bits. IsEmittedIn names.old names.new cells.old.items cells.new.items (formula_of term.now) ports.now [] bits) }
    ensures names_kept { OnErr result (names.new ≡ names.old) }
    ensures cells_kept { OnErr result (cells.new.items ≡ cells.old.items) }
{
    let counts = names.counts();
    match emit_whole(alloc, term, ports.items(), names, cells) {
        Ok(bits) => Ok(RawBits::of(bits)),
        Err(_) => {
            names.restore(counts);
            Err(NoMemory)
        }
    }
}
