// The value of a term.

ghost use Rattle.std.specs.Prelude.{◌≡◌, ℕ, [], length, map, Some, IfOk};
ghost use Rattle.cif_defs.specs.Words.{operand};
ghost use Rattle.cif_term.specs.Formulas.{value_of, width_of};
ghost use Rattle.cif_term.specs.Scopes.{named_in};
ghost use Rattle.cif_term.specs.TermView.{formula_of};

use crate::apply::{apply_one, apply_two, join, pick};
use crate::scope::Scope;
use crate::term::Term;
use cif_bits::{Bits, NoMemory};
use std::alloc::Global;

/// A copy of the word at this place. Past the end it has no bits.
fn operand(alloc: Global, words: &[Bits], place: u32) -> Result<Bits, NoMemory>
    ensures { IfOk result (λ w. w ≡ operand words.now place) }
{
    match words.get(place as usize) {
        Some(word) => word.copy(alloc),
        None => Bits::zeros(alloc, 0),
    }
}

/// A copy of the word that is named at this depth. Past the outermost it has no bits.
fn bound(alloc: Global, names: &Scope<Bits>, depth: u32) -> Result<Bits, NoMemory>
    ensures { IfOk result (λ w. w ≡ operand (named_in names.now) depth) }
{
    match names.get(depth) {
        Some(word) => word.copy(alloc),
        None => Bits::zeros(alloc, 0),
    }
}

/// The value inside what encloses the term.
fn value_in(
    term: &Term,
    alloc: Global,
    values: &[Bits],
    taints: &[Bits],
    names: &Scope<Bits>,
) -> Result<Bits, NoMemory>
    requires formed { (n : ℕ) × (width_of (formula_of term.now) (map length values.now)
        (map length (named_in names.now)) ≡ Some n) }
    requires shape { map length taints.now ≡ map length values.now }
    ensures { IfOk result
        (λ w. w ≡ value_of (formula_of term.now) values.now taints.now (named_in names.now)) }
{
    match term {
        Term::Value(place) => operand(alloc, values, *place),
        Term::Taint(place) => operand(alloc, taints, *place),
        Term::Const(word) => word.copy(alloc),
        Term::Bound(depth) => bound(alloc, names, *depth),
        Term::Pick(part, places) => {
            let word = value_in(part, alloc, values, taints, names)?;
            pick(alloc, places.items(), &word)
        }
        Term::Join(low, high) => {
            let low = value_in(low, alloc, values, taints, names)?;
            let high = value_in(high, alloc, values, taints, names)?;
            join(alloc, &low, &high)
        }
        Term::One(op, part) => {
            let word = value_in(part, alloc, values, taints, names)?;
            apply_one(alloc, *op, &word)
        }
        Term::Two(op, first, second) => {
            let first = value_in(first, alloc, values, taints, names)?;
            let second = value_in(second, alloc, values, taints, names)?;
            apply_two(alloc, *op, &first, &second)
        }
        Term::Choose(select, zero, one) => {
            let select = value_in(select, alloc, values, taints, names)?;
            if select.get(0) {
                value_in(one, alloc, values, taints, names)
            } else {
                value_in(zero, alloc, values, taints, names)
            }
        }
        Term::Let(named, body) => {
            let word = value_in(named, alloc, values, taints, names)?;
            let inside = Scope::Inside(&word, &*names);
            value_in(body, alloc, values, taints, &inside)
        }
    }
}

impl Term {
    /// The word that the term stands for, over the words and the taints of a cell's operands.
    ///
    /// The term is well formed for operands of these widths, as `width` tells, and each taint has the width of its
    /// operand. A failed allocation answers want of memory.
    pub fn eval(&self, alloc: Global, values: &[Bits], taints: &[Bits]) -> Result<Bits, NoMemory>
        requires formed { (n : ℕ) × (width_of (formula_of self.now) (map length values.now) [] ≡ Some n) }
        requires shape { map length taints.now ≡ map length values.now }
        ensures { IfOk result (λ w. w ≡ value_of (formula_of self.now) values.now taints.now []) }
    {
        value_in(self, alloc, values, taints, &Scope::Outside)
    }
}
