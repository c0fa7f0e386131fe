// What has terms for its taint.

ghost use Rattle.std.specs.Prelude.{◌≡◌, ◌<◌, ℕ, List, [], length, map, Some, IfOk};
ghost use Rattle.std.specs.List.{range_with_len};
ghost use Rattle.cif_defs.specs.Words.{Word};
ghost use Rattle.cif_term.specs.Formulas.{Formula, value_of, values_of, width_of};
ghost use Rattle.cif_term.specs.TermView.{formula_of};

use crate::term::Term;
use cif_bits::NoMemory;
use std::alloc::Global;

/// Something with operands and outputs that has, for each output, a term of the taint that is meant there: shadow logic
/// as CellIFT has it.
pub trait Shadow {
    /// How many bits each operand has.
    ghost widths: { Self → List ℕ };

    /// How many outputs there are.
    ghost count: { Self → ℕ };

    /// The formula of an output's taint.
    ghost formula: { Self → ℕ → Formula };

    /// The taint word that is meant, for operand values, operand taints and an output.
    ghost meant: { Self → List Word → List Word → ℕ → Word };

    /// How many outputs there are.
    fn outputs(&self) -> u32
        ensures { result ≡ count self.now };

    /// The term of an output's taint. It is well formed for the operands' widths, and its value is the taint that is
    /// meant, for all values and taints.
    fn term(&self, alloc: Global, output: u32) -> Result<Term, NoMemory>
        requires { output < count self.now }
        ensures stands { IfOk result (λ t. formula_of t ≡ formula self.now output) }
        ensures formed { IfOk result
            (λ t. (n : ℕ) × (width_of (formula_of t) (widths self.now) [] ≡ Some n)) }
        ensures means { IfOk result
            (λ t. (vs ts : List Word) → map length vs ≡ widths self.now → map length ts ≡ widths self.now
            → value_of (formula_of t) vs ts [] ≡ meant self.now vs ts output) };
}

/// The terms of all outputs, in their order. Their values are the taints that are meant, for all values and taints of the
/// operands.
pub fn all_terms<S: Shadow>(alloc: Global, shadow: &S) -> Result<Vec<Term>, NoMemory>
    ensures stand { IfOk result
        (λ ts. map formula_of ts.items ≡ map (S.formula shadow.now) (range_with_len 0 (S.count shadow.now))) }
    ensures mean { IfOk result
        (λ terms. (vs ts : List Word) → map length vs ≡ S.widths shadow.now → map length ts ≡ S.widths shadow.now
        → values_of (map formula_of terms.items) vs ts
        ≡ map (S.meant shadow.now vs ts) (range_with_len 0 (S.count shadow.now))) }
{
    let count = shadow.outputs();
    let mut terms = Vec::with_capacity(alloc, count as usize)?;
    for output in 0..count {
        terms.push(shadow.term(alloc, output)?)?;
    }
    Ok(terms)
}
