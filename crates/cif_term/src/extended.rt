// Terms that extend others.

ghost use Rattle.std.specs.Prelude.{◌≡◌, ◌≤◌, ◌<◌, IfOk};
ghost use Rattle.cif_term.specs.TermView.{formula_of};
ghost use Rattle.cif_term.specs.Extended.{extended, shown_places};

use crate::term::Term;
use cif_bits::{Bits, NoMemory};
use std::alloc::Global;

/// The places that `width` bits of a word of `of` bits show: past its end its highest.
fn places(alloc: Global, width: u32, of: u32) -> Result<Vec<u32>, NoMemory>
    ensures { IfOk result (λ v. v.items ≡ shown_places width of) }
{
    let last = of.saturating_sub(1);
    Ok((0..width).map(|place| place.min(last)).collect(alloc)?)
}

impl Term {
    /// `part`, which has `of` bits, cut or extended to `width` bits: with its highest bit where it is signed, else with
    /// zeros.
    pub fn extended(
        alloc: Global,
        part: Term,
        of: u32,
        width: u32,
        signed: bool,
    ) -> Result<Term, NoMemory>
        requires { width ≤ 65536 }
        ensures { IfOk result (λ t. formula_of t ≡ extended width signed of (formula_of part)) }
    {
        if signed || width <= of {
            Term::pick(alloc, part, places(alloc, width, of)?)
        } else {
            let zeros = Bits::zeros(alloc, width - of)?;
            Term::join(alloc, part, Term::Const(zeros))
        }
    }
}
