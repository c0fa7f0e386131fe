// The term of $pmux.
ghost use Rattle.std.specs.Prelude.{◌≡◌, ◌≤◌, ◌+◌, ◌*◌, IfOk};
ghost use Rattle.cif_term.specs.TermView.{formula_of};
ghost use Rattle.rule_select.specs.Chains.{chain_group, chain_groups, group_size, pmux_formula, cell_pmux, IsChain};

use crate::moves::Moves;
use crate::offsets::{pair, taint_of_pair, value_of_pair};
use crate::shifts::width_by;
use crate::tree::staged_term;
use cif_bits::NoMemory;
use cif_defs::Param;
use cif_kinds::Cell;
use cif_term::Term;
use std::alloc::Global;

/// Stages `from` to `from + len` of a chain of `count`, from the pair `Bound(0)` to a pair.
#[tactic(auto, unfolding(crate::specs::Moves::FitsBy))]
fn group(alloc: Global, width: u32, count: u32, len: u32, from: u32) -> Result<Term, NoMemory>
    requires narrow { width ≤ 65536 }
    requires few { count * width ≤ 65536 }
    requires within { from + len ≤ count }
    ensures { IfOk result (λ t. formula_of t ≡ chain_group width count len from) }
{
    let value = value_of_pair(alloc, width, 0)?;
    let taint = taint_of_pair(alloc, width, 1)?;
    let end = pair(alloc, width)?;
    let staged = staged_term(alloc, Moves::Chain(width), 2, count, from, len, end)?;
    Term::name(alloc, value, Term::name(alloc, taint, staged)?)
}

/// The last `groups` groups of 64 stages, from stage `from` on.
fn groups_from(
    alloc: Global,
    width: u32,
    count: u32,
    groups: u32,
    from: u32,
) -> Result<Term, NoMemory>
    requires narrow { width ≤ 65536 }
    requires few { count * width ≤ 65536 }
    requires within { from + groups * 64 ≤ count }
    ensures { IfOk result (λ t. formula_of t ≡ chain_groups width count group_size groups from) }
{
    let mut term = taint_of_pair(alloc, width, 0)?;
    for done in 0..groups {
        let next = group(alloc, width, count, 64, from + (groups - 1 - done) * 64)?;
        term = Term::name(alloc, next, term)?;
    }
    Ok(term)
}

/// The taint of `$pmux`, whose operands are A, B and S: that of the block of B for the lowest bit of S that is 1, else of
/// A, and where bits of S are tainted that of each block that they may choose, and of their differences.
pub fn pmux_term(alloc: Global, cell: &Cell) -> Result<Term, NoMemory>
    requires { IsChain cell.now }
    ensures { IfOk result (λ t. formula_of t ≡ cell_pmux cell.now) }
{
    let width = width_by(cell, Param::Width);
    let count = width_by(cell, Param::SWidth);
    let start = Term::join(alloc, Term::Value(0), Term::Taint(0))?;
    let first = group(alloc, width, count, count % 64, 0)?;
    let rest = groups_from(alloc, width, count, count / 64, count % 64)?;
    Term::name(alloc, start, Term::name(alloc, first, rest)?)
}
