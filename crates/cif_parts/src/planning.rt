// The plan of parts.
ghost use Rattle.std.specs.Prelude.{◌≡◌, ◌<◌, ◌≤◌, ◌+◌, length, IfOk};
ghost use Rattle.cif_seq.specs.Cases.{net_of};
ghost use Rattle.cif_pieces.specs.Plans.{IsPlanOf};
ghost use Rattle.cif_parts.specs.Listing.{IsListed};
ghost use Rattle.cif_parts.specs.Marking.{ArePartMarks};
ghost use Rattle.cif_parts.specs.Planned.{IsPart};

use crate::list::{listed, listed_in_order};
use crate::mark::{evaluated_marks, needed_marks, owned_marks};
use cif_bits::NoMemory;
use cif_pieces::{PartCells, Plan};
use cif_seq::Case;
use std::alloc::Global;

/// The marked cells of a case, in the order of a plan.
fn listed_cells(alloc: Global, case: &Case, marks: &[bool]) -> Result<Vec<u32>, NoMemory>
    ensures { IfOk result (λ v. IsListed (net_of case.now) case.now.order marks.now v.items
        (length case.now.order + length (net_of case.now).cells)) }
{
    let order = case.levels();
    Ok(listed(alloc, case.netlist(), order.items(), marks)?)
}

/// The marked cells that stand in the levelled order of a case.
fn cells_in_order(alloc: Global, case: &Case, marks: &[bool]) -> Result<Vec<u32>, NoMemory>
    ensures { IfOk result (λ v. IsListed (net_of case.now) case.now.order marks.now v.items (length case.now.order)) }
{
    let order = case.levels();
    Ok(listed_in_order(alloc, order.items(), marks)?)
}

/// For each cell whether a part owns it, whether it evaluates it, and whether it needs what the cell stores.
#[derive(Drop)]
struct PartMarks {
    owned: Vec<bool>,
    evaluated: Vec<bool>,
    needed: Vec<bool>,
}

/// The marks of a part, among so many.
fn part_marks(alloc: Global, case: &Case, parts: u32, part: u32) -> Result<PartMarks, NoMemory>
    requires some { 0 < parts }
    requires few { parts ≤ 64 }
    ensures { IfOk result (λ m. ArePartMarks case.now parts part m.owned.items m.evaluated.items m.needed.items) }
{
    let order = case.levels();
    let netlist = case.netlist();
    let count = netlist.cells().len() as u32;
    let owned = owned_marks(alloc, count, parts, part)?;
    let evaluated = evaluated_marks(alloc, netlist, order.items(), &owned)?;
    let needed = needed_marks(alloc, netlist, &evaluated)?;
    Ok(PartMarks {
        owned,
        evaluated,
        needed,
    })
}

/// The lists of a part, among so many.
fn part_cells(alloc: Global, case: &Case, parts: u32, part: u32) -> Result<PartCells, NoMemory>
    requires some { 0 < parts }
    requires few { parts ≤ 64 }
    ensures { IfOk result (λ p. IsPart case.now parts part
        p.owned.items p.evaluated.items p.passing.items p.needed.items) }
{
    let _levels = case.levels();
    let marks = part_marks(alloc, case, parts, part)?;
    Ok(PartCells {
        owned: listed_cells(alloc, case, &marks.owned)?,
        evaluated: listed_cells(alloc, case, &marks.evaluated)?,
        passing: cells_in_order(alloc, case, &marks.evaluated)?,
        needed: listed_cells(alloc, case, &marks.needed)?,
    })
}

/// The plan of a case for 1 to 64 parts: cell number `i` of `n` cells is owned by part `i * parts / n`, rounded down, and
/// each part evaluates the cells that it owns and those from which a path leads to an operand of one of them; it needs what
/// the registers and memories among them store, and the registers that they read. For each part it passes each cell a few
/// times, and the operand bits of those that the part evaluates up to three times.
pub fn plan(alloc: Global, case: &Case, parts: u32) -> Result<Plan, NoMemory>
    requires some { 1 ≤ parts }
    requires few { parts ≤ 64 }
    ensures parts { IfOk result (λ p. p.parts ≡ parts) }
    ensures is { IfOk result (IsPlanOf case.now) }
{
    let mut cells = Vec::with_capacity(alloc, parts as usize)?;
    for part in 0..parts {
        cells.push(part_cells(alloc, case, parts, part)?)?;
    }
    Ok(Plan::of(cells))
}
