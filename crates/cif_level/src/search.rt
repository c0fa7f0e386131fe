// The search for an order.
ghost use Rattle.std.specs.Prelude.{◌≡◌, ◌≢◌, ℕ, ◌-◌, ◌<◌, ◌≤◌, List, [], ◌∷◌, ◌++◌, true, length, get_or, replicate, slice_set, Some, IsOk, IfOk, IfErr, OnOk, IsTrue, ◌↔◌};
ghost use Rattle.cif_defs.specs.Accepted.{netlist_of};
ghost use Rattle.cif_defs.specs.Loop.{IsLevelled, IsLoop, is_passing};
ghost use Rattle.cif_defs.specs.Netlist.{IsWired, role_at};
ghost use Rattle.cif_level.specs.declared.feeders.Mark.TheVariants.{Unseen, OnPath, Placed};
ghost use Rattle.cif_level.specs.Feeding.{feeder_at};
ghost use Rattle.cif_level.specs.LevelFaults.{HasLeastNameFirst, IsReal};
ghost use Rattle.cif_level.specs.Searching.{IsLast, mark_of, first_place, place_of, AreBefore, AreAllPlaced, Keeps, IsFurther, Follows};

use crate::fault::LevelFault;
use crate::feeders::{Mark, OperandPlace, next_feed};
use crate::order::Levels;
use crate::ring::closed_loop;
use cif_cells::Netlist;
use cif_cells::table::role;
use std::alloc::{AllocError, Global};

/// A search for an order, in which the cells that drive a cell are placed before it.
#[derive(Debug, Drop)]
pub(crate) struct Search {
    /// How far each cell is.
    marks: Vec<Mark>,
    /// For each cell, the operand bit up to which the cells that drive it are placed.
    places: Vec<OperandPlace>,
    /// The cells from the one where the search began, each driven by the next.
    path: Vec<u32>,
    /// The cells that are placed.
    order: Vec<u32>,
}

impl Search {
    /// The search before its first step, over so many cells.
    fn new(alloc: Global, count: usize) -> Result<Search, AllocError>
        ensures marks { IfOk result (λ s. s.marks.items ≡ replicate count Unseen) }
        ensures places { IfOk result (λ s. s.places.items ≡ replicate count first_place) }
        ensures path { IfOk result (λ s. s.path.items ≡ []) }
        ensures order { IfOk result (λ s. s.order.items ≡ []) }
    {
        let first = OperandPlace { port: 0, index: 0 };
        Ok(Search {
            marks: vec![in alloc; Mark::Unseen; count]?,
            places: vec![in alloc; first; count]?,
            path: Vec::new(alloc),
            order: Vec::with_capacity(alloc, count)?,
        })
    }

    /// Whether a cell was not met.
    fn is_unseen(&self, cell: u32) -> bool
        requires { cell < length self.now.marks.items }
        ensures { IsTrue result ↔ (mark_of self.now.marks.items cell ≡ Unseen) }
    {
        self.marks[cell as usize] == Mark::Unseen
    }

    /// Whether a cell stands on the path.
    fn is_on_path(&self, cell: u32) -> bool
        requires { cell < length self.now.marks.items }
        ensures { IsTrue result ↔ (mark_of self.now.marks.items cell ≡ OnPath) }
    {
        self.marks[cell as usize] == Mark::OnPath
    }

    /// Keeps the operand bit of a cell up to which the cells that drive it are placed.
    fn look(&mut self, cell: u32, place: OperandPlace)
        requires { cell < length self.old.places.items }
        ensures marks { self.new.marks.items ≡ self.old.marks.items }
        ensures places { self.new.places.items ≡ slice_set self.old.places.items cell place }
        ensures path { self.new.path.items ≡ self.old.path.items }
        ensures order { self.new.order.items ≡ self.old.order.items }
    {
        self.places[cell as usize] = place;
    }

    /// Puts a cell on the path.
    fn enter(&mut self, cell: u32) -> Result<(), AllocError>
        requires { cell < length self.old.marks.items }
        ensures marks { OnOk result (self.new.marks.items ≡ slice_set self.old.marks.items cell OnPath) }
        ensures places { self.new.places.items ≡ self.old.places.items }
        ensures path { OnOk result (self.new.path.items ≡ self.old.path.items ++ cell ∷ []) }
        ensures order { self.new.order.items ≡ self.old.order.items }
    {
        self.path.push(cell)?;
        self.marks[cell as usize] = Mark::OnPath;
        Ok(())
    }

    /// Takes the last cell of the path into the order.
    fn leave(&mut self, cell: u32) -> Result<(), AllocError>
        requires stands { cell < length self.old.marks.items }
        requires last { (rest : List ℕ) × (self.old.path.items ≡ rest ++ cell ∷ []) }
        ensures marks { OnOk result (self.new.marks.items ≡ slice_set self.old.marks.items cell Placed) }
        ensures places { self.new.places.items ≡ self.old.places.items }
        ensures path { OnOk result (self.old.path.items ≡ self.new.path.items ++ cell ∷ []) }
        ensures order { OnOk result (self.new.order.items ≡ self.old.order.items ++ cell ∷ []) }
    {
        self.order.push(cell)?;
        self.path.pop();
        self.marks[cell as usize] = Mark::Placed;
        Ok(())
    }

    /// One step with the last cell of the path. Where all that drive it are placed it is placed itself; else the
    /// first of those that aren't is put on the path, or closes a loop.
    fn step(&mut self, alloc: Global, netlist: &Netlist, cell: u32) -> Result<(), LevelFault>
        requires wired { IsWired (netlist_of netlist.now) }
        requires keeps { Keeps (netlist_of netlist.now) self.old }
        requires last { IsLast self.old.path.items cell }
        ensures ok { OnOk result (IsFurther (netlist_of netlist.now) self.old self.new) }
        ensures err { IfErr result (IsReal (netlist_of netlist.now)) }
    {
        let from = self.places[cell as usize];
        let Some(feed) = next_feed(netlist, &self.marks, cell, from) else {
            self.leave(cell)?;
            return Ok(());
        };
        self.look(cell, feed.place);
        if self.is_on_path(feed.cell) {
            let cells = closed_loop(alloc, &self.path, feed.cell)?;
            return Err(LevelFault::Loop(cells));
        }
        self.enter(feed.cell)?;
        Ok(())
    }

    /// Places a cell that was not met, after all that drive it.
    fn settle(&mut self, alloc: Global, netlist: &Netlist, start: u32) -> Result<(), LevelFault>
        requires wired { IsWired (netlist_of netlist.now) }
        requires keeps { Keeps (netlist_of netlist.now) self.old }
        requires no_path { self.old.path.items ≡ [] }
        requires unseen { mark_of self.old.marks.items start ≡ Unseen }
        requires passing { is_passing (role_at (netlist_of netlist.now) start) ≡ true }
        ensures keeps { OnOk result (Keeps (netlist_of netlist.now) self.new) }
        ensures no_path { OnOk result (self.new.path.items ≡ []) }
        ensures placed { OnOk result (mark_of self.new.marks.items start ≡ Placed) }
        ensures follows { OnOk result (Follows self.old.marks.items self.new.marks.items) }
        ensures err { IfErr result (IsReal (netlist_of netlist.now)) }
    {
        self.enter(start)?;
        while let Some(cell) = self.path.last().copied() {
            self.step(alloc, netlist, cell)?;
        }
        Ok(())
    }
}

/// The search after its last step: each passing cell is placed.
fn searched(alloc: Global, netlist: &Netlist) -> Result<Search, LevelFault>
    requires { IsWired (netlist_of netlist.now) }
    ensures keeps { IfOk result (Keeps (netlist_of netlist.now)) }
    ensures placed { IfOk result (λ s. (c : ℕ) → c < length (netlist_of netlist.now).cells → is_passing (role_at (netlist_of netlist.now) c) ≡ true → mark_of s.marks.items c ≡ Placed) }
    ensures err { IfErr result (IsReal (netlist_of netlist.now)) }
{
    let cells = netlist.cells();
    let mut search = Search::new(alloc, cells.len())?;
    for cell in 0..cells.len() as u32 {
        if search.is_unseen(cell) && role(cells[cell as usize].kind()).is_passing() {
            search.settle(alloc, netlist, cell)?;
        }
    }
    Ok(search)
}

/// The order in which the passing cells of a netlist are evaluated, each after those that drive it. Where cells drive
/// each other in a loop there is no order, and a loop is the answer, the cell of the least name first. It takes as long
/// as a walk over the cells and their operand bits, and some thirty bytes for each cell.
pub fn levels(alloc: Global, netlist: &Netlist) -> Result<Levels, LevelFault>
    ensures order { IfOk result (IsLevelled (netlist_of netlist.now)) }
    ensures no_loop { OnOk result ((cells : List ℕ) → ¬ IsLoop (netlist_of netlist.now) cells) }
    ensures err { IfErr result (IsReal (netlist_of netlist.now)) }
    ensures least_name { IfErr result (HasLeastNameFirst (netlist_of netlist.now)) }
{
    // the cells tell that the module was accepted, and so that its bits are wired and its names in order
    let _ = netlist.cells();
    let search = searched(alloc, netlist)?;
    Ok(Levels::of(search.order))
}
