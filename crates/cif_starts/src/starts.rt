// What registers and memories start with.
ghost use Rattle.std.specs.Prelude.{◌≡◌, ◌+◌, ◌*◌, ◌<◌, ◌≤◌, ◌∷◌, [], List, true, false, map, replicate, length, get_or, IfOk, IfSome};
ghost use Rattle.cif_defs.specs.Words.{bit, word};
ghost use Rattle.cif_defs.specs.Cells.{Cell as CellData, state_bits, width};
ghost use Rattle.cif_defs.specs.Accepted.{netlist_of};
ghost use Rattle.cif_defs.specs.Netlist.{cell_at};
ghost use Rattle.cif_defs.specs.Stimulus.{StimLine as LineData, start_at, started_by, with_row};
ghost use Rattle.cif_stimulus.specs.StimulusView.{line_seen, tainted};
ghost use Rattle.cif_cycle.specs.Rows.{IsPutAt};
ghost use Rattle.cif_defs.specs.Order.{AreCellsInOrder};
ghost use Rattle.cif_stimulus.specs.Names.{line_at, owner_of};
ghost use Rattle.cif_starts.specs.Starts.{starts_named, IsChainFrom, IsTableFrom, IsTableOf, SameBits};

use cif_bits::NoMemory;
use cif_cells::{Cell, Netlist, Param, Role, table};
use cif_cycle::{Tainted, bit_of};
use cif_stimulus::{StimLine, Stimulus};
use std::alloc::{AllocError, Global};

/// The lines of a stimulus that say what registers and memories start with, cell by cell.
#[derive(Drop)]
pub struct StartLines {
    // For each cell the first line that names it.
    first: Vec<Option<usize>>,
    // For each such line the next of its cell.
    following: Vec<Option<usize>>,
}

impl StartLines {
    /// Notes a line that stands before those that are noted, as one of the cell that it names.
    fn note(&mut self, place: usize, owner: Option<usize>)
        requires place { place < length self.old.following.items }
        requires owner { IfSome owner (λ c. c < length self.old.first.items) }
        ensures { (cells : List CellData) (lines : List LineData) → AreCellsInOrder cells
            → place < length lines → owner ≡ owner_of cells (line_at lines place)
            → IsTableFrom cells lines (place + 1) self.old → IsTableFrom cells lines place self.new }
    {
        if let Some(cell) = owner {
            self.following[place] = self.first[cell];
            self.first[cell] = Some(place);
        }
    }

    /// The table of a stimulus's lines, for a netlist.
    pub fn of(alloc: Global, netlist: &Netlist, stimulus: &Stimulus) -> Result<StartLines, NoMemory>
        ensures { IfOk result (λ t. IsTableOf (netlist_of netlist.now) stimulus.now t) }
    {
        let first = vec![in alloc; None; netlist.cells().len()]?;
        let count = stimulus.lines().len();
        let following = vec![in alloc; None; count]?;
        let mut table = StartLines { first, following };
        let mut place = count;
        while place > 0 {
            place -= 1;
            table.note(place, stimulus.owner(netlist, place));
        }
        Ok(table)
    }
}

/// How many rows of WIDTH bits a cell stores: the words of a memory, and the one of a register.
fn row_count(cell: &Cell) -> u64
    ensures { result * width cell.now ≡ state_bits cell.now }
{
    match table::role(cell.kind()) {
        Role::PlainRegister | Role::ResetRegister => 1,
        Role::MemoryBlock => cell.number(Param::Size),
        Role::Combinational | Role::CarriedOver => 0,
    }
}

/// Writes `width` bits of a word from place `at` on; bits that the source lacks are 0.
fn put_at(bits: &mut [bool], at: usize, width: usize, source: &[bool])
    requires { at + width ≤ length bits.old }
    ensures { IsPutAt at (word width (λ i. bit source.now i)) bits.old bits.new }
{
    for i in 0..width {
        bits[at + i] = bit_of(source, i);
    }
}

/// Writes a row of a word that has `rows` rows of `width` bits. A row past the last is not there.
fn put_row(bits: &mut [bool], rows: u64, width: u64, row: u64, source: &[bool])
    requires { length bits.old ≡ rows * width }
    ensures { bits.new ≡ with_row (length bits.old) width row source.now bits.old }
{
    if row < rows {
        put_at(bits, (row * width) as usize, width as usize, source);
    }
}

/// Writes what a line says that a cell starts with, where `rows` is the cell's number of rows.
fn take_line(cell: &Cell, rows: u64, line: &StimLine, value: &mut [bool], taint: &mut [bool])
    requires named { starts_named cell.now.name (line_seen line.now) ≡ true }
    requires rows { rows * width cell.now ≡ state_bits cell.now }
    requires value { length value.old ≡ state_bits cell.now }
    requires taint { length taint.old ≡ state_bits cell.now }
    ensures { SameBits (state_bits cell.now)
        (started_by (line_seen line.now ∷ []) cell.now (tainted value.old taint.old))
        (tainted value.new taint.new) }
{
    match line {
        StimLine::Reg {
            value: given,
            taint: given_taint,
            ..
        } => {
            put_at(value, 0, value.len(), given.bits());
            put_at(taint, 0, taint.len(), given_taint.bits());
        }
        StimLine::Mem {
            address,
            value: given,
            taint: given_taint,
            ..
        } => {
            let width = cell.number(Param::Width);
            let row = address.saturating_sub(cell.number(Param::Offset));
            put_row(value, rows, width, row, given.bits());
            put_row(taint, rows, width, row, given_taint.bits());
        }
        StimLine::Release { .. } | StimLine::Cycle(_) | StimLine::Set { .. } => {}
    }
}

/// Writes what the lines that name a cell say that it starts with: `first`, and then for each the one that is `following`.
/// The cell has `rows` rows.
fn take_lines(
    cell: &Cell,
    rows: u64,
    lines: &[StimLine],
    first: Option<usize>,
    following: &[Option<usize>],
    value: &mut [bool],
    taint: &mut [bool],
)
    requires as_many { length following.now ≡ length lines.now }
    requires chain { IsChainFrom (map line_seen lines.now) cell.now.name 0 first following.now }
    requires rows { rows * width cell.now ≡ state_bits cell.now }
    requires value { length value.old ≡ state_bits cell.now }
    requires taint { length taint.old ≡ state_bits cell.now }
    ensures { SameBits (state_bits cell.now)
        (started_by (map line_seen lines.now) cell.now (tainted value.old taint.old))
        (tainted value.new taint.new) }
{
    let mut at = first;
    while let Some(place) = at {
        take_line(cell, rows, &lines[place], value, taint);
        at = following[place];
    }
}

/// The first `size` bits of the word that the netlist gives a cell to start with.
fn given_word(
    alloc: Global,
    netlist: &Netlist,
    number: u32,
    size: u64,
) -> Result<Vec<bool>, AllocError>
    requires { number < length (netlist_of netlist.now).initial }
    ensures { IfOk result (λ w. w.items
        ≡ word size (λ i. bit (get_or (netlist_of netlist.now).initial number []) i)) }
{
    let mut bits = Vec::with_capacity(alloc, size as usize)?;
    for index in 0..size {
        bits.push(netlist.initial(number, index))?;
    }
    Ok(bits)
}

/// A word of `size` bits that are all 0.
fn clear_word(alloc: Global, size: u64) -> Result<Vec<bool>, AllocError>
    ensures { IfOk result (λ w. w.items ≡ replicate size false) }
{
    vec![in alloc; false; size as usize]
}

/// The word with which a cell starts, and its taint, by the lines that name it.
pub fn start_word(
    alloc: Global,
    netlist: &Netlist,
    stimulus: &Stimulus,
    table: &StartLines,
    number: u32,
) -> Result<Tainted<Vec<bool>>, NoMemory>
    requires number { number < length (netlist_of netlist.now).cells }
    requires table { IsTableOf (netlist_of netlist.now) stimulus.now table.now }
    ensures value { IfOk result
        (λ s. s.value.items ≡ (start_at (netlist_of netlist.now) stimulus.now number).value) }
    ensures taint { IfOk result
        (λ s. s.taint.items ≡ (start_at (netlist_of netlist.now) stimulus.now number).taint) }
{
    let cell = &netlist.cells()[number as usize];
    let rows = row_count(cell);
    let size = rows * cell.number(Param::Width);
    let lines = stimulus.lines();
    let mut value = given_word(alloc, netlist, number, size)?;
    let mut taint = clear_word(alloc, size)?;
    let first = table.first[number as usize];
    take_lines(
        cell,
        rows,
        lines,
        first,
        &table.following,
        &mut value,
        &mut taint,
    );
    Ok(Tainted { value, taint })
}
