// A stimulus.
ghost use Rattle.std.specs.Prelude.{◌≡◌, ◌<◌, [], map, length, true, false, IfOk, OnOk, OnErr};
ghost use Rattle.cif_defs.specs.Words.{bit};
ghost use Rattle.cif_defs.specs.Accepted.{netlist_of};
ghost use Rattle.cif_defs.specs.Stimulus.{input_at, start_at, is_released as is_released_by, reg_line, mem_line, release_line, cycle_line, set_line};
ghost use Rattle.cif_stimulus.specs.Names.{line_at, owner_of, target_of};
ghost use Rattle.cif_stimulus.specs.StimulusView.{line_seen, tainted, Adds};
ghost use Rattle.cif_stimulus.specs.Fitting.{fits_of, is_name_released};
ghost use Rattle.cif_stimulus.specs.Places.{IsOrdered, is_cycle_count, may_add, is_written};

use crate::fitting::lines_fit;
use crate::line::{Pair, StimLine};
use crate::lookup::{hint_at, owner, target};
use crate::walk::{are_released, last_set, set_pair, started_pair, stores};
use cif_bits::{Bits, NoMemory};
use cif_cells::Netlist;
use cif_defs::{Name, NetBit, Wire};
use std::alloc::Global;
use std::marker::Model;

/// What is given to a netlist: what its registers and memories start with, which nets are released, and what its
/// inputs are set to, cycle by cycle. Contracts see it as its number of cycles, which is 1 to 1,000,000, and its lines:
/// first what cells start with and what is released, then groups of sets, each begun by a cycle below that number and
/// above the one before. A name has at least one byte, a word at least one bit, and its taint as many.
#[derive(Drop)]
pub struct Stimulus {
    cycles: u64,
    lines: Vec<StimLine>,
    // For each line the place where what it names was found, if it was sought: the number of a register or a memory, or of
    // an input port. It is a hint: a name is looked for there first.
    places: Vec<Option<usize>>,
    // No register and no memory is named past so many lines.
    starts: usize,
}

impl Model for Stimulus {
    ghost use Rattle.cif_defs.specs.Stimulus.{Stimulus as StimulusData};

    ghost Value = { StimulusData };

    ghost use Rattle.cif_stimulus.specs.Inside.{stimulus_seen, IsKept};

    ghost view = { stimulus_seen };

    ghost invariant = { IsKept };
}

impl Stimulus {
    /// A stimulus of so many cycles, from 1 to 1,000,000, without lines.
    pub fn new(alloc: Global, cycles: u64) -> Result<Stimulus, NoMemory>
        requires { is_cycle_count cycles ≡ true }
        ensures { IfOk result (λ s. s ≡ record { cycles = cycles; lines = [] }) }
    {
        Ok(Stimulus {
            cycles,
            lines: Vec::new(alloc),
            places: Vec::new(alloc),
            starts: 0,
        })
    }

    /// How many cycles it has.
    pub fn cycles(&self) -> u64
        ensures { result ≡ self.now.cycles }
    {
        self.cycles
    }

    /// Its lines after that of the number of cycles, in order. Each stands where it may.
    pub fn lines(&self) -> &[StimLine]
        ensures value { map line_seen result.now ≡ self.now.lines }
        ensures ordered { IsOrdered self.now }
    {
        &self.lines
    }
}

/// What it gives to a netlist. Each call walks over lines.
impl Stimulus {
    /// What bit `index` of an input port holds at a cycle; a bit past the port's word is 0.
    pub fn input(&self, netlist: &Netlist, port: u32, index: u32, cycle: u64) -> Pair
        requires { port < length (netlist_of netlist.now).inputs }
        ensures value { result.value
            ≡ bit (input_at (netlist_of netlist.now) self.now cycle port).value index }
        ensures taint { result.taint
            ≡ bit (input_at (netlist_of netlist.now) self.now cycle port).taint index }
    {
        let wire = &netlist.inputs()[port as usize];
        let setter = last_set(&self.lines, wire.name().items(), cycle);
        set_pair(&self.lines, setter, index)
    }

    /// What bit `index` of the word of a register or a memory starts with; a bit past the word is 0.
    pub fn start(&self, netlist: &Netlist, cell: u32, index: u64) -> Pair
        requires { cell < length (netlist_of netlist.now).cells }
        ensures value { result.value
            ≡ bit (start_at (netlist_of netlist.now) self.now cell).value index }
        ensures taint { result.taint
            ≡ bit (start_at (netlist_of netlist.now) self.now cell).taint index }
    {
        let owner = &netlist.cells()[cell as usize];
        if !stores(owner, index) {
            return Pair {
                value: false,
                taint: false,
            };
        }
        let given = Pair {
            value: netlist.initial(cell, index),
            taint: false,
        };
        started_pair(&self.lines[..self.starts], owner, index, given)
    }

    /// Whether some line releases a net bit.
    pub fn released(&self, bit: NetBit) -> bool
        ensures { result ≡ is_released_by self.now.lines bit }
    {
        are_released(&self.lines, bit)
    }
}

/// What its lines name in a netlist. A name is sought only where it doesn't stand at the place that the line was added with.
impl Stimulus {
    /// The number of the input port that a line sets; None where the line sets nothing, or the netlist has no such port.
    pub fn target(&self, netlist: &Netlist, number: usize) -> Option<usize>
        requires { number < length self.now.lines }
        ensures { result ≡ target_of (netlist_of netlist.now).inputs (line_at self.now.lines number) }
    {
        let hint = hint_at(&self.places, number);
        let lines = self.lines();
        target(netlist, &lines[number], hint)
    }

    /// The number of the cell of which a line says what it starts with; None where it says that of none, or the netlist has
    /// no such cell.
    pub fn owner(&self, netlist: &Netlist, number: usize) -> Option<usize>
        requires { number < length self.now.lines }
        ensures { result ≡ owner_of (netlist_of netlist.now).cells (line_at self.now.lines number) }
    {
        let hint = hint_at(&self.places, number);
        let lines = self.lines();
        owner(netlist, &lines[number], hint)
    }
}

/// Whether its lines are those of a netlist.
impl Stimulus {
    /// Whether each line fits a netlist, and none gives again what a line before it gave:
    ///
    /// - a `Reg` line names a register, with asynchronous reset or without, its words have the register's width, and no
    ///   two name the same cell;
    /// - a `Mem` line names a memory, its address lies from the memory's offset on within its size, its words have the
    ///   memory's width, and no two have the same cell and address;
    /// - the name of a `Release` line is found as a wire of the bits that the line keeps, and no two have the same name;
    /// - a `Set` line names an input port other than the clock, its words have the port's width, and no port is set
    ///   twice in a group, which a `Cycle` line begins.
    ///
    /// It takes no memory. It finds a cell or an input port where the line was added with its place, or else by halves, and
    /// compares each `Reg`, `Mem` and `Release` line with all lines before it, and each `Set` line with those of its group.
    #[tactic(auto, unfolding(crate::specs::Fitting::fits_of))]
    pub fn fits(&self, netlist: &Netlist) -> bool
        ensures { result ≡ fits_of netlist.now self.now }
    {
        lines_fit(netlist, &self.lines, &self.places)
    }
}

/// Lines, one after another. A line is added only where it may stand after those that are there: what registers and
/// memories start with and releases before the first cycle, sets after it, and cycles that rise and lie below the number
/// of cycles. Names have at least one byte, words at least one bit, and taints as many. A call that finds no memory leaves
/// the stimulus as it was.
impl Stimulus {
    /// Adds a line, with the place where what it names was found: the number of a register or a memory for a `Reg` or a `Mem`
    /// line, that of an input port for a `Set` line, in the netlist for which the stimulus is made. The place saves a search
    /// of the name, and no answer depends on it.
    pub fn push_line(&mut self, line: StimLine, place: Option<usize>) -> Result<(), NoMemory>
        requires place { may_add self.old (line_seen line) ≡ true }
        requires written { is_written (line_seen line) ≡ true }
        ensures ok { OnOk result (Adds self.old self.new (line_seen line)) }
        ensures err { OnErr result (self.new ≡ self.old) }
    {
        let is_start = line.is_start();
        // A place may be left of a line that found no memory.
        self.places.truncate(self.lines.len());
        self.places.push(place)?;
        self.lines.push(line)?;
        if is_start {
            self.starts = self.lines.len();
        }
        Ok(())
    }

    /// Adds the word with which a register starts.
    pub fn push_reg(
        &mut self,
        _alloc: Global,
        cell: Name,
        value: Bits,
        taint: Bits,
    ) -> Result<(), NoMemory>
        requires place { may_add self.old (reg_line cell (tainted value taint)) ≡ true }
        requires written { is_written (reg_line cell (tainted value taint)) ≡ true }
        ensures ok { OnOk result (Adds self.old self.new (reg_line cell (tainted value taint))) }
        ensures err { OnErr result (self.new ≡ self.old) }
    {
        self.push_line(StimLine::Reg { cell, value, taint }, None)
    }

    /// Adds the word with which a memory starts at an address, which counts from the memory's offset on.
    pub fn push_mem(
        &mut self,
        _alloc: Global,
        cell: Name,
        address: u64,
        value: Bits,
        taint: Bits,
    ) -> Result<(), NoMemory>
        requires place { may_add self.old (mem_line cell address (tainted value taint)) ≡ true }
        requires written { is_written (mem_line cell address (tainted value taint)) ≡ true }
        ensures ok { OnOk result
            (Adds self.old self.new (mem_line cell address (tainted value taint))) }
        ensures err { OnErr result (self.new ≡ self.old) }
    {
        let line = StimLine::Mem {
            cell,
            address,
            value,
            taint,
        };
        self.push_line(line, None)
    }

    /// Adds the release of a net by a name that wasn't released before.
    pub fn push_release(&mut self, alloc: Global, name: Name, wire: &Wire) -> Result<(), NoMemory>
        requires place { may_add self.old (release_line name wire.now.bits) ≡ true }
        requires written { is_written (release_line name wire.now.bits) ≡ true }
        requires fresh { is_name_released self.old.lines name ≡ false }
        ensures ok { OnOk result (Adds self.old self.new (release_line name wire.now.bits)) }
        ensures err { OnErr result (self.new ≡ self.old) }
    {
        let wire = copied(alloc, wire)?;
        self.push_line(StimLine::Release { name, wire }, None)
    }

    /// Adds the cycle, counted from 0, of the sets that follow.
    pub fn push_cycle(&mut self, _alloc: Global, cycle: u64) -> Result<(), NoMemory>
        requires { may_add self.old (cycle_line cycle) ≡ true }
        ensures ok { OnOk result (Adds self.old self.new (cycle_line cycle)) }
        ensures err { OnErr result (self.new ≡ self.old) }
    {
        self.push_line(StimLine::Cycle(cycle), None)
    }

    /// Adds the word that an input port holds from the last cycle line on.
    pub fn push_set(
        &mut self,
        _alloc: Global,
        port: Name,
        value: Bits,
        taint: Bits,
    ) -> Result<(), NoMemory>
        requires place { may_add self.old (set_line port (tainted value taint)) ≡ true }
        requires written { is_written (set_line port (tainted value taint)) ≡ true }
        ensures ok { OnOk result (Adds self.old self.new (set_line port (tainted value taint))) }
        ensures err { OnErr result (self.new ≡ self.old) }
    {
        self.push_line(StimLine::Set { port, value, taint }, None)
    }
}

/// Another wire of the same name and bits.
fn copied(alloc: Global, wire: &Wire) -> Result<Wire, NoMemory>
    ensures { IfOk result (λ w. w ≡ wire.now) }
{
    let name = Vec::from_slice(alloc, wire.name().items())?;
    let bits = Vec::from_slice(alloc, wire.items())?;
    Ok(Wire::of(Name::of(name), bits))
}
