// Reading the lines of a stimulus that follow the number of cycles.
ghost use Rattle.std.specs.Prelude.{◌≡◌, reverse, true, Some, [], IfOk, OnOk, IfErr};
ghost use Rattle.cif_defs.specs.Stimulus.{reg_line, mem_line, release_line, cycle_line, set_line};
ghost use Rattle.cif_defs.specs.Text.{words_of};
ghost use Rattle.cif_cells.specs.Finding.{found_of};
ghost use Rattle.cif_stimulus.specs.Fitting.{is_address};
ghost use Rattle.cif_stim_read.specs.Forms.{word_seen, said_line, is_sayable};
ghost use Rattle.cif_stimulus.specs.Places.{is_cycle_count, is_later as is_later_than};
ghost use Rattle.cif_stim_read.specs.Reading.{IsReading, IsFirst, Takes};
ghost use Rattle.cif_stimulus.specs.StimulusText.{if_said, line_read, found_bits};
ghost use Rattle.cif_stimulus.specs.Versions.{version_number};

use crate::form::{Said, WordText, form_of};
use crate::given::{NameSet, RowSet};
use crate::lines::Line;
use cif_bits::NoMemory;
use cif_cells::{Found, Netlist};
use cif_defs::{Name, Param};
use cif_stimulus::{
    StimFault, StimLine, Stimulus, Version, cell_place, has_address, memory, port_place, register,
    settable_port,
};
use std::alloc::Global;

/// Whether a cycle may begin a group after that of another.
fn is_later(opened: Option<u64>, cycle: u64) -> bool
    ensures { result ≡ is_later_than opened cycle }
{
    match opened {
        None => true,
        Some(earlier) => earlier < cycle,
    }
}

/// What is read so far, and what the lines gave.
#[derive(Drop)]
pub struct Reader<'a> {
    stimulus: Stimulus,
    // The cycle of the open group.
    opened: Option<u64>,
    // The registers that have a line.
    registers: NameSet<'a>,
    // The rows of memories that have a line.
    rows: RowSet<'a>,
    // The names that are released.
    released: NameSet<'a>,
    // The ports that are set in the open group.
    ports: NameSet<'a>,
}

impl<'a> Reader<'a> {
    /// Nothing is read but the number of cycles.
    pub fn new(alloc: Global, cycles: u64) -> Result<Reader<'a>, NoMemory>
        requires { is_cycle_count cycles ≡ true }
        ensures state { IfOk result IsReading }
        ensures value { IfOk result
            (λ r. r.stimulus ≡ record { cycles = cycles; lines = [] }) }
    {
        Ok(Reader {
            stimulus: Stimulus::new(alloc, cycles)?,
            opened: None,
            registers: NameSet::new(alloc),
            rows: RowSet::new(alloc),
            released: NameSet::new(alloc),
            ports: NameSet::new(alloc),
        })
    }

    /// The stimulus that is read.
    pub fn finish(self) -> Stimulus
        ensures { result ≡ self.entry.stimulus }
    {
        self.stimulus
    }
}

/// One line, by its form. Each call refuses a line by the first test that it fails.
impl<'a> Reader<'a> {
    /// Reads what a register starts with.
    fn take_reg(
        &mut self,
        alloc: Global,
        netlist: &'a Netlist,
        number: u64,
        cell: Name,
        word: &WordText<'_>,
    ) -> Result<(), StimFault>
        requires state { IsReading self.old }
        requires sayable { is_sayable (reg_line cell (word_seen word.now)) ≡ true }
        ensures state { OnOk result (IsReading self.new) }
        ensures ok { OnOk result (Takes self.old.stimulus self.new.stimulus
            (if_said netlist.now self.old.stimulus.cycles (reverse self.old.stimulus.lines)
            number (Some (reg_line cell (word_seen word.now))))) }
        ensures err { IfErr result (IsFirst
            (if_said netlist.now self.old.stimulus.cycles (reverse self.old.stimulus.lines)
            number (Some (reg_line cell (word_seen word.now))))) }
    {
        if self.opened.is_some() {
            return Err(StimFault::BadLine(number));
        }
        let name = cell.items();
        let place = cell_place(netlist, name, None);
        let Some(register) = register(netlist, name, place) else {
            return Err(StimFault::NoSuchName(number));
        };
        if !word.has_width(register.number(Param::Width)) {
            return Err(StimFault::WrongWidth(number));
        }
        if !self.registers.add(register.name().items())? {
            return Err(StimFault::SetTwice(number));
        }
        let bits = word.read(alloc)?;
        let line = StimLine::Reg {
            cell,
            value: bits.value,
            taint: bits.taint,
        };
        self.stimulus.push_line(line, place)?;
        Ok(())
    }

    /// Reads what a memory starts with at an address.
    fn take_mem(
        &mut self,
        alloc: Global,
        netlist: &'a Netlist,
        number: u64,
        cell: Name,
        address: u64,
        word: &WordText<'_>,
    ) -> Result<(), StimFault>
        requires state { IsReading self.old }
        requires sayable { is_sayable (mem_line cell address (word_seen word.now)) ≡ true }
        ensures state { OnOk result (IsReading self.new) }
        ensures ok { OnOk result (Takes self.old.stimulus self.new.stimulus
            (if_said netlist.now self.old.stimulus.cycles (reverse self.old.stimulus.lines)
            number (Some (mem_line cell address (word_seen word.now))))) }
        ensures err { IfErr result (IsFirst
            (if_said netlist.now self.old.stimulus.cycles (reverse self.old.stimulus.lines)
            number (Some (mem_line cell address (word_seen word.now))))) }
    {
        if self.opened.is_some() {
            return Err(StimFault::BadLine(number));
        }
        let name = cell.items();
        let place = cell_place(netlist, name, None);
        let Some(memory) = memory(netlist, name, place) else {
            return Err(StimFault::NoSuchName(number));
        };
        if !has_address(memory, address) {
            return Err(StimFault::BadAddress(number));
        }
        if !word.has_width(memory.number(Param::Width)) {
            return Err(StimFault::WrongWidth(number));
        }
        if !self.rows.add(memory.name().items(), address)? {
            return Err(StimFault::SetTwice(number));
        }
        let bits = word.read(alloc)?;
        let line = StimLine::Mem {
            cell,
            address,
            value: bits.value,
            taint: bits.taint,
        };
        self.stimulus.push_line(line, place)?;
        Ok(())
    }

    /// Reads the release of a net.
    fn take_release(
        &mut self,
        alloc: Global,
        netlist: &'a Netlist,
        number: u64,
        name: Name,
    ) -> Result<(), StimFault>
        requires state { IsReading self.old }
        requires sayable { is_sayable (release_line name []) ≡ true }
        ensures state { OnOk result (IsReading self.new) }
        ensures ok { OnOk result (Takes self.old.stimulus self.new.stimulus
            (if_said netlist.now self.old.stimulus.cycles (reverse self.old.stimulus.lines)
            number (Some (release_line name (found_bits (found_of netlist.now name)))))) }
        ensures err { IfErr result (IsFirst
            (if_said netlist.now self.old.stimulus.cycles (reverse self.old.stimulus.lines)
            number (Some (release_line name (found_bits (found_of netlist.now name)))))) }
    {
        if self.opened.is_some() {
            return Err(StimFault::BadLine(number));
        }
        let Found::Wire(wire) = netlist.find(name.items()) else {
            return Err(StimFault::NoSuchName(number));
        };
        if !self.released.add(wire.name().items())? {
            return Err(StimFault::SetTwice(number));
        }
        self.stimulus.push_release(alloc, name, wire)?;
        Ok(())
    }

    /// Reads the cycle of the sets that follow.
    fn take_cycle(
        &mut self,
        alloc: Global,
        netlist: &'a Netlist,
        number: u64,
        cycle: u64,
    ) -> Result<(), StimFault>
        requires { IsReading self.old }
        ensures state { OnOk result (IsReading self.new) }
        ensures ok { OnOk result (Takes self.old.stimulus self.new.stimulus
            (if_said netlist.now self.old.stimulus.cycles (reverse self.old.stimulus.lines)
            number (Some (cycle_line cycle)))) }
        ensures err { IfErr result (IsFirst
            (if_said netlist.now self.old.stimulus.cycles (reverse self.old.stimulus.lines)
            number (Some (cycle_line cycle)))) }
    {
        if cycle >= self.stimulus.cycles() || !is_later(self.opened, cycle) {
            return Err(StimFault::BadLine(number));
        }
        self.stimulus.push_cycle(alloc, cycle)?;
        self.opened = Some(cycle);
        self.ports = NameSet::new(alloc);
        Ok(())
    }

    /// Reads what a port holds from the open group on.
    fn take_set(
        &mut self,
        alloc: Global,
        netlist: &'a Netlist,
        number: u64,
        port: Name,
        word: &WordText<'_>,
    ) -> Result<(), StimFault>
        requires state { IsReading self.old }
        requires sayable { is_sayable (set_line port (word_seen word.now)) ≡ true }
        ensures state { OnOk result (IsReading self.new) }
        ensures ok { OnOk result (Takes self.old.stimulus self.new.stimulus
            (if_said netlist.now self.old.stimulus.cycles (reverse self.old.stimulus.lines)
            number (Some (set_line port (word_seen word.now))))) }
        ensures err { IfErr result (IsFirst
            (if_said netlist.now self.old.stimulus.cycles (reverse self.old.stimulus.lines)
            number (Some (set_line port (word_seen word.now))))) }
    {
        if self.opened.is_none() {
            return Err(StimFault::BadLine(number));
        }
        let name = port.items();
        let place = port_place(netlist, name, None);
        let Some(wire) = settable_port(netlist, name, place) else {
            return Err(StimFault::NoSuchName(number));
        };
        if !word.has_width(wire.items().len() as u64) {
            return Err(StimFault::WrongWidth(number));
        }
        if !self.ports.add(wire.name().items())? {
            return Err(StimFault::SetTwice(number));
        }
        let bits = word.read(alloc)?;
        let line = StimLine::Set {
            port,
            value: bits.value,
            taint: bits.taint,
        };
        self.stimulus.push_line(line, place)?;
        Ok(())
    }
}

/// All lines, one after another.
impl<'a> Reader<'a> {
    /// Reads what a line says.
    fn take_said(
        &mut self,
        alloc: Global,
        netlist: &'a Netlist,
        number: u64,
        said: Said<'_>,
    ) -> Result<(), StimFault>
        requires state { IsReading self.old }
        requires sayable { is_sayable (said_line netlist.now said) ≡ true }
        ensures state { OnOk result (IsReading self.new) }
        ensures ok { OnOk result (Takes self.old.stimulus self.new.stimulus
            (if_said netlist.now self.old.stimulus.cycles (reverse self.old.stimulus.lines)
            number (Some (said_line netlist.now said.entry)))) }
        ensures err { IfErr result (IsFirst
            (if_said netlist.now self.old.stimulus.cycles (reverse self.old.stimulus.lines)
            number (Some (said_line netlist.now said.entry)))) }
    {
        match said {
            Said::Reg { cell, word } => { self.take_reg(alloc, netlist, number, cell, &word) }
            Said::Mem {
                cell,
                address,
                word,
            } => self.take_mem(alloc, netlist, number, cell, address, &word),
            Said::Release(name) => self.take_release(alloc, netlist, number, name),
            Said::Cycle(cycle) => self.take_cycle(alloc, netlist, number, cycle),
            Said::Set { port, word } => { self.take_set(alloc, netlist, number, port, &word) }
        }
    }

    /// Reads a line of a text of this version.
    pub fn take_line(
        &mut self,
        alloc: Global,
        netlist: &'a Netlist,
        version: Version,
        line: &Line<'_>,
    ) -> Result<(), StimFault>
        requires state { IsReading self.old }
        ensures state { OnOk result (IsReading self.new) }
        ensures ok { OnOk result (Takes self.old.stimulus self.new.stimulus
            (line_read netlist.now
            (record { version = version_number version; cycles = self.old.stimulus.cycles })
            (reverse self.old.stimulus.lines)
            (record { number = line.now.number; words = words_of line.now.text.now }))) }
        ensures err { IfErr result (IsFirst
            (line_read netlist.now
            (record { version = version_number version; cycles = self.old.stimulus.cycles })
            (reverse self.old.stimulus.lines)
            (record { number = line.now.number; words = words_of line.now.text.now }))) }
    {
        let Some(said) = form_of(alloc, version, line.text)? else {
            return Err(StimFault::BadLine(line.number));
        };
        self.take_said(alloc, netlist, line.number, said)?;
        Ok(())
    }
}
