// Accepted netlists.
ghost use Rattle.std.specs.Prelude.{◌≡◌, ◌<◌, ◌≤◌, length, get_or, map, [], IfOk};
ghost use Rattle.std.specs.List.{sum_by};
ghost use Rattle.cif_defs.specs.Words.{bit};
ghost use Rattle.cif_defs.specs.Cells.{state_bits as state_bits_of};
ghost use Rattle.cif_defs.specs.Accepted.{netlist_of};
ghost use Rattle.cif_defs.specs.Netlist.{driver_of, IsWired};
ghost use Rattle.cif_defs.specs.RawModule.{net_numbers};
ghost use Rattle.cif_defs.specs.Order.{IsInOrder, AreCellsInOrder, AreWiresInOrder};
ghost use Rattle.cif_checks.specs.Checks.{IsAccepted};
ghost use Rattle.cif_cells.specs.ClockBit.{clock_of};
ghost use Rattle.cif_cells.specs.Finding.{found_of};
ghost use Rattle.cif_nets.specs.Inits.{init_of};
ghost use Rattle.cif_cells.specs.NetlistView.{AreFitted, HaveMemoryNumbers, Holds};
ghost use Rattle.cif_cells.specs.Wires.{found_seen};

use crate::assemble::{cells_of, inputs_of, outputs_of};
use crate::drivers::{clock_bit, drivers_of};
use crate::finding::{Found, Wires, found_in, wires_of};
use crate::state::total_bits;
use cif_defs::{Driver, Listed, NetBit, Raw, Wire};
use cif_kinds::Cell;
use cif_nets::Nets;
use cif_nets::inits::{InitBit, initial_words};
use std::alloc::{AllocError, Global};
use std::marker::Model;

/// The parts of a netlist.
#[derive(Debug, Drop)]
pub(crate) struct Parts {
    inputs: Vec<Wire>,
    outputs: Vec<Wire>,
    cells: Vec<Cell>,
    drivers: Vec<Driver>,
    initial: Vec<Listed<bool>>,
    clock: Option<NetBit>,
    wires: Wires,
}

/// The netlist of a raw module that was accepted. Contracts see it as that module: all else is what the definitions
/// say of it.
#[derive(Debug, Drop)]
pub struct Netlist {
    raw: Raw,
    parts: Parts,
}

impl Model for Netlist {
    ghost use Rattle.cif_defs.specs.declared.raw_module.Raw.{Raw};

    ghost Value = { Raw };

    ghost use Rattle.cif_cells.specs.NetlistView.{Holds};

    ghost view = { λ n. n.raw };

    ghost invariant = { λ n. Holds n.raw n.parts.inputs.items n.parts.outputs.items n.parts.cells.items n.parts.drivers.items n.parts.initial.items n.parts.clock n.parts.wires };
}

impl Parts {
    /// The parts of the netlist of an accepted module, where `inits` are what `init` attributes give for each net number.
    pub(crate) fn of(alloc: Global, nets: &Nets, inits: &[InitBit]) -> Result<Parts, AllocError>
        requires in_order { IsInOrder nets.now }
        requires accepted { IsAccepted nets.now }
        requires inits { inits.now ≡ map (init_of nets.now.names) (net_numbers nets.now) }
        ensures { IfOk result (λ p. Holds nets.now p.inputs.items p.outputs.items p.cells.items p.drivers.items p.initial.items p.clock p.wires) }
    {
        let known = nets.known();
        let numbers = nets.numbers();
        Ok(Parts {
            inputs: inputs_of(alloc, numbers, known.ports())?,
            outputs: outputs_of(alloc, numbers, known.ports())?,
            cells: cells_of(alloc, numbers, known.cells())?,
            drivers: drivers_of(alloc, nets)?,
            initial: initial_words(alloc, known, numbers, inits)?,
            clock: clock_bit(nets),
            wires: wires_of(alloc, nets)?,
        })
    }
}

impl Netlist {
    /// The netlist of a module with its parts.
    pub(crate) fn of(raw: Raw, parts: Parts) -> Netlist
        requires { Holds raw parts.inputs.items parts.outputs.items parts.cells.items parts.drivers.items parts.initial.items parts.clock parts.wires }
        ensures { result ≡ raw }
    {
        Netlist { raw, parts }
    }

    /// The module as it was read.
    pub fn raw(&self) -> &Raw
        ensures is { result.now ≡ self.now }
        ensures in_order { IsInOrder self.now }
        ensures accepted { IsAccepted self.now }
        ensures wired { IsWired (netlist_of self.now) }
    {
        &self.raw
    }

    /// The cells, in byte order of name, each name once; at most 400,000.
    pub fn cells(&self) -> &[Cell]
        ensures are { result.now ≡ (netlist_of self.now).cells }
        ensures in_order { AreCellsInOrder result.now }
        ensures few { length result.now ≤ 400000 }
        ensures accepted { IsAccepted self.now }
        ensures wired { IsWired (netlist_of self.now) }
        ensures fitted { AreFitted result.now }
        ensures memories { HaveMemoryNumbers result.now }
    {
        &self.parts.cells
    }

    /// The input ports, in byte order of name, each name once.
    pub fn inputs(&self) -> &[Wire]
        ensures are { result.now ≡ (netlist_of self.now).inputs }
        ensures in_order { AreWiresInOrder result.now }
    {
        &self.parts.inputs
    }

    /// The output ports, in byte order of name, each name once.
    pub fn outputs(&self) -> &[Wire]
        ensures are { result.now ≡ (netlist_of self.now).outputs }
        ensures in_order { AreWiresInOrder result.now }
    {
        &self.parts.outputs
    }

    /// How many net bits there are; at most 4,194,304.
    pub fn bits(&self) -> u32
        ensures count { result ≡ length (netlist_of self.now).drivers }
        ensures few { result ≤ 4194304 }
    {
        self.parts.drivers.len() as u32
    }

    /// What drives a net bit.
    pub fn driver(&self, bit: NetBit) -> Driver
        requires { bit < length (netlist_of self.now).drivers }
        ensures { result ≡ driver_of (netlist_of self.now) bit }
    {
        self.parts.drivers[bit as usize]
    }

    /// The clock: the net bit at the clock of each register and each write port; None where there are none.
    pub fn clock(&self) -> Option<NetBit>
        ensures { result ≡ clock_of self.now }
    {
        self.parts.clock
    }

    /// What stands under a name: the netname of this name, or else the port of this name.
    pub fn find(&self, name: &[u8]) -> Found<'_>
        ensures { found_seen result ≡ found_of self.now name.now }
    {
        found_in(&self.raw, &self.parts.wires, name)
    }

    /// Bit `index` of the word with which a cell starts; a bit past its end is 0.
    pub fn initial(&self, cell: u32, index: u64) -> bool
        requires { cell < length (netlist_of self.now).initial }
        ensures { result ≡ bit (get_or (netlist_of self.now).initial cell []) index }
    {
        let word = &self.parts.initial[cell as usize];
        let bits = word.items();
        index < bits.len() as u64 && bits[index as usize]
    }

    /// How many bits the registers and memories store together: at most 4,096 for each of 400,000 cells, and 16,777,216 in
    /// memories.
    pub fn state_bits(&self) -> u64
        ensures sum { result ≡ sum_by state_bits_of (netlist_of self.now).cells }
        ensures few { result ≤ 1655177216 }
    {
        total_bits(&self.parts.cells)
    }
}
