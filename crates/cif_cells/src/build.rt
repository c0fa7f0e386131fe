// Building: every check of a module, and then its netlist.
ghost use Rattle.std.specs.Prelude.{◌≡◌, map, None, IsOk, IfOk, IfErr};
ghost use Rattle.cif_defs.specs.RawModule.{net_numbers};
ghost use Rattle.cif_defs.specs.Order.{IsInOrder};
ghost use Rattle.cif_checks.specs.Checks.{build_fault, IsAccepted, IsFirst};
ghost use Rattle.cif_cells.specs.Building.{later_faults};
ghost use Rattle.cif_cells.specs.NetlistView.{Holds};
ghost use Rattle.cif_nets.specs.Inits.{init_of};

use crate::netlist::{Netlist, Parts};
use cif_checks::BuildFault;
use cif_defs::Raw;
use cif_nets::Nets;
use cif_nets::clock::check_clocks;
use cif_nets::inits::{InitBit, all_inits, check_inits};
use cif_nets::reads::check_reads;
use std::alloc::Global;

/// Checks drivers, clocks, the bits that are read, and initial values, in this order.
fn check_nets(alloc: Global, nets: &Nets, inits: &[InitBit]) -> Result<(), BuildFault>
    requires { inits.now ≡ map (init_of nets.now.names) (net_numbers nets.now) }
    ensures ok { IsOk result → later_faults nets.now ≡ None }
    ensures err { IfErr result (λ e. IsFirst (later_faults nets.now) e) }
{
    nets.check_drivers()?;
    check_clocks(alloc, nets)?;
    check_reads(alloc, nets)?;
    check_inits(alloc, nets.known(), nets.numbers(), inits)
}

/// The parts of the netlist of a module that passes all checks; what is found of its cells is found once.
fn checked_parts(alloc: Global, raw: &Raw) -> Result<Parts, BuildFault>
    requires { IsInOrder raw.now }
    ensures ok { IfOk result (λ p. Holds raw.now p.inputs.items p.outputs.items p.cells.items p.drivers.items p.initial.items p.clock p.wires) }
    ensures err { IfErr result (λ e. IsFirst (build_fault raw.now) e) }
{
    let nets = Nets::read(alloc, raw)?;
    let inits = all_inits(alloc, nets.numbers(), nets.known().names())?;
    check_nets(alloc, &nets, &inits)?;
    let parts = Parts::of(alloc, &nets, &inits)?;
    Ok(parts)
}

impl Netlist {
    /// The netlist of a module, whose names stand in byte order, each once.
    ///
    /// # Errors
    /// The first check that the module fails: its counts, ports, cells, drivers, clocks, bits that are read, and
    /// initial values, in this order.
    pub fn build(alloc: Global, raw: Raw) -> Result<Netlist, BuildFault>
        requires { IsInOrder raw }
        ensures ok { IfOk result (λ n. n ≡ raw) }
        ensures accepted { IsOk result → IsAccepted raw }
        ensures err { IfErr result (λ e. IsFirst (build_fault raw) e) }
    {
        let parts = checked_parts(alloc, &raw)?;
        Ok(Netlist::of(raw, parts))
    }
}
