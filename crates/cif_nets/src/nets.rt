// A module with its net numbers, and what drives each.
ghost use Rattle.std.specs.Prelude.{◌≡◌, ◌==◌, ◌≤◌, ◌<◌, ◌^◌, length, map, filter, position, None, IsOk, IfOk, IfErr};
ghost use Rattle.std.specs.List.Sorted.{IsStrictlyIncreasing};
ghost use Rattle.cif_defs.specs.RawModule.{net_numbers as net_numbers_of};
ghost use Rattle.cif_defs.specs.Accepted.{is_input as is_input_port};
ghost use Rattle.cif_checks.specs.Checks.{IsFirst, clock_uses, counts_fault, ports_fault, cells_fault, drivers_fault};
ghost use Rattle.cif_nets.specs.Clocks.{first_edge};
ghost use Rattle.cif_nets.specs.Drives.{driven_by};
ghost use Rattle.cif_nets.specs.Nets.{several_fault, drive_at, first_faults};

use crate::clock::{ClockEdge, first_clock};
use crate::drives::{DrivenBy, all_drives};
use crate::numbers::{net_numbers, place_of};
use cif_checks::{BuildFault, KnownModule, check_cells, check_counts, check_ports};
use cif_defs::{NetBit, Raw};
use std::alloc::Global;
use std::marker::Model;

/// A module whose counts, ports and cells have passed their checks, with its net numbers and what drives each.
/// Contracts see it as the module.
#[derive(Debug, Drop)]
pub struct Nets<'a> {
    known: KnownModule<'a>,
    numbers: Vec<u64>,
    drives: Vec<DrivenBy>,
    clock: Option<ClockEdge>,
}

impl<'a> Model for Nets<'a> {
    ghost use Rattle.cif_defs.specs.declared.raw_module.Raw.{Raw};

    ghost Value = { Raw };

    ghost use Rattle.cif_nets.specs.Nets.{HoldsNets};

    ghost view = { λ n. n.known };

    ghost invariant = { λ n. HoldsNets n.known n.numbers.items n.drives.items n.clock };
}

/// Checks that no number has several drivers; the least that has is refused.
fn check_single(numbers: &[u64], drives: &[DrivenBy]) -> Result<(), BuildFault>
    requires { length drives.now ≡ length numbers.now }
    ensures ok { IsOk result → several_fault numbers.now drives.now ≡ None }
    ensures err { IfErr result (λ e. IsFirst (several_fault numbers.now drives.now) e) }
{
    for (place, drive) in drives.iter().enumerate() {
        if matches!(*drive, DrivenBy::Several) {
            return Err(BuildFault::MultiDriven(numbers[place]));
        }
    }
    Ok(())
}

/// What drives a number, if it is among these.
fn drive_of(numbers: &[u64], drives: &[DrivenBy], number: u64) -> DrivenBy
    requires rising { IsStrictlyIncreasing numbers.now }
    requires same { length drives.now ≡ length numbers.now }
    ensures { result ≡ drive_at drives.now (position (λ n. n == number) numbers.now) }
{
    match place_of(numbers, number) {
        Some(place) => drives[place],
        None => DrivenBy::Nothing,
    }
}

impl<'a> Nets<'a> {
    /// The nets of a module that passes the checks of counts, ports and cells.
    pub fn read(alloc: Global, raw: &'a Raw) -> Result<Nets<'a>, BuildFault>
        ensures is { IfOk result (λ n. n ≡ raw.now) }
        ensures err { IfErr result (λ e. IsFirst (first_faults raw.now) e) }
    {
        let known = KnownModule::of(alloc, raw)?;
        let numbers = net_numbers(alloc, &known)?;
        check_counts(raw, numbers.len() as u64)?;
        check_ports(alloc, raw)?;
        check_cells(alloc, &known)?;
        let drives = all_drives(alloc, &numbers, &known)?;
        let clock = first_clock(known.cells());
        Ok(Nets {
            known,
            numbers,
            drives,
            clock,
        })
    }

    /// The module with what is known of its cells.
    pub fn known(&self) -> &KnownModule<'a>
        ensures is { result.now ≡ self.now }
        ensures counts { counts_fault self.now ≡ None }
        ensures ports { ports_fault self.now ≡ None }
        ensures cells { cells_fault self.now ≡ None }
        ensures few_cells { length self.now.cells ≤ 400000 }
        ensures few_bits { length (net_numbers_of self.now) ≤ 4194304 }
    {
        &self.known
    }

    /// The first use of a clock.
    pub fn clock(&self) -> Option<ClockEdge>
        ensures { result ≡ first_edge (clock_uses self.now) }
    {
        self.clock
    }

    /// The net numbers, rising; at most 4,194,304.
    pub fn numbers(&self) -> &[u64]
        ensures is { result.now ≡ net_numbers_of self.now }
        ensures few { length result.now ≤ 4194304 }
    {
        &self.numbers
    }

    /// The place of a net number.
    pub fn place(&self, number: u64) -> Option<NetBit>
        ensures { result ≡ position (λ n. n == number) (net_numbers_of self.now) }
    {
        match place_of(&self.numbers, number) {
            Some(place) => Some(place as u32),
            None => None,
        }
    }

    /// What drives a number; nothing drives one that is no net number.
    pub fn driven_by(&self, number: u64) -> DrivenBy
        ensures { result ≡ driven_by self.now number }
    {
        drive_of(&self.numbers, &self.drives, number)
    }

    /// What drives each net number.
    pub fn drives(&self) -> &[DrivenBy]
        ensures { result.now ≡ map (driven_by self.now) (net_numbers_of self.now) }
    {
        &self.drives
    }

    /// Checks that no net number is driven at two places.
    pub fn check_drivers(&self) -> Result<(), BuildFault>
        ensures ok { IsOk result → drivers_fault self.now ≡ None }
        ensures err { IfErr result (λ e. IsFirst (drivers_fault self.now) e) }
    {
        check_single(&self.numbers, &self.drives)
    }
}
