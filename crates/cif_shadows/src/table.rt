// The table by net bit.

ghost use Rattle.std.specs.Prelude.{◌≡◌, ◌<◌, ◌||◌, ◌==◌, ℕ, [], ◌∷◌, IfOk, length, map, get_or, false, Contains, Some};
ghost use Rattle.std.specs.List.{list_any};
ghost use Rattle.cif_defs.specs.Accepted.{netlist_of};
ghost use Rattle.cif_defs.specs.declared.raw_module.RawBit.TheVariants.{Zero as ZeroBit};
ghost use Rattle.cif_stimulus.specs.Fitting.{is_clock_driver};
ghost use Rattle.cif_shadows.specs.Tables.{AreSet, AreTargets, IsBegun, IsShadowTable, input_targets, output_targets, target_of_source};

use cif_bits::NoMemory;
use cif_cells::{Cell, Netlist};
use cif_defs::{Driver, NetBit, RawBit, Src};
use std::alloc::Global;
use std::marker::Model;

/// Which bit holds the taint of each net bit. Contracts see it as a `ShadowTable`.
#[derive(Drop)]
pub struct Shadows {
    bits: Vec<RawBit>,
    barred: Vec<bool>,
}

impl Model for Shadows {
    ghost use Rattle.cif_shadows.specs.Tables.{ShadowTable};
    ghost use Rattle.cif_shadows.specs.TableView.{table_of, IsTable};

    ghost Value = { ShadowTable };

    ghost view = { table_of };

    ghost invariant = { IsTable };
}

/// Which net bits the clock drives.
fn clock_bits(alloc: Global, netlist: &Netlist) -> Result<Vec<bool>, NoMemory>
    ensures { IfOk result (λ y. y.items ≡ map is_clock_driver (netlist_of netlist.now).drivers) }
{
    let mut clocks = Vec::with_capacity(alloc, netlist.bits() as usize)?;
    for bit in 0..netlist.bits() {
        clocks.push(netlist.driver(bit) == Driver::Clock)?;
    }
    Ok(clocks)
}

/// Bars released net bits.
fn bar(barred: &mut [bool], released: &[NetBit])
    requires { (b : ℕ) → Contains released.now b → b < length barred.old }
    ensures { (b : ℕ) → b < length barred.old
        → get_or barred.new b false ≡ (list_any (λ d. d == b) released.now || get_or barred.old b false) }
{
    for bit in released {
        barred[*bit as usize] = true;
    }
}

/// The net bit that is read; a constant is none.
fn target_of(source: Src) -> Option<NetBit>
    ensures { result ≡ target_of_source source }
{
    match source {
        Src::Bit(bit) => Some(bit),
        Src::Zero | Src::One => None,
    }
}

impl Shadows {
    /// A table in which no taint is held: that of `released` bits and of the clock never will be. The only error is want
    /// of memory.
    pub fn new(alloc: Global, netlist: &Netlist, released: &[NetBit]) -> Result<Shadows, NoMemory>
        requires inside { (b : ℕ) → Contains released.now b → b < length (netlist_of netlist.now).drivers }
        ensures { IfOk result (λ t. IsBegun netlist.now released.now t) }
    {
        let _accepted = netlist.raw();
        let bits = vec![in alloc; RawBit::Zero; netlist.bits() as usize]?;
        let mut barred = clock_bits(alloc, netlist)?;
        bar(&mut barred, released);
        Ok(Shadows { bits, barred })
    }

    /// The bit that holds the taint of a net bit; the constant 0 where none does.
    pub fn get(&self, bit: NetBit) -> RawBit
        requires { bit < length self.now.bits }
        ensures is { result ≡ get_or self.now.bits bit ZeroBit }
        ensures kept { IsShadowTable self.now }
    {
        self.bits[bit as usize]
    }

    /// Lets a bit hold the taint of a net bit, unless that is held nowhere.
    fn set(&mut self, target: Option<NetBit>, bit: RawBit)
        requires { (b : ℕ) → target ≡ Some b → b < length self.old.bits }
        ensures { AreSet (target ∷ []) (bit ∷ []) self.old self.new }
    {
        if let Some(place) = target
            && !self.barred[place as usize]
        {
            self.bits[place as usize] = bit;
        }
    }

    /// Lets these bits hold the taints of the net bits among as many targets.
    fn set_each(&mut self, targets: &[Option<NetBit>], bits: &[RawBit])
        requires targets { AreTargets (length self.old.bits) targets.now }
        requires as_many { length bits.now ≡ length targets.now }
        ensures { AreSet targets.now bits.now self.old self.new }
    {
        for (place, target) in targets.iter().enumerate() {
            self.set(*target, bits[place]);
        }
    }

    /// Lets these bits, one for each output bit of a cell, output by output, hold the taints of what the cell drives there;
    /// an output bit that is unconnected is passed over, and so is a net bit whose taint is held nowhere. It takes no memory.
    pub fn set_outputs(&mut self, cell: &Cell, bits: &[RawBit])
        requires targets { AreTargets (length self.old.bits) (output_targets cell.now) }
        requires as_many { length bits.now ≡ length (output_targets cell.now) }
        ensures set { AreSet (output_targets cell.now) bits.now self.old self.new }
        ensures kept { IsShadowTable self.new }
    {
        let outputs = cell.outputs();
        let mut rest = bits;
        for output in outputs {
            let targets = output.items();
            let (here, later) = rest.split_at(targets.len());
            self.set_each(targets, here);
            rest = later;
        }
        let _kept = &self.bits;
    }

    /// Lets these bits hold the taints of the bits of an input port. It takes no memory.
    pub fn set_input(&mut self, port: &[Src], bits: &[RawBit])
        requires targets { AreTargets (length self.old.bits) (input_targets port.now) }
        requires as_many { length bits.now ≡ length port.now }
        ensures set { AreSet (input_targets port.now) bits.now self.old self.new }
        ensures kept { IsShadowTable self.new }
    {
        for (place, source) in port.iter().enumerate() {
            self.set(target_of(*source), bits[place]);
        }
        let _kept = &self.bits;
    }
}
