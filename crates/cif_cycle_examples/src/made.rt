// A stimulus that is made by calls, a line of each sort.
ghost use Rattle.std.specs.Prelude.{◌≡◌, ◌<◌, [], length, IfOk, OnOk};
ghost use Rattle.cif_cycle_examples.specs.Groups.{IsUnbegun, IsAt};

use cif_bits::{Bits, NoMemory};
use cif_cells::{Name, Wire};
use cif_stimulus::Stimulus;
use std::alloc::Global;

/// A name.
fn name_of(alloc: Global, text: &[u8]) -> Result<Name, NoMemory>
    ensures { IfOk result (λ n. n ≡ text.now) }
{
    Ok(Name::of(Vec::from_slice(alloc, text)?))
}

/// A word of two bits.
#[tactic(auto, using(crate::proofs::Groups::two_bits))]
fn two_bits(alloc: Global, number: u128) -> Result<Bits, NoMemory>
    ensures { IfOk result (λ w. length w ≡ 2) }
{
    Bits::from_u128(alloc, 2, number)
}

/// A stimulus of three cycles, which releases the wire `w`.
#[tactic(auto, using(crate::proofs::Groups::after_release))]
pub fn releasing(alloc: Global, wire: &Wire) -> Result<Stimulus, NoMemory>
    ensures cycles { IfOk result (λ s. s.cycles ≡ 3) }
    ensures unbegun { IfOk result IsUnbegun }
{
    let mut stimulus = Stimulus::new(alloc, 3)?;
    let name = name_of(alloc, b"w")?;
    stimulus.push_release(alloc, name, wire)?;
    Ok(stimulus)
}

/// The register `r` starts with 10, of which the low bit is tainted.
#[tactic(auto, using(crate::proofs::Groups::may_start_register, crate::proofs::Groups::after_register))]
pub fn start_register(alloc: Global, stimulus: &mut Stimulus) -> Result<(), NoMemory>
    requires { IsUnbegun stimulus.old }
    ensures cycles { stimulus.new.cycles ≡ stimulus.old.cycles }
    ensures unbegun { IsUnbegun stimulus.new }
{
    let name = name_of(alloc, b"r")?;
    let value = two_bits(alloc, 2)?;
    let taint = two_bits(alloc, 1)?;
    stimulus.push_reg(alloc, name, value, taint)
}

/// The memory `m` starts with 01 at address 5, of which the high bit is tainted.
#[tactic(auto, using(crate::proofs::Groups::may_start_memory, crate::proofs::Groups::after_memory))]
pub fn start_memory(alloc: Global, stimulus: &mut Stimulus) -> Result<(), NoMemory>
    requires { IsUnbegun stimulus.old }
    ensures cycles { stimulus.new.cycles ≡ stimulus.old.cycles }
    ensures unbegun { IsUnbegun stimulus.new }
{
    let name = name_of(alloc, b"m")?;
    let value = two_bits(alloc, 1)?;
    let taint = two_bits(alloc, 2)?;
    stimulus.push_mem(alloc, name, 5, value, taint)
}

/// The sets of cycle 1 follow.
#[tactic(auto, using(crate::proofs::Groups::after_cycle))]
pub fn begin_cycle(alloc: Global, stimulus: &mut Stimulus) -> Result<(), NoMemory>
    requires cycles { stimulus.old.cycles ≡ 3 }
    requires unbegun { IsUnbegun stimulus.old }
    ensures { OnOk result (IsAt 1 stimulus.new) }
{
    stimulus.push_cycle(alloc, 1)
}

/// The input port `d` is set to 11, of which the low bit is tainted.
#[tactic(auto, using(crate::proofs::Groups::may_set))]
pub fn set_port(alloc: Global, stimulus: &mut Stimulus) -> Result<(), NoMemory>
    requires { IsAt 1 stimulus.old }
{
    let name = name_of(alloc, b"d")?;
    let value = two_bits(alloc, 3)?;
    let taint = two_bits(alloc, 1)?;
    stimulus.push_set(alloc, name, value, taint)
}

/// A stimulus with a line of each sort.
pub fn with_each_line(alloc: Global, wire: &Wire) -> Result<Stimulus, NoMemory> {
    let mut stimulus = releasing(alloc, wire)?;
    start_register(alloc, &mut stimulus)?;
    start_memory(alloc, &mut stimulus)?;
    begin_cycle(alloc, &mut stimulus)?;
    set_port(alloc, &mut stimulus)?;
    Ok(stimulus)
}
