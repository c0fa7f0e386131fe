// What the input ports hold, from cycle to cycle.
ghost use Rattle.std.specs.Prelude.{◌≡◌, ◌+◌, ◌<◌, ◌^◌, length, IfOk};
ghost use Rattle.cif_defs.specs.Run.{input_value};
ghost use Rattle.cif_defs.specs.TaintRun.{input_taint};
ghost use Rattle.cif_inputs.specs.Cursor.{cycle_of};
ghost use Rattle.cif_seq.specs.Cases.{net_of};
ghost use Rattle.cif_seq.specs.Inputs.{StandsAt};

use crate::case::Case;
use cif_bits::NoMemory;
use cif_inputs::Inputs;
use cif_stimulus::Pair;
use std::alloc::Global;

/// The cursor of cycle 0.
pub fn first_inputs(alloc: Global, case: &Case) -> Result<Inputs, NoMemory>
    ensures { IfOk result (λ i. StandsAt (net_of case.now) case.now.stimulus 0 i) }
{
    let inputs = Inputs::start(alloc, case.netlist(), case.names(), case.stimulus())?;
    Ok(inputs)
}

/// The cursor of the cycle after.
pub fn next_inputs(alloc: Global, case: &Case, inputs: &Inputs) -> Result<Inputs, NoMemory>
    requires at { StandsAt (net_of case.now) case.now.stimulus (cycle_of inputs.now) inputs.now }
    requires more { cycle_of inputs.now + 1 < 2 ^ 64 }
    ensures { IfOk result
        (λ i. StandsAt (net_of case.now) case.now.stimulus (cycle_of inputs.now + 1) i) }
{
    let mut next = inputs.copy(alloc)?;
    next.advance(case.netlist(), case.names(), case.stimulus());
    Ok(next)
}

/// What bit `index` of an input port holds, and its taint.
pub fn input_pair(case: &Case, inputs: &Inputs, port: u32, index: u32) -> Pair
    requires at { StandsAt (net_of case.now) case.now.stimulus (cycle_of inputs.now) inputs.now }
    requires port { port < length (net_of case.now).inputs }
    ensures value { result.value
        ≡ input_value (net_of case.now) case.now.stimulus (cycle_of inputs.now) port index }
    ensures taint { result.taint
        ≡ input_taint (net_of case.now) case.now.stimulus (cycle_of inputs.now) port index }
{
    inputs.pair(case.netlist(), case.names(), case.stimulus(), port, index)
}
