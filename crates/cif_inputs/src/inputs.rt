// The words that input ports hold, from cycle to cycle.
ghost use Rattle.std.specs.Prelude.{◌≡◌, ◌+◌, ◌<◌, ◌≤◌, ◌^◌, ℕ, List, map, length, get_or, replicate, Some, None, IfOk, IfSome};
ghost use Rattle.cif_defs.specs.Words.{bit};
ghost use Rattle.cif_defs.specs.Accepted.{netlist_of};
ghost use Rattle.cif_defs.specs.Netlist.{Netlist as NetlistData};
ghost use Rattle.cif_defs.specs.declared.nets.Wire.{Wire};
ghost use Rattle.cif_defs.specs.Stimulus.{Stimulus as StimulusData, input_at};
ghost use Rattle.cif_inputs.specs.declared.inputs.InputMap.{InputMap as NamesData};
ghost use Rattle.cif_stimulus.specs.Names.{target_of};
ghost use Rattle.cif_stimulus.specs.StimulusView.{line_seen};
ghost use Rattle.cif_inputs.specs.Cursor.{IsMapOf, IsAt, Passes, Stops, is_later_line, setters_after, cycle_of};

use cif_bits::NoMemory;
use cif_cells::Netlist;
use cif_stimulus::{Pair, StimLine, Stimulus, set_pair};
use std::alloc::{AllocError, Global};

/// The names of a stimulus as input ports of a netlist.
#[derive(Drop)]
pub struct InputMap {
    // For each line the place of the port that it sets.
    targets: Vec<Option<usize>>,
}

/// Where a run stands in the lines of a stimulus: at a cycle, with the line that set each input port last.
#[derive(Drop)]
pub struct Inputs {
    cycle: u64,
    // How many lines are passed.
    passed: usize,
    // For each port the number of the last line passed that sets it.
    setters: Vec<Option<usize>>,
}

/// For each line the place of the port that it sets.
fn targets_of(
    alloc: Global,
    netlist: &Netlist,
    stimulus: &Stimulus,
) -> Result<Vec<Option<usize>>, AllocError>
    ensures { IfOk result (λ v. v.items
        ≡ map (target_of (netlist_of netlist.now).inputs) stimulus.now.lines) }
{
    let count = stimulus.lines().len();
    let mut targets = Vec::with_capacity(alloc, count)?;
    for number in 0..count {
        targets.push(stimulus.target(netlist, number))?;
    }
    Ok(targets)
}

/// Whether a line begins a group that is later than a cycle.
fn is_later(line: &StimLine, cycle: u64) -> bool
    ensures { result ≡ is_later_line cycle (line_seen line.now) }
{
    match line {
        StimLine::Cycle(later) => *later > cycle,
        StimLine::Reg { .. }
        | StimLine::Mem { .. }
        | StimLine::Release { .. }
        | StimLine::Set { .. } => false,
    }
}

/// No setter for so many places.
fn unset(alloc: Global, count: usize) -> Result<Vec<Option<usize>>, AllocError>
    ensures { IfOk result (λ v. v.items ≡ replicate count None) }
{
    vec![in alloc; None; count]
}

/// Notes that a line sets the port at a place, if it sets one.
fn note_setter(setters: &mut [Option<usize>], target: Option<usize>, number: usize)
    requires { IfSome target (λ h. h < length setters.old) }
    ensures { setters.new ≡ setters_after setters.old target number }
{
    if let Some(home) = target {
        setters[home] = Some(number);
    }
}

/// Passes the lines that count up to a cycle, from a line on, and says at which line it stops.
fn pass(
    setters: &mut [Option<usize>],
    from: usize,
    cycle: u64,
    targets: &[Option<usize>],
    lines: &[StimLine],
) -> usize
    requires inside { from ≤ length lines.now }
    requires as_many { length targets.now ≡ length lines.now }
    requires places { (i h : ℕ) → get_or targets.now i None ≡ Some h → h < length setters.old }
    ensures inside { result ≤ length lines.now }
    ensures stops { Stops (map line_seen lines.now) cycle result }
    ensures passes { (ports : List Wire)
        → targets.now ≡ map (target_of ports) (map line_seen lines.now)
        → Passes ports (map line_seen lines.now) cycle from setters.old result setters.new }
{
    for number in from..lines.len() {
        if is_later(&lines[number], cycle) {
            return number;
        }
        note_setter(setters, targets[number], number);
    }
    lines.len()
}

impl InputMap {
    /// Takes the places of ports that the stimulus keeps. A name is sought where none is kept, or that of another netlist.
    pub fn of(alloc: Global, netlist: &Netlist, stimulus: &Stimulus) -> Result<InputMap, NoMemory>
        ensures { IfOk result (λ m. IsMapOf (netlist_of netlist.now) stimulus.now m) }
    {
        let _in_order = netlist.inputs();
        let targets = targets_of(alloc, netlist, stimulus)?;
        Ok(InputMap { targets })
    }
}

/// A cursor is used with the netlist, the stimulus and the map with which it was started.
impl Inputs {
    /// A cursor at cycle 0.
    pub fn start(
        alloc: Global,
        netlist: &Netlist,
        names: &InputMap,
        stimulus: &Stimulus,
    ) -> Result<Inputs, NoMemory>
        requires { IsMapOf (netlist_of netlist.now) stimulus.now names.now }
        ensures at { IfOk result
            (λ i. IsAt (netlist_of netlist.now) stimulus.now names.now i) }
        ensures cycle { IfOk result (λ i. cycle_of i ≡ 0) }
    {
        let mut setters = unset(alloc, netlist.inputs().len())?;
        let passed = pass(&mut setters, 0, 0, &names.targets, stimulus.lines());
        Ok(Inputs {
            cycle: 0,
            passed,
            setters,
        })
    }

    /// Another cursor at the same cycle.
    pub fn copy(&self, alloc: Global) -> Result<Inputs, NoMemory>
        ensures at { (n : NetlistData) (s : StimulusData) (names : NamesData) → IsAt n s names self.now
            → IfOk result (λ i. IsAt n s names i) }
        ensures cycle { IfOk result (λ i. cycle_of i ≡ cycle_of self.now) }
    {
        let setters = Vec::from_slice(alloc, &self.setters)?;
        Ok(Inputs {
            cycle: self.cycle,
            passed: self.passed,
            setters,
        })
    }

    /// Goes on to the next cycle. A whole run passes each line once.
    pub fn advance(&mut self, _netlist: &Netlist, names: &InputMap, stimulus: &Stimulus)
        requires at { IsAt (netlist_of _netlist.now) stimulus.now names.now self.old }
        requires more { cycle_of self.old + 1 < 2 ^ 64 }
        ensures at { IsAt (netlist_of _netlist.now) stimulus.now names.now self.new }
        ensures cycle { cycle_of self.new ≡ cycle_of self.old + 1 }
    {
        self.cycle += 1;
        self.passed = pass(
            &mut self.setters,
            self.passed,
            self.cycle,
            &names.targets,
            stimulus.lines(),
        );
    }

    /// What bit `index` of an input port holds at the cycle; a bit past the port's word is 0.
    pub fn pair(
        &self,
        _netlist: &Netlist,
        _names: &InputMap,
        stimulus: &Stimulus,
        port: u32,
        index: u32,
    ) -> Pair
        requires at { IsAt (netlist_of _netlist.now) stimulus.now _names.now self.now }
        requires port { port < length (netlist_of _netlist.now).inputs }
        ensures value { result.value
            ≡ bit (input_at (netlist_of _netlist.now) stimulus.now (cycle_of self.now) port).value
            index }
        ensures taint { result.taint
            ≡ bit (input_at (netlist_of _netlist.now) stimulus.now (cycle_of self.now) port).taint
            index }
    {
        set_pair(stimulus.lines(), self.setters[port as usize], index)
    }
}
