// Cases: a netlist, its levels and a stimulus.
ghost use Rattle.std.specs.Prelude.{◌≡◌, ℕ, ◌<◌, ◌||◌, true, IfOk, MatchOption, ⊤, length, map};
ghost use Rattle.std.specs.List.{list_any};
ghost use Rattle.cif_defs.specs.Words.{bit};
ghost use Rattle.cif_defs.specs.Accepted.{netlist_of};
ghost use Rattle.cif_defs.specs.Fitted.{IsFitted};
ghost use Rattle.cif_defs.specs.Kinds.{role_of};
ghost use Rattle.cif_defs.specs.Loop.{IsLevelled};
ghost use Rattle.cif_defs.specs.Netlist.{IsWired, cell_at, role_at};
ghost use Rattle.cif_defs.specs.Stimulus.{is_bit, is_released};
ghost use Rattle.cif_kinds.specs.StateCells.{HasMemoryNumbers};
ghost use Rattle.cif_inputs.specs.Cursor.{IsMapOf};
ghost use Rattle.cif_stimulus.specs.Fitting.{fits_of};
ghost use Rattle.cif_stimulus.specs.StimulusView.{line_seen};
ghost use Rattle.cif_seq.specs.CaseView.{AreForms};
ghost use Rattle.cif_seq.specs.Cases.{net_of};
ghost use Rattle.cif_words.specs.Forms.{StandsFor};
ghost use Rattle.cif_readers.specs.Tables.{AreReaders};
ghost use Rattle.cif_shapes.specs.Shapes.{shape_of};
ghost use Rattle.cif_shapes.specs.CellRules.{rule_of};
ghost use Rattle.cif_shown.specs.Evaluates.{Marks};
ghost use Rattle.cif_shown.specs.Shown.{AreSources};

use crate::sources::sources_of;
use cif_bits::NoMemory;
use cif_cells::{Cell, Netlist, Role, Src};
use cif_inputs::InputMap;
use cif_level::Levels;
use cif_readers::Readers;
use cif_shapes::{Rules, TaintRule};
use cif_stimulus::{StimLine, Stimulus};
use cif_words::WordForm;
use std::alloc::{AllocError, Global};
use std::marker::Model;

/// An accepted netlist with its levels and a stimulus. Contracts see it as these three.
#[derive(Drop)]
pub struct Case {
    netlist: Netlist,
    levels: Levels,
    stimulus: Stimulus,
    released: Vec<bool>,
    names: InputMap,
    // The net bits of input ports and of registers without asynchronous reset.
    sources: Vec<u32>,
    readers: Readers,
    // The terms of the taint of each combinational cell.
    rules: Rules,
    // The form of each narrow combinational cell that has word formulas.
    forms: Vec<Option<WordForm>>,
}

impl Model for Case {
    ghost use Rattle.cif_seq.specs.Cases.{CaseOf};

    ghost Value = { CaseOf };

    ghost use Rattle.cif_seq.specs.CaseView.{case_seen, HoldsCase};

    ghost view = { case_seen };

    ghost invariant = { HoldsCase };
}

/// Marks the net bits among some sources.
fn mark(marks: &mut [bool], sources: &[Src])
    ensures { (b : ℕ) → b < length marks.old
        → bit marks.new b ≡ (list_any (is_bit b) sources.now || bit marks.old b) }
{
    for source in sources {
        if let Src::Bit(net) = *source {
            if (net as usize) < marks.len() {
                marks[net as usize] = true;
            }
        }
    }
}

/// The net bits that lines release, as marks.
fn released_marks(alloc: Global, bits: u32, lines: &[StimLine]) -> Result<Vec<bool>, AllocError>
    ensures { IfOk result (λ marks. (b : ℕ) → b < bits
        → bit marks.items b ≡ is_released (map line_seen lines.now) b) }
{
    let mut marks = vec![in alloc; false; bits as usize]?;
    mark_lines(&mut marks, lines);
    Ok(marks)
}

/// Marks the net bits that lines release.
fn mark_lines(marks: &mut [bool], lines: &[StimLine])
    ensures { (b : ℕ) → b < length marks.old
        → bit marks.new b ≡ (is_released (map line_seen lines.now) b || bit marks.old b) }
{
    for line in lines {
        if let StimLine::Release { wire, .. } = line {
            mark(marks, wire.items());
        }
    }
}

/// The rules of a netlist's cells.
fn rules_of(alloc: Global, netlist: &Netlist) -> Result<Rules, NoMemory>
    ensures { IfOk result (λ r. r ≡ map rule_of (netlist_of netlist.now).cells) }
{
    Rules::of(alloc, netlist.cells())
}

/// The forms of a netlist's narrow cells that have word formulas, by cell.
fn forms_of(alloc: Global, netlist: &Netlist) -> Result<Vec<Option<WordForm>>, AllocError>
    ensures { IfOk result (λ fs. AreForms (netlist_of netlist.now) fs.items) }
{
    let cells = netlist.cells();
    let mut forms = Vec::with_capacity(alloc, cells.len())?;
    for i in 0..cells.len() {
        let cell = &cells[i];
        forms.push(WordForm::of(cell))?;
    }
    Ok(forms)
}

impl Case {
    /// The case of these parts: the levels are the netlist's, and the stimulus fits it.
    pub fn new(
        alloc: Global,
        netlist: Netlist,
        levels: Levels,
        stimulus: Stimulus,
    ) -> Result<Case, NoMemory>
        requires levelled { IsLevelled (netlist_of netlist) levels }
        requires fits { fits_of netlist stimulus ≡ true }
        ensures { IfOk result
            (λ c. c ≡ record { raw = netlist; order = levels; stimulus = stimulus }) }
    {
        let released = released_marks(alloc, netlist.bits(), stimulus.lines())?;
        let names = InputMap::of(alloc, &netlist, &stimulus)?;
        let sources = sources_of(alloc, &netlist)?;
        let readers = Readers::of(alloc, &netlist)?;
        let rules = rules_of(alloc, &netlist)?;
        let forms = forms_of(alloc, &netlist)?;
        Ok(Case {
            netlist,
            levels,
            stimulus,
            released,
            names,
            sources,
            readers,
            rules,
            forms,
        })
    }

    /// The netlist.
    pub fn netlist(&self) -> &Netlist
        ensures { result.now ≡ self.now.raw }
    {
        &self.netlist
    }

    /// The cells in the order in which they are evaluated.
    pub fn levels(&self) -> &Levels
        ensures are { result.now ≡ self.now.order }
        ensures levelled { IsLevelled (net_of self.now) self.now.order }
        ensures wired { IsWired (net_of self.now) }
    {
        let _wired = self.netlist.raw();
        &self.levels
    }

    /// The stimulus.
    pub fn stimulus(&self) -> &Stimulus
        ensures is { result.now ≡ self.now.stimulus }
        ensures fits { fits_of self.now.raw self.now.stimulus ≡ true }
    {
        &self.stimulus
    }

    /// How many cycles there are.
    pub fn cycles(&self) -> u64
        ensures { result ≡ self.now.stimulus.cycles }
    {
        self.stimulus.cycles()
    }

    /// For each net bit whether it is released.
    pub(crate) fn released(&self) -> &[bool]
        ensures { Marks (net_of self.now) result.now (is_released self.now.stimulus.lines) }
    {
        &self.released
    }

    /// The names of the stimulus, as they were looked up among the input ports.
    pub(crate) fn names(&self) -> &InputMap
        ensures { IsMapOf (net_of self.now) self.now.stimulus result.now }
    {
        &self.names
    }

    /// The net bits of input ports and of registers without asynchronous reset: what they hold stands before any cell is
    /// evaluated.
    pub(crate) fn sources(&self) -> &[u32]
        ensures { AreSources (net_of self.now) result.now }
    {
        &self.sources
    }

    /// Which cells read each net bit.
    pub(crate) fn readers(&self) -> &Readers
        ensures { AreReaders (net_of self.now) result.now }
    {
        &self.readers
    }

    /// The terms of the taint of a combinational cell, made once for all cells of its shape.
    pub(crate) fn rule(&self, number: u32) -> &TaintRule
        requires inside { number < length (net_of self.now).cells }
        requires role { role_at (net_of self.now) number ≡ Role.Combinational }
        ensures { result.now ≡ shape_of (cell_at (net_of self.now) number) }
    {
        self.rules.of_cell(number as usize)
    }

    /// The form of a cell, where the cell is narrow and has word formulas.
    pub(crate) fn form(&self, number: u32) -> Option<WordForm>
        ensures { MatchOption result ⊤ (λ f. StandsFor f (cell_at (net_of self.now) number)) }
    {
        let place = number as usize;
        if place < self.forms.len() {
            self.forms[place]
        } else {
            None
        }
    }

    /// A cell of the netlist.
    pub(crate) fn cell(&self, number: u32) -> &Cell
        requires { number < length (net_of self.now).cells }
        ensures is { result.now ≡ cell_at (net_of self.now) number }
        ensures wired { IsWired (net_of self.now) }
        ensures fitted { IsFitted result.now }
        ensures numbers { role_of result.now.kind ≡ Role.MemoryBlock → HasMemoryNumbers result.now }
    {
        &self.netlist.cells()[number as usize]
    }
}
