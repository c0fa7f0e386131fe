// Cells.
ghost use Rattle.std.specs.Prelude.{◌≡◌, ◌<◌, ◌≤◌, List, length, get_or, [], map, IsTrue, ◌↔◌};
ghost use Rattle.cif_defs.specs.Words.{bit};
ghost use Rattle.cif_defs.specs.Cells.{number_in as number_among, digits_in as digits_among, number_of, digits_of};
ghost use Rattle.cif_kinds.specs.CellView.{numbers_seen, digits_seen};

use cif_defs::{Kind, Listed, Name, Named, NetBit, Param, Src};
use std::marker::Model;

/// The number that a cell gives for a parameter.
#[derive(Clone, Copy, Debug, Drop)]
pub struct Given {
    /// The parameter.
    pub param: Param,
    /// Its number, below 2 to the 32.
    pub number: u64,
}

/// The digits that a cell gives for a parameter, lowest first.
#[derive(Debug, Drop)]
pub struct Digits {
    /// The parameter.
    pub param: Param,
    /// Its digits, where x and z are 0.
    pub bits: Listed<bool>,
}

/// The bits that an operand reads, lowest first.
pub type Sources = Listed<Src>;

/// The net bits that an output drives, lowest first; an unconnected bit has none.
pub type Targets = Listed<Option<NetBit>>;

/// A cell of an accepted netlist. Its ports are numbered in the order of the table of kinds.
#[derive(Debug, Drop)]
pub struct Cell {
    name: Name,
    kind: Kind,
    numbers: Vec<Given>,
    digits: Vec<Digits>,
    operands: Vec<Sources>,
    outputs: Vec<Targets>,
}

impl Model for Cell {
    ghost use Rattle.cif_defs.specs.Cells.{Cell as CellData};

    ghost Value = { CellData };

    ghost use Rattle.cif_kinds.specs.CellView.{cell_seen};

    ghost view = { cell_seen };
}

impl Named for Cell {
    ghost name_of = { λ c. c.name };

    fn name_bytes(&self) -> &[u8] {
        self.name.items()
    }
}

/// The number given for a parameter, or 0.
fn number_in(numbers: &[Given], param: Param) -> u64
    ensures { result ≡ number_among (numbers_seen numbers.now) param }
{
    for given in numbers {
        if given.param == param {
            return given.number;
        }
    }
    0
}

/// The digits given for a parameter, or none.
fn digits_in(digits: &[Digits], param: Param) -> &[bool]
    ensures { result.now ≡ digits_among (digits_seen digits.now) param }
{
    for given in digits {
        if given.param == param {
            return given.bits.items();
        }
    }
    &[]
}

impl Cell {
    /// The cell of these parts. It takes no memory.
    pub fn of(
        name: Name,
        kind: Kind,
        numbers: Vec<Given>,
        digits: Vec<Digits>,
        operands: Vec<Sources>,
        outputs: Vec<Targets>,
    ) -> Cell
        ensures { result ≡ record {
          name = name;
          kind = kind;
          numbers = numbers_seen numbers.items;
          digits = digits_seen digits.items;
          operands = operands.items;
          outputs = outputs.items;
        } }
    {
        Cell {
            name,
            kind,
            numbers,
            digits,
            operands,
            outputs,
        }
    }

    /// Its name.
    pub fn name(&self) -> &Name
        ensures { result.now ≡ self.now.name }
    {
        &self.name
    }

    /// Its kind.
    pub fn kind(&self) -> Kind
        ensures { result ≡ self.now.kind }
    {
        self.kind
    }

    /// The number of a parameter, or 0 where the cell gives none.
    pub fn number(&self, param: Param) -> u64
        ensures { result ≡ number_of self.now param }
    {
        number_in(&self.numbers, param)
    }

    /// Digit `index` of `SRST_VALUE`, `ARST_VALUE` or `LUT`, where x, z and missing digits are 0.
    pub fn digit(&self, param: Param, index: u32) -> bool
        ensures { result ≡ bit (digits_of self.now param) index }
    {
        let digits = digits_in(&self.digits, param);
        (index as usize) < digits.len() && digits[index as usize]
    }

    /// How many operands it has.
    pub fn operand_count(&self) -> usize
        ensures { result ≡ length self.now.operands }
    {
        self.operands.len()
    }

    /// What each operand reads.
    pub fn operands(&self) -> &[Sources]
        ensures { result.now ≡ self.now.operands }
    {
        &self.operands
    }

    /// The bits that an operand reads, lowest first.
    pub fn operand(&self, port: u32) -> &[Src]
        requires { port < length self.now.operands }
        ensures { result.now ≡ get_or self.now.operands port [] }
    {
        let sources = &self.operands[port as usize];
        sources.items()
    }

    /// What each output drives.
    pub fn outputs(&self) -> &[Targets]
        ensures { result.now ≡ self.now.outputs }
    {
        &self.outputs
    }

    /// The net bits that an output drives, lowest first; None where a bit is unconnected.
    pub fn output(&self, port: u32) -> &[Option<NetBit>]
        requires { port < length self.now.outputs }
        ensures { result.now ≡ get_or self.now.outputs port [] }
    {
        let targets = &self.outputs[port as usize];
        targets.items()
    }
}
