// What the lines of a stimulus give to a bit of an input port, and to a bit of a register or a memory.
ghost use Rattle.std.specs.Prelude.{◌≡◌, ◌<◌, ◌∷◌, [], nat_lt, bytes_eq, map};
ghost use Rattle.cif_defs.specs.Words.{bit};
ghost use Rattle.cif_defs.specs.Cells.{state_bits};
ghost use Rattle.cif_defs.specs.Stimulus.{held_by, unset, is_bit};
ghost use Rattle.std.specs.List.{list_any};
ghost use Rattle.cif_stimulus.specs.StimulusView.{line_seen};
ghost use Rattle.cif_stimulus.specs.Held.{word_set_at, Starts, releases_bit};

use crate::line::{Pair, StimLine};
use cif_bits::Bits;
use cif_cells::table::role;
use cif_cells::{Cell, Param};
use cif_defs::{Name, NetBit, Role, Src};

/// A bit of a word and of its taint; a bit past the end is 0.
fn pair_of(value: &Bits, taint: &Bits, index: u64) -> Pair
    ensures value { result.value ≡ bit value.now index }
    ensures taint { result.taint ≡ bit taint.now index }
{
    Pair {
        value: bit_of(value.bits(), index),
        taint: bit_of(taint.bits(), index),
    }
}

/// A bit of a word; a bit past the end is 0.
fn bit_of(bits: &[bool], index: u64) -> bool
    ensures { result ≡ bit bits.now index }
{
    index < bits.len() as u64 && bits[index as usize]
}

/// The number of the line that sets a port last among the groups up to a cycle.
pub fn last_set(lines: &[StimLine], port: &[u8], cycle: u64) -> Option<usize>
    ensures { word_set_at lines.now result
        ≡ held_by (map line_seen lines.now) port.now cycle unset }
{
    let mut setter = None;
    for (number, line) in lines.iter().enumerate() {
        match line {
            StimLine::Cycle(later) if *later > cycle => return setter,
            StimLine::Set { port: name, .. } if name.items() == port => setter = Some(number),
            _ => {}
        }
    }
    setter
}

/// A bit of the word that a line sets, or 0 where there is none.
pub fn set_pair(lines: &[StimLine], setter: Option<usize>, index: u32) -> Pair
    ensures value { result.value ≡ bit (word_set_at lines.now setter).value index }
    ensures taint { result.taint ≡ bit (word_set_at lines.now setter).taint index }
{
    if let Some(number) = setter
        && number < lines.len()
        && let StimLine::Set { value, taint, .. } = &lines[number]
    {
        return pair_of(value, taint, u64::from(index));
    }
    Pair {
        value: false,
        taint: false,
    }
}

/// Whether a cell stores a bit of this index.
pub fn stores(cell: &Cell, index: u64) -> bool
    ensures { result ≡ nat_lt index (state_bits cell.now) }
{
    let width = cell.number(Param::Width);
    match role(cell.kind()) {
        Role::PlainRegister | Role::ResetRegister => index < width,
        Role::MemoryBlock => {
            u128::from(index) < u128::from(cell.number(Param::Size)) * u128::from(width)
        }
        Role::Combinational | Role::CarriedOver => false,
    }
}

/// Whether a cell has a name.
fn is_named(owner: &Cell, name: &Name) -> bool
    ensures { result ≡ bytes_eq name.now owner.now.name }
{
    name.items() == owner.name().items()
}

/// Whether some line releases a net bit.
pub fn are_released(lines: &[StimLine], bit: NetBit) -> bool
    ensures { result ≡ list_any (λ l. releases_bit bit (line_seen l)) lines.now }
{
    lines.iter().any(|line| releases(line, bit))
}

/// Whether a line releases a net bit; constants of its wire are passed over.
fn releases(line: &StimLine, bit: NetBit) -> bool
    ensures { result ≡ releases_bit bit (line_seen line.now) }
{
    match line {
        StimLine::Release { wire, .. } => has_bit(wire.items(), bit),
        StimLine::Reg { .. } | StimLine::Mem { .. } | StimLine::Cycle(_) | StimLine::Set { .. } =>
            false,
    }
}

/// Whether a net bit is one of those that are read.
fn has_bit(sources: &[Src], bit: NetBit) -> bool
    ensures { result ≡ list_any (is_bit bit) sources.now }
{
    sources.iter().any(|source| is_source(*source, bit))
}

/// Whether what is read is a net bit.
fn is_source(source: Src, bit: NetBit) -> bool
    ensures { result ≡ is_bit bit source }
{
    match source {
        Src::Bit(place) => bit == place,
        Src::Zero | Src::One => false,
    }
}

/// What a line makes of a bit with which a cell starts.
fn started_by_line(line: &StimLine, owner: &Cell, index: u64, given: Pair) -> Pair
    requires { index < state_bits owner.now }
    ensures { Starts (line_seen line.now ∷ []) owner.now index given result }
{
    match line {
        StimLine::Reg { cell, value, taint } if is_named(owner, cell) => {
            pair_of(value, taint, index)
        }
        StimLine::Mem {
            cell,
            address,
            value,
            taint,
        } if is_named(owner, cell) => {
            let width = owner.number(Param::Width);
            let row = address.saturating_sub(owner.number(Param::Offset));
            if index / width == row {
                pair_of(value, taint, index % width)
            } else {
                given
            }
        }
        _ => given,
    }
}

/// What lines make of a bit with which a cell starts.
pub fn started_pair(lines: &[StimLine], owner: &Cell, index: u64, given: Pair) -> Pair
    requires { index < state_bits owner.now }
    ensures { Starts (map line_seen lines.now) owner.now index given result }
{
    let mut pair = given;
    for line in lines {
        pair = started_by_line(line, owner, index, pair);
    }
    pair
}
