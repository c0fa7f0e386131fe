// Frames from nothing: the text of a stimulus of two cycles that begins with what a frame stores, and gives what the frame's
// cycle and the next one are given.

use cif_cells::{Cell, Param, Role, table};
use cif_seq::Frame;
use cif_stimulus::Pair;
use std::alloc::{AllocError, Global};

/// How many words a cell stores: one of a register, those of a memory, else none.
fn word_count(cell: &Cell) -> u64 {
    match table::role(cell.kind()) {
        Role::PlainRegister | Role::ResetRegister => 1,
        Role::MemoryBlock => cell.number(Param::Size),
        Role::Combinational | Role::CarriedOver => 0,
    }
}

/// The pairs of one of the words that a cell stores, lowest bit first.
fn stored_word(
    alloc: Global,
    frame: &Frame,
    number: u32,
    cell: &Cell,
    word: u64,
) -> Result<Vec<Pair>, AllocError> {
    let width = cell.number(Param::Width);
    let first = word.saturating_mul(width);
    let mut pairs = Vec::new(alloc);
    for index in 0..width {
        pairs.push(frame.state(number, first.saturating_add(index)))?;
    }
    Ok(pairs)
}

/// The digit of a bit.
fn digit(bit: bool) -> u8 {
    if bit { b'1' } else { b'0' }
}

/// A word and its taint, highest bit first, each after a space, and the end of the line.
fn push_words(text: &mut Vec<u8>, pairs: &[Pair]) -> Result<(), AllocError> {
    text.push(b' ')?;
    for pair in pairs.iter().rev() {
        text.push(digit(pair.value))?;
    }
    text.push(b' ')?;
    for pair in pairs.iter().rev() {
        text.push(digit(pair.taint))?;
    }
    text.push(b'\n')?;
    Ok(())
}

/// The beginning of the line of a word that a cell stores, up to its name or its address.
fn push_start(alloc: Global, text: &mut Vec<u8>, cell: &Cell, word: u64) -> Result<(), AllocError> {
    let is_memory = table::role(cell.kind()).is_memory();
    text.extend_from_slice(if is_memory { b"mem " } else { b"reg " })?;
    text.extend_from_slice(cell.name().items())?;
    if is_memory {
        let address = cell.number(Param::Offset).saturating_add(word);
        let address = format!(in alloc; " {address}")?;
        text.extend_from_slice(address.as_bytes())?;
    }
    Ok(())
}

/// The lines of what a cell stores.
fn push_cell(
    alloc: Global,
    text: &mut Vec<u8>,
    frame: &Frame,
    number: u32,
) -> Result<(), AllocError> {
    let cells = frame.case().netlist().cells();
    let Some(cell) = cells.get(number as usize) else {
        return Ok(());
    };
    for word in 0..word_count(cell) {
        let pairs = stored_word(alloc, frame, number, cell, word)?;
        push_start(alloc, text, cell, word)?;
        push_words(text, &pairs)?;
    }
    Ok(())
}

/// The lines of what all cells store.
fn push_cells(alloc: Global, text: &mut Vec<u8>, frame: &Frame) -> Result<(), AllocError> {
    let count = frame.case().netlist().cells().len() as u32;
    for number in 0..count {
        push_cell(alloc, text, frame, number)?;
    }
    Ok(())
}

/// What an input port holds at a cycle, lowest bit first.
fn held_word(
    alloc: Global,
    frame: &Frame,
    port: u32,
    width: usize,
    cycle: u64,
) -> Result<Vec<Pair>, AllocError> {
    let case = frame.case();
    let netlist = case.netlist();
    let mut pairs = Vec::new(alloc);
    for index in 0..width.min(MOST_BITS) as u32 {
        if (port as usize) < netlist.inputs().len() {
            pairs.push(case.stimulus().input(netlist, port, index, cycle))?;
        }
    }
    Ok(pairs)
}

/// No port has more bits.
const MOST_BITS: usize = 6;

/// The line that sets an input port to what it holds at a cycle.
fn push_port(
    alloc: Global,
    text: &mut Vec<u8>,
    frame: &Frame,
    port: u32,
    cycle: u64,
) -> Result<(), AllocError> {
    let Some(wire) = frame.case().netlist().inputs().get(port as usize) else {
        return Ok(());
    };
    let pairs = held_word(alloc, frame, port, wire.items().len(), cycle)?;
    text.extend_from_slice(b"set ")?;
    text.extend_from_slice(wire.name().items())?;
    push_words(text, &pairs)
}

/// The lines of a cycle: they set each of the six input ports that follow the clock in byte order of name.
fn push_ports(
    alloc: Global,
    text: &mut Vec<u8>,
    frame: &Frame,
    cycle: u64,
) -> Result<(), AllocError> {
    for port in 1..7 {
        push_port(alloc, text, frame, port, cycle)?;
    }
    Ok(())
}

/// The whole text.
pub fn fresh_text(alloc: Global, frame: &Frame) -> Result<Vec<u8>, AllocError> {
    let mut text = Vec::from_slice(alloc, b"cellift-stimulus 2\ncycles 2\nrelease freed\n")?;
    push_cells(alloc, &mut text, frame)?;
    text.extend_from_slice(b"@ 0\n")?;
    push_ports(alloc, &mut text, frame, frame.cycle())?;
    text.extend_from_slice(b"@ 1\n")?;
    push_ports(alloc, &mut text, frame, frame.cycle().saturating_add(1))?;
    Ok(text)
}
