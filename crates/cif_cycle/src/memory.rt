// Memories: what they show at their read ports, and what they store next.
ghost use Rattle.std.specs.Prelude.{◌≡◌, ◌+◌, ◌*◌, ◌<◌, ◌≤◌, ℕ, List, length, if◌then◌else◌, IfOk, OnOk};
ghost use Rattle.cif_defs.specs.Words.{Word, bit, block, operand, word};
ghost use Rattle.cif_defs.specs.Kinds.{role_of};
ghost use Rattle.cif_defs.specs.Cells.{number_of, shape_of, width as width_of};
ghost use Rattle.cif_defs.specs.Fitted.{IsFitted};
ghost use Rattle.cif_defs.specs.Memory.{next_flag, next_memory as memory_after, next_memory_taint, read_address as read_address_of, read_taint as read_taint_of, read_word};
ghost use Rattle.cif_defs.specs.Run.{operand_words};
ghost use Rattle.cif_defs.specs.TaintRun.{operand_taints};
ghost use Rattle.cif_kinds.specs.StateCells.{HasMemoryNumbers, HasMemoryPorts};
ghost use Rattle.rule_state.specs.MemoryTaints.{HasPortWidths, IsPortOf, taint_after_port};
ghost use Rattle.cif_cycle.specs.CellWords.{read_words, read_taints};
ghost use Rattle.cif_cycle.specs.Memories.{IsRowAt, values_after, taints_after, row_written};
ghost use Rattle.cif_cycle.specs.Rows.{IsPutAt};

use crate::gather::{part, taint_word, value_word};
use crate::stored::{CellState, StateRef, StateWord};
use crate::tainted::{Tainted, TaintedWord};
use cif_bits::{Bits, NoMemory};
use cif_kinds::{Cell, Param, Role};
use rule_state::{WritePort, read_taint, write_flag, write_taint};
use std::alloc::Global;

/// The operand of the addresses of the read ports, in which port 0 is lowest, as in each operand of a memory.
const READ_ADDRESS: u32 = 0;

/// The operand of the enables of the write ports.
const WRITE_ENABLE: usize = 1;

/// The operand of their addresses.
const WRITE_ADDRESS: usize = 2;

/// The operand of their data.
const WRITE_DATA: usize = 3;

/// The row at an address, where that lies inside the memory.
fn row_of(cell: &Cell, address: &Bits) -> Option<u64>
    requires { length address.now ≤ 32 }
    ensures { IsRowAt (shape_of cell.now) address.now result }
{
    let number = address.to_u128();
    let offset = u128::from(cell.number(Param::Offset));
    if number < offset {
        return None;
    }
    let row = (number - offset) as u64;
    if row < cell.number(Param::Size) {
        Some(row)
    } else {
        None
    }
}

// ---- what it shows

/// The address at a read port and its taint, where `values` and `taints` are those of the net bits.
fn read_address(
    alloc: Global,
    cell: &Cell,
    port: u64,
    values: &[bool],
    taints: &[bool],
) -> Result<TaintedWord, NoMemory>
    requires role { role_of cell.now.kind ≡ Role.MemoryBlock }
    requires fitted { IsFitted cell.now }
    requires numbers { HasMemoryNumbers cell.now }
    requires port { port < number_of cell.now Param.RdPorts }
    ensures value { IfOk result (λ a. a.value
        ≡ read_address_of (shape_of cell.now) (operand_words (bit values.now) cell.now) port) }
    ensures taint { IfOk result (λ a. a.taint
        ≡ read_address_of (shape_of cell.now) (operand_taints (bit taints.now) cell.now) port) }
{
    let size = cell.number(Param::Abits) as usize;
    let start = port as usize * size;
    let sources = part(cell.operand(READ_ADDRESS), start, size);
    let value = value_word(alloc, values, sources)?;
    let taint = taint_word(alloc, taints, sources)?;
    Ok(TaintedWord { value, taint })
}

/// The row of a memory at an address, where `stored` are the bits that it stores, or their taint; zeros outside it.
fn row_word(
    alloc: Global,
    cell: &Cell,
    address: &Bits,
    stored: &StateWord,
) -> Result<Bits, NoMemory>
    requires numbers { HasMemoryNumbers cell.now }
    requires address { length address.now ≡ number_of cell.now Param.Abits }
    ensures { IfOk result (λ w. w ≡ read_word (shape_of cell.now) address.now stored.now) }
{
    let width = cell.number(Param::Width) as u32;
    match row_of(cell, address) {
        Some(row) => {
            let start = row * cell.number(Param::Width);
            let bits = stored.word(alloc, start, width)?;
            Ok(Bits::of(bits))
        }
        None => Ok(Bits::zeros(alloc, width)?),
    }
}

/// The word that a read port shows and its taint, from its address, the stored bits, their taints, and the memory's
/// flag.
fn read_port(
    alloc: Global,
    cell: &Cell,
    address: &TaintedWord,
    stored: &StateWord,
    stored_taint: &StateWord,
    flag: bool,
) -> Result<TaintedWord, NoMemory>
    requires numbers { HasMemoryNumbers cell.now }
    requires address { length address.now.value ≡ number_of cell.now Param.Abits }
    ensures value { IfOk result
        (λ r. r.value ≡ read_word (shape_of cell.now) address.now.value stored.now) }
    ensures taint { IfOk result (λ r. r.taint ≡ read_taint_of (shape_of cell.now) address.now.value
        address.now.taint flag stored_taint.now) }
{
    let value = row_word(alloc, cell, &address.value, stored)?;
    let row_taint = row_word(alloc, cell, &address.value, stored_taint)?;
    let taint = read_taint(alloc, &address.taint, flag, &row_taint)?;
    Ok(TaintedWord { value, taint })
}

/// What a memory shows at its read ports, as it is stored before the writes of the cycle: the row at each address, or
/// zeros outside; and its taint, which is all ones where an address bit is tainted or the flag is set. `values` and
/// `taints` are those of the net bits.
pub fn read_data(
    alloc: Global,
    cell: &Cell,
    values: &[bool],
    taints: &[bool],
    stored: &StateWord,
    stored_taint: &StateWord,
    flag: bool,
) -> Result<Tainted<Vec<bool>>, NoMemory>
    requires role { role_of cell.now.kind ≡ Role.MemoryBlock }
    requires fitted { IsFitted cell.now }
    requires numbers { HasMemoryNumbers cell.now }
    ensures value { IfOk result (λ r. r.value.items ≡ read_words cell.now
        (number_of cell.now Param.RdPorts) (operand_words (bit values.now) cell.now) stored.now) }
    ensures taint { IfOk result (λ r. r.taint.items ≡ read_taints cell.now
        (number_of cell.now Param.RdPorts) (operand_words (bit values.now) cell.now)
        (operand_taints (bit taints.now) cell.now) flag stored_taint.now) }
{
    let mut value = Vec::new(alloc);
    let mut taint = Vec::new(alloc);
    for port in 0..cell.number(Param::RdPorts) {
        let address = read_address(alloc, cell, port, values, taints)?;
        let read = read_port(alloc, cell, &address, stored, stored_taint, flag)?;
        value.extend_from_slice(read.value.bits())?;
        taint.extend_from_slice(read.taint.bits())?;
    }
    Ok(Tainted { value, taint })
}

// ---- what it stores next

/// Block `number` of a joined operand, whose blocks have `width` bits each.
fn block_of(
    alloc: Global,
    words: &[Bits],
    place: usize,
    width: u32,
    number: u32,
) -> Result<Bits, NoMemory>
    requires place { place < length words.now }
    requires inside { number * width + width ≤ length (operand words.now place) }
    ensures { IfOk result (λ b. b ≡ block width number (operand words.now place)) }
{
    let joined = &words[place];
    let _width = joined.width();
    Ok(joined.slice(alloc, number * width, width)?)
}

/// The words of a write port, from those of the memory's operands.
fn port_of(
    alloc: Global,
    cell: &Cell,
    values: &[Bits],
    taints: &[Bits],
    number: u32,
) -> Result<WritePort, NoMemory>
    requires numbers { HasMemoryNumbers cell.now }
    requires values { HasMemoryPorts cell.now values.now }
    requires taints { HasMemoryPorts cell.now taints.now }
    requires number { number < number_of cell.now Param.WrPorts }
    ensures { IfOk result (λ p. IsPortOf (shape_of cell.now) values.now taints.now number p) }
{
    let width = cell.number(Param::Width) as u32;
    let address_width = cell.number(Param::Abits) as u32;
    Ok(WritePort {
        addr: block_of(alloc, values, WRITE_ADDRESS, address_width, number)?,
        addr_taint: block_of(alloc, taints, WRITE_ADDRESS, address_width, number)?,
        enable: block_of(alloc, values, WRITE_ENABLE, width, number)?,
        enable_taint: block_of(alloc, taints, WRITE_ENABLE, width, number)?,
        word: block_of(alloc, values, WRITE_DATA, width, number)?,
        word_taint: block_of(alloc, taints, WRITE_DATA, width, number)?,
    })
}

/// What a write port makes of a bit of its row.
fn bit_after(port: &WritePort, index: u32, old: bool) -> bool
    requires enable { index < length port.now.enable }
    requires data { index < length port.now.word }
    ensures { result ≡ (if bit port.now.enable index then bit port.now.word index else old) }
{
    if port.enable.get(index) {
        port.word.get(index)
    } else {
        old
    }
}

/// Writes the row of a port, which begins at place `at`: each bit whose enable is 1 takes its data.
fn write_value(
    alloc: Global,
    stored: &mut StateWord,
    at: u64,
    port: &WritePort,
) -> Result<(), NoMemory>
    requires inside { at + length port.now.enable ≤ length stored.old }
    requires data { length port.now.word ≡ length port.now.enable }
    ensures { OnOk result (IsPutAt at (row_written (length port.now.enable) port.now
        (λ i. bit stored.old (at + i))) stored.old stored.new) }
{
    let _length = stored.len();
    for i in 0..port.enable.width() {
        let place = at + u64::from(i);
        let bit = bit_after(port, i, stored.bit(place));
        stored.set(alloc, place, bit)?;
    }
    Ok(())
}

/// Writes a row of bits from place `at` on.
fn put_row(alloc: Global, stored: &mut StateWord, at: u64, row: &[bool]) -> Result<(), NoMemory>
    requires { at + length row.now ≤ length stored.old }
    ensures { OnOk result (IsPutAt at row.now stored.old stored.new) }
{
    let _length = stored.len();
    for i in 0..row.len() {
        stored.set(alloc, at + i as u64, row[i])?;
    }
    Ok(())
}

/// Writes the stored taint of the row at an address, which begins at place `at`.
fn write_row_taint(
    alloc: Global,
    cell: &Cell,
    stored: &mut StateWord,
    at: u64,
    address: u64,
    port: &WritePort,
) -> Result<(), NoMemory>
    requires role { role_of cell.now.kind ≡ Role.MemoryBlock }
    requires numbers { HasMemoryNumbers cell.now }
    requires port { HasPortWidths cell.now port.now }
    requires from_offset { number_of cell.now Param.Offset ≤ address }
    requires in_size { address < number_of cell.now Param.Offset + number_of cell.now Param.Size }
    requires inside { at + width_of cell.now ≤ length stored.old }
    ensures { OnOk result (IsPutAt at (taint_after_port (width_of cell.now) port.now address
        (word (width_of cell.now) (λ i. bit stored.old (at + i)))) stored.old stored.new) }
{
    let width = cell.number(Param::Width) as u32;
    let mut row = Bits::of(stored.word(alloc, at, width)?);
    write_taint(cell, port, address, &mut row);
    put_row(alloc, stored, at, row.bits())?;
    Ok(())
}

/// Writes what a write port writes, to the stored word and to its taint.
fn write_port(
    alloc: Global,
    cell: &Cell,
    port: &WritePort,
    value: &mut StateWord,
    taint: &mut StateWord,
) -> Result<(), NoMemory>
    requires role { role_of cell.now.kind ≡ Role.MemoryBlock }
    requires numbers { HasMemoryNumbers cell.now }
    requires port { HasPortWidths cell.now port.now }
    requires value { length value.old ≡ number_of cell.now Param.Size * width_of cell.now }
    requires taint { length taint.old ≡ number_of cell.now Param.Size * width_of cell.now }
    ensures value { OnOk result ((vs ts : List Word) (p : ℕ) (stored : Word)
        → IsPortOf (shape_of cell.now) vs ts p port.now
        → value.old ≡ values_after (shape_of cell.now) vs stored p
        → value.new ≡ values_after (shape_of cell.now) vs stored (p + 1)) }
    ensures taint { OnOk result ((vs ts : List Word) (p : ℕ) (stored : Word)
        → IsPortOf (shape_of cell.now) vs ts p port.now
        → taint.old ≡ taints_after (shape_of cell.now) vs ts stored p
        → taint.new ≡ taints_after (shape_of cell.now) vs ts stored (p + 1)) }
{
    if let Some(row) = row_of(cell, &port.addr) {
        let at = row * cell.number(Param::Width);
        let address = row + cell.number(Param::Offset);
        write_value(alloc, value, at, port)?;
        write_row_taint(alloc, cell, taint, at, address, port)?;
    }
    Ok(())
}

/// What a memory stores next, its taint and its flag, from the words of its operands and their taints, and from what it
/// stores. The write ports write one after another, the lowest first; the flag, once set, stays.
pub fn next_memory(
    alloc: Global,
    cell: &Cell,
    values: &[Bits],
    taints: &[Bits],
    prior: StateRef,
) -> Result<CellState, NoMemory>
    requires role { role_of cell.now.kind ≡ Role.MemoryBlock }
    requires numbers { HasMemoryNumbers cell.now }
    requires values { HasMemoryPorts cell.now values.now }
    requires taints { HasMemoryPorts cell.now taints.now }
    requires value { length prior.value.now ≡ number_of cell.now Param.Size * width_of cell.now }
    requires taint { length prior.taint.now ≡ number_of cell.now Param.Size * width_of cell.now }
    ensures value { IfOk result
        (λ s. s.value ≡ memory_after (shape_of cell.now) values.now prior.entry.value.now) }
    ensures taint { IfOk result
        (λ s. s.taint ≡ next_memory_taint (shape_of cell.now) values.now taints.now prior.entry.taint.now) }
    ensures flag { IfOk result
        (λ s. s.flag ≡ next_flag (shape_of cell.now) values.now taints.now prior.entry.flag) }
{
    let mut value = prior.value.share(alloc)?;
    let mut taint = prior.taint.share(alloc)?;
    let mut flag = prior.flag;
    for number in 0..cell.number(Param::WrPorts) as u32 {
        let port = port_of(alloc, cell, values, taints, number)?;
        flag |= write_flag(&port);
        write_port(alloc, cell, &port, &mut value, &mut taint)?;
    }
    Ok(CellState { value, taint, flag })
}
