// The taint of memories: what a write port does to it, and that of a read.
ghost use Rattle.std.specs.Prelude.{◌≡◌, ◌+◌, ◌-◌, ◌<◌, ◌≤◌, ◌==◌, ◌&&◌, not, true, length, ℕ, List, if◌then◌else◌, ◌||◌, IfOk};
ghost use Rattle.cif_defs.specs.Words.{Word, bit, has_one, number, word};
ghost use Rattle.cif_defs.specs.Kinds.{role_of};
ghost use Rattle.cif_defs.specs.Cells.{number_of, shape_of, width as width_of};
ghost use Rattle.cif_defs.specs.Memory.{MemoryShape, read_taint as read_taint_of, read_word, sets_flag};
ghost use Rattle.rule_state.specs.MemoryTaints.{HasPortWidths, IsPortOf, may_write, port_sets_flag, taint_after_port, taint_of_read, taint_row};

use cif_bits::{Bits, NoMemory};
use cif_kinds::{Cell, Param, Role};
use std::alloc::Global;

/// What one write port of a memory has in a cycle: address, enables and data, each with its taint. There is one enable
/// for each bit of the data.
#[derive(Drop)]
pub struct WritePort {
    /// The address, of ABITS bits.
    pub addr: Bits,
    /// The taint of the address.
    pub addr_taint: Bits,
    /// The enables, of WIDTH bits.
    pub enable: Bits,
    /// The taint of the enables.
    pub enable_taint: Bits,
    /// The data, of WIDTH bits.
    pub word: Bits,
    /// The taint of the data.
    pub word_taint: Bits,
}

/// The word of `width` bits that are all 1.
fn ones(alloc: Global, width: u32) -> Result<Bits, NoMemory>
    requires { width ≤ 65536 }
    ensures { IfOk result (λ w. w ≡ word width (λ i. true)) }
{
    let bits = vec![in alloc; true; width as usize]?;
    Ok(Bits::of(bits))
}

/// The taint of a read, from the taint of its address, the flag of the memory, and the stored taint of the addressed word,
/// which is all zeros where the address lies outside: all ones where an address bit is tainted or the flag is set, else
/// the stored taint. It has as many bits as the stored taint. The only error is want of memory.
pub fn read_taint(
    alloc: Global,
    addr_taint: &Bits,
    flag: bool,
    stored: &Bits,
) -> Result<Bits, NoMemory>
    ensures is { IfOk result (λ w. w ≡ taint_of_read addr_taint.now flag stored.now) }
    ensures defined { IfOk result (λ w. (m : MemoryShape) (address taint : Word)
        → stored.now ≡ read_word m address taint
        → w ≡ read_taint_of m address addr_taint.now flag taint) }
{
    let tainted = flag | addr_taint.reduce_or();
    if tainted {
        Ok(ones(alloc, stored.width())?)
    } else {
        Ok(stored.copy(alloc)?)
    }
}

/// Whether a write port sets the flag of its memory for good: an address bit is tainted, and an enable is 1 or tainted.
pub fn write_flag(port: &WritePort) -> bool
    ensures is { result ≡ port_sets_flag port.now }
    ensures defined { (m : MemoryShape) (vs ts : List Word) (p : ℕ) → IsPortOf m vs ts p port.now
        → result ≡ sets_flag m vs ts p }
{
    port.addr_taint.reduce_or() && (port.enable.reduce_or() || port.enable_taint.reduce_or())
}

/// Whether the bits of a word, lowest first, are those of a number.
fn has_number(bits: &[bool], wanted: u64) -> bool
    ensures { result ≡ (number bits.now == wanted) }
{
    let mut rest = wanted;
    for bit in bits {
        if *bit != (rest % 2 == 1) {
            return false;
        }
        rest /= 2;
    }
    rest == 0
}

/// Whether a port's address is untainted, and is this one.
fn is_addressed(port: &WritePort, address: u64) -> bool
    ensures { result ≡ (not (has_one port.now.addr_taint) && number port.now.addr == address) }
{
    !port.addr_taint.reduce_or() && has_number(port.addr.bits(), address)
}

/// Each bit of the lowest `width` whose enable is 1 or tainted takes the taint of its data or of its enable.
fn write_bits(port: &WritePort, width: u32, stored: &mut Bits)
    requires enable { length port.now.enable ≡ width }
    requires enable_taint { length port.now.enable_taint ≡ width }
    requires word_taint { length port.now.word_taint ≡ width }
    requires stored { length stored.old ≡ width }
    ensures { stored.new ≡ word width (λ i. if may_write port.now i
        then bit port.now.word_taint i || bit port.now.enable_taint i else bit stored.old i) }
{
    for index in 0..width {
        let enable_taint = port.enable_taint.get(index);
        if port.enable.get(index) || enable_taint {
            stored.set(index, port.word_taint.get(index) || enable_taint);
        }
    }
}

/// Changes the stored taint of the word at `address`, which includes OFFSET: where the port's address is untainted and is
/// that one, each bit whose enable is 1 or tainted takes the taint of its data or of its enable. All else stays.
pub fn write_taint(cell: &Cell, port: &WritePort, address: u64, stored: &mut Bits)
    requires role { role_of cell.now.kind ≡ Role.MemoryBlock }
    requires port { HasPortWidths cell.now port.now }
    requires from_offset { number_of cell.now Param.Offset ≤ address }
    requires inside { address < number_of cell.now Param.Offset + number_of cell.now Param.Size }
    requires stored { length stored.old ≡ width_of cell.now }
    ensures is { stored.new ≡ taint_after_port (width_of cell.now) port.now address stored.old }
    ensures defined { (vs ts : List Word) (p : ℕ) (taint : Word)
        → IsPortOf (shape_of cell.now) vs ts p port.now
        → stored.old ≡ taint_row (shape_of cell.now) vs ts p taint (address - number_of cell.now Param.Offset)
        → stored.new ≡ taint_row (shape_of cell.now) vs ts (p + 1) taint (address - number_of cell.now Param.Offset) }
{
    let width = stored.width();
    prove!(u64::from(width) == cell.number(Param::Width));
    if is_addressed(port, address) {
        write_bits(port, width, stored);
    }
}
