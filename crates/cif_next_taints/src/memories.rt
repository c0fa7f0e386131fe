// What the new cells of a memory store next: the memory of its taint, and the register of its flag.
ghost use Rattle.std.specs.Prelude.{◌≡◌, ◌+◌, ◌*◌, ◌<◌, ◌++◌, ◌∷◌, [], IfOk, IsSome, get_or, length};
ghost use Rattle.cif_defs.specs.Kinds.{role_of};
ghost use Rattle.cif_defs.specs.Cells.{number_of, width as width_of};
ghost use Rattle.cif_defs.specs.declared.kinds.Role.TheVariants.{MemoryBlock};
ghost use Rattle.cif_kinds.specs.StateCells.{HasMemoryNumbers};
ghost use Rattle.cif_term.specs.Formulas.{IsFormed};
ghost use Rattle.cif_term.specs.TermView.{formula_of};
ghost use Rattle.cif_emit.specs.Emitted.{IsEmitted, IsValue, taint_bits, value_bits, widths};
ghost use Rattle.cif_emit.specs.Handed.{IsKept};
ghost use Rattle.rule_memory.specs.MemoryTermView.{formulas_of};
ghost use Rattle.cif_next_taints.specs.Next.{AreNextMemory, AreWriteOperands, bits_of, bits_written, write_bits};
ghost use Rattle.cif_next_taints.specs.Ports.{AreFormedAt, AreNextAtPort, flag_operand, port_bits_written, port_operands as operands_of_port};

use crate::operands::{followed_by, operand_part};
use cif_bits::NoMemory;
use cif_defs::{Listed, RawBit, RawBits, RawCell};
use cif_emit::{NameMaker, OperandBits, OperandPair, emit};
use cif_kinds::{Cell, Param};
use rule_memory::MemoryTerms;
use std::alloc::Global;

/// The operands with which a memory is written, with their taints, each joined over the write ports, port 0 lowest.
#[derive(Debug, Drop)]
pub struct WriteOperands {
    /// WR_EN, of WIDTH bits at each port.
    pub enables: OperandPair,
    /// WR_ADDR, of ABITS bits at each port.
    pub addresses: OperandPair,
    /// WR_DATA, of WIDTH bits at each port.
    pub words: OperandPair,
}

/// What the new cells of a memory take, joined over the write ports, port 0 lowest.
#[derive(Debug, Drop)]
pub struct MemoryWrites {
    /// The bits that hold WR_EN of the memory of taint, WIDTH bits at each port.
    pub enables: Vec<RawBit>,
    /// The bits that hold its WR_DATA, WIDTH bits at each port.
    pub words: Vec<RawBit>,
    /// The bit that holds the next flag.
    pub flag: RawBit,
}

/// The same of one write port.
#[derive(Drop)]
struct PortWrites {
    enables: RawBits,
    words: RawBits,
    flag: RawBit,
}

/// The enables, the address and the word of a write port.
fn port_operands(
    alloc: Global,
    cell: &Cell,
    writes: &WriteOperands,
    port: usize,
) -> Result<OperandBits, NoMemory>
    requires numbers { HasMemoryNumbers cell.now }
    requires writes { AreWriteOperands cell.now writes.now }
    requires port { port < number_of cell.now Param.WrPorts }
    ensures { IfOk result (λ operands. operands ≡ operands_of_port cell.now writes.now port) }
{
    let width = cell.number(Param::Width) as usize;
    let address_bits = cell.number(Param::Abits) as usize;
    let enables = operand_part(alloc, &writes.enables, width, port)?;
    let address = operand_part(alloc, &writes.addresses, address_bits, port)?;
    let word = operand_part(alloc, &writes.words, width, port)?;
    Ok(Listed::of(vec![in alloc; enables, address, word]?))
}

/// A flag as an operand, whose taint doesn't matter.
fn flag_operand_of(alloc: Global, flag: RawBit) -> Result<OperandPair, NoMemory>
    ensures { IfOk result (λ o. o ≡ flag_operand flag) }
{
    let values = vec![in alloc; flag]?;
    let taints = vec![in alloc; RawBit::Zero]?;
    Ok(OperandPair {
        values: Listed::of(values),
        taints: Listed::of(taints),
    })
}

/// Appends the cells that compute the flag after a write port, and gives the bit that holds it.
fn flag_after(
    alloc: Global,
    terms: &MemoryTerms,
    operands: &[OperandPair],
    flag: RawBit,
    names: &mut NameMaker,
    cells: &mut Vec<RawCell>,
) -> Result<RawBit, NoMemory>
    requires formed { IsFormed (formula_of terms.now.flag) (widths (value_bits operands.now) ++ 1 ∷ []) [] 1 5 }
    requires shape { widths (taint_bits operands.now) ≡ widths (value_bits operands.now) }
    requires begun { IsSome names.old.cell }
    ensures kept { IsKept names.old names.new }
    ensures ok { IfOk result (λ bit. IsEmitted names.old names.new cells.old.items cells.new.items
        (bits_of operands.now ++ flag ∷ []) (IsValue (formula_of terms.now.flag) (operands.now ++ flag_operand flag ∷ []) []) 5 1 (bit ∷ [])) }
{
    let flag = flag_operand_of(alloc, flag)?;
    let operands = followed_by(alloc, operands, flag)?;
    let bits = emit(alloc, &terms.flag, &operands, names, cells)?;
    Ok(bits.items()[0])
}

/// Appends the cells that compute what a write port writes, and the flag after it.
fn next_at_port(
    alloc: Global,
    terms: &MemoryTerms,
    operands: &OperandBits,
    flag: RawBit,
    names: &mut NameMaker,
    cells: &mut Vec<RawCell>,
) -> Result<PortWrites, NoMemory>
    requires formed { AreFormedAt (formulas_of terms.now) (widths (value_bits operands.now)) }
    requires shape { widths (taint_bits operands.now) ≡ widths (value_bits operands.now) }
    requires begun { IsSome names.old.cell }
    ensures kept { IsKept names.old names.new }
    ensures ok { IfOk result (λ w. IsEmitted names.old names.new cells.old.items cells.new.items (bits_of operands.now ++ flag ∷ [])
        (λ v all. AreNextAtPort (formulas_of terms.now) operands.now flag w v) 9 (length (port_bits_written w)) (port_bits_written w)) }
    ensures enables { IfOk result (λ w. length w.enables ≡ get_or (widths (value_bits operands.now)) 0 0) }
    ensures words { IfOk result (λ w. length w.words ≡ get_or (widths (value_bits operands.now)) 0 0) }
{
    let enables = emit(alloc, &terms.enable, operands, names, cells)?;
    let words = emit(alloc, &terms.word, operands, names, cells)?;
    let flag = flag_after(alloc, terms, operands.items(), flag, names, cells)?;
    Ok(PortWrites {
        enables,
        words,
        flag,
    })
}

/// Appends the cells that compute what the new cells of a memory take, and gives the bits that hold it.
///
/// `writes` has the operands with which the memory is written, and `flag` the bit that holds its flag now. `begin` has been
/// called on `names`. At most 9 cells are appended for each write port. Under every assignment of the net numbers that
/// meets these cells, a memory of the cell's shape at its own addresses, which is written with these enables and words,
/// stores the next taint of the cell, whatever it stores now, and the flag is that of the next cycle. What the taint of a
/// memory is is this project's own meaning. The only error is want of memory.
pub fn next_memory(
    alloc: Global,
    cell: &Cell,
    writes: &WriteOperands,
    flag: RawBit,
    names: &mut NameMaker,
    cells: &mut Vec<RawCell>,
) -> Result<MemoryWrites, NoMemory>
    requires role { role_of cell.now.kind ≡ MemoryBlock }
    requires numbers { HasMemoryNumbers cell.now }
    requires writes { AreWriteOperands cell.now writes.now }
    requires begun { IsSome names.old.cell }
    ensures kept { IsKept names.old names.new }
    ensures ok { IfOk result (λ next. IsEmitted names.old names.new cells.old.items cells.new.items (write_bits writes.now ++ flag ∷ [])
        (λ v all. AreNextMemory cell.now writes.now flag next v)
        (9 * number_of cell.now Param.WrPorts) (2 * (number_of cell.now Param.WrPorts * width_of cell.now) + 1) (bits_written next)) }
    ensures enables { IfOk result (λ next. length next.enables.items ≡ number_of cell.now Param.WrPorts * width_of cell.now) }
    ensures words { IfOk result (λ next. length next.words.items ≡ number_of cell.now Param.WrPorts * width_of cell.now) }
{
    let terms = MemoryTerms::of(alloc, cell)?;
    let mut next = MemoryWrites {
        enables: Vec::new(alloc),
        words: Vec::new(alloc),
        flag,
    };
    for port in 0..cell.number(Param::WrPorts) as usize {
        let operands = port_operands(alloc, cell, writes, port)?;
        let written = next_at_port(alloc, &terms, &operands, next.flag, names, cells)?;
        next.enables.extend_from_slice(written.enables.items())?;
        next.words.extend_from_slice(written.words.items())?;
        next.flag = written.flag;
    }
    Ok(next)
}
