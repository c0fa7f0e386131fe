// What the kinds of cells that answer yes or no give: the answer in the lowest bit, and zeros above it.
//
// The meanings are those of the Yosys cell library for operands without x. Operands are taken as they stand, whatever
// their widths and signs. The output has 1 to 65,536 bits. Each function may answer want of memory, and changes nothing
// then.
ghost use Rattle.std.specs.Prelude.{◌≡◌, ◌≤◌, IfOk};
ghost use Rattle.cif_defs.specs.Words.{flag_word};
ghost use Rattle.cif_defs.specs.Meanings.{reduce_and_word, reduce_or_word, reduce_xor_word, reduce_xnor_word, logic_not_word, logic_and_word, logic_or_word};

use cif_bits::{Bits, NoMemory};
use std::alloc::Global;

/// The word of `width` bits whose lowest is the answer, with zeros above it.
pub fn answer_word(alloc: Global, width: u32, answer: bool) -> Result<Bits, NoMemory>
    requires some { 1 ≤ width }
    requires limit { width ≤ 65536 }
    ensures { IfOk result (λ w. w ≡ flag_word width answer) }
{
    let mut word = Bits::zeros(alloc, width)?;
    word.set(0, answer);
    Ok(word)
}

// ---- all bits of one operand

/// What `$reduce_and` gives: whether all bits are 1.
pub fn reduce_and_word(alloc: Global, width: u32, a: &Bits) -> Result<Bits, NoMemory>
    requires some { 1 ≤ width }
    requires limit { width ≤ 65536 }
    ensures { IfOk result (λ w. w ≡ reduce_and_word width a.now) }
{
    answer_word(alloc, width, a.reduce_and())
}

/// What `$reduce_or` and `$reduce_bool` give: whether a bit is 1.
pub fn reduce_or_word(alloc: Global, width: u32, a: &Bits) -> Result<Bits, NoMemory>
    requires some { 1 ≤ width }
    requires limit { width ≤ 65536 }
    ensures { IfOk result (λ w. w ≡ reduce_or_word width a.now) }
{
    answer_word(alloc, width, a.reduce_or())
}

/// What `$reduce_xor` gives: whether an odd number of bits is 1.
pub fn reduce_xor_word(alloc: Global, width: u32, a: &Bits) -> Result<Bits, NoMemory>
    requires some { 1 ≤ width }
    requires limit { width ≤ 65536 }
    ensures { IfOk result (λ w. w ≡ reduce_xor_word width a.now) }
{
    answer_word(alloc, width, a.reduce_xor())
}

/// What `$reduce_xnor` gives: whether an even number of bits is 1.
pub fn reduce_xnor_word(alloc: Global, width: u32, a: &Bits) -> Result<Bits, NoMemory>
    requires some { 1 ≤ width }
    requires limit { width ≤ 65536 }
    ensures { IfOk result (λ w. w ≡ reduce_xnor_word width a.now) }
{
    answer_word(alloc, width, !a.reduce_xor())
}

// ---- operands as truth values, of which only a word of zeros is false

/// What `$logic_not` gives: whether no bit is 1.
pub fn logic_not_word(alloc: Global, width: u32, a: &Bits) -> Result<Bits, NoMemory>
    requires some { 1 ≤ width }
    requires limit { width ≤ 65536 }
    ensures { IfOk result (λ w. w ≡ logic_not_word width a.now) }
{
    answer_word(alloc, width, !a.reduce_or())
}

/// What `$logic_and` gives: whether each operand has a bit that is 1.
pub fn logic_and_word(alloc: Global, width: u32, a: &Bits, b: &Bits) -> Result<Bits, NoMemory>
    requires some { 1 ≤ width }
    requires limit { width ≤ 65536 }
    ensures { IfOk result (λ w. w ≡ logic_and_word width a.now b.now) }
{
    answer_word(alloc, width, a.reduce_or() & b.reduce_or())
}

/// What `$logic_or` gives: whether an operand has a bit that is 1.
pub fn logic_or_word(alloc: Global, width: u32, a: &Bits, b: &Bits) -> Result<Bits, NoMemory>
    requires some { 1 ≤ width }
    requires limit { width ≤ 65536 }
    ensures { IfOk result (λ w. w ≡ logic_or_word width a.now b.now) }
{
    answer_word(alloc, width, a.reduce_or() | b.reduce_or())
}
