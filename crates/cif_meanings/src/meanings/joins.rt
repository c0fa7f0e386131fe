// What the kinds of cells that pass bits on give: joined words, a part of a word, and one of two words.
//
// The meanings are those of the Yosys cell library for operands without x. Words have their lowest bit first. Each
// function may answer want of memory, and changes nothing then.
ghost use Rattle.std.specs.Prelude.{◌≡◌, ◌+◌, ◌<◌, ◌≤◌, length, IfOk};
ghost use Rattle.cif_defs.specs.Meanings.{concat_word, slice_word, mux_word};

use cif_bits::{Bits, NoMemory};
use std::alloc::Global;

/// What `$concat` gives: A low, and B above it.
///
/// A has `a_width` bits and B `b_width`, 65,536 at most together.
pub fn concat_word(
    alloc: Global,
    a_width: u32,
    b_width: u32,
    a: &Bits,
    b: &Bits,
) -> Result<Bits, NoMemory>
    requires a_width { length a.now ≡ a_width }
    requires b_width { length b.now ≡ b_width }
    requires limit { a_width + b_width ≤ 65536 }
    ensures { IfOk result (λ w. w ≡ concat_word a_width b_width a.now b.now) }
{
    a.concat(alloc, b)
}

/// What `$slice` gives: the `width` bits of A from place `offset` upward, which lie inside A.
pub fn slice_word(alloc: Global, width: u32, offset: u32, a: &Bits) -> Result<Bits, NoMemory>
    requires { offset + width ≤ length a.now }
    ensures { IfOk result (λ w. w ≡ slice_word width offset a.now) }
{
    a.slice(alloc, offset, width)
}

/// What `$mux` gives: B where S is 1, else A.
///
/// A and B have `width` bits each, and S has one.
pub fn mux_word(alloc: Global, width: u32, a: &Bits, b: &Bits, s: &Bits) -> Result<Bits, NoMemory>
    requires a_width { length a.now ≡ width }
    requires b_width { length b.now ≡ width }
    requires some { 0 < length s.now }
    ensures { IfOk result (λ w. w ≡ mux_word width a.now b.now s.now) }
{
    if s.get(0) {
        b.copy(alloc)
    } else {
        a.copy(alloc)
    }
}
