// What the kinds of cells that choose give: one of several blocks, a block at one of several places, and a row of a
// table.
//
// The meanings are those of the Yosys cell library for operands without x. Words have their lowest bit first, and
// blocks are counted from the lowest. Each function may answer want of memory, and changes nothing then.
ghost use Rattle.std.specs.Prelude.{◌≡◌, ◌*◌, ◌<◌, ◌≤◌, ◌^◌, length, position, IfOk, IfSome};
ghost use Rattle.cif_defs.specs.Meanings.{pmux_word, bmux_word, demux_word};

use cif_bits::{Bits, NoMemory};
use std::alloc::Global;

/// The lowest place of a bit that is 1.
fn first_one(word: &Bits) -> Option<usize>
    ensures value { result ≡ position (λ b. b) word.now }
    ensures limit { IfSome result (λ k. k < 65536) }
{
    word.bits().iter().position(|bit| *bit)
}

/// What `$pmux` gives: the block of B for the lowest bit of S that is 1, or A where none is.
///
/// A has `width` bits, and B one block of as many bits for each bit of S.
pub fn pmux_word(alloc: Global, width: u32, a: &Bits, b: &Bits, s: &Bits) -> Result<Bits, NoMemory>
    requires a_width { length a.now ≡ width }
    requires b_width { length b.now ≡ width * length s.now }
    requires limit { width * length s.now ≤ 65536 }
    ensures { IfOk result (λ w. w ≡ pmux_word width a.now b.now s.now) }
{
    match first_one(s) {
        Some(place) => b.slice(alloc, place as u32 * width, width),
        None => a.copy(alloc),
    }
}

/// What `$bmux` gives: the block of A whose number is S.
///
/// A has one block of `width` bits for each number of S.
pub fn bmux_word(alloc: Global, width: u32, a: &Bits, s: &Bits) -> Result<Bits, NoMemory>
    requires some { 1 ≤ width }
    requires a_width { length a.now ≡ width * 2 ^ length s.now }
    requires limit { width * 2 ^ length s.now ≤ 65536 }
    ensures { IfOk result (λ w. w ≡ bmux_word width a.now s.now) }
{
    let place = s.to_u128() as u32;
    a.slice(alloc, place * width, width)
}

/// What `$demux` gives: A as the block whose number is S, and zeros in all other blocks.
///
/// A has `width` bits, and S has `s_width`. There is one block for each number of S, 65,536 bits at most together.
pub fn demux_word(
    alloc: Global,
    width: u32,
    s_width: u32,
    a: &Bits,
    s: &Bits,
) -> Result<Bits, NoMemory>
    requires some { 1 ≤ width }
    requires a_width { length a.now ≡ width }
    requires s_width { length s.now ≡ s_width }
    requires limit { width * 2 ^ s_width ≤ 65536 }
    ensures { IfOk result (λ w. w ≡ demux_word width s_width a.now s.now) }
{
    let wide = a.extend(alloc, width << s_width, false)?;
    let place = s.to_u128() as u32;
    wide.shl(alloc, place * width)
}
