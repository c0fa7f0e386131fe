// The taints of choices.
ghost use Rattle.std.specs.Prelude.{◌≡◌, ◌^◌, ◌<◌, ◌≤◌, ◌*◌, ◌+◌};
ghost use Rattle.cif_defs.specs.Words.{operand, word_of};
ghost use Rattle.cif_defs.specs.Meanings.{bmux_word, demux_word, mux_word, pmux_word, slice_word};
ghost use Rattle.word_choices.specs.Shadows.{IsWithin, exact_word, three_taints, three_values, two_taints, two_values};

use crate::shadowed::{Shadowed, chosen_at, cut, moved_up};
use crate::shapes::{Blocks, Chain};

/// The taint of what `$mux` gives.
pub fn mux_taint(width: u32, a: Shadowed, b: Shadowed, s: Shadowed) -> u128
    requires a_within { IsWithin width a }
    requires b_within { IsWithin width b }
    ensures word { word_of width result
        ≡ exact_word width (λ us. mux_word width (operand us 0) (operand us 1) (operand us 2))
        (three_values width width 1 a b s) (three_taints width width 1 a b s) }
    ensures fits { result < 2 ^ width }
{
    chosen_at(a, b, s, 0).taint
}

/// The block of a word for a select bit.
fn block(chain: Chain, place: u32, word: Shadowed) -> Shadowed
    requires place { place < chain.selects }
    requires within { IsWithin (chain.width * chain.selects) word }
    ensures value { word_of chain.width result.value
        ≡ slice_word chain.width (place * chain.width) (word_of (chain.width * chain.selects) word.value) }
    ensures taint { word_of chain.width result.taint
        ≡ slice_word chain.width (place * chain.width) (word_of (chain.width * chain.selects) word.taint) }
    ensures within { IsWithin chain.width result }
    ensures few { place < 128 }
{
    cut(chain.width, place * chain.width, word)
}

/// The taint of what `$pmux` gives.
pub fn pmux_taint(chain: Chain, a: Shadowed, b: Shadowed, s: Shadowed) -> u128
    requires a_within { IsWithin chain.width a }
    requires b_within { IsWithin (chain.width * chain.selects) b }
    ensures word { word_of chain.width result
        ≡ exact_word chain.width (λ us. pmux_word chain.width (operand us 0) (operand us 1) (operand us 2))
        (three_values chain.width (chain.width * chain.selects) chain.selects a b s)
        (three_taints chain.width (chain.width * chain.selects) chain.selects a b s) }
    ensures fits { result < 2 ^ chain.width }
{
    let mut word = a;
    for done in 0..chain.selects {
        let place = chain.selects - 1 - done;
        let block = block(chain, place, b);
        word = chosen_at(word, block, s, place);
    }
    word.taint
}

/// 2 to the power of a number of select bits.
pub(crate) fn power(place: u32) -> u32
    requires { place ≤ 16 }
    ensures { result ≡ 2 ^ place }
{
    1u32 << place
}

/// How many bits the part of a word has that a select bit chooses.
fn half_bits(blocks: Blocks, place: u32) -> u32
    requires { place < blocks.selects }
    ensures value { result ≡ blocks.width * 2 ^ place }
    ensures some { 1 ≤ result }
    ensures room { result + result ≤ 128 }
    ensures few { place < 128 }
{
    blocks.width * power(place)
}

/// The taint of what `$bmux` gives.
pub fn bmux_taint(blocks: Blocks, a: Shadowed, s: Shadowed) -> u128
    requires a_within { IsWithin (blocks.width * 2 ^ blocks.selects) a }
    ensures word { word_of blocks.width result
        ≡ exact_word blocks.width (λ us. bmux_word blocks.width (operand us 0) (operand us 1))
        (two_values (blocks.width * 2 ^ blocks.selects) blocks.selects a s)
        (two_taints (blocks.width * 2 ^ blocks.selects) blocks.selects a s) }
    ensures fits { result < 2 ^ blocks.width }
{
    let mut word = a;
    for done in 0..blocks.selects {
        let place = blocks.selects - 1 - done;
        let half = half_bits(blocks, place);
        let zero = cut(half, 0, word);
        let one = cut(half, half, word);
        word = chosen_at(zero, one, s, place);
    }
    word.taint
}

/// The taint of what `$demux` gives.
pub fn demux_taint(blocks: Blocks, a: Shadowed, s: Shadowed) -> u128
    requires a_within { IsWithin blocks.width a }
    ensures word { word_of (blocks.width * 2 ^ blocks.selects) result
        ≡ exact_word (blocks.width * 2 ^ blocks.selects) (λ us. demux_word blocks.width blocks.selects (operand us 0) (operand us 1))
        (two_values blocks.width blocks.selects a s) (two_taints blocks.width blocks.selects a s) }
    ensures fits { result < 2 ^ (blocks.width * 2 ^ blocks.selects) }
{
    let mut word = a;
    for place in 0..blocks.selects {
        let half = half_bits(blocks, place);
        let upper = moved_up(half + half, half as u128, word);
        word = chosen_at(word, upper, s, place);
    }
    word.taint
}
