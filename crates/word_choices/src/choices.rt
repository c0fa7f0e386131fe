// The values of choices.
ghost use Rattle.std.specs.Prelude.{◌≡◌, ◌^◌, ◌<◌, ◌≤◌, ◌*◌};
ghost use Rattle.cif_defs.specs.Words.{word_of};
ghost use Rattle.cif_defs.specs.Meanings.{bmux_word, demux_word, mux_word, pmux_word};

use crate::shadowed::picked;
use crate::shapes::{Blocks, Chain};
use word_numbers::{Words, bit, raised, slice};

/// What `$mux` gives: A, or where S is 1 B.
pub fn mux_value(width: u32, values: Words) -> u128
    requires some { 1 ≤ width }
    requires a_fits { values.a < 2 ^ width }
    requires b_fits { values.b < 2 ^ width }
    ensures word { word_of width result
        ≡ mux_word width (word_of width values.a) (word_of width values.b) (word_of 1 values.c) }
    ensures fits { result < 2 ^ width }
{
    picked(bit(values.c, 0), values.a, values.b)
}

/// What `$bmux` gives: the block of A at the number of S.
pub fn bmux_value(blocks: Blocks, values: Words) -> u128
    requires a_fits { values.a < 2 ^ (blocks.width * 2 ^ blocks.selects) }
    requires s_fits { values.b < 2 ^ blocks.selects }
    ensures word { word_of blocks.width result
        ≡ bmux_word blocks.width (word_of (blocks.width * 2 ^ blocks.selects) values.a) (word_of blocks.selects values.b) }
    ensures fits { result < 2 ^ blocks.width }
{
    slice(blocks.width, values.b as u32 * blocks.width, values.a)
}

/// How many bits all blocks have.
pub fn all_bits(blocks: Blocks) -> u32
    ensures value { result ≡ blocks.width * 2 ^ blocks.selects }
    ensures some { 1 ≤ result }
    ensures limit { result ≤ 128 }
{
    blocks.width * (1u32 << blocks.selects)
}

/// What `$demux` gives: A as the block at the number of S, and zeros elsewhere.
pub fn demux_value(blocks: Blocks, values: Words) -> u128
    requires a_fits { values.a < 2 ^ blocks.width }
    requires s_fits { values.b < 2 ^ blocks.selects }
    ensures word { word_of (blocks.width * 2 ^ blocks.selects) result
        ≡ demux_word blocks.width blocks.selects (word_of blocks.width values.a) (word_of blocks.selects values.b) }
    ensures fits { result < 2 ^ (blocks.width * 2 ^ blocks.selects) }
{
    raised(all_bits(blocks), values.b * blocks.width as u128, values.a)
}

/// The block of B for the lowest bit of S that is 1.
fn first_block(chain: Chain, values: Words) -> u128
    requires b_fits { values.b < 2 ^ (chain.width * chain.selects) }
    requires s_fits { values.c < 2 ^ chain.selects }
    requires some { 0 < values.c }
    ensures word { word_of chain.width result
        ≡ pmux_word chain.width (word_of chain.width values.a) (word_of (chain.width * chain.selects) values.b) (word_of chain.selects values.c) }
    ensures fits { result < 2 ^ chain.width }
{
    slice(
        chain.width,
        values.c.trailing_zeros() * chain.width,
        values.b,
    )
}

/// What `$pmux` gives: the block of B for the lowest bit of S that is 1, else A.
pub fn pmux_value(chain: Chain, values: Words) -> u128
    requires a_fits { values.a < 2 ^ chain.width }
    requires b_fits { values.b < 2 ^ (chain.width * chain.selects) }
    requires s_fits { values.c < 2 ^ chain.selects }
    ensures word { word_of chain.width result
        ≡ pmux_word chain.width (word_of chain.width values.a) (word_of (chain.width * chain.selects) values.b) (word_of chain.selects values.c) }
    ensures fits { result < 2 ^ chain.width }
{
    if values.c == 0 {
        values.a
    } else {
        first_block(chain, values)
    }
}
