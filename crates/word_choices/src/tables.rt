// Tables of digits.
ghost use Rattle.std.specs.Prelude.{◌≡◌, ◌^◌, ◌<◌, [], ◌∷◌};
ghost use Rattle.cif_defs.specs.Words.{operand, word_of};
ghost use Rattle.cif_defs.specs.Meanings.{lut_word};
ghost use Rattle.word_choices.specs.ReadForms.{table_word};
ghost use Rattle.word_choices.specs.Shadows.{exact_word};

use crate::choice_taints::bmux_taint;
use crate::shadowed::Shadowed;
use crate::shapes::{Blocks, Table};
use word_numbers::{Words, bit, flag};

/// What `$lut` gives: the digit of its table at the number of A.
pub fn lut_value(table: Table, values: Words) -> u128
    requires a_fits { values.a < 2 ^ table.address }
    ensures word { word_of 1 result ≡ lut_word (table_word table) (word_of table.address values.a) }
    ensures fits { result < 2 ^ 1 }
{
    flag(bit(table.digits, values.a as u32))
}

/// A table's digits as blocks of one bit.
fn digit_blocks(table: Table) -> Blocks
    ensures width { result.width ≡ 1 }
    ensures selects { result.selects ≡ table.address }
{
    Blocks {
        width: 1,
        selects: table.address,
    }
}

/// A table's digits, none of which is tainted.
fn untainted(table: Table) -> Shadowed
    ensures { result ≡ record { value = table.digits; taint = 0 } }
{
    Shadowed {
        value: table.digits,
        taint: 0,
    }
}

/// The taint of what `$lut` gives: A chooses among the digits bit by bit, as the select of `$bmux` does.
pub fn lut_taint(table: Table, a: Shadowed) -> u128
    ensures word { word_of 1 result ≡ exact_word 1 (λ us. lut_word (table_word table) (operand us 0))
        (word_of table.address a.value ∷ []) (word_of table.address a.taint ∷ []) }
    ensures fits { result < 2 ^ 1 }
{
    bmux_taint(digit_blocks(table), untainted(table), a)
}
