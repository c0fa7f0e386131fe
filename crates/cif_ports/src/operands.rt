// The words of a cell's operands.
ghost use Rattle.std.specs.Prelude.{◌≡◌, ◌<◌, ◌≤◌, ◌^◌, [], get_or, length};
ghost use Rattle.cif_defs.specs.Words.{bit, word_of};
ghost use Rattle.cif_defs.specs.Fitted.{operand_widths};
ghost use Rattle.cif_defs.specs.Run.{operand_words, src_word};
ghost use Rattle.cif_defs.specs.TaintRun.{operand_taints as taints_of_operands, taint_word};
ghost use Rattle.word_numbers.specs.HeldWords.{AreNarrow, words_held};
ghost use Rattle.word_numbers.specs.NarrowCells.{AreWithin128};

use crate::gather::{port_taint, port_value};
use cif_kinds::{Cell, Src};
use word_numbers::Words;

/// The bits that an operand of a cell reads, lowest first; none where there is no such operand.
fn sources_of(cell: &Cell, port: usize) -> &[Src]
    ensures { result.now ≡ get_or cell.now.operands port [] }
{
    match cell.operands().get(port) {
        Some(sources) => sources.items(),
        None => &[],
    }
}

/// The value at an operand; 0 where there is no such operand.
fn operand_value(values: &[bool], cell: &Cell, port: usize) -> u128
    requires { AreWithin128 (operand_widths cell.now) }
    ensures word { word_of (length (get_or cell.now.operands port [])) result
        ≡ src_word (bit values.now) (get_or cell.now.operands port []) }
    ensures fits { result < 2 ^ length (get_or cell.now.operands port []) }
{
    port_value(values, sources_of(cell, port))
}

/// The taint at an operand; 0 where there is no such operand.
fn operand_taint(taints: &[bool], cell: &Cell, port: usize) -> u128
    requires { AreWithin128 (operand_widths cell.now) }
    ensures word { word_of (length (get_or cell.now.operands port [])) result
        ≡ taint_word (bit taints.now) (get_or cell.now.operands port []) }
    ensures fits { result < 2 ^ length (get_or cell.now.operands port []) }
{
    port_taint(taints, sources_of(cell, port))
}

/// The operand words of a cell with at most four operands of at most 128 bits, where `values` are those of the net bits.
pub fn operand_values(values: &[bool], cell: &Cell) -> Words
    requires narrow { AreWithin128 (operand_widths cell.now) }
    requires few { length cell.now.operands ≤ 4 }
    ensures held { words_held (operand_widths cell.now) result ≡ operand_words (bit values.now) cell.now }
    ensures fits { AreNarrow (operand_widths cell.now) result }
{
    Words {
        a: operand_value(values, cell, 0),
        b: operand_value(values, cell, 1),
        c: operand_value(values, cell, 2),
        d: operand_value(values, cell, 3),
    }
}

/// The taints of a cell's operand words, where `taints` are those of the net bits.
pub fn operand_taints(taints: &[bool], cell: &Cell) -> Words
    requires narrow { AreWithin128 (operand_widths cell.now) }
    requires few { length cell.now.operands ≤ 4 }
    ensures held { words_held (operand_widths cell.now) result ≡ taints_of_operands (bit taints.now) cell.now }
    ensures fits { AreNarrow (operand_widths cell.now) result }
{
    Words {
        a: operand_taint(taints, cell, 0),
        b: operand_taint(taints, cell, 1),
        c: operand_taint(taints, cell, 2),
        d: operand_taint(taints, cell, 3),
    }
}
