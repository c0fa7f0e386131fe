// Combinational cells: what they give, and the taint of it.
ghost use Rattle.std.specs.Prelude.{◌≡◌, ◌<◌, ℕ, List, false, length, map, IfOk, IsOk};
ghost use Rattle.std.specs.List.{list_any};
ghost use Rattle.cif_defs.specs.Words.{Word, bit, operand};
ghost use Rattle.cif_defs.specs.Fitted.{operand_widths};
ghost use Rattle.cif_defs.specs.Netlist.{cell_at, role_at};
ghost use Rattle.cif_defs.specs.Stimulus.{is_released};
ghost use Rattle.cif_defs.specs.TaintRun.{TaintState, operand_taints, src_taint};
ghost use Rattle.cif_readers.specs.Reads.{Notes};
ghost use Rattle.cif_seq.specs.Cases.{net_of};
ghost use Rattle.cif_words.specs.Forms.{StandsFor};
ghost use Rattle.cif_term.specs.CellTaints.{taint_words as word_taints};
ghost use Rattle.cif_shown.specs.Evaluates.{EvaluatesValues, EvaluatesTaints};

use crate::case::Case;
use cif_bits::{Bits, NoMemory};
use cif_cells::{Cell, Role, Src, meaning};
use cif_cycle::{bit_of, taint_words, value_words};
use cif_ports::{operand_taints, operand_values};
use cif_words::WordForm;
use cif_writes::{write_numbers, write_words};
use std::alloc::Global;

/// Whether one of some bits that are read is tainted, where `taints` are those of the net bits.
fn has_taint(taints: &[bool], sources: &[Src]) -> bool
    ensures { result ≡ list_any (src_taint (bit taints.now)) sources.now }
{
    sources.iter().any(|source| match *source {
        Src::Bit(net) => bit_of(taints, net as usize),
        Src::Zero | Src::One => false,
    })
}

/// Whether a cell reads a tainted bit, where `taints` are those of the net bits.
fn reads_taint(taints: &[bool], cell: &Cell) -> bool
    ensures { result ≡ list_any (list_any (src_taint (bit taints.now))) cell.now.operands }
{
    cell.operands()
        .iter()
        .any(|sources| has_taint(taints, sources.items()))
}

/// The taints of the words that a combinational cell gives, where `operands` are its operand words and `taints` are those
/// of the net bits; no words where no bit that it reads is tainted.
fn output_taints(
    alloc: Global,
    case: &Case,
    number: u32,
    operands: &[Bits],
    taints: &[bool],
) -> Result<Vec<Bits>, NoMemory>
    requires inside { number < length (net_of case.now).cells }
    requires role { role_at (net_of case.now) number ≡ Role.Combinational }
    requires operands { map length operands.now ≡ operand_widths (cell_at (net_of case.now) number) }
    ensures { IfOk result (λ ws. (p i : ℕ) → bit (operand ws.items p) i ≡ bit (operand (word_taints
        (cell_at (net_of case.now) number) operands.now
        (operand_taints (bit taints.now) (cell_at (net_of case.now) number))) p) i) }
{
    let cell = case.cell(number);
    if !reads_taint(taints, cell) {
        return Ok(Vec::new(alloc));
    }
    let operand_taints = taint_words(alloc, taints, cell)?;
    let rule = case.rule(number);
    rule.taint_of(alloc, cell, operands, &operand_taints)
}

/// Evaluates a narrow combinational cell by its word formulas: writes its output words to `values` and their taints to
/// `taints`. It takes no memory.
fn evaluate_narrow(
    case: &Case,
    number: u32,
    form: WordForm,
    values: &mut [bool],
    taints: &mut [bool],
    marks: &mut [bool],
)
    requires form { StandsFor form (cell_at (net_of case.now) number) }
    requires inside { number < length (net_of case.now).cells }
    requires role { role_at (net_of case.now) number ≡ Role.Combinational }
    requires as_many_values { length values.old ≡ length (net_of case.now).drivers }
    requires as_many_taints { length taints.old ≡ length (net_of case.now).drivers }
    requires as_many_marks { length marks.old ≡ length (net_of case.now).cells }
    ensures values { (stored : List Word)
        → EvaluatesValues (net_of case.now) stored number values.old values.new }
    ensures taints { (stored : List Word) (t : TaintState)
        → EvaluatesTaints (net_of case.now) stored values.old t
        (is_released case.now.stimulus.lines) number taints.old taints.new }
    ensures notes { Notes (net_of case.now) values.old taints.old values.new taints.new marks.old marks.new }
    ensures values_length { length values.new ≡ length values.old }
    ensures taints_length { length taints.new ≡ length taints.old }
    ensures marks_length { length marks.new ≡ length marks.old }
{
    let cell = case.cell(number);
    let operands = operand_values(values, cell);
    let tainted = operand_taints(taints, cell);
    let words = form.value_words(cell, &operands);
    let word_taints = form.taint_words(cell, &operands, &tainted);
    let readers = case.readers();
    let released = case.released();
    write_numbers(
        readers,
        released,
        cell.outputs(),
        &words,
        &word_taints,
        values,
        taints,
        marks,
    );
}

/// Evaluates a combinational cell by its meaning and its terms: writes its output words to `values` and their taints to
/// `taints`.
fn evaluate_wide(
    alloc: Global,
    case: &Case,
    number: u32,
    values: &mut [bool],
    taints: &mut [bool],
    marks: &mut [bool],
) -> Result<(), NoMemory>
    requires inside { number < length (net_of case.now).cells }
    requires role { role_at (net_of case.now) number ≡ Role.Combinational }
    requires as_many_values { length values.old ≡ length (net_of case.now).drivers }
    requires as_many_taints { length taints.old ≡ length (net_of case.now).drivers }
    requires as_many_marks { length marks.old ≡ length (net_of case.now).cells }
    ensures values { IsOk result → (stored : List Word)
        → EvaluatesValues (net_of case.now) stored number values.old values.new }
    ensures taints { IsOk result → (stored : List Word) (t : TaintState)
        → EvaluatesTaints (net_of case.now) stored values.old t
        (is_released case.now.stimulus.lines) number taints.old taints.new }
    ensures notes { IsOk result → Notes (net_of case.now) values.old taints.old values.new taints.new marks.old marks.new }
    ensures values_length { length values.new ≡ length values.old }
    ensures taints_length { length taints.new ≡ length taints.old }
    ensures marks_length { length marks.new ≡ length marks.old }
{
    let cell = case.cell(number);
    let operand_values = value_words(alloc, values, cell)?;
    let words = meaning(alloc, cell, &operand_values)?;
    let word_taints = output_taints(alloc, case, number, &operand_values, taints)?;
    let readers = case.readers();
    let released = case.released();
    write_words(
        readers,
        released,
        cell.outputs(),
        &words,
        &word_taints,
        values,
        taints,
        marks,
    );
    Ok(())
}

/// Evaluates a combinational cell: writes its output words to `values` and their taints to `taints`.
pub fn evaluate_combinational(
    alloc: Global,
    case: &Case,
    number: u32,
    values: &mut [bool],
    taints: &mut [bool],
    marks: &mut [bool],
) -> Result<(), NoMemory>
    requires inside { number < length (net_of case.now).cells }
    requires role { role_at (net_of case.now) number ≡ Role.Combinational }
    requires as_many_values { length values.old ≡ length (net_of case.now).drivers }
    requires as_many_taints { length taints.old ≡ length (net_of case.now).drivers }
    requires as_many_marks { length marks.old ≡ length (net_of case.now).cells }
    ensures values { IsOk result → (stored : List Word)
        → EvaluatesValues (net_of case.now) stored number values.old values.new }
    ensures taints { IsOk result → (stored : List Word) (t : TaintState)
        → EvaluatesTaints (net_of case.now) stored values.old t
        (is_released case.now.stimulus.lines) number taints.old taints.new }
    ensures notes { IsOk result → Notes (net_of case.now) values.old taints.old values.new taints.new marks.old marks.new }
    ensures values_length { length values.new ≡ length values.old }
    ensures taints_length { length taints.new ≡ length taints.old }
    ensures marks_length { length marks.new ≡ length marks.old }
{
    match case.form(number) {
        Some(form) => {
            evaluate_narrow(case, number, form, values, taints, marks);
            Ok(())
        }
        None => evaluate_wide(alloc, case, number, values, taints, marks),
    }
}
