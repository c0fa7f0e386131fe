// What registers store next, and what they show.
//
// The meanings are those of the Yosys cell library for values without x. A register stores WIDTH bits, 1 to 4,096. Each
// function that makes a word may answer want of memory, and changes nothing then.
ghost use Rattle.std.specs.Prelude.{◌≡◌, ◌≤◌, ◌==◌, true, map, length, IfOk};
ghost use Rattle.cif_defs.specs.Words.{bit, operand};
ghost use Rattle.cif_defs.specs.Kinds.{role_of};
ghost use Rattle.cif_defs.specs.Cells.{number_of, digits_of, width as width_of, is_active_operand, next_word, shown_word};
ghost use Rattle.cif_defs.specs.Registers.{is_active, dff_next, dffe_next, sdff_next, sdffe_next, sdffce_next};
ghost use Rattle.cif_defs.specs.Fitted.{IsFitted, operand_widths};
ghost use Rattle.cif_defs.specs.declared.kinds.Role.TheVariants.{ResetRegister};
ghost use Rattle.cif_defs.specs.Kinds.{is_register};

use cif_bits::{Bits, NoMemory};
use cif_defs::{Kind, Param};
use cif_kinds::Cell;
use cif_meanings::operand;
use std::alloc::Global;

// ---- controls and values

/// Whether a control is active, which it is where its bit equals its polarity, so never where that is neither 0 nor 1.
fn is_active(cell: &Cell, polarity: Param, bit: bool) -> bool
    ensures { result ≡ is_active (number_of cell.now polarity) bit }
{
    u64::from(bit) == cell.number(polarity)
}

/// Whether the control at an operand of one bit is active.
fn is_active_operand(cell: &Cell, polarity: Param, operands: &[Bits], port: usize) -> bool
    requires { length (operand operands.now port) ≡ 1 }
    ensures { result ≡ is_active_operand cell.now polarity operands.now port }
{
    let control = operand(operands, port);
    is_active(cell, polarity, control.get(0))
}

/// How many bits a register stores.
fn register_width(cell: &Cell) -> u32
    requires { width_of cell.now ≤ 4096 }
    ensures { result ≡ width_of cell.now }
{
    cell.number(Param::Width) as u32
}

/// The reset value of a register, which `value` names; bits that it lacks are 0.
fn reset_word(alloc: Global, cell: &Cell, value: Param) -> Result<Bits, NoMemory>
    requires { width_of cell.now ≤ 4096 }
    ensures { IfOk result (λ w. w ≡ dff_next (width_of cell.now) (digits_of cell.now value)) }
{
    let width = register_width(cell);
    let mut bits = Vec::with_capacity(alloc, width as usize)?;
    for i in 0..width {
        bits.push(cell.digit(value, i))?;
    }
    Ok(Bits::of(bits))
}

// ---- kinds of registers

/// What `$dff` stores next: the word at D.
pub fn dff_next(alloc: Global, cell: &Cell, d: &Bits) -> Result<Bits, NoMemory>
    requires limit { width_of cell.now ≤ 4096 }
    requires d { 1 ≤ length d.now }
    ensures { IfOk result (λ w. w ≡ dff_next (width_of cell.now) d.now) }
{
    d.extend(alloc, register_width(cell), false)
}

/// What `$dffe` stores next: the word at D where it is enabled, else the word that it stores.
pub fn dffe_next(
    alloc: Global,
    cell: &Cell,
    enabled: bool,
    d: &Bits,
    stored: &Bits,
) -> Result<Bits, NoMemory>
    requires limit { width_of cell.now ≤ 4096 }
    requires d { 1 ≤ length d.now }
    requires stored { 1 ≤ length stored.now }
    ensures { IfOk result (λ w. w ≡ dffe_next (width_of cell.now) enabled d.now stored.now) }
{
    if enabled {
        dff_next(alloc, cell, d)
    } else {
        dff_next(alloc, cell, stored)
    }
}

/// What `$sdff` and `$adff` store next: the reset value that `value` names where the reset is active, else the word at
/// D.
pub fn sdff_next(
    alloc: Global,
    cell: &Cell,
    value: Param,
    reset: bool,
    d: &Bits,
) -> Result<Bits, NoMemory>
    requires limit { width_of cell.now ≤ 4096 }
    requires d { 1 ≤ length d.now }
    ensures { IfOk result
        (λ w. w ≡ sdff_next (width_of cell.now) reset (digits_of cell.now value) d.now) }
{
    if reset {
        reset_word(alloc, cell, value)
    } else {
        dff_next(alloc, cell, d)
    }
}

/// What `$sdffe` and `$adffe` store next: the reset value that `value` names where the reset is active, else what
/// `$dffe` stores.
pub fn sdffe_next(
    alloc: Global,
    cell: &Cell,
    value: Param,
    enabled: bool,
    reset: bool,
    d: &Bits,
    stored: &Bits,
) -> Result<Bits, NoMemory>
    requires limit { width_of cell.now ≤ 4096 }
    requires d { 1 ≤ length d.now }
    requires stored { 1 ≤ length stored.now }
    ensures { IfOk result (λ w.
        w ≡ sdffe_next (width_of cell.now) enabled reset (digits_of cell.now value) d.now stored.now) }
{
    if reset {
        reset_word(alloc, cell, value)
    } else {
        dffe_next(alloc, cell, enabled, d, stored)
    }
}

/// What `$sdffce` stores next: where it is enabled what `$sdff` stores, else the word that it stores.
pub fn sdffce_next(
    alloc: Global,
    cell: &Cell,
    value: Param,
    enabled: bool,
    reset: bool,
    d: &Bits,
    stored: &Bits,
) -> Result<Bits, NoMemory>
    requires limit { width_of cell.now ≤ 4096 }
    requires d { 1 ≤ length d.now }
    requires stored { 1 ≤ length stored.now }
    ensures { IfOk result (λ w.
        w ≡ sdffce_next (width_of cell.now) enabled reset (digits_of cell.now value) d.now stored.now) }
{
    if enabled {
        sdff_next(alloc, cell, value, reset, d)
    } else {
        dff_next(alloc, cell, stored)
    }
}

// ---- cells

/// The word that a register stores next, where `d` is the word at D.
fn next_by_kind(
    alloc: Global,
    cell: &Cell,
    operands: &[Bits],
    d: &Bits,
    stored: &Bits,
) -> Result<Bits, NoMemory>
    requires role { is_register (role_of cell.now.kind) ≡ true }
    requires fitted { IsFitted cell.now }
    requires operands { map length operands.now ≡ operand_widths cell.now }
    requires limit { width_of cell.now ≤ 4096 }
    requires at_d { d.now ≡ operand operands.now 0 }
    requires d { 1 ≤ length d.now }
    requires stored { 1 ≤ length stored.now }
    ensures { IfOk result (λ w. w ≡ next_word cell.now operands.now stored.now) }
{
    match cell.kind() {
        Kind::Dff => dff_next(alloc, cell, d),
        Kind::Dffe => {
            let enabled = is_active_operand(cell, Param::EnPolarity, operands, 1);
            dffe_next(alloc, cell, enabled, d, stored)
        }
        Kind::Sdff => {
            let reset = is_active_operand(cell, Param::SrstPolarity, operands, 1);
            sdff_next(alloc, cell, Param::SrstValue, reset, d)
        }
        Kind::Adff => {
            let reset = is_active_operand(cell, Param::ArstPolarity, operands, 1);
            sdff_next(alloc, cell, Param::ArstValue, reset, d)
        }
        Kind::Sdffe => {
            let enabled = is_active_operand(cell, Param::EnPolarity, operands, 1);
            let reset = is_active_operand(cell, Param::SrstPolarity, operands, 2);
            sdffe_next(alloc, cell, Param::SrstValue, enabled, reset, d, stored)
        }
        Kind::Adffe => {
            let enabled = is_active_operand(cell, Param::EnPolarity, operands, 1);
            let reset = is_active_operand(cell, Param::ArstPolarity, operands, 2);
            sdffe_next(alloc, cell, Param::ArstValue, enabled, reset, d, stored)
        }
        Kind::Sdffce => {
            let enabled = is_active_operand(cell, Param::EnPolarity, operands, 1);
            let reset = is_active_operand(cell, Param::SrstPolarity, operands, 2);
            sdffce_next(alloc, cell, Param::SrstValue, enabled, reset, d, stored)
        }
        _ => unreachable!(),
    }
}

/// The word that a register stores next, from the words of its operands and the word that it stores.
///
/// The operands have the widths that the cell says, and the stored word has WIDTH bits, as has the answer.
pub fn register_next(
    alloc: Global,
    cell: &Cell,
    operands: &[Bits],
    stored: &Bits,
) -> Result<Bits, NoMemory>
    requires role { is_register (role_of cell.now.kind) ≡ true }
    requires fitted { IsFitted cell.now }
    requires operands { map length operands.now ≡ operand_widths cell.now }
    requires stored { length stored.now ≡ width_of cell.now }
    ensures { IfOk result (λ w. w ≡ next_word cell.now operands.now stored.now) }
{
    let d = operand(operands, 0);
    next_by_kind(alloc, cell, operands, d, stored)
}

/// The word that a register with asynchronous reset shows, where `reset` is the bit at its reset: its reset value while
/// the reset is active, else the word that it stores.
///
/// The stored word has WIDTH bits, as has the answer.
pub fn register_show(
    alloc: Global,
    cell: &Cell,
    reset: bool,
    stored: &Bits,
) -> Result<Bits, NoMemory>
    requires role { role_of cell.now.kind ≡ ResetRegister }
    requires fitted { IsFitted cell.now }
    requires stored { length stored.now ≡ width_of cell.now }
    ensures { IfOk result (λ w. w ≡ shown_word cell.now reset stored.now) }
{
    let active = is_active(cell, Param::ArstPolarity, reset);
    sdff_next(alloc, cell, Param::ArstValue, active, stored)
}
