// Registers: what those with asynchronous reset show, and what each stores next. No words are gathered: each bit is read
// where it stands.
ghost use Rattle.std.specs.Prelude.{◌≡◌, ◌<◌, true, length, IfOk};
ghost use Rattle.cif_defs.specs.Words.{bit, operand};
ghost use Rattle.cif_defs.specs.Kinds.{is_register, role_of};
ghost use Rattle.cif_defs.specs.Cells.{next_word, reset_operand, shown_word, width as width_of};
ghost use Rattle.cif_defs.specs.declared.kinds.Role.TheVariants.{ResetRegister};
ghost use Rattle.cif_defs.specs.Fitted.{IsFitted};
ghost use Rattle.cif_defs.specs.Run.{operand_words};
ghost use Rattle.cif_defs.specs.Taint.{next_register_taint, shown_taint};
ghost use Rattle.cif_defs.specs.TaintRun.{operand_taints};
ghost use Rattle.cif_register_bits.specs.Choices.{bit_with};
ghost use Rattle.cif_cycle.specs.ShownBits.{shown_at, shown_taints, shown_values};

use crate::stored::{CellState, StateRef, StateWord};
use crate::tainted::Tainted;
use cif_bits::NoMemory;
use cif_kinds::{Cell, Param};
use cif_register_bits::{Controls, TaintedBit, operand_bit};
use std::alloc::{AllocError, Global};

/// A bit that a register stores, and its taint.
fn stored_bit(stored: StateRef, index: u32) -> TaintedBit
    ensures { result ≡ bit_with stored.entry.value.now stored.entry.taint.now index }
{
    TaintedBit {
        value: stored.value.bit(u64::from(index)),
        taint: stored.taint.bit(u64::from(index)),
    }
}

// ---- what it shows

/// What a register with asynchronous reset shows in a cycle: its reset value while its reset is active, else the word
/// that it stores. It is worked out bit by bit.
#[derive(Clone, Copy)]
pub struct ShownBits<'a> {
    /// The register.
    pub cell: &'a Cell,
    /// Its controls.
    pub controls: Controls,
    /// What it stores.
    pub stored: StateRef<'a>,
}

impl<'a> ShownBits<'a> {
    /// What a register shows that stores `stored`, where `values` and `taints` are those of the net bits.
    pub fn of(
        cell: &'a Cell,
        values: &[bool],
        taints: &[bool],
        stored: StateRef<'a>,
    ) -> ShownBits<'a>
        requires role { role_of cell.now.kind ≡ ResetRegister }
        requires fitted { IsFitted cell.now }
        requires value { length stored.value.now ≡ width_of cell.now }
        requires taint { length stored.taint.now ≡ width_of cell.now }
        ensures value { shown_values result (width_of cell.now) ≡ shown_word cell.now
            (bit (operand (operand_words (bit values.now) cell.now) (reset_operand cell.now.kind)) 0)
            stored.entry.value.now }
        ensures taint { shown_taints result (width_of cell.now) ≡ shown_taint cell.now
            (operand (operand_words (bit values.now) cell.now) (reset_operand cell.now.kind))
            (operand (operand_taints (bit taints.now) cell.now) (reset_operand cell.now.kind))
            stored.entry.value.now stored.entry.taint.now }
    {
        ShownBits {
            cell,
            controls: Controls::of(cell, values, taints),
            stored,
        }
    }

    /// Bit `index` of what is shown, and its exact taint.
    pub fn bit(&self, index: u32) -> TaintedBit
        ensures { result ≡ shown_at self.now index }
    {
        let stored = stored_bit(self.stored, index);
        self.controls.shown_bit(self.cell, index, stored)
    }
}

// ---- what it stores next

/// The bits that a register stores next, and their taints.
fn next_bits(
    alloc: Global,
    cell: &Cell,
    values: &[bool],
    taints: &[bool],
    prior: StateRef,
) -> Result<Tainted<Vec<bool>>, AllocError>
    requires role { is_register (role_of cell.now.kind) ≡ true }
    requires fitted { IsFitted cell.now }
    requires value { length prior.value.now ≡ width_of cell.now }
    requires taint { length prior.taint.now ≡ width_of cell.now }
    ensures value { IfOk result (λ w. w.value.items
        ≡ next_word cell.now (operand_words (bit values.now) cell.now) prior.entry.value.now) }
    ensures taint { IfOk result (λ w. w.taint.items ≡ next_register_taint cell.now
        (operand_words (bit values.now) cell.now) (operand_taints (bit taints.now) cell.now)
        prior.entry.value.now prior.entry.taint.now) }
{
    let width = cell.number(Param::Width) as u32;
    let controls = Controls::of(cell, values, taints);
    let mut value = Vec::with_capacity(alloc, width as usize)?;
    let mut taint = Vec::with_capacity(alloc, width as usize)?;
    for i in 0..width {
        let at_d = operand_bit(cell, 0, i as usize, values, taints);
        let stored = stored_bit(prior, i);
        let next = controls.next_bit(cell, i, at_d, stored);
        value.push(next.value)?;
        taint.push(next.taint)?;
    }
    Ok(Tainted { value, taint })
}

/// What a register stores next and its taint, from what it stores, where `values` and `taints` are those of the net bits.
/// The flag stays. It takes memory for the two words alone.
pub fn next_register(
    alloc: Global,
    cell: &Cell,
    values: &[bool],
    taints: &[bool],
    prior: StateRef,
) -> Result<CellState, NoMemory>
    requires role { is_register (role_of cell.now.kind) ≡ true }
    requires fitted { IsFitted cell.now }
    requires value { length prior.value.now ≡ width_of cell.now }
    requires taint { length prior.taint.now ≡ width_of cell.now }
    ensures value { IfOk result (λ s. s.value
        ≡ next_word cell.now (operand_words (bit values.now) cell.now) prior.entry.value.now) }
    ensures taint { IfOk result (λ s. s.taint ≡ next_register_taint cell.now
        (operand_words (bit values.now) cell.now) (operand_taints (bit taints.now) cell.now)
        prior.entry.value.now prior.entry.taint.now) }
    ensures flag { IfOk result (λ s. s.flag ≡ prior.entry.flag) }
{
    let flag = prior.flag;
    let next = next_bits(alloc, cell, values, taints, prior)?;
    Ok(CellState {
        value: StateWord::of(next.value),
        taint: StateWord::of(next.taint),
        flag,
    })
}
