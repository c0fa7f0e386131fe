// What decides, in one cycle, which bit a register takes: its enable and its reset.
ghost use Rattle.std.specs.Prelude.{◌≡◌, true};
ghost use Rattle.cif_defs.specs.Words.{bit, operand};
ghost use Rattle.cif_defs.specs.Kinds.{is_register, role_of};
ghost use Rattle.cif_defs.specs.Cells.{digits_of, number_of};
ghost use Rattle.cif_defs.specs.Registers.{is_active};
ghost use Rattle.cif_defs.specs.Fitted.{IsFitted};
ghost use Rattle.cif_defs.specs.Run.{operand_words};
ghost use Rattle.cif_defs.specs.TaintRun.{operand_taints};
ghost use Rattle.cif_defs.specs.declared.kinds.Role.TheVariants.{ResetRegister};
ghost use Rattle.cif_register_bits.specs.Choices.{bit_with, chosen, untainted};
ghost use Rattle.cif_register_bits.specs.Steering.{active_bit, controls_of, enable_by, next_of, precedence_by, reset_by, reset_value_by, shown_of, IsShownBy, IsSteeredBy};

use crate::sources::operand_bit;
use crate::tainted_bit::TaintedBit;
use cif_kinds::{Cell, Kind, Param};

/// Which control of a register is asked first, where it has both.
#[derive(Clone, Copy, Debug, Drop, PartialEq, Eq)]
pub enum Precedence {
    /// The reset: an active reset wins, whatever the enable.
    Reset,
    /// The enable: nothing is reset while it isn't active.
    Enable,
}

/// What a register's enable and reset say in one cycle.
#[derive(Clone, Copy, Debug, Drop)]
pub struct Controls {
    /// Whether the enable is active, which it always is where there is none.
    pub enable: TaintedBit,
    /// Whether the reset is active, which it never is where there is none.
    pub reset: TaintedBit,
    /// The parameter of the reset value.
    pub reset_value: Param,
    /// Which of the two is asked first.
    pub first: Precedence,
}

/// Whether a control whose bit is this is active.
fn is_active(polarity: u64, bit: bool) -> bool
    ensures { result ≡ is_active polarity bit }
{
    u64::from(bit) == polarity
}

/// Whether the control at an operand is active, which it is where its bit equals its polarity, so never, and untainted,
/// where that is neither 0 nor 1.
fn control(
    cell: &Cell,
    port: usize,
    polarity: Param,
    values: &[bool],
    taints: &[bool],
) -> TaintedBit
    ensures { result ≡ active_bit (number_of cell.now polarity) (bit_with
        (operand (operand_words (bit values.now) cell.now) port)
        (operand (operand_taints (bit taints.now) cell.now) port) 0) }
{
    let found = operand_bit(cell, port, 0, values, taints);
    let polarity = cell.number(polarity);
    let depends = is_active(polarity, false) ^ is_active(polarity, true);
    TaintedBit {
        value: is_active(polarity, found.value),
        taint: found.taint & depends,
    }
}

/// Whether the enable of a register is active.
#[tactic(auto, unfolding(crate::specs::Steering::enable_by))]
fn enable_of(cell: &Cell, values: &[bool], taints: &[bool]) -> TaintedBit
    ensures { result ≡ enable_by cell.now.kind cell.now
        (operand_words (bit values.now) cell.now) (operand_taints (bit taints.now) cell.now) }
{
    match cell.kind() {
        Kind::Dffe | Kind::Sdffe | Kind::Sdffce | Kind::Adffe => {
            control(cell, 1, Param::EnPolarity, values, taints)
        }
        _ => TaintedBit::untainted(true),
    }
}

/// Whether the reset of a register is active.
#[tactic(auto, unfolding(crate::specs::Steering::reset_by))]
fn reset_of(cell: &Cell, values: &[bool], taints: &[bool]) -> TaintedBit
    ensures { result ≡ reset_by cell.now.kind cell.now
        (operand_words (bit values.now) cell.now) (operand_taints (bit taints.now) cell.now) }
{
    match cell.kind() {
        Kind::Sdff => control(cell, 1, Param::SrstPolarity, values, taints),
        Kind::Sdffe | Kind::Sdffce => control(cell, 2, Param::SrstPolarity, values, taints),
        Kind::Adff => control(cell, 1, Param::ArstPolarity, values, taints),
        Kind::Adffe => control(cell, 2, Param::ArstPolarity, values, taints),
        _ => TaintedBit::untainted(false),
    }
}

/// The parameter of a register's reset value.
#[tactic(auto, unfolding(crate::specs::Steering::reset_value_by))]
fn reset_value_of(kind: Kind) -> Param
    ensures { result ≡ reset_value_by kind }
{
    match kind {
        Kind::Adff | Kind::Adffe => Param::ArstValue,
        _ => Param::SrstValue,
    }
}

/// Which control of a register is asked first.
#[tactic(auto, unfolding(crate::specs::Steering::precedence_by))]
fn precedence_of(kind: Kind) -> Precedence
    ensures { result ≡ precedence_by kind }
{
    match kind {
        Kind::Sdffce => Precedence::Enable,
        _ => Precedence::Reset,
    }
}

impl Controls {
    /// The controls of a register, where `values` and `taints` are those of the net bits.
    ///
    /// The meanings of registers are those of the Yosys cell library for values without x.
    pub fn of(cell: &Cell, values: &[bool], taints: &[bool]) -> Controls
        requires role { is_register (role_of cell.now.kind) ≡ true }
        requires fitted { IsFitted cell.now }
        ensures next { IsSteeredBy cell.now
            (operand_words (bit values.now) cell.now) (operand_taints (bit taints.now) cell.now) result }
        ensures shown { role_of cell.now.kind ≡ ResetRegister → IsShownBy cell.now
            (operand_words (bit values.now) cell.now) (operand_taints (bit taints.now) cell.now) result }
    {
        let kind = cell.kind();
        Controls {
            enable: enable_of(cell, values, taints),
            reset: reset_of(cell, values, taints),
            reset_value: reset_value_of(kind),
            first: precedence_of(kind),
        }
    }

    /// Bit `index` of the reset value where the reset is active, else `other`.
    fn after_reset(self, cell: &Cell, index: u32, other: TaintedBit) -> TaintedBit
        ensures { result
            ≡ chosen self.reset other (untainted (bit (digits_of cell.now self.reset_value) index)) }
    {
        if !self.reset.value & !self.reset.taint {
            return other;
        }
        let digit = TaintedBit::untainted(cell.digit(self.reset_value, index));
        self.reset.choose(other, digit)
    }

    /// Bit `index` of what the register stores next, where `at_d` is that bit at D, and `stored` the one that it stores.
    pub fn next_bit(
        self,
        cell: &Cell,
        index: u32,
        at_d: TaintedBit,
        stored: TaintedBit,
    ) -> TaintedBit
        ensures { result
            ≡ next_of self (bit (digits_of cell.now self.reset_value) index) at_d stored }
    {
        match self.first {
            Precedence::Reset => {
                let enabled = self.enable.choose(stored, at_d);
                self.after_reset(cell, index, enabled)
            }
            Precedence::Enable => {
                let next = self.after_reset(cell, index, at_d);
                self.enable.choose(stored, next)
            }
        }
    }

    /// Bit `index` of what a register with asynchronous reset shows, where `stored` is the one that it stores.
    pub fn shown_bit(self, cell: &Cell, index: u32, stored: TaintedBit) -> TaintedBit
        ensures { result ≡ shown_of self (bit (digits_of cell.now self.reset_value) index) stored }
    {
        self.after_reset(cell, index, stored)
    }
}
