// Kinds with one operand.
ghost use Rattle.std.specs.Prelude.{◌≡◌, ◌^◌, ◌<◌, ◌≤◌, true};
ghost use Rattle.cif_defs.specs.Words.{word_of};
ghost use Rattle.rule_logic.specs.LogicFormulas.{is_unary};
ghost use Rattle.word_logic.specs.LogicWords.{may_be_all_ones, unary_taint, unary_word};
ghost use Rattle.word_logic.specs.Extensions.{IsNarrowExtension};

use crate::bounds::{Chance, greatest, least};
use crate::extension::Extension;
use cif_kinds::Kind;
use word_numbers::{complement, flag, has_one, is_all_ones, is_odd};

/// What a cell gives.
#[tactic(auto, unfolding(crate::specs::LogicWords::unary_word))]
pub fn unary_value(kind: Kind, shown: &Extension, value: u128) -> u128
    requires kind { is_unary kind ≡ true }
    requires narrow { IsNarrowExtension shown.now }
    requires fits { value < 2 ^ shown.now.from }
    ensures word { word_of shown.now.to result
        ≡ unary_word kind shown.now.to shown.now.signed (word_of shown.now.from value) }
    ensures fits { result < 2 ^ shown.now.to }
{
    match kind {
        Kind::Not => complement(shown.to, shown.shown(value)),
        Kind::Pos => shown.shown(value),
        Kind::ReduceAnd => flag(is_all_ones(shown.from, value)),
        Kind::ReduceOr | Kind::ReduceBool => flag(has_one(value)),
        Kind::ReduceXor => flag(is_odd(value)),
        Kind::ReduceXnor => flag(!is_odd(value)),
        Kind::LogicNot => flag(!has_one(value)),
        _ => unreachable!(),
    }
}

/// Whether all bits of a word can be 1, and need not.
fn can_be_all_ones(width: u32, value: u128, taint: u128) -> bool
    requires some { 1 ≤ width }
    requires limit { width ≤ 128 }
    requires value_fits { value < 2 ^ width }
    requires taint_fits { taint < 2 ^ width }
    ensures { result ≡ may_be_all_ones (word_of width value) (word_of width taint) }
{
    let high = greatest(width, value, taint);
    let low = least(width, value, taint);
    is_all_ones(width, high) & !is_all_ones(width, low)
}

/// The taint of what a cell gives.
#[tactic(auto, unfolding(crate::specs::LogicWords::unary_taint))]
pub fn unary_taint(kind: Kind, shown: &Extension, value: u128, taint: u128) -> u128
    requires kind { is_unary kind ≡ true }
    requires narrow { IsNarrowExtension shown.now }
    requires value_fits { value < 2 ^ shown.now.from }
    requires taint_fits { taint < 2 ^ shown.now.from }
    ensures word { word_of shown.now.to result
        ≡ unary_taint kind shown.now.to shown.now.signed (word_of shown.now.from value) (word_of shown.now.from taint) }
    ensures fits { result < 2 ^ shown.now.to }
{
    match kind {
        Kind::Not | Kind::Pos => shown.shown(taint),
        Kind::ReduceAnd => flag(can_be_all_ones(shown.from, value, taint)),
        Kind::ReduceOr | Kind::ReduceBool | Kind::LogicNot => {
            flag(Chance::of(shown.from, value, taint).is_open())
        }
        Kind::ReduceXor | Kind::ReduceXnor => flag(has_one(taint)),
        _ => unreachable!(),
    }
}
