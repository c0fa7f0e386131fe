// The values and taints of each kind with operands A and B.
ghost use Rattle.std.specs.Prelude.{◌≡◌, ◌^◌, ◌<◌, true, false};
ghost use Rattle.cif_defs.specs.Words.{word_of};
ghost use Rattle.cif_defs.specs.Meanings.{eq_word, ge_word, gt_word, le_word, lt_word, ne_word};
ghost use Rattle.word_sums.specs.CellForms.{div_taint_of, taint_row, value_row};
ghost use Rattle.word_sums.specs.Covered.{is_binary};
ghost use Rattle.word_sums.specs.Operands.{IsPairOf, row_of};

use crate::coarse::{division_taint, product_taint, quotient_taint};
use crate::orders::{equal_taint, greater_taint, less_taint};
use crate::shape::{Pair, Shape};
use crate::sum_taints::{add_taint, sub_taint};
use crate::values::{
    add_value, div_value, divfloor_value, is_equal, is_greater, is_less, mod_value, modfloor_value,
    mul_value, sub_value,
};
use cif_defs::Kind;
use word_numbers::flag;

/// What `$eq` and `$eqx` give.
fn eq_value(shape: Shape, values: Pair) -> u128
    requires values { IsPairOf shape values }
    ensures word { word_of shape.y result ≡ row_of eq_word shape values }
    ensures fits { result < 2 ^ shape.y }
{
    flag(is_equal(shape, values))
}

/// What `$ne` and `$nex` give.
fn ne_value(shape: Shape, values: Pair) -> u128
    requires values { IsPairOf shape values }
    ensures word { word_of shape.y result ≡ row_of ne_word shape values }
    ensures fits { result < 2 ^ shape.y }
{
    flag(!is_equal(shape, values))
}

/// What `$lt` gives.
fn lt_value(shape: Shape, values: Pair) -> u128
    requires values { IsPairOf shape values }
    ensures word { word_of shape.y result ≡ row_of lt_word shape values }
    ensures fits { result < 2 ^ shape.y }
{
    flag(is_less(shape, values))
}

/// What `$ge` gives.
fn ge_value(shape: Shape, values: Pair) -> u128
    requires values { IsPairOf shape values }
    ensures word { word_of shape.y result ≡ row_of ge_word shape values }
    ensures fits { result < 2 ^ shape.y }
{
    flag(!is_less(shape, values))
}

/// What `$le` gives.
fn le_value(shape: Shape, values: Pair) -> u128
    requires values { IsPairOf shape values }
    ensures word { word_of shape.y result ≡ row_of le_word shape values }
    ensures fits { result < 2 ^ shape.y }
{
    flag(!is_greater(shape, values))
}

/// What `$gt` gives.
fn gt_value(shape: Shape, values: Pair) -> u128
    requires values { IsPairOf shape values }
    ensures word { word_of shape.y result ≡ row_of gt_word shape values }
    ensures fits { result < 2 ^ shape.y }
{
    flag(is_greater(shape, values))
}

/// What a kind with operands A and B gives.
#[tactic(auto, unfolding(crate::specs::CellForms::value_row))]
pub fn binary_value(kind: Kind, shape: Shape, values: Pair) -> u128
    requires kind { is_binary kind ≡ true }
    requires values { IsPairOf shape values }
    ensures word { word_of shape.y result ≡ value_row kind shape values }
    ensures fits { result < 2 ^ shape.y }
{
    match kind {
        Kind::Add => add_value(shape, values),
        Kind::Sub => sub_value(shape, values),
        Kind::Mul => mul_value(shape, values),
        Kind::Div => div_value(shape, values),
        Kind::Mod => mod_value(shape, values),
        Kind::DivFloor => divfloor_value(shape, values),
        Kind::ModFloor => modfloor_value(shape, values),
        Kind::Eq | Kind::Eqx => eq_value(shape, values),
        Kind::Ne | Kind::Nex => ne_value(shape, values),
        Kind::Lt => lt_value(shape, values),
        Kind::Le => le_value(shape, values),
        Kind::Ge => ge_value(shape, values),
        Kind::Gt => gt_value(shape, values),
        _ => unreachable!(),
    }
}

/// The taint of `$div`: that of a quotient where it is unsigned, else every bit or none.
fn div_taint(shape: Shape, values: Pair, taints: Pair) -> u128
    requires values { IsPairOf shape values }
    requires taints { IsPairOf shape taints }
    ensures word { word_of shape.y result ≡ div_taint_of shape values taints }
    ensures fits { result < 2 ^ shape.y }
{
    if shape.signed {
        division_taint(shape, values, taints)
    } else {
        quotient_taint(shape, values, taints)
    }
}

/// The taint of what a kind with operands A and B gives.
#[tactic(auto, unfolding(crate::specs::CellForms::taint_row))]
pub fn binary_taint(kind: Kind, shape: Shape, values: Pair, taints: Pair) -> u128
    requires kind { is_binary kind ≡ true }
    requires values { IsPairOf shape values }
    requires taints { IsPairOf shape taints }
    ensures word { word_of shape.y result ≡ taint_row kind shape values taints }
    ensures fits { result < 2 ^ shape.y }
{
    match kind {
        Kind::Add => add_taint(shape, values, taints),
        Kind::Sub => sub_taint(shape, values, taints),
        Kind::Mul => product_taint(shape, values, taints),
        Kind::Div => div_taint(shape, values, taints),
        Kind::Mod | Kind::DivFloor | Kind::ModFloor => division_taint(shape, values, taints),
        Kind::Eq | Kind::Eqx | Kind::Ne | Kind::Nex => equal_taint(shape, values, taints),
        Kind::Lt | Kind::Ge => less_taint(shape, values, taints),
        Kind::Le | Kind::Gt => greater_taint(shape, values, taints),
        _ => unreachable!(),
    }
}
