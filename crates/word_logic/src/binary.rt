// Kinds with two operands.
ghost use Rattle.std.specs.Prelude.{◌≡◌, ◌^◌, ◌<◌, ◌≤◌, false, true};
ghost use Rattle.cif_defs.specs.Words.{word_of};
ghost use Rattle.word_logic.specs.LogicWords.{binary_taint, binary_word, is_bitwise};
ghost use Rattle.word_logic.specs.Extensions.{IsBinaryForm};
ghost use Rattle.word_logic.specs.Chances.{is_logic, logic_open};

use crate::bounds::Chance;
use crate::extension::Extension;
use cif_kinds::Kind;
use word_numbers::{Words, complement, extend, flag, has_one};

/// What a bitwise kind gives from two words of `width` bits.
#[tactic(auto, unfolding(crate::specs::LogicWords::binary_word))]
fn bitwise(kind: Kind, width: u32, x: u128, y: u128) -> u128
    requires kind { is_bitwise kind ≡ true }
    requires some { 1 ≤ width }
    requires limit { width ≤ 128 }
    requires x_fits { x < 2 ^ width }
    requires y_fits { y < 2 ^ width }
    ensures word { word_of width result ≡ binary_word kind width false (word_of width x) (word_of width y) }
    ensures fits { result < 2 ^ width }
{
    match kind {
        Kind::And => x & y,
        Kind::Or => x | y,
        Kind::Xor => x ^ y,
        Kind::Xnor => complement(width, x ^ y),
        _ => unreachable!(),
    }
}

/// What a bitwise cell gives from its first two operands.
fn extended_value(kind: Kind, shown: &Extension, b_width: u32, values: &Words) -> u128
    requires form { IsBinaryForm kind shown.now b_width }
    requires kind { is_bitwise kind ≡ true }
    requires a_fits { values.now.a < 2 ^ shown.now.from }
    requires b_fits { values.now.b < 2 ^ b_width }
    ensures word { word_of shown.now.to result
        ≡ binary_word kind shown.now.to shown.now.signed (word_of shown.now.from values.now.a) (word_of b_width values.now.b) }
    ensures fits { result < 2 ^ shown.now.to }
{
    let x = shown.shown(values.a);
    let y = extend(b_width, shown.to, shown.signed, values.b);
    bitwise(kind, shown.to, x, y)
}

/// What a cell gives from its first two operands.
pub fn binary_value(kind: Kind, shown: &Extension, b_width: u32, values: &Words) -> u128
    requires form { IsBinaryForm kind shown.now b_width }
    requires a_fits { values.now.a < 2 ^ shown.now.from }
    requires b_fits { values.now.b < 2 ^ b_width }
    ensures word { word_of shown.now.to result
        ≡ binary_word kind shown.now.to shown.now.signed (word_of shown.now.from values.now.a) (word_of b_width values.now.b) }
    ensures fits { result < 2 ^ shown.now.to }
{
    match kind {
        Kind::LogicAnd => flag(has_one(values.a) & has_one(values.b)),
        Kind::LogicOr => flag(has_one(values.a) | has_one(values.b)),
        _ => extended_value(kind, shown, b_width, values),
    }
}

/// The taint of what a bitwise kind gives: `tx` and `ty` are the taints of `x` and `y`.
#[tactic(auto, unfolding(crate::specs::LogicWords::binary_taint))]
fn bitwise_taint(kind: Kind, width: u32, x: u128, tx: u128, y: u128, ty: u128) -> u128
    requires kind { is_bitwise kind ≡ true }
    requires some { 1 ≤ width }
    requires limit { width ≤ 128 }
    requires tx_fits { tx < 2 ^ width }
    requires ty_fits { ty < 2 ^ width }
    ensures word { word_of width result
        ≡ binary_taint kind width false (word_of width x) (word_of width tx) (word_of width y) (word_of width ty) }
    ensures fits { result < 2 ^ width }
{
    match kind {
        Kind::And => (tx & ty) | ((tx & y) | (ty & x)),
        Kind::Or => (tx & ty) | ((tx & !y) | (ty & !x)),
        Kind::Xor | Kind::Xnor => tx | ty,
        _ => unreachable!(),
    }
}

/// The taint of what `$logic_and` or `$logic_or` gives.
fn logic_taint(kind: Kind, a: &Chance, b: &Chance) -> bool
    requires { is_logic kind ≡ true }
    ensures { result ≡ logic_open kind a.now b.now }
{
    if kind == Kind::LogicAnd {
        (a.possible & b.possible) & !(a.certain & b.certain)
    } else {
        (a.possible | b.possible) & !(a.certain | b.certain)
    }
}

/// The taint of a bitwise cell from its first two operands.
fn extended_taint(
    kind: Kind,
    shown: &Extension,
    b_width: u32,
    values: &Words,
    taints: &Words,
) -> u128
    requires form { IsBinaryForm kind shown.now b_width }
    requires kind { is_bitwise kind ≡ true }
    requires a_fits { values.now.a < 2 ^ shown.now.from }
    requires b_fits { values.now.b < 2 ^ b_width }
    requires ta_fits { taints.now.a < 2 ^ shown.now.from }
    requires tb_fits { taints.now.b < 2 ^ b_width }
    ensures word { word_of shown.now.to result
        ≡ binary_taint kind shown.now.to shown.now.signed (word_of shown.now.from values.now.a) (word_of shown.now.from taints.now.a) (word_of b_width values.now.b) (word_of b_width taints.now.b) }
    ensures fits { result < 2 ^ shown.now.to }
{
    let x = shown.shown(values.a);
    let tx = shown.shown(taints.a);
    let y = extend(b_width, shown.to, shown.signed, values.b);
    let ty = extend(b_width, shown.to, shown.signed, taints.b);
    bitwise_taint(kind, shown.to, x, tx, y, ty)
}

/// The taint of what a cell gives from its first two operands.
pub fn binary_taint(
    kind: Kind,
    shown: &Extension,
    b_width: u32,
    values: &Words,
    taints: &Words,
) -> u128
    requires form { IsBinaryForm kind shown.now b_width }
    requires a_fits { values.now.a < 2 ^ shown.now.from }
    requires b_fits { values.now.b < 2 ^ b_width }
    requires ta_fits { taints.now.a < 2 ^ shown.now.from }
    requires tb_fits { taints.now.b < 2 ^ b_width }
    ensures word { word_of shown.now.to result
        ≡ binary_taint kind shown.now.to shown.now.signed (word_of shown.now.from values.now.a) (word_of shown.now.from taints.now.a) (word_of b_width values.now.b) (word_of b_width taints.now.b) }
    ensures fits { result < 2 ^ shown.now.to }
{
    match kind {
        Kind::LogicAnd | Kind::LogicOr => {
            let a = Chance::of(shown.from, values.a, taints.a);
            let b = Chance::of(b_width, values.b, taints.b);
            flag(logic_taint(kind, &a, &b))
        }
        _ => extended_taint(kind, shown, b_width, values, taints),
    }
}
