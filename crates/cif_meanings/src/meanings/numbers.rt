// What the kinds of cells that work on numbers give: sums, products, divisions and comparisons.
//
// The meanings are those of the Yosys cell library for operands without x. Each function has the width of the output
// in bits, whether both operands are signed, and the operand words, lowest bit first. Each may answer want of memory,
// and changes nothing then.
ghost use Rattle.std.specs.Prelude.{◌≡◌, ◌≢◌, ◌<◌, ◌≤◌, ◌^◌, ◌==◌, [], ◌∷◌, true, max, not, map, length, int_lt, int_le, IfOk};
ghost use Rattle.std.specs.Ordering.{int_eq};
ghost use Rattle.cif_defs.specs.Words.{extend, flag_word, number, operand};
ghost use Rattle.cif_defs.specs.Meanings.{add_word, sub_word, mul_word, neg_word, compared, div_word, mod_word, divfloor_word, modfloor_word, eq_word, ne_word, lt_word, le_word, ge_word, gt_word, alu_xor_word, alu_sum_word, alu_carry_word};
ghost use Rattle.cif_defs.specs.Cells.{meaning, number_of, both_signed, y_width};
ghost use Rattle.cif_defs.specs.Fitted.{IsFitted, operand_widths};
ghost use Rattle.cif_defs.specs.Table.{is_arithmetic};
ghost use Rattle.cif_defs.specs.declared.kinds.Kind.TheVariants.{Neg, Alu};
ghost use Rattle.cif_meanings.specs.NumberKinds.{is_equality, is_on_numbers};

use cif_arith::{add, alu, div, div_floor, less, mod_floor, modulo, mul, neg, sub};
use cif_bits::{Bits, NoMemory};
use cif_defs::{Kind, Param};
use cif_kinds::Cell;
use std::alloc::Global;

// ---- shared steps

/// The number of a word that is cut or extended to `width` bits.
fn extended_number(alloc: Global, width: u32, signed: bool, word: &Bits) -> Result<u128, NoMemory>
    requires limit { width ≤ 128 }
    requires word { 1 ≤ length word.now }
    ensures value { IfOk result (λ x. x ≡ number (extend width signed word.now)) }
    ensures below { IfOk result (λ x. x < 2 ^ width) }
{
    let extended = word.extend(alloc, width, signed)?;
    Ok(extended.to_u128())
}

/// The numbers of two operands that are cut or extended to one width.
#[derive(Clone, Copy, Drop)]
struct Numbers {
    a: u128,
    b: u128,
}

/// The numbers of two words that are cut or extended to `width` bits.
fn extended_numbers(
    alloc: Global,
    width: u32,
    signed: bool,
    a: &Bits,
    b: &Bits,
) -> Result<Numbers, NoMemory>
    requires limit { width ≤ 128 }
    requires a { 1 ≤ length a.now }
    requires b { 1 ≤ length b.now }
    ensures a { IfOk result (λ n. n.a ≡ number (extend width signed a.now)) }
    ensures b { IfOk result (λ n. n.b ≡ number (extend width signed b.now)) }
    ensures a_below { IfOk result (λ n. n.a < 2 ^ width) }
    ensures b_below { IfOk result (λ n. n.b < 2 ^ width) }
{
    let a = extended_number(alloc, width, signed, a)?;
    let b = extended_number(alloc, width, signed, b)?;
    Ok(Numbers { a, b })
}

/// The word of `width` bits whose lowest is the flag, with zeros above it.
fn flag_bits(alloc: Global, width: u32, flag: bool) -> Result<Bits, NoMemory>
    requires some { 1 ≤ width }
    requires limit { width ≤ 4096 }
    ensures { IfOk result (λ w. w ≡ flag_word width flag) }
{
    let mut bits = Bits::zeros(alloc, width)?;
    bits.set(0, flag);
    Ok(bits)
}

/// The larger width of two words.
fn larger_width(a: &Bits, b: &Bits) -> u32
    ensures value { result ≡ max (length a.now) (length b.now) }
    ensures limit { result ≤ 65536 }
{
    a.width().max(b.width())
}

// ---- sums, differences and products

/// What `$add` gives: the sum modulo 2 to the power `width`, which is 1 to 128 bits.
///
/// The operands have at least one bit. They are extended to the width first, with their sign where both are signed, or
/// cut to it.
pub fn add_word(
    alloc: Global,
    width: u32,
    signed: bool,
    a: &Bits,
    b: &Bits,
) -> Result<Bits, NoMemory>
    requires some { 1 ≤ width }
    requires limit { width ≤ 128 }
    requires a { 1 ≤ length a.now }
    requires b { 1 ≤ length b.now }
    ensures { IfOk result (λ w. w ≡ add_word width signed a.now b.now) }
{
    let numbers = extended_numbers(alloc, width, signed, a, b)?;
    Bits::from_u128(alloc, width, add(width, numbers.a, numbers.b))
}

/// What `$sub` gives: the difference modulo 2 to the power `width`, which is 1 to 128 bits.
///
/// The operands have at least one bit. They are extended to the width first, with their sign where both are signed, or
/// cut to it.
pub fn sub_word(
    alloc: Global,
    width: u32,
    signed: bool,
    a: &Bits,
    b: &Bits,
) -> Result<Bits, NoMemory>
    requires some { 1 ≤ width }
    requires limit { width ≤ 128 }
    requires a { 1 ≤ length a.now }
    requires b { 1 ≤ length b.now }
    ensures { IfOk result (λ w. w ≡ sub_word width signed a.now b.now) }
{
    let numbers = extended_numbers(alloc, width, signed, a, b)?;
    Bits::from_u128(alloc, width, sub(width, numbers.a, numbers.b))
}

/// What `$neg` gives: the negative modulo 2 to the power `width`, which is 1 to 128 bits.
///
/// The operand has at least one bit. It is extended to the width first, with its sign where it is signed, or cut to it.
pub fn neg_word(alloc: Global, width: u32, signed: bool, a: &Bits) -> Result<Bits, NoMemory>
    requires some { 1 ≤ width }
    requires limit { width ≤ 128 }
    requires a { 1 ≤ length a.now }
    ensures { IfOk result (λ w. w ≡ neg_word width signed a.now) }
{
    let number = extended_number(alloc, width, signed, a)?;
    Bits::from_u128(alloc, width, neg(width, number))
}

/// What `$mul` gives: the product modulo 2 to the power `width`, which is 1 to 128 bits.
///
/// The operands have at least one bit. They are extended to the width first, with their sign where both are signed, or
/// cut to it.
pub fn mul_word(
    alloc: Global,
    width: u32,
    signed: bool,
    a: &Bits,
    b: &Bits,
) -> Result<Bits, NoMemory>
    requires some { 1 ≤ width }
    requires limit { width ≤ 128 }
    requires a { 1 ≤ length a.now }
    requires b { 1 ≤ length b.now }
    ensures { IfOk result (λ w. w ≡ mul_word width signed a.now b.now) }
{
    let numbers = extended_numbers(alloc, width, signed, a, b)?;
    Bits::from_u128(alloc, width, mul(width, numbers.a, numbers.b))
}

// ---- divisions

/// The width at which a division computes: the largest of both operands and the output.
fn division_width(width: u32, a: &Bits, b: &Bits) -> u32
    requires width { width ≤ 128 }
    requires a { length a.now ≤ 128 }
    requires b { length b.now ≤ 128 }
    ensures a { length a.now ≤ result }
    ensures b { length b.now ≤ result }
    ensures width { width ≤ result }
    ensures limit { result ≤ 128 }
{
    larger_width(a, b).max(width)
}

/// What `$div` gives: the quotient rounded toward zero, modulo 2 to the power `width`.
///
/// The width is 1 to 128 bits, and so are the operands, which are signed where both are. A zero divisor gives 0.
pub fn div_word(
    alloc: Global,
    width: u32,
    signed: bool,
    a: &Bits,
    b: &Bits,
) -> Result<Bits, NoMemory>
    requires some { 1 ≤ width }
    requires limit { width ≤ 128 }
    requires a { 1 ≤ length a.now }
    requires b { 1 ≤ length b.now }
    requires a_limit { length a.now ≤ 128 }
    requires b_limit { length b.now ≤ 128 }
    ensures { IfOk result (λ w. w ≡ div_word width signed a.now b.now) }
{
    let common = division_width(width, a, b);
    let numbers = extended_numbers(alloc, common, signed, a, b)?;
    Bits::from_u128(alloc, width, div(common, signed, numbers.a, numbers.b))
}

/// What `$mod` gives: the remainder of `$div`, which has the sign of `a`, modulo 2 to the power `width`.
///
/// The width is 1 to 128 bits, and so are the operands, which are signed where both are. A zero divisor gives 0.
pub fn mod_word(
    alloc: Global,
    width: u32,
    signed: bool,
    a: &Bits,
    b: &Bits,
) -> Result<Bits, NoMemory>
    requires some { 1 ≤ width }
    requires limit { width ≤ 128 }
    requires a { 1 ≤ length a.now }
    requires b { 1 ≤ length b.now }
    requires a_limit { length a.now ≤ 128 }
    requires b_limit { length b.now ≤ 128 }
    ensures { IfOk result (λ w. w ≡ mod_word width signed a.now b.now) }
{
    let common = division_width(width, a, b);
    let numbers = extended_numbers(alloc, common, signed, a, b)?;
    Bits::from_u128(alloc, width, modulo(common, signed, numbers.a, numbers.b))
}

/// What `$divfloor` gives: the quotient rounded toward minus infinity, modulo 2 to the power `width`.
///
/// The width is 1 to 128 bits, and so are the operands, which are signed where both are. A zero divisor gives 0.
pub fn divfloor_word(
    alloc: Global,
    width: u32,
    signed: bool,
    a: &Bits,
    b: &Bits,
) -> Result<Bits, NoMemory>
    requires some { 1 ≤ width }
    requires limit { width ≤ 128 }
    requires a { 1 ≤ length a.now }
    requires b { 1 ≤ length b.now }
    requires a_limit { length a.now ≤ 128 }
    requires b_limit { length b.now ≤ 128 }
    ensures { IfOk result (λ w. w ≡ divfloor_word width signed a.now b.now) }
{
    let common = division_width(width, a, b);
    let numbers = extended_numbers(alloc, common, signed, a, b)?;
    Bits::from_u128(
        alloc,
        width,
        div_floor(common, signed, numbers.a, numbers.b),
    )
}

/// What `$modfloor` gives: the remainder of `$divfloor`, which has the sign of `b`, modulo 2 to the power `width`.
///
/// The width is 1 to 128 bits, and so are the operands, which are signed where both are. A zero divisor gives 0.
pub fn modfloor_word(
    alloc: Global,
    width: u32,
    signed: bool,
    a: &Bits,
    b: &Bits,
) -> Result<Bits, NoMemory>
    requires some { 1 ≤ width }
    requires limit { width ≤ 128 }
    requires a { 1 ≤ length a.now }
    requires b { 1 ≤ length b.now }
    requires a_limit { length a.now ≤ 128 }
    requires b_limit { length b.now ≤ 128 }
    ensures { IfOk result (λ w. w ≡ modfloor_word width signed a.now b.now) }
{
    let common = division_width(width, a, b);
    let numbers = extended_numbers(alloc, common, signed, a, b)?;
    Bits::from_u128(
        alloc,
        width,
        mod_floor(common, signed, numbers.a, numbers.b),
    )
}

// ---- comparisons, whose answer is the lowest bit

/// Whether the number of `a` is less than that of `b`.
fn is_less(alloc: Global, signed: bool, a: &Bits, b: &Bits) -> Result<bool, NoMemory>
    requires a { 1 ≤ length a.now }
    requires b { 1 ≤ length b.now }
    requires a_limit { length a.now ≤ 128 }
    requires b_limit { length b.now ≤ 128 }
    ensures less { IfOk result (λ r. r ≡ compared int_lt signed a.now b.now) }
    ensures reverse { IfOk result (λ r. not r ≡ compared int_le signed b.now a.now) }
{
    let width = larger_width(a, b);
    let numbers = extended_numbers(alloc, width, signed, a, b)?;
    Ok(less(width, signed, numbers.a, numbers.b))
}

/// Whether the numbers of both words are the same.
fn is_equal(alloc: Global, signed: bool, a: &Bits, b: &Bits) -> Result<bool, NoMemory>
    requires a { 1 ≤ length a.now }
    requires b { 1 ≤ length b.now }
    ensures { IfOk result (λ r. r ≡ compared int_eq signed a.now b.now) }
{
    let width = larger_width(a, b);
    let a = a.extend(alloc, width, signed)?;
    let b = b.extend(alloc, width, signed)?;
    Ok(a.equals(&b))
}

/// What `$eq` and `$eqx` give: whether both operands have the same number.
///
/// The width is 1 to 4,096 bits, and the operands have at least one bit. They are compared at the larger of their
/// widths, to which the other is extended, with its sign where both are signed.
pub fn eq_word(
    alloc: Global,
    width: u32,
    signed: bool,
    a: &Bits,
    b: &Bits,
) -> Result<Bits, NoMemory>
    requires some { 1 ≤ width }
    requires limit { width ≤ 4096 }
    requires a { 1 ≤ length a.now }
    requires b { 1 ≤ length b.now }
    ensures { IfOk result (λ w. w ≡ eq_word width signed a.now b.now) }
{
    let equal = is_equal(alloc, signed, a, b)?;
    flag_bits(alloc, width, equal)
}

/// What `$ne` and `$nex` give: whether the operands have different numbers.
///
/// The width is 1 to 4,096 bits, and the operands have at least one bit. They are compared at the larger of their
/// widths, to which the other is extended, with its sign where both are signed.
pub fn ne_word(
    alloc: Global,
    width: u32,
    signed: bool,
    a: &Bits,
    b: &Bits,
) -> Result<Bits, NoMemory>
    requires some { 1 ≤ width }
    requires limit { width ≤ 4096 }
    requires a { 1 ≤ length a.now }
    requires b { 1 ≤ length b.now }
    ensures { IfOk result (λ w. w ≡ ne_word width signed a.now b.now) }
{
    let equal = is_equal(alloc, signed, a, b)?;
    flag_bits(alloc, width, !equal)
}

/// What `$lt` gives: whether the number of `a` is less than that of `b`.
///
/// The width is 1 to 4,096 bits, and the operands have 1 to 128 bits. They are compared at the larger of their widths,
/// to which the other is extended, with its sign where both are signed.
pub fn lt_word(
    alloc: Global,
    width: u32,
    signed: bool,
    a: &Bits,
    b: &Bits,
) -> Result<Bits, NoMemory>
    requires some { 1 ≤ width }
    requires limit { width ≤ 4096 }
    requires a { 1 ≤ length a.now }
    requires b { 1 ≤ length b.now }
    requires a_limit { length a.now ≤ 128 }
    requires b_limit { length b.now ≤ 128 }
    ensures { IfOk result (λ w. w ≡ lt_word width signed a.now b.now) }
{
    let below = is_less(alloc, signed, a, b)?;
    flag_bits(alloc, width, below)
}

/// What `$le` gives: whether the number of `a` is at most that of `b`.
///
/// The width is 1 to 4,096 bits, and the operands have 1 to 128 bits. They are compared at the larger of their widths,
/// to which the other is extended, with its sign where both are signed.
pub fn le_word(
    alloc: Global,
    width: u32,
    signed: bool,
    a: &Bits,
    b: &Bits,
) -> Result<Bits, NoMemory>
    requires some { 1 ≤ width }
    requires limit { width ≤ 4096 }
    requires a { 1 ≤ length a.now }
    requires b { 1 ≤ length b.now }
    requires a_limit { length a.now ≤ 128 }
    requires b_limit { length b.now ≤ 128 }
    ensures { IfOk result (λ w. w ≡ le_word width signed a.now b.now) }
{
    let above = is_less(alloc, signed, b, a)?;
    flag_bits(alloc, width, !above)
}

/// What `$ge` gives: whether the number of `a` is at least that of `b`.
///
/// The width is 1 to 4,096 bits, and the operands have 1 to 128 bits. They are compared at the larger of their widths,
/// to which the other is extended, with its sign where both are signed.
pub fn ge_word(
    alloc: Global,
    width: u32,
    signed: bool,
    a: &Bits,
    b: &Bits,
) -> Result<Bits, NoMemory>
    requires some { 1 ≤ width }
    requires limit { width ≤ 4096 }
    requires a { 1 ≤ length a.now }
    requires b { 1 ≤ length b.now }
    requires a_limit { length a.now ≤ 128 }
    requires b_limit { length b.now ≤ 128 }
    ensures { IfOk result (λ w. w ≡ ge_word width signed a.now b.now) }
{
    let below = is_less(alloc, signed, a, b)?;
    flag_bits(alloc, width, !below)
}

/// What `$gt` gives: whether the number of `a` is greater than that of `b`.
///
/// The width is 1 to 4,096 bits, and the operands have 1 to 128 bits. They are compared at the larger of their widths,
/// to which the other is extended, with its sign where both are signed.
pub fn gt_word(
    alloc: Global,
    width: u32,
    signed: bool,
    a: &Bits,
    b: &Bits,
) -> Result<Bits, NoMemory>
    requires some { 1 ≤ width }
    requires limit { width ≤ 4096 }
    requires a { 1 ≤ length a.now }
    requires b { 1 ≤ length b.now }
    requires a_limit { length a.now ≤ 128 }
    requires b_limit { length b.now ≤ 128 }
    ensures { IfOk result (λ w. w ≡ gt_word width signed a.now b.now) }
{
    let above = is_less(alloc, signed, b, a)?;
    flag_bits(alloc, width, above)
}

// ---- sums with carries

/// What `$alu` gives: three words of one width.
#[derive(Drop)]
pub struct AluWords {
    /// The exclusive or of both summands, bit by bit.
    pub x: Bits,
    /// The sum of both summands and the carry in.
    pub y: Bits,
    /// The carry out of each place.
    pub co: Bits,
}

/// What `$alu` gives: `a`, and `b` or where `invert` is set its complement, added with a carry in.
///
/// The width is 1 to 128 bits, and the operands have at least one bit. They are extended to the width first, with their
/// sign where both are signed, or cut to it. `carry` is the cell's CI and `invert` its BI.
pub fn alu_words(
    alloc: Global,
    width: u32,
    signed: bool,
    a: &Bits,
    b: &Bits,
    carry: bool,
    invert: bool,
) -> Result<AluWords, NoMemory>
    requires some { 1 ≤ width }
    requires limit { width ≤ 128 }
    requires a { 1 ≤ length a.now }
    requires b { 1 ≤ length b.now }
    ensures x { IfOk result (λ r. r.x ≡ alu_xor_word width signed invert a.now b.now) }
    ensures y { IfOk result (λ r. r.y ≡ alu_sum_word width signed carry invert a.now b.now) }
    ensures co { IfOk result (λ r. r.co ≡ alu_carry_word width signed carry invert a.now b.now) }
{
    let numbers = extended_numbers(alloc, width, signed, a, b)?;
    let out = alu(width, numbers.a, numbers.b, carry, invert);
    let x = Bits::from_u128(alloc, width, out.x)?;
    let y = Bits::from_u128(alloc, width, out.y)?;
    let co = Bits::from_u128(alloc, width, out.co)?;
    Ok(AluWords { x, y, co })
}

// ---- cells

/// Whether a parameter of a cell is 1, as `A_SIGNED` is where A is signed.
fn is_one(cell: &Cell, param: Param) -> bool
    ensures { result ≡ (number_of cell.now param == 1) }
{
    cell.number(param) == 1
}

/// Whether both operands are signed.
fn both_signed(cell: &Cell) -> bool
    ensures { result ≡ both_signed cell.now }
{
    is_one(cell, Param::ASigned) & is_one(cell, Param::BSigned)
}

/// The width of the output Y, which is at most 4,096 bits.
fn output_width(cell: &Cell) -> u32
    requires { y_width cell.now ≤ 4096 }
    ensures { result ≡ y_width cell.now }
{
    cell.number(Param::YWidth) as u32
}

/// The list of one word.
fn single(alloc: Global, word: Bits) -> Result<Vec<Bits>, NoMemory>
    ensures { IfOk result (λ ws. ws.items ≡ word ∷ []) }
{
    let mut words = Vec::with_capacity(alloc, 1)?;
    words.push(word)?;
    Ok(words)
}

/// The word that a sum, a product, a division or an order of two operands gives, all of at most 128 bits.
fn arithmetic_word(alloc: Global, cell: &Cell, a: &Bits, b: &Bits) -> Result<Bits, NoMemory>
    requires kind { is_arithmetic cell.now.kind ≡ true }
    requires no_neg { cell.now.kind ≢ Neg }
    requires no_alu { cell.now.kind ≢ Alu }
    requires some { 1 ≤ y_width cell.now }
    requires limit { y_width cell.now ≤ 128 }
    requires a { 1 ≤ length a.now }
    requires b { 1 ≤ length b.now }
    requires a_limit { length a.now ≤ 128 }
    requires b_limit { length b.now ≤ 128 }
    ensures { IfOk result (λ w. w ∷ [] ≡ meaning cell.now (a.now ∷ b.now ∷ [])) }
{
    let width = output_width(cell);
    let signed = both_signed(cell);
    match cell.kind() {
        Kind::Add => add_word(alloc, width, signed, a, b),
        Kind::Sub => sub_word(alloc, width, signed, a, b),
        Kind::Mul => mul_word(alloc, width, signed, a, b),
        Kind::Div => div_word(alloc, width, signed, a, b),
        Kind::Mod => mod_word(alloc, width, signed, a, b),
        Kind::DivFloor => divfloor_word(alloc, width, signed, a, b),
        Kind::ModFloor => modfloor_word(alloc, width, signed, a, b),
        Kind::Lt => lt_word(alloc, width, signed, a, b),
        Kind::Le => le_word(alloc, width, signed, a, b),
        Kind::Ge => ge_word(alloc, width, signed, a, b),
        Kind::Gt => gt_word(alloc, width, signed, a, b),
        _ => unreachable!(),
    }
}

/// The word that an equality of two operands gives, all of at most 4,096 bits.
fn equality_word(alloc: Global, cell: &Cell, a: &Bits, b: &Bits) -> Result<Bits, NoMemory>
    requires kind { is_equality cell.now.kind ≡ true }
    requires some { 1 ≤ y_width cell.now }
    requires limit { y_width cell.now ≤ 4096 }
    requires a { 1 ≤ length a.now }
    requires b { 1 ≤ length b.now }
    ensures { IfOk result (λ w. w ∷ [] ≡ meaning cell.now (a.now ∷ b.now ∷ [])) }
{
    let width = output_width(cell);
    let signed = both_signed(cell);
    match cell.kind() {
        Kind::Eq => eq_word(alloc, width, signed, a, b),
        Kind::Eqx => eq_word(alloc, width, signed, a, b),
        Kind::Ne => ne_word(alloc, width, signed, a, b),
        Kind::Nex => ne_word(alloc, width, signed, a, b),
        _ => unreachable!(),
    }
}

/// The word of an operand.
pub fn operand(operands: &[Bits], port: usize) -> &Bits
    requires { port < length operands.now }
    ensures { result.now ≡ operand operands.now port }
{
    &operands[port]
}

/// What a sum, a product, a division or an order of two operands gives.
fn arithmetic_output(alloc: Global, cell: &Cell, operands: &[Bits]) -> Result<Vec<Bits>, NoMemory>
    requires kind { is_arithmetic cell.now.kind ≡ true }
    requires no_neg { cell.now.kind ≢ Neg }
    requires no_alu { cell.now.kind ≢ Alu }
    requires fitted { IsFitted cell.now }
    requires operands { map length operands.now ≡ operand_widths cell.now }
    ensures { IfOk result (λ ws. ws.items ≡ meaning cell.now operands.now) }
{
    let a = operand(operands, 0);
    let b = operand(operands, 1);
    let word = arithmetic_word(alloc, cell, a, b)?;
    single(alloc, word)
}

/// What an equality of two operands gives.
fn equality_output(alloc: Global, cell: &Cell, operands: &[Bits]) -> Result<Vec<Bits>, NoMemory>
    requires kind { is_equality cell.now.kind ≡ true }
    requires fitted { IsFitted cell.now }
    requires operands { map length operands.now ≡ operand_widths cell.now }
    ensures { IfOk result (λ ws. ws.items ≡ meaning cell.now operands.now) }
{
    let a = operand(operands, 0);
    let b = operand(operands, 1);
    let word = equality_word(alloc, cell, a, b)?;
    single(alloc, word)
}

/// What `$neg` gives.
fn neg_output(alloc: Global, cell: &Cell, operands: &[Bits]) -> Result<Vec<Bits>, NoMemory>
    requires kind { cell.now.kind ≡ Neg }
    requires fitted { IsFitted cell.now }
    requires operands { map length operands.now ≡ operand_widths cell.now }
    ensures { IfOk result (λ ws. ws.items ≡ meaning cell.now operands.now) }
{
    let width = output_width(cell);
    let signed = is_one(cell, Param::ASigned);
    let a = operand(operands, 0);
    let word = neg_word(alloc, width, signed, a)?;
    single(alloc, word)
}

/// The list of three words.
fn three(alloc: Global, words: AluWords) -> Result<Vec<Bits>, NoMemory>
    ensures { IfOk result (λ ws. ws.items ≡ words.x ∷ words.y ∷ words.co ∷ []) }
{
    let mut list = Vec::with_capacity(alloc, 3)?;
    list.push(words.x)?;
    list.push(words.y)?;
    list.push(words.co)?;
    Ok(list)
}

/// What `$alu` gives. Its carry in and its invert have one bit each.
fn alu_outputs(alloc: Global, cell: &Cell, operands: &[Bits]) -> Result<Vec<Bits>, NoMemory>
    requires kind { cell.now.kind ≡ Alu }
    requires fitted { IsFitted cell.now }
    requires operands { map length operands.now ≡ operand_widths cell.now }
    ensures { IfOk result (λ ws. ws.items ≡ meaning cell.now operands.now) }
{
    let width = output_width(cell);
    let signed = both_signed(cell);
    let a = operand(operands, 0);
    let b = operand(operands, 1);
    let ci = operand(operands, 2);
    let bi = operand(operands, 3);
    let carry = ci.get(0);
    let invert = bi.get(0);
    let words = alu_words(alloc, width, signed, a, b, carry, invert)?;
    three(alloc, words)
}

/// The words that a cell gives whose kind works on numbers, from the words of its operands: one for each output.
///
/// The operands have the widths that the cell says, so 1 to 128 bits, or up to 4,096 where the kind is an equality.
pub fn number_words(alloc: Global, cell: &Cell, operands: &[Bits]) -> Result<Vec<Bits>, NoMemory>
    requires kind { is_on_numbers cell.now.kind ≡ true }
    requires fitted { IsFitted cell.now }
    requires operands { map length operands.now ≡ operand_widths cell.now }
    ensures { IfOk result (λ ws. ws.items ≡ meaning cell.now operands.now) }
{
    match cell.kind() {
        Kind::Alu => alu_outputs(alloc, cell, operands),
        Kind::Neg => neg_output(alloc, cell, operands),
        Kind::Eq | Kind::Eqx | Kind::Ne | Kind::Nex => equality_output(alloc, cell, operands),
        _ => arithmetic_output(alloc, cell, operands),
    }
}
