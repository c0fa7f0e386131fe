// Operations on words of up to 65,536 bits: wide words are cut into pieces of 4,096 bits, the widest port of a cell.

ghost use Rattle.std.specs.Prelude.{◌≡◌, ◌<◌, ◌≤◌, ◌++◌, length, IfOk, IsTrue, if◌then◌else◌};
ghost use Rattle.cif_defs.specs.Words.{bit};
ghost use Rattle.cif_term.specs.Formulas.{is_on_numbers, one_cost, one_width, one_word, pieces, two_cost, two_width, two_word};
ghost use Rattle.cif_term.specs.declared.ops.Op1.TheVariants.{Not, ReduceAnd};
ghost use Rattle.cif_term.specs.declared.ops.Op2.TheVariants.{Equal};
ghost use Rattle.cif_raw_runs.specs.Assigned.{raw_word};
ghost use Rattle.cif_emit.specs.Handed.{IsKept};
ghost use Rattle.cif_emit.specs.Emitted.{IsEmitted};
ghost use Rattle.cif_emit.specs.Pieces.{are_same, is_bitwise, is_reduction, piece_at, reduced};

use crate::cells::{choice_cell, one_cell, two_cell};
use crate::names::NameMaker;
use cif_bits::NoMemory;
use cif_defs::{RawBit, RawCell};
use cif_term::{Op1, Op2};
use std::alloc::Global;

/// How many bits a port of a cell may have.
const PIECE: usize = 4_096;

/// How many pieces a word of this width has.
fn piece_count(width: usize) -> usize
    requires { width ≤ 65536 }
    ensures { result ≡ pieces width }
{
    (width + (PIECE - 1)) / PIECE
}

/// A piece of a word.
fn piece(word: &[RawBit], index: usize) -> &[RawBit]
    requires { index < pieces (length word.now) }
    ensures value { result.now ≡ piece_at word.now index }
{
    let start = index * PIECE;
    let end = word.len().min(start + PIECE);
    &word[start..end]
}

/// The complement, piece by piece.
fn complement(
    alloc: Global,
    a: &[RawBit],
    names: &mut NameMaker,
    cells: &mut Vec<RawCell>,
) -> Result<Vec<RawBit>, NoMemory>
    requires { length a.now ≤ 65536 }
    ensures kept { IsKept names.old names.new }
    ensures ok { IfOk result (λ y. IsEmitted names.old names.new cells.old.items cells.new.items a.now
        (λ v w. w ≡ one_word Not (raw_word v a.now)) (pieces (length a.now)) (length a.now) y.items) }
{
    let mut bits = Vec::new(alloc);
    for index in 0..piece_count(a.len()) {
        let part = one_cell(alloc, Op1::Not, piece(a, index), names, cells)?;
        bits.extend_from_slice(&part)?;
    }
    Ok(bits)
}

/// An operation at each place, piece by piece.
fn bitwise(
    alloc: Global,
    op: Op2,
    a: &[RawBit],
    b: &[RawBit],
    names: &mut NameMaker,
    cells: &mut Vec<RawCell>,
) -> Result<Vec<RawBit>, NoMemory>
    requires bitwise { IsTrue (is_bitwise op) }
    requires same { length b.now ≡ length a.now }
    requires limit { length a.now ≤ 65536 }
    ensures kept { IsKept names.old names.new }
    ensures ok { IfOk result (λ y. IsEmitted names.old names.new cells.old.items cells.new.items (a.now ++ b.now)
        (λ v w. w ≡ two_word op (raw_word v a.now) (raw_word v b.now)) (pieces (length a.now)) (length a.now) y.items) }
{
    let mut bits = Vec::new(alloc);
    for index in 0..piece_count(a.len()) {
        let part = two_cell(alloc, op, piece(a, index), piece(b, index), names, cells)?;
        bits.extend_from_slice(&part)?;
    }
    Ok(bits)
}

/// One bit for each piece, which reduce to what the word reduces to.
fn reduced_pieces(
    alloc: Global,
    op: Op1,
    a: &[RawBit],
    names: &mut NameMaker,
    cells: &mut Vec<RawCell>,
) -> Result<Vec<RawBit>, NoMemory>
    requires reduction { IsTrue (is_reduction op) }
    requires limit { length a.now ≤ 65536 }
    ensures kept { IsKept names.old names.new }
    ensures ok { IfOk result (λ y. IsEmitted names.old names.new cells.old.items cells.new.items a.now
        (λ v w. reduced op w ≡ reduced op (raw_word v a.now)) (pieces (length a.now)) (pieces (length a.now)) y.items) }
{
    let mut bits = Vec::new(alloc);
    for index in 0..piece_count(a.len()) {
        let part = one_cell(alloc, op, piece(a, index), names, cells)?;
        bits.extend_from_slice(&part)?;
    }
    Ok(bits)
}

/// A reduction; one more cell joins the bits of several pieces.
fn reduction(
    alloc: Global,
    op: Op1,
    a: &[RawBit],
    names: &mut NameMaker,
    cells: &mut Vec<RawCell>,
) -> Result<Vec<RawBit>, NoMemory>
    requires reduction { IsTrue (is_reduction op) }
    requires some { 1 ≤ length a.now }
    requires limit { length a.now ≤ 65536 }
    ensures kept { IsKept names.old names.new }
    ensures ok { IfOk result (λ y. IsEmitted names.old names.new cells.old.items cells.new.items a.now
        (λ v w. w ≡ one_word op (raw_word v a.now)) (one_cost op (length a.now)) 1 y.items) }
{
    if a.len() <= PIECE {
        return one_cell(alloc, op, a, names, cells);
    }
    let bits = reduced_pieces(alloc, op, a, names, cells)?;
    one_cell(alloc, op, &bits, names, cells)
}

/// One bit for each piece, which are all 1 where the words are the same.
fn compared_pieces(
    alloc: Global,
    a: &[RawBit],
    b: &[RawBit],
    names: &mut NameMaker,
    cells: &mut Vec<RawCell>,
) -> Result<Vec<RawBit>, NoMemory>
    requires same { length b.now ≡ length a.now }
    requires limit { length a.now ≤ 65536 }
    ensures kept { IsKept names.old names.new }
    ensures ok { IfOk result (λ y. IsEmitted names.old names.new cells.old.items cells.new.items (a.now ++ b.now)
        (λ v w. reduced ReduceAnd w ≡ are_same (raw_word v a.now) (raw_word v b.now)) (pieces (length a.now)) (pieces (length a.now)) y.items) }
{
    let mut bits = Vec::new(alloc);
    for index in 0..piece_count(a.len()) {
        let part = two_cell(
            alloc,
            Op2::Equal,
            piece(a, index),
            piece(b, index),
            names,
            cells,
        )?;
        bits.extend_from_slice(&part)?;
    }
    Ok(bits)
}

/// Whether two words are the same; one more cell joins the bits of several pieces.
fn equality(
    alloc: Global,
    a: &[RawBit],
    b: &[RawBit],
    names: &mut NameMaker,
    cells: &mut Vec<RawCell>,
) -> Result<Vec<RawBit>, NoMemory>
    requires same { length b.now ≡ length a.now }
    requires some { 1 ≤ length a.now }
    requires limit { length a.now ≤ 65536 }
    ensures kept { IsKept names.old names.new }
    ensures ok { IfOk result (λ y. IsEmitted names.old names.new cells.old.items cells.new.items (a.now ++ b.now)
        (λ v w. w ≡ two_word Equal (raw_word v a.now) (raw_word v b.now)) (two_cost Equal (length a.now)) 1 y.items) }
{
    if a.len() <= PIECE {
        return two_cell(alloc, Op2::Equal, a, b, names, cells);
    }
    let bits = compared_pieces(alloc, a, b, names, cells)?;
    one_cell(alloc, Op1::ReduceAnd, &bits, names, cells)
}

/// Appends cells of an operation on one word, and gives what they compute.
pub(crate) fn emit_one(
    alloc: Global,
    op: Op1,
    a: &[RawBit],
    names: &mut NameMaker,
    cells: &mut Vec<RawCell>,
) -> Result<Vec<RawBit>, NoMemory>
    requires some { 1 ≤ length a.now }
    requires limit { length a.now ≤ 65536 }
    ensures kept { IsKept names.old names.new }
    ensures ok { IfOk result (λ y. IsEmitted names.old names.new cells.old.items cells.new.items a.now
        (λ v w. w ≡ one_word op (raw_word v a.now)) (one_cost op (length a.now)) (one_width op (length a.now)) y.items) }
{
    match op {
        Op1::Not => complement(alloc, a, names, cells),
        Op1::ReduceAnd => reduction(alloc, Op1::ReduceAnd, a, names, cells),
        Op1::ReduceOr => reduction(alloc, Op1::ReduceOr, a, names, cells),
        Op1::ReduceXor => reduction(alloc, Op1::ReduceXor, a, names, cells),
    }
}

/// Appends cells of an operation on two words of one width, and gives what they compute.
pub(crate) fn emit_two(
    alloc: Global,
    op: Op2,
    a: &[RawBit],
    b: &[RawBit],
    names: &mut NameMaker,
    cells: &mut Vec<RawCell>,
) -> Result<Vec<RawBit>, NoMemory>
    requires same { length b.now ≡ length a.now }
    requires some { 1 ≤ length a.now }
    requires limit { length a.now ≤ 65536 }
    requires numbers { IsTrue (is_on_numbers op) → length a.now ≤ 128 }
    ensures kept { IsKept names.old names.new }
    ensures ok { IfOk result (λ y. IsEmitted names.old names.new cells.old.items cells.new.items (a.now ++ b.now)
        (λ v w. w ≡ two_word op (raw_word v a.now) (raw_word v b.now)) (two_cost op (length a.now)) (two_width op (length a.now)) y.items) }
{
    match op {
        Op2::And | Op2::Or | Op2::Xor => bitwise(alloc, op, a, b, names, cells),
        Op2::Equal => equality(alloc, a, b, names, cells),
        Op2::Add | Op2::Mul | Op2::Div | Op2::LessUnsigned | Op2::LessSigned => {
            two_cell(alloc, op, a, b, names, cells)
        }
    }
}

/// Appends cells that choose between two words of one width, piece by piece: `one` where the select is 1, else `zero`.
pub(crate) fn emit_choice(
    alloc: Global,
    select: &[RawBit],
    zero: &[RawBit],
    one: &[RawBit],
    names: &mut NameMaker,
    cells: &mut Vec<RawCell>,
) -> Result<Vec<RawBit>, NoMemory>
    requires select { length select.now ≡ 1 }
    requires same { length one.now ≡ length zero.now }
    requires limit { length zero.now ≤ 65536 }
    ensures kept { IsKept names.old names.new }
    ensures ok { IfOk result (λ y. IsEmitted names.old names.new cells.old.items cells.new.items (select.now ++ (zero.now ++ one.now))
        (λ v w. w ≡ (if bit (raw_word v select.now) 0 then raw_word v one.now else raw_word v zero.now))
        (pieces (length zero.now)) (length zero.now) y.items) }
{
    let mut bits = Vec::new(alloc);
    for index in 0..piece_count(zero.len()) {
        let part = choice_cell(
            alloc,
            select,
            piece(zero, index),
            piece(one, index),
            names,
            cells,
        )?;
        bits.extend_from_slice(&part)?;
    }
    Ok(bits)
}
