// The cells that are appended: for an operation on words of at most 4,096 bits one cell each.

ghost use Rattle.std.specs.Prelude.{◌≡◌, ◌≤◌, ◌++◌, ◌∷◌, [], length, IfOk, IsTrue, if◌then◌else◌};
ghost use Rattle.cif_defs.specs.Words.{bit};
ghost use Rattle.cif_defs.specs.declared.kinds.CellPort.TheVariants.{Y as OutputY};
ghost use Rattle.cif_term.specs.Formulas.{is_on_numbers, one_width as width_of_one, one_word, two_width as width_of_two, two_word};
ghost use Rattle.cif_raw_runs.specs.Assigned.{raw_word};
ghost use Rattle.cif_emit.specs.Makers.{name_in};
ghost use Rattle.cif_emit.specs.Handed.{IsAdded, IsKept};
ghost use Rattle.cif_emit.specs.CellForms.{binary_numbers, connection as connection_of, is_signed as is_signed_op, number_param as number_param_of, one_kind as kind_of_one, plain_cell, two_kind as kind_of_two, unary_numbers};
ghost use Rattle.cif_emit.specs.Emitted.{IsEmitted};

use crate::names::NameMaker;
use cif_bits::NoMemory;
use cif_defs::{
    CellPort, Connection, Kind, Listed, Name, Param, ParamValue, RawBit, RawCell, RawParam,
};
use cif_kinds::table::{param_name, port_name, type_name};
use cif_term::{Op1, Op2};
use std::alloc::Global;

/// A text as a name.
fn name_of(alloc: Global, text: &str) -> Result<Name, NoMemory>
    ensures { IfOk result (λ name. name ≡ text.now) }
{
    Ok(Name::of(Vec::from_slice(alloc, text.as_bytes())?))
}

/// A parameter that is a number.
fn number_param(alloc: Global, param: Param, number: usize) -> Result<RawParam, NoMemory>
    ensures { IfOk result (λ p. p ≡ number_param_of param number) }
{
    let name = name_of(alloc, param_name(param))?;
    let value = ParamValue::Number(number as i128);
    Ok(RawParam { name, value })
}

/// What a port of a cell is connected to.
fn connection(alloc: Global, port: CellPort, bits: &[RawBit]) -> Result<Connection, NoMemory>
    ensures { IfOk result (λ x. x ≡ connection_of port bits.now) }
{
    let name = name_of(alloc, port_name(port))?;
    Ok(Connection::of(name, Vec::from_slice(alloc, bits)?))
}

/// The parameters of a cell of the unary shape, whose operand is unsigned.
fn unary_parameters(alloc: Global, a: usize, y: usize) -> Result<Vec<RawParam>, NoMemory>
    ensures { IfOk result (λ v. v.items ≡ unary_numbers a y) }
{
    let signed = number_param(alloc, Param::ASigned, 0)?;
    let a_width = number_param(alloc, Param::AWidth, a)?;
    let y_width = number_param(alloc, Param::YWidth, y)?;
    Ok(vec![in alloc; signed, a_width, y_width]?)
}

/// The parameters of a cell of the binary shape, whose operands have one width.
fn binary_parameters(
    alloc: Global,
    signed: bool,
    operand: usize,
    y: usize,
) -> Result<Vec<RawParam>, NoMemory>
    ensures { IfOk result (λ v. v.items ≡ binary_numbers signed operand y) }
{
    let sign = usize::from(signed);
    let a_signed = number_param(alloc, Param::ASigned, sign)?;
    let a_width = number_param(alloc, Param::AWidth, operand)?;
    let b_signed = number_param(alloc, Param::BSigned, sign)?;
    let b_width = number_param(alloc, Param::BWidth, operand)?;
    let y_width = number_param(alloc, Param::YWidth, y)?;
    Ok(vec![in alloc; a_signed, a_width, b_signed, b_width, y_width]?)
}

/// The kind that computes an operation on one word.
fn one_kind(op: Op1) -> Kind
    ensures { result ≡ kind_of_one op }
{
    match op {
        Op1::Not => Kind::Not,
        Op1::ReduceAnd => Kind::ReduceAnd,
        Op1::ReduceOr => Kind::ReduceOr,
        Op1::ReduceXor => Kind::ReduceXor,
    }
}

/// The kind that computes an operation on two words.
fn two_kind(op: Op2) -> Kind
    ensures { result ≡ kind_of_two op }
{
    match op {
        Op2::And => Kind::And,
        Op2::Or => Kind::Or,
        Op2::Xor => Kind::Xor,
        Op2::Add => Kind::Add,
        Op2::Mul => Kind::Mul,
        Op2::Div => Kind::Div,
        Op2::LessUnsigned | Op2::LessSigned => Kind::Lt,
        Op2::Equal => Kind::Eq,
    }
}

/// Whether an operation takes its operands as signed numbers.
fn is_signed(op: Op2) -> bool
    ensures { result ≡ is_signed_op op }
{
    matches!(op, Op2::LessSigned)
}

/// How many bits an operation on one word of this width gives.
fn one_width(op: Op1, width: usize) -> usize
    ensures { result ≡ width_of_one op width }
{
    match op {
        Op1::Not => width,
        Op1::ReduceAnd | Op1::ReduceOr | Op1::ReduceXor => 1,
    }
}

/// How many bits an operation on two words of this width gives.
fn two_width(op: Op2, width: usize) -> usize
    ensures { result ≡ width_of_two op width }
{
    match op {
        Op2::LessUnsigned | Op2::LessSigned | Op2::Equal => 1,
        _ => width,
    }
}

/// Appends a cell with these parameters and operands, and gives the new nets at its output Y.
fn add_cell(
    alloc: Global,
    kind: Kind,
    parameters: Vec<RawParam>,
    mut connections: Vec<Connection>,
    width: usize,
    names: &mut NameMaker,
    cells: &mut Vec<RawCell>,
) -> Result<Vec<RawBit>, NoMemory>
    ensures kept { IsKept names.old names.new }
    ensures ok { IfOk result (λ y. IsAdded names.old names.new cells.old.items cells.new.items
        (plain_cell (name_in names.old names.old.made) kind parameters.items (connections.items ++ connection_of OutputY y.items ∷ []))
        width y.items) }
{
    let bits = names.nets(alloc, width)?;
    connections.push(connection(alloc, CellPort::Y, &bits)?)?;
    let kind = name_of(alloc, type_name(kind))?;
    let name = names.cell_name(alloc)?;
    cells.push(RawCell {
        name,
        hide: false,
        kind,
        parameters: Listed::of(parameters),
        attributes: Listed::of(Vec::new(alloc)),
        connections: Listed::of(connections),
    })?;
    Ok(bits)
}

/// Appends the cell of an operation on one word, and gives what it computes.
pub(crate) fn one_cell(
    alloc: Global,
    op: Op1,
    a: &[RawBit],
    names: &mut NameMaker,
    cells: &mut Vec<RawCell>,
) -> Result<Vec<RawBit>, NoMemory>
    requires some { 1 ≤ length a.now }
    requires limit { length a.now ≤ 4096 }
    ensures kept { IsKept names.old names.new }
    ensures ok { IfOk result (λ y. IsEmitted names.old names.new cells.old.items cells.new.items a.now
        (λ v w. w ≡ one_word op (raw_word v a.now)) 1 (width_of_one op (length a.now)) y.items) }
{
    let width = one_width(op, a.len());
    let parameters = unary_parameters(alloc, a.len(), width)?;
    let operand = connection(alloc, CellPort::A, a)?;
    let connections = vec![in alloc; operand]?;
    add_cell(
        alloc,
        one_kind(op),
        parameters,
        connections,
        width,
        names,
        cells,
    )
}

/// Appends the cell of an operation on two words of one width, and gives what it computes.
pub(crate) fn two_cell(
    alloc: Global,
    op: Op2,
    a: &[RawBit],
    b: &[RawBit],
    names: &mut NameMaker,
    cells: &mut Vec<RawCell>,
) -> Result<Vec<RawBit>, NoMemory>
    requires same { length b.now ≡ length a.now }
    requires some { 1 ≤ length a.now }
    requires limit { length a.now ≤ 4096 }
    requires numbers { IsTrue (is_on_numbers op) → length a.now ≤ 128 }
    ensures kept { IsKept names.old names.new }
    ensures ok { IfOk result (λ y. IsEmitted names.old names.new cells.old.items cells.new.items (a.now ++ b.now)
        (λ v w. w ≡ two_word op (raw_word v a.now) (raw_word v b.now)) 1 (width_of_two op (length a.now)) y.items) }
{
    let width = two_width(op, a.len());
    let parameters = binary_parameters(alloc, is_signed(op), a.len(), width)?;
    let first = connection(alloc, CellPort::A, a)?;
    let second = connection(alloc, CellPort::B, b)?;
    let connections = vec![in alloc; first, second]?;
    add_cell(
        alloc,
        two_kind(op),
        parameters,
        connections,
        width,
        names,
        cells,
    )
}

/// Appends a choice between two words of one width, and gives `one` where the select is 1, else `zero`.
pub(crate) fn choice_cell(
    alloc: Global,
    select: &[RawBit],
    zero: &[RawBit],
    one: &[RawBit],
    names: &mut NameMaker,
    cells: &mut Vec<RawCell>,
) -> Result<Vec<RawBit>, NoMemory>
    requires select { length select.now ≡ 1 }
    requires same { length one.now ≡ length zero.now }
    requires some { 1 ≤ length zero.now }
    requires limit { length zero.now ≤ 4096 }
    ensures kept { IsKept names.old names.new }
    ensures ok { IfOk result (λ y. IsEmitted names.old names.new cells.old.items cells.new.items (select.now ++ (zero.now ++ one.now))
        (λ v w. w ≡ (if bit (raw_word v select.now) 0 then raw_word v one.now else raw_word v zero.now)) 1 (length zero.now) y.items) }
{
    let width = number_param(alloc, Param::Width, zero.len())?;
    let parameters = vec![in alloc; width]?;
    let first = connection(alloc, CellPort::A, zero)?;
    let second = connection(alloc, CellPort::B, one)?;
    let third = connection(alloc, CellPort::S, select)?;
    let connections = vec![in alloc; first, second, third]?;
    add_cell(
        alloc,
        Kind::Mux,
        parameters,
        connections,
        zero.len(),
        names,
        cells,
    )
}
