// Shapes of cells.
ghost use Rattle.std.specs.Prelude.{◌≡◌, ◌↔◌, IfOk, IsTrue};
ghost use Rattle.cif_defs.specs.Fitted.{IsFitted};
ghost use Rattle.cif_shapes.specs.Shapes.{numbers_of, shape_of, table_of, table_size};

use cif_bits::NoMemory;
use cif_kinds::{Cell, Kind, Listed, Param};
use std::alloc::{AllocError, Global};

/// All that the outputs of a combinational cell and their taints depend on, beside the words of its operands.
#[derive(Debug, Drop)]
pub struct Shape {
    /// The kind.
    pub kind: Kind,
    /// The numbers of the parameters `A_SIGNED`, `B_SIGNED`, `A_WIDTH`, `B_WIDTH`, `Y_WIDTH`, `WIDTH`, `S_WIDTH` and
    /// `OFFSET`, where one that the cell lacks is 0.
    pub numbers: [u64; 8],
    /// The digits of the table of a `$lut`, one for each word of its operand, lowest first. Other kinds have none.
    pub table: Listed<bool>,
}

/// The numbers that a cell gives.
pub(crate) fn numbers(cell: &Cell) -> [u64; 8]
    ensures { result ≡ numbers_of cell.now }
{
    [
        cell.number(Param::ASigned),
        cell.number(Param::BSigned),
        cell.number(Param::AWidth),
        cell.number(Param::BWidth),
        cell.number(Param::YWidth),
        cell.number(Param::Width),
        cell.number(Param::SWidth),
        cell.number(Param::Offset),
    ]
}

/// How many digits the table of a cell has, 4,096 at most.
pub(crate) fn table_size(cell: &Cell) -> u32
    requires { IsFitted cell.now }
    ensures { result ≡ table_size cell.now.kind cell.now }
{
    match cell.kind() {
        Kind::Lut => 1 << cell.number(Param::Width) as u32,
        _ => 0,
    }
}

/// The digits of the table of a cell.
fn table(alloc: Global, cell: &Cell) -> Result<Vec<bool>, AllocError>
    requires { IsFitted cell.now }
    ensures { IfOk result (λ v. v.items ≡ table_of cell.now) }
{
    (0..table_size(cell))
        .map(|index| cell.digit(Param::Lut, index))
        .collect(alloc)
}

/// Whether these are the numbers that a cell gives.
fn has_numbers(numbers_given: &[u64; 8], cell: &Cell) -> bool
    ensures { IsTrue result ↔ (numbers_given.now ≡ numbers_of cell.now) }
{
    *numbers_given == numbers(cell)
}

/// Whether these are the digits of the table of a cell. It takes no memory.
fn has_table(digits: &[bool], cell: &Cell) -> bool
    requires { IsFitted cell.now }
    ensures { IsTrue result ↔ (digits.now ≡ table_of cell.now) }
{
    if digits.len() != table_size(cell) as usize {
        return false;
    }
    for i in 0..digits.len() {
        let own = cell.digit(Param::Lut, i as u32);
        if digits[i] != own {
            return false;
        }
    }
    true
}

/// Whether two kinds are the same.
fn is_same_kind(first: Kind, second: Kind) -> bool
    ensures { IsTrue result ↔ (first ≡ second) }
{
    first == second
}

impl Shape {
    /// The shape of a combinational cell.
    pub fn of(alloc: Global, cell: &Cell) -> Result<Shape, NoMemory>
        requires { IsFitted cell.now }
        ensures { IfOk result (λ s. s ≡ shape_of cell.now) }
    {
        let table = table(alloc, cell)?;
        Ok(Shape {
            kind: cell.kind(),
            numbers: numbers(cell),
            table: Listed::of(table),
        })
    }

    /// Whether this is the shape of a cell. It takes no memory.
    pub fn is_of(&self, cell: &Cell) -> bool
        requires { IsFitted cell.now }
        ensures { IsTrue result ↔ (self.now ≡ shape_of cell.now) }
    {
        if !is_same_kind(self.kind, cell.kind()) {
            return false;
        }
        if !has_numbers(&self.numbers, cell) {
            return false;
        }
        has_table(self.table.items(), cell)
    }
}
