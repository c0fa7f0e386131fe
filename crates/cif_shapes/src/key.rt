// Keys by which the rule of a shape is found. Nothing is proved of a key: the shape that is found is compared.
ghost use Rattle.cif_defs.specs.Fitted.{IsFitted};

use crate::shape::{numbers, table_size};
use cif_kinds::{Cell, Param};

/// An odd number whose multiples spread over all 64 bits.
const SPREAD: u64 = 0x9E37_79B9_7F4A_7C15;

/// A key with one more number taken in.
fn with_number(key: u64, number: u64) -> u64 {
    (key ^ number).wrapping_mul(SPREAD)
}

/// A key with the numbers of a cell taken in.
fn with_numbers(key: u64, cell: &Cell) -> u64 {
    let mut key = key;
    for number in numbers(cell).iter() {
        key = with_number(key, *number);
    }
    key
}

/// A key with the digits of a cell's table taken in.
fn with_table(key: u64, cell: &Cell) -> u64
    requires { IsFitted cell.now }
{
    let mut key = key;
    for index in 0..table_size(cell) {
        key = with_number(key, cell.digit(Param::Lut, index) as u64);
    }
    key
}

/// A key of a cell's shape. Cells of one shape have the same, and others seldom do.
pub(crate) fn key_of(cell: &Cell) -> u64
    requires { IsFitted cell.now }
{
    with_table(with_numbers(cell.kind() as u64, cell), cell)
}
