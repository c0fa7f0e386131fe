// The widths of a cell's ports.
ghost use Rattle.std.specs.Prelude.{◌≡◌, ◌≤◌, true};
ghost use Rattle.cif_defs.specs.Cells.{both_signed, number_of, y_width};
ghost use Rattle.cif_defs.specs.Fitted.{IsFitted};
ghost use Rattle.rule_coarse.specs.CoarseFormulas.{covers_coarse};

use cif_kinds::{Cell, Param};

/// How many bits A, B and Y of a cell have, 1 to 128 each, and whether both operands are signed.
#[derive(Clone, Copy)]
pub struct Shape {
    pub a: u32,
    pub b: u32,
    pub y: u32,
    pub signed: bool,
}

impl Shape {
    /// The shape of a cell.
    pub fn of(cell: &Cell) -> Shape
        requires covered { covers_coarse cell.now.kind ≡ true }
        requires fitted { IsFitted cell.now }
        ensures a { result.a ≡ number_of cell.now Param.AWidth }
        ensures b { result.b ≡ number_of cell.now Param.BWidth }
        ensures y { result.y ≡ y_width cell.now }
        ensures signed { result.signed ≡ both_signed cell.now }
        ensures limit_a { result.a ≤ 128 }
        ensures limit_b { result.b ≤ 128 }
        ensures limit_y { result.y ≤ 128 }
    {
        Shape {
            a: cell.number(Param::AWidth) as u32,
            b: cell.number(Param::BWidth) as u32,
            y: cell.number(Param::YWidth) as u32,
            signed: (cell.number(Param::ASigned) == 1) & (cell.number(Param::BSigned) == 1),
        }
    }
}
