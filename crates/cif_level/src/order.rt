// Orders of cells.
ghost use Rattle.std.specs.Prelude.{◌≡◌};

use std::marker::Model;

/// The passing cells of a netlist, by their places among its cells, each after those that drive it. Contracts see it
/// as that list; only `levels` makes one.
#[derive(Debug, Drop)]
pub struct Levels {
    cells: Vec<u32>,
}

impl Model for Levels {
    ghost use Rattle.std.specs.Prelude.{ℕ, List};

    ghost Value = { List ℕ };

    ghost view = { λ l. l.cells.items };
}

impl Levels {
    /// The levels of these cells. It takes no memory.
    pub(crate) fn of(cells: Vec<u32>) -> Levels
        ensures { result ≡ cells.items }
    {
        Levels { cells }
    }

    /// The cells, in order.
    pub fn items(&self) -> &[u32]
        ensures { result.now ≡ self.now }
    {
        &self.cells
    }
}
