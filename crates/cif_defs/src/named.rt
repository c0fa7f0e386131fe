// Things that have a name, and their order.
ghost use Rattle.std.specs.Prelude.{◌≡◌, ◌↔◌, ℕ, List, map, IsTrue};
ghost use Rattle.std.specs.List.{AllByRecursion};
ghost use Rattle.cif_defs.specs.Order.{AreInOrder, IsCellInOrder, IsInOrder, IsNetInOrder, place_among};

use crate::nets::Wire;
use crate::raw_module::{Connection, Raw, RawCell, RawName, RawParam, RawPort};
use std::cmp::Ordering;

/// Something that has a name.
pub trait Named {
    /// The name.
    ghost name_of: { Self → List ℕ };

    /// The bytes of its name.
    fn name_bytes(&self) -> &[u8]
        ensures { result.now ≡ name_of self.now };
}

impl Named for RawParam {
    ghost name_of = { λ p. p.name };

    fn name_bytes(&self) -> &[u8] {
        self.name.items()
    }
}

impl Named for Connection {
    ghost name_of = { λ x. x.name };

    fn name_bytes(&self) -> &[u8] {
        self.name().items()
    }
}

impl Named for RawPort {
    ghost name_of = { λ p. p.name };

    fn name_bytes(&self) -> &[u8] {
        self.name.items()
    }
}

impl Named for RawCell {
    ghost name_of = { λ c. c.name };

    fn name_bytes(&self) -> &[u8] {
        self.name.items()
    }
}

impl Named for RawName {
    ghost name_of = { λ n. n.name };

    fn name_bytes(&self) -> &[u8] {
        self.name.items()
    }
}

impl Named for Wire {
    ghost name_of = { λ w. w.name };

    fn name_bytes(&self) -> &[u8] {
        self.name().items()
    }
}

/// Whether the names of some things stand in byte order, each once.
pub fn are_in_order<T: Named>(things: &[T]) -> bool
    ensures { IsTrue result ↔ AreInOrder (map T.name_of things.now) }
{
    let mut index = 1;
    while index < things.len() {
        let order = things[index - 1]
            .name_bytes()
            .cmp(things[index].name_bytes());
        if !matches!(order, Ordering::Less) {
            return false;
        }
        index += 1;
    }
    true
}

/// The place of the thing of a name, among things whose names stand in byte order, each once. It looks at the middle of
/// what is left, again and again.
pub fn place_in_order<T: Named>(things: &[T], name: &[u8]) -> Option<usize>
    requires { AreInOrder (map T.name_of things.now) }
    ensures { result ≡ place_among T.name_of things.now name.now }
{
    let mut low = 0;
    let mut high = things.len();
    while low < high {
        let middle = low + (high - low) / 2;
        match things[middle].name_bytes().cmp(name) {
            Ordering::Less => low = middle + 1,
            Ordering::Equal => return Some(middle),
            Ordering::Greater => high = middle,
        }
    }
    None
}

impl RawCell {
    /// Whether its parameters, its attributes and its connections stand in byte order of name, each name once.
    pub fn is_in_order(&self) -> bool
        ensures { IsTrue result ↔ IsCellInOrder self.now }
    {
        if !are_in_order(self.parameters.items()) {
            return false;
        }
        if !are_in_order(self.attributes.items()) {
            return false;
        }
        are_in_order(self.connections.items())
    }
}

/// Whether each of some cells is in order.
fn are_cells_in_order(cells: &[RawCell]) -> bool
    ensures { IsTrue result ↔ AllByRecursion IsCellInOrder cells.now }
{
    for cell in cells {
        if !cell.is_in_order() {
            return false;
        }
    }
    true
}

/// Whether the attributes of each of some named nets stand in byte order of name, each name once.
fn are_nets_in_order(nets: &[RawName]) -> bool
    ensures { IsTrue result ↔ AllByRecursion IsNetInOrder nets.now }
{
    for net in nets {
        if !are_in_order(net.attributes.items()) {
            return false;
        }
    }
    true
}

impl Raw {
    /// Whether all names in it stand in byte order, each once in its list: the condition of a build.
    pub fn is_in_order(&self) -> bool
        ensures { IsTrue result ↔ IsInOrder self.now }
    {
        if !are_in_order(self.attributes.items()) {
            return false;
        }
        if !are_in_order(self.ports.items()) {
            return false;
        }
        if !are_in_order(self.cells.items()) {
            return false;
        }
        if !are_cells_in_order(self.cells.items()) {
            return false;
        }
        if !are_in_order(self.names.items()) {
            return false;
        }
        are_nets_in_order(self.names.items())
    }
}
