// Modules with one cell, and words for its operands.

ghost use Rattle.std.specs.Prelude.{◌≡◌, ◌↔◌, length, map, IsTrue};
ghost use Rattle.cif_defs.specs.Fitted.{operand_widths};

use cif_bits::Bits;
use cif_cells::{
    Cell, CellList, Connection, Connections, Direction, Kind, Name, Param, ParamValue, Params,
    PortRow, PortWidth, Raw, RawBit, RawBits, RawCell, RawNames, RawParam, RawPort, RawPorts,
    table,
};
use cif_defs::Named;
use std::alloc::{AllocError, Global};
use std::cmp::Ordering;

/// A cell: its kind, and the numbers of its parameters in the order in which the table of kinds has them, as A_SIGNED,
/// B_SIGNED, A_WIDTH, B_WIDTH, Y_WIDTH. A table of digits is given as their number.
#[derive(Clone, Copy)]
pub struct Shape<'a> {
    pub kind: Kind,
    pub numbers: &'a [u8],
}

impl Shape<'_> {
    /// The number of a parameter, or 0 where the cell gives none.
    fn number(&self, param: Param) -> u32 {
        for (given, number) in table::parameters(self.kind).iter().zip(self.numbers) {
            if *given == param {
                return u32::from(*number);
            }
        }
        0
    }

    /// How many bits a port has.
    fn width(&self, width: PortWidth) -> u32 {
        match width {
            PortWidth::One => 1,
            PortWidth::Of(param) => self.number(param),
            PortWidth::Sum(first, second) => {
                self.number(first).saturating_add(self.number(second))
            }
            PortWidth::Product(first, second) => {
                self.number(first).saturating_mul(self.number(second))
            }
            PortWidth::Blocks(count, power) => {
                self.number(count).wrapping_shl(self.number(power))
            }
        }
    }
}

/// Puts something that has a name among others, which stand in byte order of name.
fn insert<T: Named + Drop>(things: &mut Vec<T>, thing: T) -> Result<(), AllocError> {
    let mut place: usize = 0;
    for (index, other) in things.iter().enumerate() {
        if matches!(other.name_bytes().cmp(thing.name_bytes()), Ordering::Less) {
            place = index.saturating_add(1);
        }
    }
    let place = place.min(things.len());
    things.insert(place, thing)?;
    Ok(())
}

/// The name of these bytes.
fn name_of(alloc: Global, text: &str) -> Result<Name, AllocError> {
    Ok(Name::of(Vec::from_slice(alloc, text.as_bytes())?))
}

/// The `count` net numbers from `first` on.
fn nets(alloc: Global, first: u64, count: u32) -> Result<Vec<RawBit>, AllocError> {
    let mut bits = Vec::new(alloc);
    for index in 0..count {
        bits.push(RawBit::Net(first.wrapping_add(u64::from(index))))?;
    }
    Ok(bits)
}

/// A module while it is made: its ports, which are named as those of its one cell, and what the cell connects to them.
#[derive(Drop)]
struct Parts {
    ports: Vec<RawPort>,
    connections: Vec<Connection>,
    next_net: u64,
}

impl Parts {
    /// Adds ports, each with net numbers of its own.
    fn add(
        &mut self,
        alloc: Global,
        shape: &Shape<'_>,
        rows: &[PortRow],
        direction: Direction,
    ) -> Result<(), AllocError> {
        for row in rows {
            let width = shape.width(row.width);
            let name = table::port_name(row.port);
            let port = RawPort {
                name: name_of(alloc, name)?,
                direction,
                bits: RawBits::of(nets(alloc, self.next_net, width)?),
            };
            insert(&mut self.ports, port)?;
            let bits = nets(alloc, self.next_net, width)?;
            let connection = Connection::of(name_of(alloc, name)?, bits);
            insert(&mut self.connections, connection)?;
            self.next_net = self.next_net.wrapping_add(u64::from(width));
        }
        Ok(())
    }
}

/// The `count` digits of a number, highest first.
fn digits_of(alloc: Global, number: u8, count: u32) -> Result<Vec<u8>, AllocError> {
    let mut digits = Vec::new(alloc);
    for place in (0..count).rev() {
        let is_one = u32::from(number).wrapping_shr(place) % 2 == 1;
        digits.push(if is_one { b'1' } else { b'0' })?;
    }
    Ok(digits)
}

/// What a cell gives for a parameter: a number; or the digits of a table, which has a place for each of 2, 4 or 8
/// addresses; or those of a reset value.
fn value_of(
    alloc: Global,
    shape: &Shape<'_>,
    param: Param,
    number: u8,
) -> Result<ParamValue, AllocError> {
    let width = shape.number(Param::Width);
    let count = match param {
        Param::Lut => 1u32.wrapping_shl(width.min(3)),
        Param::SrstValue | Param::ArstValue => width,
        _ => return Ok(ParamValue::Number(i128::from(number))),
    };
    Ok(ParamValue::Text(Name::of(digits_of(alloc, number, count)?)))
}

/// The parameters of a cell.
fn parameters(alloc: Global, shape: &Shape<'_>) -> Result<Vec<RawParam>, AllocError> {
    let mut given = Vec::new(alloc);
    for (param, number) in table::parameters(shape.kind).iter().zip(shape.numbers) {
        let param = RawParam {
            name: name_of(alloc, table::param_name(*param))?,
            value: value_of(alloc, shape, *param, *number)?,
        };
        insert(&mut given, param)?;
    }
    Ok(given)
}

/// The module with one cell, which reads an input port with each operand and drives an output port with each output. Names
/// stand in byte order.
pub fn module_of(alloc: Global, shape: &Shape<'_>) -> Result<Raw, AllocError> {
    let mut parts = Parts {
        ports: Vec::new(alloc),
        connections: Vec::new(alloc),
        next_net: 2,
    };
    parts.add(alloc, shape, table::operands(shape.kind), Direction::Input)?;
    parts.add(alloc, shape, table::outputs(shape.kind), Direction::Output)?;
    parts.add(alloc, shape, table::clocks(shape.kind), Direction::Input)?;
    let cell = RawCell {
        name: name_of(alloc, "cell")?,
        hide: false,
        kind: name_of(alloc, table::type_name(shape.kind))?,
        parameters: Params::of(parameters(alloc, shape)?),
        attributes: Params::of(Vec::new(alloc)),
        connections: Connections::of(parts.connections),
    };
    Ok(Raw {
        module: name_of(alloc, "module")?,
        attributes: Params::of(Vec::new(alloc)),
        ports: RawPorts::of(parts.ports),
        cells: CellList::of(vec![in alloc; cell]?),
        names: RawNames::of(Vec::new(alloc)),
    })
}

/// Whether there is a word of the right width for each operand.
pub fn are_operands(cell: &Cell, words: &[Bits]) -> bool
    ensures { IsTrue result ↔ (map length words.now ≡ operand_widths cell.now) }
{
    let operands = cell.operands();
    if words.len() != operands.len() {
        return false;
    }
    for (port, word) in words.iter().enumerate() {
        if word.bits().len() != operands[port].items().len() {
            return false;
        }
    }
    true
}
