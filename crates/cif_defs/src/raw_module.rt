// A module as a netlist file has it, before any check of what it says.
ghost use Rattle.std.specs.Prelude.{◌≡◌};

use crate::lists::Listed;

/// The bytes of a name.
pub type Name = Listed<u8>;

/// A bit as the file writes it: a net number, or one of the texts "0", "1", "x" and "z".
#[derive(Clone, Copy, Debug, Drop, PartialEq, Eq)]
pub enum RawBit {
    Net(u64),
    Zero,
    One,
    X,
    Z,
}

/// Bits, lowest first.
pub type RawBits = Listed<RawBit>;

/// The value of a parameter or an attribute, in one of its two spellings.
#[derive(Debug, Drop)]
pub enum ParamValue {
    Text(Name),
    Number(i128),
}

/// A parameter or an attribute.
#[derive(Debug, Drop)]
pub struct RawParam {
    pub name: Name,
    pub value: ParamValue,
}

/// Parameters or attributes, in byte order of name, each name once.
pub type Params = Listed<RawParam>;

/// What a cell connects to one of its ports.
#[derive(Debug, Drop)]
pub struct Connection {
    name: Name,
    bits: RawBits,
}

impl Connection {
    /// The connection of a port of this name. It takes no memory.
    pub fn of(name: Name, bits: Vec<RawBit>) -> Connection
        ensures { result ≡ record { name = name; bits = bits.items } }
    {
        Connection {
            name,
            bits: Listed::of(bits),
        }
    }

    /// The port's name.
    pub fn name(&self) -> &Name
        ensures { result.now ≡ self.now.name }
    {
        &self.name
    }

    /// Its bits.
    pub fn items(&self) -> &[RawBit]
        ensures { result.now ≡ self.now.bits }
    {
        self.bits.items()
    }
}

/// Connections, in byte order of name, each name once.
pub type Connections = Listed<Connection>;

/// The direction of a module's port.
#[derive(Clone, Copy, Debug, Drop, PartialEq, Eq)]
pub enum Direction {
    Input,
    Output,
    Inout,
}

/// A port of the module.
#[derive(Debug, Drop)]
pub struct RawPort {
    pub name: Name,
    pub direction: Direction,
    pub bits: RawBits,
}

/// Ports, in byte order of name, each name once.
pub type RawPorts = Listed<RawPort>;

/// A cell; `kind` is the text of its type.
#[derive(Debug, Drop)]
pub struct RawCell {
    pub name: Name,
    pub hide: bool,
    pub kind: Name,
    pub parameters: Params,
    pub attributes: Params,
    pub connections: Connections,
}

/// Cells, in byte order of name, each name once.
pub type CellList = Listed<RawCell>;

/// A named net.
#[derive(Debug, Drop)]
pub struct RawName {
    pub name: Name,
    pub hide: bool,
    pub bits: RawBits,
    pub attributes: Params,
}

/// Named nets, in byte order of name, each name once.
pub type RawNames = Listed<RawName>;

/// A module as a netlist file has it.
#[derive(Debug, Drop)]
pub struct Raw {
    pub module: Name,
    pub attributes: Params,
    pub ports: RawPorts,
    pub cells: CellList,
    pub names: RawNames,
}
