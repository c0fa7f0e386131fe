// Net bits: where they are read, and what drives them.
ghost use Rattle.std.specs.Prelude.{◌≡◌};

use crate::lists::Listed;
use crate::raw_module::Name;

/// A net bit: the place of its net number among the net numbers of the module, which rise.
pub type NetBit = u32;

/// One bit that is read: a net bit, by its place among the net bits, or a constant.
#[derive(Clone, Copy, Debug, Drop, PartialEq, Eq)]
pub enum Src {
    Bit(NetBit),
    Zero,
    One,
}

/// What drives a net bit. Ports of cells are numbered in the order of the table of kinds.
#[derive(Clone, Copy, Debug, Drop, PartialEq, Eq)]
pub enum Driver {
    /// A bit of an input port; `port` counts the input ports alone, in byte order of name.
    Input { port: u32, index: u32 },
    /// A bit of an output of a combinational cell.
    Output { cell: u32, port: u32, index: u32 },
    /// A bit of the word that a register shows.
    Register { cell: u32, index: u32 },
    /// A bit of a read port of a memory.
    Read { cell: u32, port: u32, index: u32 },
    /// The clock.
    Clock,
}

/// A name and the bits that it stands for, lowest first.
#[derive(Debug, Drop)]
pub struct Wire {
    name: Name,
    bits: Listed<Src>,
}

impl Wire {
    /// The wire of this name and these bits. It takes no memory.
    pub fn of(name: Name, bits: Vec<Src>) -> Wire
        ensures { result ≡ record { name = name; bits = bits.items } }
    {
        Wire {
            name,
            bits: Listed::of(bits),
        }
    }

    /// Its name.
    pub fn name(&self) -> &Name
        ensures { result.now ≡ self.now.name }
    {
        &self.name
    }

    /// Its bits.
    pub fn items(&self) -> &[Src]
        ensures { result.now ≡ self.now.bits }
    {
        self.bits.items()
    }
}
