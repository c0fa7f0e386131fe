// Places of a netlist that hold a bit, and places in a cycle.

/// A place of a netlist that holds a bit. Ports of cells are numbered in the order of the table of kinds.
#[derive(Clone, Copy, Debug, Drop, PartialEq, Eq)]
pub enum Place {
    /// A bit of an input port; `port` counts the input ports alone, in byte order of name.
    Input { port: u32, index: u32 },
    /// A stored bit of a register.
    State { cell: u32, index: u32 },
    /// A stored bit of a memory, in the word at an address that includes OFFSET.
    Word { cell: u32, address: u64, index: u32 },
    /// The flag of a memory: once set, every word of it counts as tainted.
    Flag { cell: u32 },
    /// A bit of an output of a cell. A memory has one output, port 0, which joins its read ports.
    Out { cell: u32, port: u32, index: u32 },
}

/// A place in a cycle.
#[derive(Clone, Copy, Debug, Drop, PartialEq, Eq)]
pub struct Member {
    pub cycle: u64,
    pub place: Place,
}
