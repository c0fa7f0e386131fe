// The lines of a stimulus.
ghost use Rattle.std.specs.Prelude.{◌≡◌};
ghost use Rattle.cif_stimulus.specs.StimulusView.{is_start};

use cif_bits::Bits;
use cif_defs::{Name, Wire};

/// A bit and its taint.
#[derive(Clone, Copy, Debug, PartialEq, Eq)]
pub struct Pair {
    /// Whether the bit is 1.
    pub value: bool,
    /// Whether the bit is tainted.
    pub taint: bool,
}

/// A line of a stimulus after the line of the number of cycles. A word and its taint have the same width.
#[derive(Drop)]
pub enum StimLine {
    /// The word with which a register starts.
    Reg {
        /// The register's name.
        cell: Name,
        /// The word, as wide as the register.
        value: Bits,
        /// Which bits of the word are tainted.
        taint: Bits,
    },
    /// The word with which a memory starts at an address.
    Mem {
        /// The memory's name.
        cell: Name,
        /// The address of a row; that of the first row is the memory's offset.
        address: u64,
        /// The word, as wide as a row.
        value: Bits,
        /// Which bits of the word are tainted.
        taint: Bits,
    },
    /// A net whose taint is dropped on purpose.
    Release {
        /// The name by which the net is released.
        name: Name,
        /// What that name stands for in the netlist: a wire of 0s, 1s and net bits, lowest first.
        wire: Wire,
    },
    /// The cycle, counted from 0, of the sets that follow.
    Cycle(u64),
    /// The word that an input port holds from that cycle on, until it is set again.
    Set {
        /// The port's name.
        port: Name,
        /// The word, as wide as the port.
        value: Bits,
        /// Which bits of the word are tainted.
        taint: Bits,
    },
}

impl StimLine {
    /// Whether it says what a register or a memory starts with.
    pub(crate) fn is_start(&self) -> bool
        ensures { result ≡ is_start self.now }
    {
        matches!(self, StimLine::Reg { .. } | StimLine::Mem { .. })
    }
}
