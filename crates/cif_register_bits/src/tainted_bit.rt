// A bit and its taint, and the choice between two of them.
ghost use Rattle.std.specs.Prelude.{◌≡◌};

/// A bit, and whether it is tainted, which means what it does in GLIFT and CellIFT: a tainted bit may be 0 and 1.
#[derive(Clone, Copy, Debug, Drop)]
pub struct TaintedBit {
    /// The bit.
    pub value: bool,
    /// Its taint.
    pub taint: bool,
}

impl TaintedBit {
    ghost use Rattle.cif_register_bits.specs.Choices.{chosen, untainted};

    /// A bit that is never tainted.
    pub fn untainted(value: bool) -> TaintedBit
        ensures { result ≡ untainted value }
    {
        TaintedBit {
            value,
            taint: false,
        }
    }

    /// `one` where this bit is 1, else `zero`. The taint is exact, where the three bits depend on nothing in common.
    pub fn choose(self, zero: TaintedBit, one: TaintedBit) -> TaintedBit
        ensures { result ≡ chosen self zero one }
    {
        let chosen = if self.value { one } else { zero };
        if !self.taint {
            return chosen;
        }
        TaintedBit {
            value: chosen.value,
            taint: zero.taint | one.taint | (zero.value ^ one.value),
        }
    }
}
