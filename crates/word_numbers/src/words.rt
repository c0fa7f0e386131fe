// The words of a cell's ports.
ghost use Rattle.std.specs.Prelude.{◌≡◌};

/// Up to four words of at most 128 bits, one for each port in the order of the table of kinds. A port that a cell does
/// not have holds 0.
#[derive(Clone, Copy, Debug, PartialEq, Eq, Drop)]
pub struct Words {
    /// The word of the first port.
    pub a: u128,
    /// The word of the second port.
    pub b: u128,
    /// The word of the third port.
    pub c: u128,
    /// The word of the fourth port.
    pub d: u128,
}

impl Words {
    /// The word of one port.
    pub fn one(a: u128) -> Words
        ensures { result ≡ record { a = a; b = 0; c = 0; d = 0 } }
    {
        Words::three(a, 0, 0)
    }

    /// The words of two ports.
    pub fn two(a: u128, b: u128) -> Words
        ensures { result ≡ record { a = a; b = b; c = 0; d = 0 } }
    {
        Words::three(a, b, 0)
    }

    /// The words of three ports.
    pub fn three(a: u128, b: u128, c: u128) -> Words
        ensures { result ≡ record { a = a; b = b; c = c; d = 0 } }
    {
        Words { a, b, c, d: 0 }
    }
}
