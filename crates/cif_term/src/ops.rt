// The operations of terms.

/// An operation on one word.
#[derive(Clone, Copy, Debug, Drop, PartialEq, Eq)]
pub enum Op1 {
    /// The complement of each bit, as `$not` gives it at the width of its operand.
    Not,
    /// Whether all bits are 1, in one bit.
    ReduceAnd,
    /// Whether a bit is 1, in one bit.
    ReduceOr,
    /// Whether an odd number of bits is 1, in one bit.
    ReduceXor,
}

/// An operation on two words of one width. `Add`, `Mul`, `Div` and the two `Less` take at most 128 bits.
#[derive(Clone, Copy, Debug, Drop, PartialEq, Eq)]
pub enum Op2 {
    /// The conjunction at each place.
    And,
    /// The disjunction at each place.
    Or,
    /// Whether exactly one bit is 1, at each place.
    Xor,
    /// The sum, modulo 2 to the width.
    Add,
    /// The product, modulo 2 to the width.
    Mul,
    /// The unsigned quotient, rounded down; 0 where the divisor is 0.
    Div,
    /// Whether the first unsigned number is less, in one bit.
    LessUnsigned,
    /// Whether the first signed number is less, in one bit.
    LessSigned,
    /// Whether both words are the same, in one bit.
    Equal,
}
