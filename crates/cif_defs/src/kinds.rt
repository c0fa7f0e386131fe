// Kinds of cells, their parameters and their ports.

/// A type of cell of the Yosys cell library, as far as it is known here. Each variant is named after the type's text
/// without `$`: `ReduceAnd` is `$reduce_and`, `Mem` is `$mem_v2`.
#[derive(Clone, Copy, Debug, Drop, PartialEq, Eq)]
pub enum Kind {
    Not,
    Pos,
    Neg,
    And,
    Or,
    Xor,
    Xnor,
    Add,
    Sub,
    Mul,
    Div,
    Mod,
    DivFloor,
    ModFloor,
    Eq,
    Ne,
    Eqx,
    Nex,
    Lt,
    Le,
    Ge,
    Gt,
    ReduceAnd,
    ReduceOr,
    ReduceXor,
    ReduceXnor,
    ReduceBool,
    LogicNot,
    LogicAnd,
    LogicOr,
    Shl,
    Sshl,
    Shr,
    Sshr,
    Shift,
    Shiftx,
    Mux,
    Pmux,
    Bmux,
    Demux,
    Concat,
    Slice,
    Lut,
    Fa,
    Alu,
    ScopeInfo,
    Dff,
    Dffe,
    Sdff,
    Sdffe,
    Sdffce,
    Adff,
    Adffe,
    Mem,
}

/// The role of a kind of cell in a run.
#[derive(Clone, Copy, Debug, Drop, PartialEq, Eq)]
pub enum Role {
    /// It gives its outputs from its operands in the same cycle.
    Combinational,
    /// It shows the word that it stores.
    PlainRegister,
    /// Its reset is asynchronous: while it is active the register shows its reset value at once.
    ResetRegister,
    /// It stores words at addresses, and reads them in the same cycle.
    MemoryBlock,
    /// It has no operands and no outputs.
    CarriedOver,
}

/// A parameter of a cell: `AWidth` is `A_WIDTH`.
#[derive(Clone, Copy, Debug, Drop, PartialEq, Eq)]
pub enum Param {
    ASigned,
    BSigned,
    AWidth,
    BWidth,
    YWidth,
    Width,
    SWidth,
    Offset,
    Lut,
    ClkPolarity,
    EnPolarity,
    SrstPolarity,
    SrstValue,
    ArstPolarity,
    ArstValue,
    Size,
    Abits,
    Init,
    RdPorts,
    WrPorts,
    RdClkEnable,
    RdWideContinuation,
    WrClkEnable,
    WrClkPolarity,
    WrWideContinuation,
}

/// A port of a cell: `RdAddr` is `RD_ADDR`.
#[derive(Clone, Copy, Debug, Drop, PartialEq, Eq)]
pub enum CellPort {
    A,
    B,
    C,
    S,
    Ci,
    Bi,
    D,
    En,
    Srst,
    Arst,
    X,
    Y,
    Co,
    Q,
    Clk,
    RdAddr,
    WrEn,
    WrAddr,
    WrData,
    RdData,
    WrClk,
}

/// How many bits a port of a cell has, by the numbers of the cell's parameters.
#[derive(Clone, Copy, Debug, Drop, PartialEq, Eq)]
pub enum PortWidth {
    /// One bit.
    One,
    /// As many as the parameter says.
    Of(Param),
    /// The sum of both.
    Sum(Param, Param),
    /// The product of both.
    Product(Param, Param),
    /// The first, times 2 to the second.
    Blocks(Param, Param),
}

/// A port of a kind of cell, and how wide it is.
#[derive(Clone, Copy, Debug, Drop, PartialEq, Eq)]
pub struct PortRow {
    /// The port.
    pub port: CellPort,
    /// How many bits it has.
    pub width: PortWidth,
}
