// The table of kinds: what the types of cells are called, and which parameters and ports they have.
// The arms, but those of width_limit, are printed by docs/tables.py from the Yosys cell library's parameters and ports.
ghost use Rattle.std.specs.Prelude.{◌≡◌};
ghost use Rattle.cif_defs.specs.Kinds.{role_of};
ghost use Rattle.cif_defs.specs.Table.{type_text, all_kinds, kind_of as kind_of_text, param_text, port_text, parameters_of, operands_of, outputs_of, clocks_of, ports_of, is_table as is_table_param, is_mask as is_mask_param, width_limit as limit_of};

use cif_defs::{CellPort, Kind, Param, PortRow, PortWidth, Role};

const NUMBER_LIMIT: u64 = 128;

const PLAIN_LIMIT: u64 = 4096;

const JOINED_LIMIT: u64 = 65536;

const LUT_LIMIT: u64 = 12;

/// Every kind.
const ALL_KINDS: [Kind; 54] = [
    Kind::Not,
    Kind::Pos,
    Kind::Neg,
    Kind::And,
    Kind::Or,
    Kind::Xor,
    Kind::Xnor,
    Kind::Add,
    Kind::Sub,
    Kind::Mul,
    Kind::Div,
    Kind::Mod,
    Kind::DivFloor,
    Kind::ModFloor,
    Kind::Eq,
    Kind::Ne,
    Kind::Eqx,
    Kind::Nex,
    Kind::Lt,
    Kind::Le,
    Kind::Ge,
    Kind::Gt,
    Kind::ReduceAnd,
    Kind::ReduceOr,
    Kind::ReduceXor,
    Kind::ReduceXnor,
    Kind::ReduceBool,
    Kind::LogicNot,
    Kind::LogicAnd,
    Kind::LogicOr,
    Kind::Shl,
    Kind::Sshl,
    Kind::Shr,
    Kind::Sshr,
    Kind::Shift,
    Kind::Shiftx,
    Kind::Mux,
    Kind::Pmux,
    Kind::Bmux,
    Kind::Demux,
    Kind::Concat,
    Kind::Slice,
    Kind::Lut,
    Kind::Fa,
    Kind::Alu,
    Kind::ScopeInfo,
    Kind::Dff,
    Kind::Dffe,
    Kind::Sdff,
    Kind::Sdffe,
    Kind::Sdffce,
    Kind::Adff,
    Kind::Adffe,
    Kind::Mem,
];

/// The text of a type of cell in the Yosys cell library.
pub fn type_name(kind: Kind) -> &'static str
    ensures { result.now ≡ type_text kind }
{
    match kind {
        Kind::Not => "$not",
        Kind::Pos => "$pos",
        Kind::Neg => "$neg",
        Kind::And => "$and",
        Kind::Or => "$or",
        Kind::Xor => "$xor",
        Kind::Xnor => "$xnor",
        Kind::Add => "$add",
        Kind::Sub => "$sub",
        Kind::Mul => "$mul",
        Kind::Div => "$div",
        Kind::Mod => "$mod",
        Kind::DivFloor => "$divfloor",
        Kind::ModFloor => "$modfloor",
        Kind::Eq => "$eq",
        Kind::Ne => "$ne",
        Kind::Eqx => "$eqx",
        Kind::Nex => "$nex",
        Kind::Lt => "$lt",
        Kind::Le => "$le",
        Kind::Ge => "$ge",
        Kind::Gt => "$gt",
        Kind::ReduceAnd => "$reduce_and",
        Kind::ReduceOr => "$reduce_or",
        Kind::ReduceXor => "$reduce_xor",
        Kind::ReduceXnor => "$reduce_xnor",
        Kind::ReduceBool => "$reduce_bool",
        Kind::LogicNot => "$logic_not",
        Kind::LogicAnd => "$logic_and",
        Kind::LogicOr => "$logic_or",
        Kind::Shl => "$shl",
        Kind::Sshl => "$sshl",
        Kind::Shr => "$shr",
        Kind::Sshr => "$sshr",
        Kind::Shift => "$shift",
        Kind::Shiftx => "$shiftx",
        Kind::Mux => "$mux",
        Kind::Pmux => "$pmux",
        Kind::Bmux => "$bmux",
        Kind::Demux => "$demux",
        Kind::Concat => "$concat",
        Kind::Slice => "$slice",
        Kind::Lut => "$lut",
        Kind::Fa => "$fa",
        Kind::Alu => "$alu",
        Kind::ScopeInfo => "$scopeinfo",
        Kind::Dff => "$dff",
        Kind::Dffe => "$dffe",
        Kind::Sdff => "$sdff",
        Kind::Sdffe => "$sdffe",
        Kind::Sdffce => "$sdffce",
        Kind::Adff => "$adff",
        Kind::Adffe => "$adffe",
        Kind::Mem => "$mem_v2",
    }
}

/// The kind of a type's text; None where the table lacks it.
pub fn kind_of(text: &[u8]) -> Option<Kind>
    ensures { result ≡ kind_of_text text.now }
{
    ALL_KINDS
        .iter()
        .copied()
        .find(|kind| type_name(*kind).as_bytes() == text)
}

/// The name of a parameter.
pub fn param_name(param: Param) -> &'static str
    ensures { result.now ≡ param_text param }
{
    match param {
        Param::ASigned => "A_SIGNED",
        Param::BSigned => "B_SIGNED",
        Param::AWidth => "A_WIDTH",
        Param::BWidth => "B_WIDTH",
        Param::YWidth => "Y_WIDTH",
        Param::Width => "WIDTH",
        Param::SWidth => "S_WIDTH",
        Param::Offset => "OFFSET",
        Param::Lut => "LUT",
        Param::ClkPolarity => "CLK_POLARITY",
        Param::EnPolarity => "EN_POLARITY",
        Param::SrstPolarity => "SRST_POLARITY",
        Param::SrstValue => "SRST_VALUE",
        Param::ArstPolarity => "ARST_POLARITY",
        Param::ArstValue => "ARST_VALUE",
        Param::Size => "SIZE",
        Param::Abits => "ABITS",
        Param::Init => "INIT",
        Param::RdPorts => "RD_PORTS",
        Param::WrPorts => "WR_PORTS",
        Param::RdClkEnable => "RD_CLK_ENABLE",
        Param::RdWideContinuation => "RD_WIDE_CONTINUATION",
        Param::WrClkEnable => "WR_CLK_ENABLE",
        Param::WrClkPolarity => "WR_CLK_POLARITY",
        Param::WrWideContinuation => "WR_WIDE_CONTINUATION",
    }
}

/// The name of a port of a cell.
pub fn port_name(port: CellPort) -> &'static str
    ensures { result.now ≡ port_text port }
{
    match port {
        CellPort::A => "A",
        CellPort::B => "B",
        CellPort::C => "C",
        CellPort::S => "S",
        CellPort::Ci => "CI",
        CellPort::Bi => "BI",
        CellPort::D => "D",
        CellPort::En => "EN",
        CellPort::Srst => "SRST",
        CellPort::Arst => "ARST",
        CellPort::X => "X",
        CellPort::Y => "Y",
        CellPort::Co => "CO",
        CellPort::Q => "Q",
        CellPort::Clk => "CLK",
        CellPort::RdAddr => "RD_ADDR",
        CellPort::WrEn => "WR_EN",
        CellPort::WrAddr => "WR_ADDR",
        CellPort::WrData => "WR_DATA",
        CellPort::RdData => "RD_DATA",
        CellPort::WrClk => "WR_CLK",
    }
}

/// The role of a kind in a run.
pub fn role(kind: Kind) -> Role
    ensures { result ≡ role_of kind }
{
    match kind {
        Kind::Not
        | Kind::Pos
        | Kind::Neg
        | Kind::And
        | Kind::Or
        | Kind::Xor
        | Kind::Xnor
        | Kind::Add
        | Kind::Sub
        | Kind::Mul
        | Kind::Div
        | Kind::Mod
        | Kind::DivFloor
        | Kind::ModFloor
        | Kind::Eq
        | Kind::Ne
        | Kind::Eqx
        | Kind::Nex
        | Kind::Lt
        | Kind::Le
        | Kind::Ge
        | Kind::Gt
        | Kind::ReduceAnd
        | Kind::ReduceOr
        | Kind::ReduceXor
        | Kind::ReduceXnor
        | Kind::ReduceBool
        | Kind::LogicNot
        | Kind::LogicAnd
        | Kind::LogicOr
        | Kind::Shl
        | Kind::Sshl
        | Kind::Shr
        | Kind::Sshr
        | Kind::Shift
        | Kind::Shiftx
        | Kind::Mux
        | Kind::Pmux
        | Kind::Bmux
        | Kind::Demux
        | Kind::Concat
        | Kind::Slice
        | Kind::Lut
        | Kind::Fa
        | Kind::Alu => Role::Combinational,
        Kind::ScopeInfo => Role::CarriedOver,
        Kind::Dff | Kind::Dffe | Kind::Sdff | Kind::Sdffe | Kind::Sdffce => Role::PlainRegister,
        Kind::Adff | Kind::Adffe => Role::ResetRegister,
        Kind::Mem => Role::MemoryBlock,
    }
}

/// The parameters of a kind, in the order in which they are checked.
#[tactic(auto, unfolding(cif_defs::specs::Table::parameters_of))]
pub fn parameters(kind: Kind) -> &'static [Param]
    ensures { result.now ≡ parameters_of kind }
{
    match kind {
        Kind::Not
        | Kind::Pos
        | Kind::Neg
        | Kind::ReduceAnd
        | Kind::ReduceOr
        | Kind::ReduceXor
        | Kind::ReduceXnor
        | Kind::ReduceBool
        | Kind::LogicNot => &[Param::ASigned, Param::AWidth, Param::YWidth],
        Kind::And
        | Kind::Or
        | Kind::Xor
        | Kind::Xnor
        | Kind::Add
        | Kind::Sub
        | Kind::Mul
        | Kind::Div
        | Kind::Mod
        | Kind::DivFloor
        | Kind::ModFloor
        | Kind::Eq
        | Kind::Ne
        | Kind::Eqx
        | Kind::Nex
        | Kind::Lt
        | Kind::Le
        | Kind::Ge
        | Kind::Gt
        | Kind::LogicAnd
        | Kind::LogicOr
        | Kind::Shl
        | Kind::Sshl
        | Kind::Shr
        | Kind::Sshr
        | Kind::Shift
        | Kind::Shiftx
        | Kind::Alu => &[
            Param::ASigned,
            Param::BSigned,
            Param::AWidth,
            Param::BWidth,
            Param::YWidth,
        ],
        Kind::Mux | Kind::Fa => &[Param::Width],
        Kind::Pmux | Kind::Bmux | Kind::Demux => &[Param::Width, Param::SWidth],
        Kind::Concat => &[Param::AWidth, Param::BWidth],
        Kind::Slice => &[Param::Offset, Param::AWidth, Param::YWidth],
        Kind::Lut => &[Param::Width, Param::Lut],
        Kind::ScopeInfo => &[],
        Kind::Dff => &[Param::Width, Param::ClkPolarity],
        Kind::Dffe => &[Param::Width, Param::ClkPolarity, Param::EnPolarity],
        Kind::Sdff => &[
            Param::Width,
            Param::ClkPolarity,
            Param::SrstPolarity,
            Param::SrstValue,
        ],
        Kind::Sdffe | Kind::Sdffce => &[
            Param::Width,
            Param::ClkPolarity,
            Param::EnPolarity,
            Param::SrstPolarity,
            Param::SrstValue,
        ],
        Kind::Adff => &[
            Param::Width,
            Param::ClkPolarity,
            Param::ArstPolarity,
            Param::ArstValue,
        ],
        Kind::Adffe => &[
            Param::Width,
            Param::ClkPolarity,
            Param::EnPolarity,
            Param::ArstPolarity,
            Param::ArstValue,
        ],
        Kind::Mem => &[
            Param::Width,
            Param::Size,
            Param::Offset,
            Param::Abits,
            Param::Init,
            Param::RdPorts,
            Param::WrPorts,
            Param::RdClkEnable,
            Param::RdWideContinuation,
            Param::WrClkEnable,
            Param::WrClkPolarity,
            Param::WrWideContinuation,
        ],
    }
}

/// Whether a parameter may be of any length, and single digits of it count.
pub fn is_table(param: Param) -> bool
    ensures { result ≡ is_table_param param }
{
    matches!(param, Param::SrstValue | Param::ArstValue | Param::Lut)
}

/// Whether a parameter is an initial word or a mask, of any length.
pub fn is_mask(param: Param) -> bool
    ensures { result ≡ is_mask_param param }
{
    matches!(
        param,
        Param::Init
            | Param::RdClkEnable
            | Param::RdWideContinuation
            | Param::WrClkEnable
            | Param::WrClkPolarity
            | Param::WrWideContinuation
    )
}

/// The operands of a kind.
#[tactic(auto, unfolding(cif_defs::specs::Table::operands_of))]
pub fn operands(kind: Kind) -> &'static [PortRow]
    ensures { result.now ≡ operands_of kind }
{
    match kind {
        Kind::Not
        | Kind::Pos
        | Kind::Neg
        | Kind::ReduceAnd
        | Kind::ReduceOr
        | Kind::ReduceXor
        | Kind::ReduceXnor
        | Kind::ReduceBool
        | Kind::LogicNot
        | Kind::Slice => &[PortRow {
            port: CellPort::A,
            width: PortWidth::Of(Param::AWidth),
        }],
        Kind::And
        | Kind::Or
        | Kind::Xor
        | Kind::Xnor
        | Kind::Add
        | Kind::Sub
        | Kind::Mul
        | Kind::Div
        | Kind::Mod
        | Kind::DivFloor
        | Kind::ModFloor
        | Kind::Eq
        | Kind::Ne
        | Kind::Eqx
        | Kind::Nex
        | Kind::Lt
        | Kind::Le
        | Kind::Ge
        | Kind::Gt
        | Kind::LogicAnd
        | Kind::LogicOr
        | Kind::Shl
        | Kind::Sshl
        | Kind::Shr
        | Kind::Sshr
        | Kind::Shift
        | Kind::Shiftx
        | Kind::Concat => &[
            PortRow {
                port: CellPort::A,
                width: PortWidth::Of(Param::AWidth),
            },
            PortRow {
                port: CellPort::B,
                width: PortWidth::Of(Param::BWidth),
            },
        ],
        Kind::Mux => &[
            PortRow {
                port: CellPort::A,
                width: PortWidth::Of(Param::Width),
            },
            PortRow {
                port: CellPort::B,
                width: PortWidth::Of(Param::Width),
            },
            PortRow {
                port: CellPort::S,
                width: PortWidth::One,
            },
        ],
        Kind::Pmux => &[
            PortRow {
                port: CellPort::A,
                width: PortWidth::Of(Param::Width),
            },
            PortRow {
                port: CellPort::B,
                width: PortWidth::Product(Param::Width, Param::SWidth),
            },
            PortRow {
                port: CellPort::S,
                width: PortWidth::Of(Param::SWidth),
            },
        ],
        Kind::Bmux => &[
            PortRow {
                port: CellPort::A,
                width: PortWidth::Blocks(Param::Width, Param::SWidth),
            },
            PortRow {
                port: CellPort::S,
                width: PortWidth::Of(Param::SWidth),
            },
        ],
        Kind::Demux => &[
            PortRow {
                port: CellPort::A,
                width: PortWidth::Of(Param::Width),
            },
            PortRow {
                port: CellPort::S,
                width: PortWidth::Of(Param::SWidth),
            },
        ],
        Kind::Lut => &[PortRow {
            port: CellPort::A,
            width: PortWidth::Of(Param::Width),
        }],
        Kind::Fa => &[
            PortRow {
                port: CellPort::A,
                width: PortWidth::Of(Param::Width),
            },
            PortRow {
                port: CellPort::B,
                width: PortWidth::Of(Param::Width),
            },
            PortRow {
                port: CellPort::C,
                width: PortWidth::Of(Param::Width),
            },
        ],
        Kind::Alu => &[
            PortRow {
                port: CellPort::A,
                width: PortWidth::Of(Param::AWidth),
            },
            PortRow {
                port: CellPort::B,
                width: PortWidth::Of(Param::BWidth),
            },
            PortRow {
                port: CellPort::Ci,
                width: PortWidth::One,
            },
            PortRow {
                port: CellPort::Bi,
                width: PortWidth::One,
            },
        ],
        Kind::ScopeInfo => &[],
        Kind::Dff => &[PortRow {
            port: CellPort::D,
            width: PortWidth::Of(Param::Width),
        }],
        Kind::Dffe => &[
            PortRow {
                port: CellPort::D,
                width: PortWidth::Of(Param::Width),
            },
            PortRow {
                port: CellPort::En,
                width: PortWidth::One,
            },
        ],
        Kind::Sdff => &[
            PortRow {
                port: CellPort::D,
                width: PortWidth::Of(Param::Width),
            },
            PortRow {
                port: CellPort::Srst,
                width: PortWidth::One,
            },
        ],
        Kind::Sdffe | Kind::Sdffce => &[
            PortRow {
                port: CellPort::D,
                width: PortWidth::Of(Param::Width),
            },
            PortRow {
                port: CellPort::En,
                width: PortWidth::One,
            },
            PortRow {
                port: CellPort::Srst,
                width: PortWidth::One,
            },
        ],
        Kind::Adff => &[
            PortRow {
                port: CellPort::D,
                width: PortWidth::Of(Param::Width),
            },
            PortRow {
                port: CellPort::Arst,
                width: PortWidth::One,
            },
        ],
        Kind::Adffe => &[
            PortRow {
                port: CellPort::D,
                width: PortWidth::Of(Param::Width),
            },
            PortRow {
                port: CellPort::En,
                width: PortWidth::One,
            },
            PortRow {
                port: CellPort::Arst,
                width: PortWidth::One,
            },
        ],
        Kind::Mem => &[
            PortRow {
                port: CellPort::RdAddr,
                width: PortWidth::Product(Param::RdPorts, Param::Abits),
            },
            PortRow {
                port: CellPort::WrEn,
                width: PortWidth::Product(Param::WrPorts, Param::Width),
            },
            PortRow {
                port: CellPort::WrAddr,
                width: PortWidth::Product(Param::WrPorts, Param::Abits),
            },
            PortRow {
                port: CellPort::WrData,
                width: PortWidth::Product(Param::WrPorts, Param::Width),
            },
        ],
    }
}

/// The outputs of a kind.
#[tactic(auto, unfolding(cif_defs::specs::Table::outputs_of))]
pub fn outputs(kind: Kind) -> &'static [PortRow]
    ensures { result.now ≡ outputs_of kind }
{
    match kind {
        Kind::Not
        | Kind::Pos
        | Kind::Neg
        | Kind::And
        | Kind::Or
        | Kind::Xor
        | Kind::Xnor
        | Kind::Add
        | Kind::Sub
        | Kind::Mul
        | Kind::Div
        | Kind::Mod
        | Kind::DivFloor
        | Kind::ModFloor
        | Kind::Eq
        | Kind::Ne
        | Kind::Eqx
        | Kind::Nex
        | Kind::Lt
        | Kind::Le
        | Kind::Ge
        | Kind::Gt
        | Kind::ReduceAnd
        | Kind::ReduceOr
        | Kind::ReduceXor
        | Kind::ReduceXnor
        | Kind::ReduceBool
        | Kind::LogicNot
        | Kind::LogicAnd
        | Kind::LogicOr
        | Kind::Shl
        | Kind::Sshl
        | Kind::Shr
        | Kind::Sshr
        | Kind::Shift
        | Kind::Shiftx
        | Kind::Slice => &[PortRow {
            port: CellPort::Y,
            width: PortWidth::Of(Param::YWidth),
        }],
        Kind::Mux | Kind::Pmux | Kind::Bmux => &[PortRow {
            port: CellPort::Y,
            width: PortWidth::Of(Param::Width),
        }],
        Kind::Demux => &[PortRow {
            port: CellPort::Y,
            width: PortWidth::Blocks(Param::Width, Param::SWidth),
        }],
        Kind::Concat => &[PortRow {
            port: CellPort::Y,
            width: PortWidth::Sum(Param::AWidth, Param::BWidth),
        }],
        Kind::Lut => &[PortRow {
            port: CellPort::Y,
            width: PortWidth::One,
        }],
        Kind::Fa => &[
            PortRow {
                port: CellPort::X,
                width: PortWidth::Of(Param::Width),
            },
            PortRow {
                port: CellPort::Y,
                width: PortWidth::Of(Param::Width),
            },
        ],
        Kind::Alu => &[
            PortRow {
                port: CellPort::X,
                width: PortWidth::Of(Param::YWidth),
            },
            PortRow {
                port: CellPort::Y,
                width: PortWidth::Of(Param::YWidth),
            },
            PortRow {
                port: CellPort::Co,
                width: PortWidth::Of(Param::YWidth),
            },
        ],
        Kind::ScopeInfo => &[],
        Kind::Dff
        | Kind::Dffe
        | Kind::Sdff
        | Kind::Sdffe
        | Kind::Sdffce
        | Kind::Adff
        | Kind::Adffe => &[PortRow {
            port: CellPort::Q,
            width: PortWidth::Of(Param::Width),
        }],
        Kind::Mem => &[PortRow {
            port: CellPort::RdData,
            width: PortWidth::Product(Param::RdPorts, Param::Width),
        }],
    }
}

/// The clocks of a kind.
#[tactic(auto, unfolding(cif_defs::specs::Table::clocks_of))]
pub fn clocks(kind: Kind) -> &'static [PortRow]
    ensures { result.now ≡ clocks_of kind }
{
    match kind {
        Kind::Not
        | Kind::Pos
        | Kind::Neg
        | Kind::And
        | Kind::Or
        | Kind::Xor
        | Kind::Xnor
        | Kind::Add
        | Kind::Sub
        | Kind::Mul
        | Kind::Div
        | Kind::Mod
        | Kind::DivFloor
        | Kind::ModFloor
        | Kind::Eq
        | Kind::Ne
        | Kind::Eqx
        | Kind::Nex
        | Kind::Lt
        | Kind::Le
        | Kind::Ge
        | Kind::Gt
        | Kind::ReduceAnd
        | Kind::ReduceOr
        | Kind::ReduceXor
        | Kind::ReduceXnor
        | Kind::ReduceBool
        | Kind::LogicNot
        | Kind::LogicAnd
        | Kind::LogicOr
        | Kind::Shl
        | Kind::Sshl
        | Kind::Shr
        | Kind::Sshr
        | Kind::Shift
        | Kind::Shiftx
        | Kind::Mux
        | Kind::Pmux
        | Kind::Bmux
        | Kind::Demux
        | Kind::Concat
        | Kind::Slice
        | Kind::Lut
        | Kind::Fa
        | Kind::Alu
        | Kind::ScopeInfo => &[],
        Kind::Dff
        | Kind::Dffe
        | Kind::Sdff
        | Kind::Sdffe
        | Kind::Sdffce
        | Kind::Adff
        | Kind::Adffe => &[PortRow {
            port: CellPort::Clk,
            width: PortWidth::One,
        }],
        Kind::Mem => &[PortRow {
            port: CellPort::WrClk,
            width: PortWidth::Of(Param::WrPorts),
        }],
    }
}

/// The most bits that a port of a kind may have.
#[tactic(auto, unfolding(cif_defs::specs::Table::width_limit))]
pub fn width_limit(kind: Kind, port: CellPort) -> u64
    ensures { result ≡ limit_of kind port }
{
    match (kind, port) {
        (Kind::Shl | Kind::Sshl | Kind::Shr | Kind::Sshr | Kind::Shift, CellPort::B) =>
            NUMBER_LIMIT,
        (Kind::Shiftx, CellPort::A) => JOINED_LIMIT,
        (Kind::Shiftx, CellPort::B) => NUMBER_LIMIT,
        (Kind::Pmux, CellPort::B) | (Kind::Bmux, CellPort::A) | (Kind::Demux, CellPort::Y) =>
            JOINED_LIMIT,
        (Kind::Lut, CellPort::A) => LUT_LIMIT,
        (Kind::Mem, _) => JOINED_LIMIT,
        (
            Kind::Add
            | Kind::Sub
            | Kind::Neg
            | Kind::Mul
            | Kind::Div
            | Kind::Mod
            | Kind::DivFloor
            | Kind::ModFloor
            | Kind::Alu
            | Kind::Lt
            | Kind::Le
            | Kind::Ge
            | Kind::Gt,
            _,
        ) => NUMBER_LIMIT,
        _ => PLAIN_LIMIT,
    }
}
