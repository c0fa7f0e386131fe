// Cells of a module with what is found of each of them once.
ghost use Rattle.std.specs.Prelude.{◌≡◌, ◌<◌, ◌++◌, map, option_map, IfOk, OnOk};
ghost use Rattle.cif_defs.specs.Words.{bit};
ghost use Rattle.cif_defs.specs.Table.{kind_of as kind_of_text, param_text, operands_of, outputs_of, clocks_of};
ghost use Rattle.cif_defs.specs.RawModule.{digits_given, number_given as number_of_cell, port_bits as bits_of_port, value_named};
ghost use Rattle.cif_checks.specs.Checks.{number_or_0 as number_or_0_of};
ghost use Rattle.cif_checks.specs.Known.{bits_at, is_connected as is_port_connected, connected_at, rows_by, parameters_by as parameters_of_kind};

use crate::given::{GivenValue, digit_of_value, number_of_value, value_among, values_given};
use crate::raw_access::{bits_or_none, connected};
use cif_defs::{Kind, Param, ParamValue, PortRow, Raw, RawBit, RawCell, RawName, RawPort};
use cif_kinds::table;
use std::alloc::{AllocError, Global};
use std::marker::Model;

/// The bits that a cell connects to one of its ports, lowest first. Contracts see them as their list.
#[derive(Debug, Drop)]
pub struct PortBits<'a> {
    bits: &'a [RawBit],
}

impl<'a> Model for PortBits<'a> {
    ghost use Rattle.std.specs.Prelude.{List};
    ghost use Rattle.cif_defs.specs.declared.raw_module.RawBit.{RawBit};

    ghost Value = { List RawBit };

    ghost view = { λ p. p.bits.now };
}

impl<'a> PortBits<'a> {
    /// The bits.
    pub fn items(&self) -> &[RawBit]
        ensures { result.now ≡ self.now }
    {
        self.bits
    }
}

/// A cell of a raw module with what is found of it once: its kind, what it gives for the parameters of that kind, and
/// the bits that it connects to the ports of that kind. Contracts see it as the raw cell.
#[derive(Debug, Drop)]
pub struct KnownCell<'a> {
    raw: &'a RawCell,
    kind: Option<Kind>,
    /// For each parameter of the kind.
    values: Vec<GivenValue<'a>>,
    /// Operands, then outputs, then clocks.
    ports: Vec<PortBits<'a>>,
    /// Whether each of these ports is connected.
    connected: Vec<bool>,
    operands_end: usize,
    outputs_end: usize,
}

impl<'a> Model for KnownCell<'a> {
    ghost use Rattle.cif_defs.specs.declared.raw_module.RawCell.{RawCell};
    ghost use Rattle.cif_checks.specs.Known.{IsKnown};

    ghost Value = { RawCell };

    ghost view = { λ c. c.raw.now };

    ghost invariant = { λ c. IsKnown c.raw.now c.kind c.values.items c.ports.items c.connected.items c.operands_end c.outputs_end };
}

/// The operands, the outputs and the clocks of a kind; none where the table of kinds lacks the type.
fn rows_of(kind: Option<Kind>) -> (&'static [PortRow], &'static [PortRow], &'static [PortRow])
    ensures operands { result.0.now ≡ rows_by operands_of kind }
    ensures outputs { result.1.now ≡ rows_by outputs_of kind }
    ensures clocks { result.2.now ≡ rows_by clocks_of kind }
{
    match kind {
        Some(kind) => (
            table::operands(kind),
            table::outputs(kind),
            table::clocks(kind),
        ),
        None => (&[], &[], &[]),
    }
}

/// The parameters of a kind; none where the table of kinds lacks the type.
fn parameters_by(kind: Option<Kind>) -> &'static [Param]
    ensures { result.now ≡ parameters_of_kind kind }
{
    match kind {
        Some(kind) => table::parameters(kind),
        None => &[],
    }
}

/// Appends the bits that a cell connects to some ports, and whether it connects any.
fn push_ports<'a>(
    ports: &mut Vec<PortBits<'a>>,
    is_connected: &mut Vec<bool>,
    cell: &'a RawCell,
    rows: &[PortRow],
) -> Result<(), AllocError>
    ensures bits { OnOk result (ports.new.items ≡ ports.old.items ++ map (bits_of_port cell.now) rows.now) }
    ensures connected { OnOk result
        (is_connected.new.items ≡ is_connected.old.items ++ map (is_port_connected cell.now) rows.now) }
{
    for row in rows {
        let found = connected(cell, row);
        ports.push(PortBits {
            bits: bits_or_none(found),
        })?;
        is_connected.push(found.is_some())?;
    }
    Ok(())
}

impl<'a> KnownCell<'a> {
    /// What is known of a raw cell.
    fn of(alloc: Global, raw: &'a RawCell) -> Result<KnownCell<'a>, AllocError>
        ensures { IfOk result (λ cell. cell ≡ raw.now) }
    {
        let kind = table::kind_of(raw.kind.items());
        let values = values_given(alloc, raw, parameters_by(kind))?;
        let (operands, outputs, clocks) = rows_of(kind);
        let mut ports = Vec::new(alloc);
        let mut connected = Vec::new(alloc);
        push_ports(&mut ports, &mut connected, raw, operands)?;
        let operands_end = ports.len();
        push_ports(&mut ports, &mut connected, raw, outputs)?;
        let outputs_end = ports.len();
        push_ports(&mut ports, &mut connected, raw, clocks)?;
        Ok(KnownCell {
            raw,
            kind,
            values,
            ports,
            connected,
            operands_end,
            outputs_end,
        })
    }

    /// The raw cell.
    pub fn raw(&self) -> &RawCell
        ensures { result.now ≡ self.now }
    {
        self.raw
    }

    /// Its name.
    pub fn name(&self) -> &[u8]
        ensures { result.now ≡ self.now.name }
    {
        self.raw.name.items()
    }

    /// Its kind; None where the table of kinds lacks its type.
    pub fn kind(&self) -> Option<Kind>
        ensures { result ≡ kind_of_text self.now.kind }
    {
        self.kind
    }

    /// What it connects to its operands; none where the table of kinds lacks its type.
    pub fn operands(&self) -> &[PortBits<'a>]
        ensures { result.now ≡ bits_at operands_of self.now }
    {
        &self.ports[..self.operands_end]
    }

    /// What it connects to its outputs; none where the table of kinds lacks its type.
    pub fn outputs(&self) -> &[PortBits<'a>]
        ensures { result.now ≡ bits_at outputs_of self.now }
    {
        &self.ports[self.operands_end..self.outputs_end]
    }

    /// What it connects to its clock port, or a memory to those of its write ports; none where the table of kinds lacks
    /// its type.
    pub fn clocks(&self) -> &[PortBits<'a>]
        ensures { result.now ≡ bits_at clocks_of self.now }
    {
        &self.ports[self.outputs_end..]
    }

    /// Whether it connects each of its operands.
    pub(crate) fn operands_connected(&self) -> &[bool]
        ensures { result.now ≡ connected_at operands_of self.now }
    {
        &self.connected[..self.operands_end]
    }

    /// Whether it connects each of its outputs.
    pub(crate) fn outputs_connected(&self) -> &[bool]
        ensures { result.now ≡ connected_at outputs_of self.now }
    {
        &self.connected[self.operands_end..self.outputs_end]
    }

    /// Whether it connects each of its clock ports.
    pub(crate) fn clocks_connected(&self) -> &[bool]
        ensures { result.now ≡ connected_at clocks_of self.now }
    {
        &self.connected[self.outputs_end..]
    }

    /// The number that it gives for a parameter, or 0 where it gives none.
    #[tactic(auto, using(crate::proofs::RawLaws::number_small))]
    pub fn number(&self, param: Param) -> u64
        ensures is { result ≡ number_or_0_of self.now param }
        ensures below_limit { result < 4294967296 }
    {
        self.number_given(param).unwrap_or(0)
    }

    /// The number that it gives for a parameter; None where it gives none below 2 to the 32.
    pub fn number_given(&self, param: Param) -> Option<u64>
        ensures { result ≡ number_of_cell self.now param }
    {
        number_of_value(self.value(param))
    }

    /// Digit `index` of what it gives for a parameter, lowest first, where x, z and missing digits are 0.
    pub fn digit(&self, param: Param, index: u64) -> bool
        ensures { result ≡ bit (digits_given self.now param) index }
    {
        digit_of_value(self.value(param), index)
    }

    /// What it gives for a parameter.
    pub fn value(&self, param: Param) -> Option<&ParamValue>
        ensures { option_map (λ v. v.now) result ≡ value_named (param_text param) self.now.parameters }
    {
        value_among(self.raw, parameters_by(self.kind), &self.values, param)
    }
}

/// What is known of some raw cells.
fn known_cells<'a>(alloc: Global, cells: &'a [RawCell]) -> Result<Vec<KnownCell<'a>>, AllocError>
    ensures { IfOk result (λ known. known.items ≡ cells.now) }
{
    let mut known = Vec::with_capacity(alloc, cells.len())?;
    for cell in cells {
        known.push(KnownCell::of(alloc, cell)?)?;
    }
    Ok(known)
}

/// A raw module with what is known of its cells. Contracts see it as the raw module.
#[derive(Debug, Drop)]
pub struct KnownModule<'a> {
    raw: &'a Raw,
    cells: Vec<KnownCell<'a>>,
}

impl<'a> Model for KnownModule<'a> {
    ghost use Rattle.std.specs.Prelude.{◌≡◌};
    ghost use Rattle.cif_defs.specs.declared.raw_module.Raw.{Raw};

    ghost Value = { Raw };

    ghost view = { λ m. m.raw.now };

    ghost invariant = { λ m. m.cells.items ≡ m.raw.now.cells };
}

impl<'a> KnownModule<'a> {
    /// What is known of a raw module.
    pub fn of(alloc: Global, raw: &'a Raw) -> Result<KnownModule<'a>, AllocError>
        ensures { IfOk result (λ known. known ≡ raw.now) }
    {
        let cells = known_cells(alloc, raw.cells.items())?;
        Ok(KnownModule { raw, cells })
    }

    /// Its named nets.
    pub fn names(&self) -> &[RawName]
        ensures { result.now ≡ self.now.names }
    {
        self.raw.names.items()
    }

    /// Its ports.
    pub fn ports(&self) -> &[RawPort]
        ensures { result.now ≡ self.now.ports }
    {
        self.raw.ports.items()
    }

    /// Its cells.
    pub fn cells(&self) -> &[KnownCell<'a>]
        ensures { result.now ≡ self.now.cells }
    {
        &self.cells
    }
}
