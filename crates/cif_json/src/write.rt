// The JSON that is written for a module, token by token.
ghost use Rattle.std.specs.Prelude.{◌≡◌, List, ℕ, IsUtf8};
ghost use Rattle.std.specs.List.{AllByRecursion};
ghost use Rattle.serde_json.specs.Data.{Data, object};
ghost use Rattle.cif_json.specs.WrittenNetlist.{bit_data, bits_data, value_data, flag_data, direction_data, members_by, param_name, param_data, connection_name, connection_data, directions, port_name, port_data, cell_name, cell_data, net_name, net_data, module_data, modules_data, file_data, Adds};
ghost use Rattle.cif_json.specs.Writable.{Fits, IsValueWritable, IsParamWritable, IsConnectionWritable, IsPortWritable, IsCellWritable, IsNetWritable, IsWritable};

use crate::port_direction::port_direction;
use cif_defs::{
    Connection, Direction, ParamValue, Raw, RawBit, RawCell, RawName, RawParam, RawPort,
};
use cif_kinds::table::kind_of;
use json::Writer;
use std::alloc::AllocError;

/// The text of bytes that are UTF-8.
fn utf8(bytes: &[u8]) -> &str
    requires { IsUtf8 bytes.now }
    ensures { result.now ≡ bytes.now }
{
    match str::from_utf8(bytes) {
        Ok(text) => text,
        Err(_) => "",
    }
}

// ---- values

fn write_bit(out: &mut Writer, bit: RawBit) -> Result<(), AllocError>
    ensures { Adds result out.old out.new (bit_data bit) }
{
    match bit {
        RawBit::Net(number) => out.u64(number),
        RawBit::Zero => out.string("0"),
        RawBit::One => out.string("1"),
        RawBit::X => out.string("x"),
        RawBit::Z => out.string("z"),
    }
}

/// Writes bits, lowest first.
fn write_bits(out: &mut Writer, bits: &[RawBit]) -> Result<(), AllocError>
    ensures { Adds result out.old out.new (bits_data bits.now) }
{
    out.begin_array()?;
    for bit in bits {
        write_bit(out, *bit)?;
    }
    out.end_array()
}

fn write_number(out: &mut Writer, number: i128) -> Result<(), AllocError>
    requires { Fits number }
    ensures { Adds result out.old out.new (value_data (ParamValue.Number number)) }
{
    if number < 0 {
        out.i64(number as i64)
    } else {
        out.u64(number as u64)
    }
}

fn write_value(out: &mut Writer, value: &ParamValue) -> Result<(), AllocError>
    requires { IsValueWritable value.now }
    ensures { Adds result out.old out.new (value_data value.now) }
{
    match value {
        ParamValue::Text(text) => out.string(utf8(text.items())),
        ParamValue::Number(number) => write_number(out, *number),
    }
}

/// Writes a flag: 1 where it is set, else 0.
fn write_flag(out: &mut Writer, flag: bool) -> Result<(), AllocError>
    ensures { Adds result out.old out.new (flag_data flag) }
{
    out.u64(u64::from(flag))
}

fn write_direction(out: &mut Writer, direction: Direction) -> Result<(), AllocError>
    ensures { Adds result out.old out.new (direction_data direction) }
{
    match direction {
        Direction::Input => out.string("input"),
        Direction::Output => out.string("output"),
        Direction::Inout => out.string("inout"),
    }
}

// ---- objects that have a member for each of some things

/// A thing that is written as a member of a JSON object.
trait ToMember: Drop {
    ghost name_of: { Self → List ℕ };

    ghost data_of: { Self → Data };

    ghost IsFit: { Self → Type 0 };

    /// The member's name.
    fn name_text(&self) -> &str
        requires { IsFit self.now }
        ensures { result.now ≡ name_of self.now };

    /// Writes the member's value.
    fn write(&self, out: &mut Writer) -> Result<(), AllocError>
        requires { IsFit self.now }
        ensures { Adds result out.old out.new (data_of self.now) };
}

/// Writes an object with a member for each of these things.
fn write_each<T: ToMember>(out: &mut Writer, things: &[T]) -> Result<(), AllocError>
    requires { AllByRecursion T.ToMember.IsFit things.now }
    ensures { Adds result out.old out.new (object (members_by T.ToMember.name_of T.ToMember.data_of things.now)) }
{
    out.begin_object()?;
    for thing in things {
        out.key(thing.name_text())?;
        thing.write(out)?;
    }
    out.end_object()
}

impl ToMember for RawParam {
    ghost name_of = { param_name };

    ghost data_of = { param_data };

    ghost IsFit = { IsParamWritable };

    fn name_text(&self) -> &str {
        utf8(self.name.items())
    }

    fn write(&self, out: &mut Writer) -> Result<(), AllocError> {
        write_value(out, &self.value)
    }
}

impl ToMember for Connection {
    ghost name_of = { connection_name };

    ghost data_of = { connection_data };

    ghost IsFit = { IsConnectionWritable };

    fn name_text(&self) -> &str {
        utf8(self.name().items())
    }

    fn write(&self, out: &mut Writer) -> Result<(), AllocError> {
        write_bits(out, self.items())
    }
}

// ---- cells, ports and named nets

/// Writes the directions of those connections whose ports the table names for the type.
fn write_directions(
    out: &mut Writer,
    kind: &[u8],
    connections: &[Connection],
) -> Result<(), AllocError>
    requires { AllByRecursion IsConnectionWritable connections.now }
    ensures { Adds result out.old out.new (object (directions kind.now connections.now)) }
{
    let kind = kind_of(kind);
    out.begin_object()?;
    for connection in connections {
        if let Some(direction) = port_direction(kind, connection.name().items()) {
            out.key(connection.name_text())?;
            write_direction(out, direction)?;
        }
    }
    out.end_object()
}

impl ToMember for RawCell {
    ghost name_of = { cell_name };

    ghost data_of = { cell_data };

    ghost IsFit = { IsCellWritable };

    fn name_text(&self) -> &str {
        utf8(self.name.items())
    }

    fn write(&self, out: &mut Writer) -> Result<(), AllocError> {
        out.begin_object()?;
        out.key("attributes")?;
        write_each(out, self.attributes.items())?;
        out.key("connections")?;
        write_each(out, self.connections.items())?;
        out.key("hide_name")?;
        write_flag(out, self.hide)?;
        out.key("parameters")?;
        write_each(out, self.parameters.items())?;
        out.key("port_directions")?;
        write_directions(out, self.kind.items(), self.connections.items())?;
        out.key("type")?;
        out.string(utf8(self.kind.items()))?;
        out.end_object()
    }
}

impl ToMember for RawName {
    ghost name_of = { net_name };

    ghost data_of = { net_data };

    ghost IsFit = { IsNetWritable };

    fn name_text(&self) -> &str {
        utf8(self.name.items())
    }

    fn write(&self, out: &mut Writer) -> Result<(), AllocError> {
        out.begin_object()?;
        out.key("attributes")?;
        write_each(out, self.attributes.items())?;
        out.key("bits")?;
        write_bits(out, self.bits.items())?;
        out.key("hide_name")?;
        write_flag(out, self.hide)?;
        out.end_object()
    }
}

impl ToMember for RawPort {
    ghost name_of = { port_name };

    ghost data_of = { port_data };

    ghost IsFit = { IsPortWritable };

    fn name_text(&self) -> &str {
        utf8(self.name.items())
    }

    fn write(&self, out: &mut Writer) -> Result<(), AllocError> {
        out.begin_object()?;
        out.key("bits")?;
        write_bits(out, self.bits.items())?;
        out.key("direction")?;
        write_direction(out, self.direction)?;
        out.end_object()
    }
}

// ---- the file

fn write_module(out: &mut Writer, raw: &Raw) -> Result<(), AllocError>
    requires { IsWritable raw.now }
    ensures { Adds result out.old out.new (module_data raw.now) }
{
    out.begin_object()?;
    out.key("attributes")?;
    write_each(out, raw.attributes.items())?;
    out.key("cells")?;
    write_each(out, raw.cells.items())?;
    out.key("netnames")?;
    write_each(out, raw.names.items())?;
    out.key("ports")?;
    write_each(out, raw.ports.items())?;
    out.end_object()
}

fn write_modules(out: &mut Writer, raw: &Raw) -> Result<(), AllocError>
    requires { IsWritable raw.now }
    ensures { Adds result out.old out.new (modules_data raw.now) }
{
    out.begin_object()?;
    out.key(utf8(raw.module.items()))?;
    write_module(out, raw)?;
    out.end_object()
}

/// Writes a file of one module.
pub fn write_file(out: &mut Writer, raw: &Raw) -> Result<(), AllocError>
    requires { IsWritable raw.now }
    ensures { Adds result out.old out.new (file_data raw.now) }
{
    out.begin_object()?;
    out.key("creator")?;
    out.string("cellift")?;
    out.key("modules")?;
    write_modules(out, raw)?;
    out.end_object()
}
