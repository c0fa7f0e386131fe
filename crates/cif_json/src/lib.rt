//! Reading and writing of netlist files: JSON, as Yosys writes it.
//!
//! A file is read by the kit's `serde_json`; then the module that is marked as top, or the only one, is taken apart
//! into a `Raw`, or the first wrong place in it is told. A module is written token by token, and nothing but its text
//! is kept.
#![tactic(auto)]

mod fault;
mod member;
mod misfit;
mod port_direction;
mod scalar;
mod shape;
#[cfg(test)]
mod tests;
mod thing;
mod top;
mod write;

ghost use Rattle.std.specs.Prelude.{◌≡◌, ◌++◌, codes, Ok, IfOk, IfErr};
ghost use Rattle.serde_json.specs.View.{view};
ghost use Rattle.cif_defs.specs.Order.{IsInOrder};
ghost use Rattle.cif_json.specs.Top.{netlist_of};
ghost use Rattle.cif_json.specs.WrittenNetlist.{netlist_text};
ghost use Rattle.cif_json.specs.Writable.{IsWritable, HasSmallNets};
ghost use Rattle.cif_json.specs.Answers.{IsFaultOf, IsFirst, ReadsAs, IsUnread, ComesTo, IsRefused};

use cif_bits::NoMemory;
use cif_defs::{Listed, Raw};
pub use fault::JsonFault;
use json::Writer;
use misfit::{Misfit, within};
use serde_json::Value;
use shape::read_module;
use std::alloc::{AllocError, Global};
use top::{chosen, modules};
use write::write_file;

/// The value of a file. Bytes that aren't UTF-8, and values that nest more than 127 deep, have none.
fn read_value(alloc: Global, bytes: &[u8]) -> Result<Value, JsonFault>
    ensures ok { IfOk result (λ v. ReadsAs bytes.now (view v)) }
    ensures err { IfErr result (λ e. IsUnread bytes.now e) }
{
    match Value::from_slice(alloc, bytes) {
        Ok(value) => Ok(value),
        Err(error) => if error.is_memory() {
            Err(JsonFault::Memory)
        } else {
            Err(JsonFault::BadJson)
        },
    }
}

/// The path of a place below the file's modules.
fn path_of(alloc: Global, place: &[u8]) -> Result<Vec<u8>, AllocError>
    ensures { IfOk result (λ path. path.items ≡ codes "modules" ++ place.now) }
{
    let mut path = Vec::from_slice(alloc, b"modules")?;
    path.extend_from_slice(place)?;
    Ok(path)
}

/// The fault of a module with a misfit.
fn fault_of(alloc: Global, misfit: Misfit) -> JsonFault
    ensures { IsFaultOf misfit result }
{
    match misfit {
        Misfit::At(place) => match path_of(alloc, place.items()) {
            Ok(path) => JsonFault::BadShape(Listed::of(path)),
            Err(_) => JsonFault::Memory,
        },
        Misfit::NoMemory => JsonFault::Memory,
    }
}

/// What the value of a file stands for.
#[tactic(auto, unfolding(crate::specs::Top::netlist_of))]
fn netlist_in(alloc: Global, file: Value) -> Result<Raw, JsonFault>
    ensures ok { IfOk result (λ raw. netlist_of (view file) ≡ Ok raw) }
    ensures err { IfErr result (λ e. IsFirst (netlist_of (view file)) e) }
{
    let Some(modules) = modules(file) else {
        return Err(JsonFault::NoModules);
    };
    let Some((name, module)) = chosen(modules) else {
        return Err(JsonFault::NoTop);
    };
    let name = name.as_str();
    match within(alloc, name, read_module(alloc, name, module)) {
        Ok(raw) => Ok(raw),
        Err(misfit) => Err(fault_of(alloc, misfit)),
    }
}

/// The module that a netlist file stands for: the only one, or of several the only one that is marked by an attribute
/// `top` with a number other than 0.
///
/// Its members may be missing, but each that is there has the form that Yosys writes: `BadShape` names the first place
/// that hasn't, in the order of the module's attributes, ports, cells and named nets, each of the last three in byte
/// order of name.
pub fn read_netlist(alloc: Global, bytes: &[u8]) -> Result<Raw, JsonFault>
    ensures ok { IfOk result (λ raw. ComesTo bytes.now (Ok raw)) }
    ensures ordered { IfOk result IsInOrder }
    ensures writable { IfOk result IsWritable }
    ensures nets { IfOk result HasSmallNets }
    ensures err { IfErr result (λ e. IsRefused bytes.now e) }
{
    let value = read_value(alloc, bytes)?;
    netlist_in(alloc, value)
}

/// The text of a netlist file with this one module: compact JSON whose keys stand in byte order, and a line end. Each
/// cell has the directions of those connections whose ports the table names for its type, so that Yosys reads the text
/// without a flag.
///
/// The module's names and texts are UTF-8 and stand in byte order, and each number lies from -2^63 to 2^64 - 1. Where
/// its net numbers lie below 2^32, reading the text gives the module again.
pub fn write_netlist(alloc: Global, raw: &Raw) -> Result<Vec<u8>, NoMemory>
    requires { IsWritable raw.now }
    ensures text { IfOk result (λ bytes. bytes.items ≡ netlist_text raw.now) }
    ensures back { IfOk result
        (λ bytes. HasSmallNets raw.now → ComesTo bytes.items (Ok raw.now)) }
{
    let mut out = Writer::new(Vec::new(alloc));
    write_file(&mut out, raw)?;
    let mut text = out.into_inner();
    text.push(b'\n')?;
    Ok(text)
}
