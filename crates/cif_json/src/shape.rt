// The shape of a module: its ports, cells and named nets.
ghost use Rattle.std.specs.Prelude.{◌≡◌, codes};
ghost use Rattle.serde_json.specs.View.{view, members_view};
ghost use Rattle.serde_json.specs.Find.{as_str};
ghost use Rattle.cif_json.specs.Shape.{needed_in, bits_of, direction_of, is_hidden as is_hidden_in, parameter, connection, port, cell, named_net, module_of};
ghost use Rattle.cif_json.specs.Answers.{Answers};
ghost use Rattle.cif_json.specs.SeenMembers.{IsWithout};

use crate::member::{Members, find, members_of, take, text};
use crate::misfit::{Misfit, needed, within};
use crate::scalar::{bits, direction, is_set, param_value};
use crate::thing::{FromMember, attributes_in, name_of, things_in};
use cif_defs::{
    Connection, Direction, Listed, Name, Raw, RawBits, RawCell, RawName, RawParam, RawPort,
};
use serde_json::Value;
use std::alloc::Global;

/// The direction of a port.
fn direction_in(alloc: Global, members: &Members) -> Result<Direction, Misfit>
    ensures { Answers result
        (needed_in (members_view members.now.entries) (codes "direction") direction_of) }
{
    let found = match find(members, "direction") {
        Some(value) => direction(value),
        None => None,
    };
    within(alloc, "direction", needed(alloc, found))
}

/// The bits of a port or a named net.
fn bits_in(alloc: Global, members: &Members) -> Result<RawBits, Misfit>
    ensures { Answers result
        (needed_in (members_view members.now.entries) (codes "bits") bits_of) }
{
    let found = match find(members, "bits") {
        Some(value) => bits(alloc, value)?.map(Listed::of),
        None => None,
    };
    within(alloc, "bits", needed(alloc, found))
}

/// The type of a cell, which is taken out.
fn kind_in(alloc: Global, members: &mut Members) -> Result<Name, Misfit>
    ensures answer { Answers result
        (needed_in (members_view members.old.entries) (codes "type") as_str) }
    ensures left { IsWithout (codes "type") members.old members.new }
{
    let found = match take(members, "type") {
        Some(value) => text(value),
        None => None,
    };
    within(alloc, "type", needed(alloc, found))
}

/// Whether a cell or a named net has a name that isn't to be shown.
fn is_hidden(members: &Members) -> bool
    ensures { result ≡ is_hidden_in (members_view members.now.entries) }
{
    is_set(find(members, "hide_name"))
}

impl FromMember for RawParam {
    ghost use Rattle.cif_json.specs.Shape.{parameter};

    ghost reading = { parameter };

    fn from_member(alloc: Global, name: &str, value: Value) -> Result<RawParam, Misfit> {
        let value = needed(alloc, param_value(value))?;
        let name = name_of(alloc, name)?;
        Ok(RawParam { name, value })
    }
}

impl FromMember for Connection {
    ghost use Rattle.cif_json.specs.Shape.{connection};

    ghost reading = { connection };

    fn from_member(alloc: Global, name: &str, value: Value) -> Result<Connection, Misfit> {
        let Some(bits) = bits(alloc, &value)? else {
            return Err(Misfit::here(alloc));
        };
        let name = name_of(alloc, name)?;
        Ok(Connection::of(name, bits))
    }
}

impl FromMember for RawPort {
    ghost use Rattle.cif_json.specs.Shape.{port};

    ghost reading = { port };

    fn from_member(alloc: Global, name: &str, value: Value) -> Result<RawPort, Misfit> {
        let members = members_of(alloc, value)?;
        let direction = direction_in(alloc, &members)?;
        let bits = bits_in(alloc, &members)?;
        let name = name_of(alloc, name)?;
        Ok(RawPort {
            name,
            direction,
            bits,
        })
    }
}

impl FromMember for RawCell {
    ghost use Rattle.cif_json.specs.Shape.{cell};

    ghost reading = { cell };

    fn from_member(alloc: Global, name: &str, value: Value) -> Result<RawCell, Misfit> {
        let mut members = members_of(alloc, value)?;
        let hide = is_hidden(&members);
        let kind = kind_in(alloc, &mut members)?;
        let parameters = things_in(alloc, &mut members, "parameters")?;
        let attributes = attributes_in(alloc, &mut members)?;
        let connections = things_in(alloc, &mut members, "connections")?;
        let name = name_of(alloc, name)?;
        Ok(RawCell {
            name,
            hide,
            kind,
            parameters,
            attributes,
            connections,
        })
    }
}

impl FromMember for RawName {
    ghost use Rattle.cif_json.specs.Shape.{named_net};

    ghost reading = { named_net };

    fn from_member(alloc: Global, name: &str, value: Value) -> Result<RawName, Misfit> {
        let mut members = members_of(alloc, value)?;
        let hide = is_hidden(&members);
        let bits = bits_in(alloc, &members)?;
        let attributes = attributes_in(alloc, &mut members)?;
        let name = name_of(alloc, name)?;
        Ok(RawName {
            name,
            hide,
            bits,
            attributes,
        })
    }
}

/// The module of this name and value. The place of a misfit lies below the value.
#[tactic(auto, unfolding(crate::specs::Shape::module_of))]
pub fn read_module(alloc: Global, name: &str, value: Value) -> Result<Raw, Misfit>
    ensures { Answers result (module_of name.now (view value)) }
{
    let mut members = members_of(alloc, value)?;
    let attributes = attributes_in(alloc, &mut members)?;
    let ports = things_in(alloc, &mut members, "ports")?;
    let cells = things_in(alloc, &mut members, "cells")?;
    let names = things_in(alloc, &mut members, "netnames")?;
    let module = name_of(alloc, name)?;
    Ok(Raw {
        module,
        attributes,
        ports,
        cells,
        names,
    })
}
