// Things that stand as members in JSON objects.
ghost use Rattle.std.specs.Prelude.{◌≡◌, ℕ, List, Result, option_map, IfOk, Ok, codes};
ghost use Rattle.serde_json.specs.Data.{Data};
ghost use Rattle.serde_json.specs.View.{view, members_view};
ghost use Rattle.cif_json.specs.WrongPlace.{each, members_if_any as members_of_any, ◌and_then◌};
ghost use Rattle.cif_json.specs.Shape.{things_in as things_of, attributes_of as attributes_read, attributes_in as attributes_found};
ghost use Rattle.cif_json.specs.Answers.{Answers};
ghost use Rattle.cif_json.specs.SeenMembers.{IsWithout};

use crate::member::{Members, members_if_any, take};
use crate::misfit::{Misfit, within};
use crate::scalar::param_value;
use cif_defs::{Listed, Name, Params, RawParam};
use serde_json::Value;
use std::alloc::{AllocError, Global};

/// A thing that a member of a JSON object stands for.
pub trait FromMember: Drop {
    ghost reading: { List ℕ → Data → Result Self (List ℕ) };

    /// The thing of a member with this name and this value. The place of a misfit lies below the value.
    fn from_member(alloc: Global, name: &str, value: Value) -> Result<Self, Misfit>
        ensures { Answers result (reading name.now (view value)) };
}

/// A copy of a name.
pub fn name_of(alloc: Global, text: &str) -> Result<Name, AllocError>
    ensures { IfOk result (λ name. name ≡ text.now) }
{
    Ok(Listed::of(Vec::from_slice(alloc, text.as_bytes())?))
}

/// The things that the members of an object stand for, in byte order of name.
fn read_each<T: FromMember>(alloc: Global, members: Members) -> Result<Listed<T>, Misfit>
    ensures { Answers result (each T.reading (members_view members.entries)) }
{
    let mut things = Vec::with_capacity(alloc, members.len())?;
    for (name, value) in members {
        let name = name.as_str();
        let thing = within(alloc, name, T::from_member(alloc, name, value))?;
        things.push(thing)?;
    }
    Ok(Listed::of(things))
}

fn read_things<T: FromMember>(alloc: Global, value: Option<Value>) -> Result<Listed<T>, Misfit>
    ensures { Answers result (members_of_any (option_map view value) and_then each T.reading) }
{
    let members = members_if_any(alloc, value)?;
    read_each(alloc, members)
}

/// What stands in the object of a name, which may be missing. The object is taken out.
pub fn things_in<T: FromMember>(
    alloc: Global,
    members: &mut Members,
    name: &str,
) -> Result<Listed<T>, Misfit>
    ensures answer { Answers result
        (things_of (members_view members.old.entries) name.now T.reading) }
    ensures left { IsWithout name.now members.old members.new }
{
    let value = take(members, name);
    within(alloc, name, read_things(alloc, value))
}

/// The attributes of an object, where one of another form than a parameter's is dropped.
fn attributes_of(alloc: Global, members: Members) -> Result<Params, AllocError>
    ensures { IfOk result (λ params. params ≡ attributes_read (members_view members.entries)) }
{
    let mut attributes = Vec::with_capacity(alloc, members.len())?;
    for (name, value) in members {
        if let Some(value) = param_value(value) {
            let name = Listed::of(name.into_bytes());
            attributes.push(RawParam { name, value })?;
        }
    }
    Ok(Listed::of(attributes))
}

fn read_attributes(alloc: Global, value: Option<Value>) -> Result<Params, Misfit>
    ensures { Answers result
        (members_of_any (option_map view value) and_then (λ found. Ok (attributes_read found))) }
{
    let members = members_if_any(alloc, value)?;
    Ok(attributes_of(alloc, members)?)
}

/// The attributes of a thing, which may be missing. They are taken out.
pub fn attributes_in(alloc: Global, members: &mut Members) -> Result<Params, Misfit>
    ensures answer { Answers result (attributes_found (members_view members.old.entries)) }
    ensures left { IsWithout (codes "attributes") members.old members.new }
{
    let value = take(members, "attributes");
    within(alloc, "attributes", read_attributes(alloc, value))
}
