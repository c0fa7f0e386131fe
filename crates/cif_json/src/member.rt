// The members of JSON objects.
ghost use Rattle.std.specs.Prelude.{◌≡◌, option_map};
ghost use Rattle.serde_json.specs.View.{view, members_view};
ghost use Rattle.serde_json.specs.Find.{get_member, as_object, as_str};
ghost use Rattle.cif_json.specs.WrongPlace.{members_if_any as members_of_any, members_of as members_of_data};
ghost use Rattle.cif_json.specs.Answers.{Answers};
ghost use Rattle.cif_json.specs.SeenMembers.{members_seen, IsWithout};

use crate::misfit::{Misfit, needed};
use cif_defs::{Listed, Name};
use serde_json::{Map, Value};
use std::alloc::Global;

/// The members of an object, in byte order of name, each name once.
pub type Members = Map<String, Value>;

/// Takes the member of a name out.
pub fn take(members: &mut Members, name: &str) -> Option<Value>
    ensures value { option_map view result
        ≡ get_member name.now (members_view members.old.entries) }
    ensures left { IsWithout name.now members.old members.new }
{
    members.remove(name)
}

/// The members of a value, if it is an object.
pub fn object(value: Value) -> Option<Members>
    ensures { option_map (λ m. members_view m.entries) result ≡ as_object (view value) }
{
    match value {
        Value::Object(members) => Some(members),
        _ => None,
    }
}

/// The bytes of a value, if it is a text.
pub fn text(value: Value) -> Option<Name>
    ensures { result ≡ as_str (view value) }
{
    match value {
        Value::String(text) => Some(Listed::of(text.into_bytes())),
        _ => None,
    }
}

/// The members of a value, which must be an object.
pub fn members_of(alloc: Global, value: Value) -> Result<Members, Misfit>
    ensures { Answers (members_seen result) (members_of_data (view value)) }
{
    needed(alloc, object(value))
}

/// The members of a value, which must be an object; a missing one has none.
pub fn members_if_any(alloc: Global, value: Option<Value>) -> Result<Members, Misfit>
    ensures { Answers (members_seen result) (members_of_any (option_map view value)) }
{
    match value {
        Some(value) => members_of(alloc, value),
        None => Ok(Map::new(alloc)),
    }
}

/// The member of a name.
pub fn find<'a>(members: &'a Members, name: &str) -> Option<&'a Value>
    ensures { option_map (λ v. view v.now) result
        ≡ get_member name.now (members_view members.now.entries) }
{
    members.get(name)
}
