// Whether names that are wanted are taken.
ghost use Rattle.std.specs.Prelude.{◌≡◌, ◌<◌, ◌++◌, map, filter, length, None, option_map, IfSome, IfNone, IfErr, OnOk};
ghost use Rattle.std.specs.List.{list_any};
ghost use Rattle.cif_defs.specs.Order.{AreInOrder, IsInOrder, cell_names};
ghost use Rattle.cif_augment.specs.Refusals.{first_name, is_among, is_numbered as is_numbered_in, is_numbered_for, names_fault, standing_names, IsFirst};
ghost use Rattle.cif_augment.specs.Taken.{earliest as earliest_of, is_repeated as is_repeated_at, is_seen_taken, is_taken, AreSorted, IsDigitsPlace, IsNumberedFor, IsNotNumbered};

use crate::fault::InstrumentFault;
use crate::names::copied;
use crate::wanted::wanted_names;
use cif_cells::Netlist;
use cif_defs::{Name, Named, Raw, RawCell, place_in_order};
use std::alloc::Global;
use std::cmp::Ordering;

// ---- names that stand

/// Whether one of some things has a name.
fn is_borne<T: Named>(things: &[T], name: &[u8]) -> bool
    requires { AreInOrder (map T.name_of things.now) }
    ensures { result ≡ is_among (map T.name_of things.now) name.now }
{
    place_in_order(things, name).is_some()
}

/// Whether a port, a cell or a netname has a name.
fn is_standing(raw: &Raw, name: &[u8]) -> bool
    requires { IsInOrder raw.now }
    ensures { result ≡ is_among (standing_names raw.now) name.now }
{
    let is_port = is_borne(raw.ports.items(), name);
    let is_cell = is_borne(raw.cells.items(), name);
    let is_net = is_borne(raw.names.items(), name);
    is_port | is_cell | is_net
}

/// Whether the name at a place stands again at the next one.
fn is_repeated(names: &[Name], place: usize) -> bool
    requires { place < length names.now }
    ensures { result ≡ is_repeated_at names.now place }
{
    place + 1 < names.len() && names[place].items() == names[place + 1].items()
}

/// Whether the name at a place stands in a module, or again at the next place.
fn is_taken_at(raw: &Raw, names: &[Name], place: usize) -> bool
    requires in_order { IsInOrder raw.now }
    requires within { place < length names.now }
    ensures { result ≡ is_seen_taken raw.now names.now place }
{
    is_standing(raw, names[place].items()) || is_repeated(names, place)
}

/// The first of the names that are wanted that stands, or is wanted twice.
fn first_wanted<'a>(raw: &Raw, wanted: &'a [Name]) -> Option<&'a [u8]>
    requires in_order { IsInOrder raw.now }
    requires sorted { AreSorted wanted.now }
    ensures { option_map (λ n. n.now) result
        ≡ first_name (filter (is_taken raw.now wanted.now) wanted.now) }
{
    for place in 0..wanted.len() {
        if is_taken_at(raw, wanted, place) {
            return Some(wanted[place].items());
        }
    }
    None
}

// ---- names with digits

/// The place from which on a name has only digits.
fn digits_place(name: &[u8]) -> usize
    ensures { IsDigitsPlace name.now result }
{
    let mut place = name.len();
    while place > 0 && name[place - 1].is_ascii_digit() {
        place -= 1;
    }
    place
}

/// The name of the cell for whose further cells a name is wanted, if there is one: what stands before `__t` and all digits
/// that the name ends in.
fn numbered_owner(name: &[u8]) -> Option<&[u8]>
    ensures some { IfSome result (λ owner. IsNumberedFor name.now owner.now) }
    ensures none { IfNone result (IsNotNumbered name.now) }
{
    let place = digits_place(name);
    if place == name.len() {
        return None;
    }
    let front = &name[..place];
    front.strip_suffix(b"__t")
}

/// Whether a name is wanted for further cells of one of some cells.
fn is_numbered(cells: &[RawCell], name: &[u8]) -> bool
    requires { AreInOrder (cell_names cells.now) }
    ensures { result ≡ list_any (is_numbered_for name.now) cells.now }
{
    match numbered_owner(name) {
        Some(owner) => is_borne(cells, owner),
        None => false,
    }
}

/// The first of the names of some things that is wanted for further cells.
fn first_numbered<'a, T: Named>(cells: &[RawCell], things: &'a [T]) -> Option<&'a [u8]>
    requires cells { AreInOrder (cell_names cells.now) }
    requires things { AreInOrder (map T.name_of things.now) }
    ensures { option_map (λ n. n.now) result
        ≡ first_name (filter (λ name. list_any (is_numbered_for name) cells.now)
        (map T.name_of things.now)) }
{
    for thing in things {
        if is_numbered(cells, thing.name_bytes()) {
            return Some(thing.name_bytes());
        }
    }
    None
}

// ---- all names

/// The earlier of two names in byte order, either of which may be missing.
fn earliest<'a>(one: Option<&'a [u8]>, other: Option<&'a [u8]>) -> Option<&'a [u8]>
    ensures { option_map (λ n. n.now) result
        ≡ earliest_of (option_map (λ n. n.now) one.entry) (option_map (λ n. n.now) other.entry) }
{
    let Some(first) = one else {
        return other;
    };
    let Some(second) = other else {
        return Some(first);
    };
    if matches!(second.cmp(first), Ordering::Less) {
        Some(second)
    } else {
        Some(first)
    }
}

/// The first in byte order of all names that are taken.
fn first_taken<'a>(raw: &'a Raw, wanted: &'a [Name]) -> Option<&'a [u8]>
    requires in_order { IsInOrder raw.now }
    requires sorted { AreSorted wanted.now }
    ensures { option_map (λ n. n.now) result
        ≡ first_name (filter (is_taken raw.now wanted.now) wanted.now
        ++ filter (is_numbered_in raw.now) (standing_names raw.now)) }
{
    let cells = raw.cells.items();
    let ports_or_cells = earliest(
        first_numbered(cells, raw.ports.items()),
        first_numbered(cells, cells),
    );
    let numbered = earliest(ports_or_cells, first_numbered(cells, raw.names.items()));
    earliest(first_wanted(raw, wanted), numbered)
}

/// Refuses a netlist where a name that is wanted for a new port, netname or cell is taken: it stands already, or is wanted
/// twice.
///
/// Wanted are `p__t` for each port `p` but the clock, `c__t` for each register and memory `c`, `c__v` for each register with
/// asynchronous reset, `c__flag` for each memory with a write port, and for each cell `c` all names of `c__t` and then
/// digits; these count only where they stand.
///
/// # Errors
///
/// `NameTaken` with the first such name in byte order. `Memory` where memory was wanting.
pub fn check_names(alloc: Global, netlist: &Netlist) -> Result<(), InstrumentFault>
    ensures ok { OnOk result (names_fault netlist.now ≡ None) }
    ensures err { IfErr result (λ e. IsFirst (names_fault netlist.now) e) }
{
    let raw = netlist.raw();
    let wanted = wanted_names(alloc, netlist)?;
    match first_taken(raw, &wanted) {
        Some(name) => Err(InstrumentFault::NameTaken(copied(alloc, name)?)),
        None => Ok(()),
    }
}
