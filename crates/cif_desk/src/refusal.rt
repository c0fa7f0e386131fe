// The lines of refusals.
ghost use Rattle.std.specs.Prelude.{◌≡◌, ◌<◌, ◌∷◌, [], codes, Some, option_map, EachIndex, slice_index, length, Result, IfOk};
ghost use Rattle.std.specs.Fmt.{decimal};
ghost use Rattle.cif_defs.specs.Text.{coded};
ghost use Rattle.cif_defs.specs.Messages.{read_fault_line};
ghost use Rattle.cif_defs.specs.Accepted.{netlist_of};
ghost use Rattle.cif_desk.specs.Refusals.{refusal, port_refusal, bit_refusal, json_refusal, build_refusal, loop_refusal, stim_refusal, script_refusal, too_long, line_of};
ghost use Rattle.cif_desk.specs.Stops.{IsStopOf, IsUnread, StopsBy};

use crate::stop::{Line, Stop};
use crate::text::{Piece, refusal_line};
use Piece::{Name, Number, Plain};
use cif_cells::{BuildFault, Netlist, Spot};
use cif_json::JsonFault;
use cif_script::ScriptFault;
use cif_stimulus::StimFault;
use cif_text::push_name;
use std::alloc::{AllocError, Global};

/// A name after some words.
fn named(
    alloc: Global,
    number: u64,
    before: &str,
    name: &cif_cells::Name,
) -> Result<Vec<u8>, AllocError>
    ensures { IfOk result (λ line. line.items ≡ line_of (refusal number (before.now ∷ coded name.now ∷ []))) }
{
    refusal_line(alloc, number, &[Plain(before), Name(name.items())])
}

/// Two names, each after some words.
fn two_names(
    alloc: Global,
    number: u64,
    before: &str,
    first: &cif_cells::Name,
    between: &str,
    second: &cif_cells::Name,
) -> Result<Vec<u8>, AllocError>
    ensures { IfOk result (λ line. line.items ≡ line_of (refusal number
        (before.now ∷ coded first.now ∷ between.now ∷ coded second.now ∷ []))) }
{
    let words = [
        Plain(before),
        Name(first.items()),
        Plain(between),
        Name(second.items()),
    ];
    refusal_line(alloc, number, &words)
}

/// A bit of the file between some words.
fn numbered(alloc: Global, number: u64, bit: u64, after: &str) -> Result<Vec<u8>, AllocError>
    ensures { IfOk result (λ line. line.items ≡ line_of (refusal number
        (codes "bit " ∷ decimal bit ∷ after.now ∷ []))) }
{
    refusal_line(alloc, number, &[Plain("bit "), Number(bit), Plain(after)])
}

/// A count before some words.
fn counted(alloc: Global, number: u64, count: u64, after: &str) -> Result<Vec<u8>, AllocError>
    ensures { IfOk result (λ line. line.items ≡ line_of (refusal number (decimal count ∷ after.now ∷ []))) }
{
    refusal_line(alloc, number, &[Number(count), Plain(after)])
}

/// A port of a cell, or one of the module.
fn port_line<'a>(
    alloc: Global,
    number: u64,
    what: &'a str,
    spot: &'a Spot,
) -> Result<Vec<u8>, AllocError>
    ensures { IfOk result (λ line. line.items ≡ line_of (port_refusal number what.now spot.now)) }
{
    match spot {
        Spot::Port(port) => {
            let words = [Plain(what), Plain(" at port "), Name(port.items())];
            refusal_line(alloc, number, &words)
        }
        Spot::CellPort { cell, port } => {
            let words = [
                Plain(what),
                Plain(" at cell "),
                Name(cell.items()),
                Plain(" port "),
                Name(port.items()),
            ];
            refusal_line(alloc, number, &words)
        }
    }
}

/// A bit of such a port, where `side` says which ports of the module it is.
fn bit_line<'a>(
    alloc: Global,
    number: u64,
    what: &'a str,
    side: &'a str,
    spot: &'a Spot,
    index: u32,
) -> Result<Vec<u8>, AllocError>
    ensures { IfOk result (λ line. line.items
        ≡ line_of (bit_refusal number what.now side.now spot.now index)) }
{
    match spot {
        Spot::Port(port) => {
            let words = [
                Plain(what),
                Plain(" at "),
                Plain(side),
                Plain(" port "),
                Name(port.items()),
                Plain(" bit "),
                Number(u64::from(index)),
            ];
            refusal_line(alloc, number, &words)
        }
        Spot::CellPort { cell, port } => {
            let words = [
                Plain(what),
                Plain(" at cell "),
                Name(cell.items()),
                Plain(" port "),
                Name(port.items()),
                Plain(" bit "),
                Number(u64::from(index)),
            ];
            refusal_line(alloc, number, &words)
        }
    }
}

/// The line of a module that isn't accepted. Want of memory has none.
fn build_line(alloc: Global, fault: &BuildFault) -> Result<Vec<u8>, AllocError>
    ensures { IfOk result (λ line. option_map line_of (build_refusal fault.now) ≡ Some line.items) }
{
    match fault {
        BuildFault::UnsupportedCell(c, kind) => two_names(alloc, 10, "cell ", c, " kind ", kind),
        BuildFault::MissingPort(c, port) => two_names(alloc, 11, "no port ", port, " at cell ", c),
        BuildFault::WidthMismatch(c, port) => two_names(
            alloc,
            12,
            "width at cell ",
            c,
            " port ",
            port,
        ),
        BuildFault::WidthLimit(spot) => port_line(alloc, 13, "too wide", spot),
        BuildFault::BadParameter(c, name) => two_names(
            alloc,
            14,
            "parameter ",
            name,
            " at cell ",
            c,
        ),
        BuildFault::XOperand(spot, index) => bit_line(alloc, 15, "x", "output", spot, *index),
        BuildFault::MultiDriven(bit) => numbered(alloc, 16, *bit, " has two drivers"),
        BuildFault::Undriven(bit) => numbered(alloc, 17, *bit, " has no driver"),
        BuildFault::ConstantOutput(spot, index) => {
            bit_line(alloc, 18, "constant", "input", spot, *index)
        }
        BuildFault::TwoClocks(c) => named(alloc, 19, "second clock at cell ", c),
        BuildFault::ClockAsData(name) => named(alloc, 20, "clock as data at ", name),
        BuildFault::InoutPort(port) => named(alloc, 21, "inout port ", port),
        BuildFault::InitConflict(bit) => at_number(alloc, 22, "two initial values for bit ", *bit),
        BuildFault::MemoryForm(c) => named(alloc, 23, "memory form at cell ", c),
        BuildFault::TooManyCells(count) => counted(alloc, 24, *count, " cells"),
        BuildFault::TooManyBits(count) => counted(alloc, 25, *count, " bits"),
        BuildFault::ZeroWidth(spot) => port_line(alloc, 26, "no bits", spot),
        BuildFault::NoClockInput(c) => named(alloc, 27, "no clock input at cell ", c),
        BuildFault::PortClash(bit) => numbered(alloc, 29, *bit, " on two inputs"),
        BuildFault::Memory => Err(AllocError),
    }
}

/// The line of a file that isn't read as a netlist. Want of memory has none.
fn json_line(alloc: Global, fault: &JsonFault) -> Result<Vec<u8>, AllocError>
    ensures { IfOk result (λ line. option_map line_of (json_refusal fault.now) ≡ Some line.items) }
{
    match fault {
        JsonFault::BadJson => refusal_line(alloc, 1, &[Plain("not JSON")]),
        JsonFault::NoModules => refusal_line(alloc, 2, &[Plain("no modules")]),
        JsonFault::NoTop => refusal_line(alloc, 3, &[Plain("no top module")]),
        JsonFault::BadShape(path) => named(alloc, 4, "shape at ", path),
        JsonFault::Memory => Err(AllocError),
    }
}

/// A number of the file, as that of a line, after some words.
fn at_number(alloc: Global, number: u64, before: &str, place: u64) -> Result<Vec<u8>, AllocError>
    ensures { IfOk result (λ text. text.items ≡ line_of (refusal number (before.now ∷ decimal place ∷ []))) }
{
    refusal_line(alloc, number, &[Plain(before), Number(place)])
}

/// The line of a text that isn't read as a stimulus. Want of memory has none.
fn stim_line(alloc: Global, fault: &StimFault) -> Result<Vec<u8>, AllocError>
    ensures { IfOk result (λ line. option_map line_of (stim_refusal fault.now) ≡ Some line.items) }
{
    match fault {
        StimFault::BadLine(line) => at_number(alloc, 40, "line ", *line),
        StimFault::NoSuchName(line) => at_number(alloc, 41, "name at line ", *line),
        StimFault::WrongWidth(line) => at_number(alloc, 42, "width at line ", *line),
        StimFault::NoCycles => refusal_line(alloc, 43, &[Plain("no cycles")]),
        StimFault::TooManyCycles => refusal_line(alloc, 44, &[Plain("too many cycles")]),
        StimFault::SetTwice(line) => at_number(alloc, 45, "set again at line ", *line),
        StimFault::BadAddress(line) => at_number(alloc, 46, "address at line ", *line),
        StimFault::Memory => Err(AllocError),
    }
}

/// The line of a text that isn't read as a script of sessions. Want of memory has none.
fn script_line(alloc: Global, fault: &ScriptFault) -> Result<Vec<u8>, AllocError>
    ensures { IfOk result (λ line. option_map line_of (script_refusal fault.now) ≡ Some line.items) }
{
    match fault {
        ScriptFault::BadLine(line) => at_number(alloc, 60, "line ", *line),
        ScriptFault::NoSuchName(line) => at_number(alloc, 61, "name at line ", *line),
        ScriptFault::NotTwoValued(line) => {
            at_number(alloc, 62, "no two-valued name at line ", *line)
        }
        ScriptFault::TooManySessions => refusal_line(alloc, 63, &[Plain("too many sessions")]),
        ScriptFault::SameName(line) => at_number(alloc, 64, "session again at line ", *line),
        ScriptFault::ScriptTooLarge => refusal_line(alloc, 65, &[Plain("script too large")]),
        ScriptFault::Memory => Err(AllocError),
    }
}

/// The line of a loop of cells.
fn loop_line(alloc: Global, netlist: &Netlist, cells: &[u32]) -> Result<Vec<u8>, AllocError>
    requires { EachIndex cells.now (λ i. slice_index cells.now i < length (netlist_of netlist.now).cells) }
    ensures { IfOk result (λ line. line.items ≡ line_of (loop_refusal (netlist_of netlist.now) cells.now)) }
{
    let mut words = Vec::new(alloc);
    words.push(Plain("loop"))?;
    for cell in cells {
        words.push(Plain(" "))?;
        words.push(Name(netlist.cells()[*cell as usize].name().items()))?;
    }
    refusal_line(alloc, 30, &words)
}

/// The stop that tells a line, or want of memory where there is none.
fn stop_by(line: Result<Vec<u8>, AllocError>) -> Stop
    ensures { IsStopOf line result }
{
    match line {
        Ok(line) => Stop::Refused(Line::of(line)),
        Err(_) => Stop::NoMemory,
    }
}

/// The stop of a file that the store failed to give.
pub(crate) fn unread_stop(alloc: Global, name: &str) -> Stop
    ensures { IsUnread name.now result }
{
    match unread_line(alloc, name) {
        Ok(line) => Stop::Unread(Line::of(line)),
        Err(_) => Stop::NoMemory,
    }
}

fn unread_line(alloc: Global, name: &str) -> Result<Vec<u8>, AllocError>
    ensures { IfOk result (λ line. line.items ≡ read_fault_line name.now) }
{
    let mut line = Vec::from_slice(alloc, b"read fault: ")?;
    push_name(&mut line, name.as_bytes())?;
    line.push(b'\n')?;
    Ok(line)
}

/// The stop of a module that isn't accepted.
pub(crate) fn build_stop(alloc: Global, fault: BuildFault) -> Stop
    ensures { StopsBy (λ r. build_refusal fault ≡ Some r) result }
{
    stop_by(build_line(alloc, &fault))
}

/// The stop of a file that isn't read as a netlist.
pub(crate) fn json_stop(alloc: Global, fault: JsonFault) -> Stop
    ensures { StopsBy (λ r. json_refusal fault ≡ Some r) result }
{
    stop_by(json_line(alloc, &fault))
}

/// The stop of a loop of cells.
pub(crate) fn loop_stop(alloc: Global, netlist: &Netlist, cells: &[u32]) -> Stop
    requires { EachIndex cells.now (λ i. slice_index cells.now i < length (netlist_of netlist.now).cells) }
    ensures { StopsBy (λ r. loop_refusal (netlist_of netlist.now) cells.now ≡ r) result }
{
    stop_by(loop_line(alloc, netlist, cells))
}

/// The stop of a text that isn't read as a stimulus.
pub(crate) fn stim_stop(alloc: Global, fault: StimFault) -> Stop
    ensures { StopsBy (λ r. stim_refusal fault ≡ Some r) result }
{
    stop_by(stim_line(alloc, &fault))
}

/// The stop of a text that isn't read as a script of sessions.
pub(crate) fn script_stop(alloc: Global, fault: ScriptFault) -> Stop
    ensures { StopsBy (λ r. script_refusal fault ≡ Some r) result }
{
    stop_by(script_line(alloc, &fault))
}

/// The stop of a file that is too long.
pub(crate) fn too_long_stop(alloc: Global, name: &str) -> Stop
    ensures { StopsBy (λ r. too_long name.now ≡ r) result }
{
    stop_by(refusal_line(alloc, 5, &[Plain("file too long "), Name(name.as_bytes())]))
}
