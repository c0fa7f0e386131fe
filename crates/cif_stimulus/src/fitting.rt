// Whether the lines of a stimulus fit a netlist.
ghost use Rattle.std.specs.Prelude.{◌≡◌, ◌&&◌, ◌==◌, Some, None, is_some, map, reverse, []};
ghost use Rattle.std.specs.List.{list_any};
ghost use Rattle.std.specs.Option.{option_copied};
ghost use Rattle.cif_cells.specs.Wires.{found_seen};
ghost use Rattle.cif_stimulus.specs.StimulusView.{line_seen, tainted};
ghost use Rattle.cif_stimulus.specs.Fitting.{is_address, is_of_width as is_of_width_by, is_stored_by, is_held_by, is_found_as as is_found_as_of, are_same_sources as are_same_sources_of, fits_alone as fits_alone_of, is_reg_of, is_mem_of, is_release_of, is_set_among, is_again as is_again_of, lines_fit as lines_fit_of};

use crate::line::StimLine;
use crate::lookup::{hint_at, memory, register, settable_port};
use cif_bits::Bits;
use cif_cells::{Cell, Found, Netlist};
use cif_defs::{Param, Src, Wire};

/// Whether a word and its taint have so many bits.
fn is_of_width(value: &Bits, taint: &Bits, width: u64) -> bool
    ensures { result ≡ is_of_width_by (tainted value.now taint.now) width }
{
    value.bits().len() as u64 == width && taint.bits().len() as u64 == width
}

/// Whether a memory has a row of an address.
pub fn has_address(cell: &Cell, address: u64) -> bool
    ensures { result ≡ is_address address (Some cell.now) }
{
    let offset = cell.number(Param::Offset);
    address >= offset && address - offset < cell.number(Param::Size)
}

/// Whether there is a register, and a word has its width.
fn fits_register(cell: Option<&Cell>, value: &Bits, taint: &Bits) -> bool
    ensures { result ≡ (is_some (option_copied cell.entry)
        && is_stored_by (tainted value.now taint.now) (option_copied cell.entry)) }
{
    match cell {
        Some(cell) => is_of_width(value, taint, cell.number(Param::Width)),
        None => false,
    }
}

/// Whether there is a memory, it has an address, and a word has its width.
fn fits_memory(cell: Option<&Cell>, address: u64, value: &Bits, taint: &Bits) -> bool
    ensures { result ≡ (is_some (option_copied cell.entry)
        && is_address address (option_copied cell.entry)
        && is_stored_by (tainted value.now taint.now) (option_copied cell.entry)) }
{
    match cell {
        Some(cell) => {
            has_address(cell, address) && is_of_width(value, taint, cell.number(Param::Width))
        }
        None => false,
    }
}

/// Whether bits are the same, one by one.
fn are_same_sources(first: &[Src], second: &[Src]) -> bool
    ensures { result ≡ are_same_sources_of first.now second.now }
{
    first == second
}

/// Whether what a name gives is a wire of these bits.
fn is_found_as(found: Found<'_>, bits: &[Src]) -> bool
    ensures { result ≡ is_found_as_of bits.now (found_seen found.entry) }
{
    match found {
        Found::Wire(wire) => are_same_sources(wire.items(), bits),
        Found::NotTwoValued | Found::Missing => false,
    }
}

/// Whether there is a port, and a word has its width.
fn fits_port(port: Option<&Wire>, value: &Bits, taint: &Bits) -> bool
    ensures { result ≡ (is_some (option_copied port.entry)
        && is_held_by (tainted value.now taint.now) (option_copied port.entry)) }
{
    match port {
        Some(port) => is_of_width(value, taint, port.items().len() as u64),
        None => false,
    }
}

/// Whether what a line names is there, with its address and its width.
fn fits_alone(netlist: &Netlist, line: &StimLine, hint: Option<usize>) -> bool
    ensures { result ≡ fits_alone_of netlist.now (line_seen line.now) }
{
    match line {
        StimLine::Reg { cell, value, taint } => {
            fits_register(register(netlist, cell.items(), hint), value, taint)
        }
        StimLine::Mem {
            cell,
            address,
            value,
            taint,
        } => fits_memory(memory(netlist, cell.items(), hint), *address, value, taint),
        StimLine::Release { name, wire } => is_found_as(netlist.find(name.items()), wire.items()),
        StimLine::Cycle(_) => true,
        StimLine::Set { port, value, taint } => {
            fits_port(settable_port(netlist, port.items(), hint), value, taint)
        }
    }
}

/// Whether a line is the word of a register.
fn is_reg(line: &StimLine, name: &[u8]) -> bool
    ensures { result ≡ is_reg_of name.now (line_seen line.now) }
{
    match line {
        StimLine::Reg { cell, .. } => cell.items() == name,
        StimLine::Mem { .. }
        | StimLine::Release { .. }
        | StimLine::Cycle(_)
        | StimLine::Set { .. } => false,
    }
}

/// Whether a line is the word of a memory at an address.
fn is_mem(line: &StimLine, name: &[u8], place: u64) -> bool
    ensures { result ≡ is_mem_of name.now place (line_seen line.now) }
{
    match line {
        StimLine::Mem { cell, address, .. } => cell.items() == name && *address == place,
        StimLine::Reg { .. }
        | StimLine::Release { .. }
        | StimLine::Cycle(_)
        | StimLine::Set { .. } => false,
    }
}

/// Whether a line releases a name.
fn is_release(line: &StimLine, sought: &[u8]) -> bool
    ensures { result ≡ is_release_of sought.now (line_seen line.now) }
{
    match line {
        StimLine::Release { name, .. } => name.items() == sought,
        StimLine::Reg { .. } | StimLine::Mem { .. } | StimLine::Cycle(_) | StimLine::Set { .. } =>
            false,
    }
}

/// Whether some line is the word of a register.
fn has_reg(lines: &[StimLine], name: &[u8]) -> bool
    ensures { result ≡ list_any (λ l. is_reg_of name.now (line_seen l)) lines.now }
{
    lines.iter().any(|line| is_reg(line, name))
}

/// Whether some line is the word of a memory at an address.
fn has_mem(lines: &[StimLine], name: &[u8], place: u64) -> bool
    ensures { result ≡ list_any (λ l. is_mem_of name.now place (line_seen l)) lines.now }
{
    lines.iter().any(|line| is_mem(line, name, place))
}

/// Whether some line releases a name.
fn has_release(lines: &[StimLine], name: &[u8]) -> bool
    ensures { result ≡ list_any (λ l. is_release_of name.now (line_seen l)) lines.now }
{
    lines.iter().any(|line| is_release(line, name))
}

/// Whether a port is set in the group that lines end in. It goes back from the last line.
fn is_set(lines: &[StimLine], name: &[u8]) -> bool
    ensures { result ≡ is_set_among name.now (reverse (map line_seen lines.now)) }
{
    let mut end = lines.len();
    while end > 0 {
        end -= 1;
        match &lines[end] {
            StimLine::Cycle(_) => return false,
            StimLine::Set { port, .. } if port.items() == name => return true,
            _ => {}
        }
    }
    false
}

/// Whether a line gives what one of the lines before it gave.
fn is_again(line: &StimLine, before: &[StimLine]) -> bool
    ensures { result ≡ is_again_of (line_seen line.now) (reverse (map line_seen before.now)) }
{
    match line {
        StimLine::Reg { cell, .. } => has_reg(before, cell.items()),
        StimLine::Mem { cell, address, .. } => has_mem(before, cell.items(), *address),
        StimLine::Release { name, .. } => has_release(before, name.items()),
        StimLine::Cycle(_) => false,
        StimLine::Set { port, .. } => is_set(before, port.items()),
    }
}

/// Whether each line fits a netlist by itself, and none gives again what one before it gave.
pub fn lines_fit(netlist: &Netlist, lines: &[StimLine], places: &[Option<usize>]) -> bool
    ensures { result ≡ lines_fit_of netlist.now [] (map line_seen lines.now) }
{
    for number in 0..lines.len() {
        let line = &lines[number];
        let hint = hint_at(places, number);
        if !fits_alone(netlist, line, hint) || is_again(line, &lines[..number]) {
            return false;
        }
    }
    true
}
