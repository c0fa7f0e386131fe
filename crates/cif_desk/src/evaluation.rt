// The text of an evaluation, written cycle by cycle.
ghost use Rattle.std.specs.Prelude.{◌≡◌, ◌<◌, ◌++◌, ℕ, length, IfOk, IfErr, OnOk};
ghost use Rattle.cif_defs.specs.WordText.{text_of, byte_of_bit};
ghost use Rattle.cif_defs.specs.Run.{value, src_bit, src_word};
ghost use Rattle.cif_defs.specs.TaintRun.{taint, src_taint, taint_word};
ghost use Rattle.cif_defs.specs.EvalText.{port_line, cycle_text as text_of_cycle, done_line, eval_text};
ghost use Rattle.cif_io.specs.Outside.{Rose, Appends};
ghost use Rattle.cif_desk.specs.Stops.{StopsWriting};
ghost use Rattle.cif_desk.specs.Shown.{AreInside};
ghost use Rattle.cif_seq.specs.Cases.{net_of};

use crate::stop::Stop;
use cif_cells::{Src, Wire};
use cif_io::{Sink, write_all};
use cif_seq::{Case, Frame, first_frame, following_frame};
use cif_stimulus::Pair;
use cif_text::{push_name, push_number};
use std::alloc::{AllocError, Global};
use std::sync::Arc;

/// Value and taint of a bit that is read. A constant is untainted.
fn pair_of(frame: &Frame, source: Src) -> Pair
    requires { (b : ℕ) → source ≡ Src.Bit b → b < length (net_of frame.now.case).drivers }
    ensures value { result.value
        ≡ src_bit (value (net_of frame.now.case) frame.now.case.stimulus frame.now.cycle) source }
    ensures taint { result.taint
        ≡ src_taint (taint (net_of frame.now.case) frame.now.case.stimulus frame.now.cycle) source }
{
    match source {
        Src::Bit(bit) => frame.bit(bit),
        Src::Zero => Pair {
            value: false,
            taint: false,
        },
        Src::One => Pair {
            value: true,
            taint: false,
        },
    }
}

/// `1` or `0`.
fn digit(bit: bool) -> u8
    ensures { result ≡ byte_of_bit bit }
{
    if bit { b'1' } else { b'0' }
}

/// Adds the values of some bits, the highest first.
fn push_values(text: &mut Vec<u8>, frame: &Frame, bits: &[Src]) -> Result<(), AllocError>
    requires { AreInside (net_of frame.now.case) bits.now }
    ensures { OnOk result (text.new.items ≡ text.old.items
        ++ text_of (src_word (value (net_of frame.now.case) frame.now.case.stimulus frame.now.cycle) bits.now)) }
{
    for i in 0..bits.len() {
        let pair = pair_of(frame, bits[bits.len() - 1 - i]);
        text.push(digit(pair.value))?;
    }
    Ok(())
}

/// Adds the taints of some bits, the highest first.
fn push_taints(text: &mut Vec<u8>, frame: &Frame, bits: &[Src]) -> Result<(), AllocError>
    requires { AreInside (net_of frame.now.case) bits.now }
    ensures { OnOk result (text.new.items ≡ text.old.items
        ++ text_of (taint_word (taint (net_of frame.now.case) frame.now.case.stimulus frame.now.cycle) bits.now)) }
{
    for i in 0..bits.len() {
        let pair = pair_of(frame, bits[bits.len() - 1 - i]);
        text.push(digit(pair.taint))?;
    }
    Ok(())
}

/// Adds the line of an output port.
fn push_port(text: &mut Vec<u8>, frame: &Frame, port: &Wire) -> Result<(), AllocError>
    requires { AreInside (net_of frame.now.case) port.now.bits }
    ensures { OnOk result (text.new.items ≡ text.old.items
        ++ port_line (net_of frame.now.case) frame.now.case.stimulus frame.now.cycle port.now) }
{
    push_name(text, port.name().items())?;
    text.push(b' ')?;
    push_values(text, frame, port.items())?;
    text.push(b'/')?;
    push_taints(text, frame, port.items())?;
    text.push(b'\n')?;
    Ok(())
}

/// Makes a buffer hold the lines of a frame's cycle.
fn set_cycle(alloc: Global, text: &mut Vec<u8>, frame: &Frame) -> Result<(), AllocError>
    ensures { OnOk result (text.new.items
        ≡ text_of_cycle (net_of frame.now.case) frame.now.case.stimulus frame.now.cycle) }
{
    text.clear();
    text.extend_from_slice(b"cycle ")?;
    push_number(alloc, text, frame.cycle())?;
    text.push(b'\n')?;
    for port in frame.case().netlist().outputs() {
        push_port(text, frame, port)?;
    }
    Ok(())
}

/// The line after the last cycle.
fn last_line(alloc: Global, cycles: u64) -> Result<Vec<u8>, AllocError>
    ensures { IfOk result (λ text. text.items ≡ done_line cycles) }
{
    let mut text = Vec::from_slice(alloc, b"done ")?;
    push_number(alloc, &mut text, cycles)?;
    text.push(b'\n')?;
    Ok(text)
}

/// Writes a text to out.
pub(crate) fn write<W: Sink>(out: &mut W, text: &[u8]) -> Result<(), Stop>
    ensures all { OnOk result (Appends (W.taken out.old) (W.taken out.new) text.now) }
    ensures kept { OnOk result (W.faults out.new ≡ W.faults out.old) }
    ensures err { IfErr result (StopsWriting (Rose (W.faults out.old) (W.faults out.new))
        (W.taken out.old) (W.taken out.new) text.now) }
    ensures unwritten { IfErr result (λ stop. stop ≡ Stop.Unwritten) }
{
    match write_all(out, text) {
        Ok(()) => Ok(()),
        Err(_) => Err(Stop::Unwritten),
    }
}

/// Writes the lines of a frame's cycle to out, as one piece, which it makes in a buffer.
fn write_cycle<W: Sink>(
    alloc: Global,
    frame: &Frame,
    text: &mut Vec<u8>,
    out: &mut W,
) -> Result<(), Stop>
    ensures all { OnOk result (Appends (W.taken out.old) (W.taken out.new)
        (text_of_cycle (net_of frame.now.case) frame.now.case.stimulus frame.now.cycle)) }
    ensures kept { OnOk result (W.faults out.new ≡ W.faults out.old) }
    ensures err { IfErr result (StopsWriting (Rose (W.faults out.old) (W.faults out.new))
        (W.taken out.old) (W.taken out.new)
        (text_of_cycle (net_of frame.now.case) frame.now.case.stimulus frame.now.cycle)) }
{
    set_cycle(alloc, text, frame)?;
    write(out, text)
}

/// Writes what a case shows in all its cycles to out, while it is computed: a piece for each cycle, and one for the last
/// line.
pub(crate) fn write_cycles<W: Sink>(
    alloc: Global,
    case: &Arc<Case>,
    out: &mut W,
) -> Result<(), Stop>
    requires { 0 < case.now.value.stimulus.cycles }
    ensures all { OnOk result (Appends (W.taken out.old) (W.taken out.new)
        (eval_text (net_of case.now.value) case.now.value.stimulus)) }
    ensures err { IfErr result (StopsWriting (Rose (W.faults out.old) (W.faults out.new))
        (W.taken out.old) (W.taken out.new)
        (eval_text (net_of case.now.value) case.now.value.stimulus)) }
{
    let mut text = Vec::new(alloc);
    let mut frame = first_frame(alloc, case)?;
    write_cycle(alloc, &frame, &mut text, out)?;
    for cycle in 1..case.cycles() {
        frame = following_frame(alloc, frame)?;
        write_cycle(alloc, &frame, &mut text, out)?;
    }
    let last = last_line(alloc, case.cycles())?;
    write(out, &last)
}
