// The net bits that lines release, as a table.
ghost use Rattle.std.specs.Prelude.{◌≡◌, ℕ, ◌<◌, ◌==◌, ◌&&◌, ◌||◌, not, length, get_or, map, vec_len, IfOk, OnOk};
ghost use Rattle.std.specs.List.{list_any};
ghost use Rattle.cif_defs.specs.Words.{bit, word};
ghost use Rattle.cif_defs.specs.Stimulus.{is_bit, is_released};
ghost use Rattle.cif_defs.specs.declared.nets.Src.TheVariants.{Zero};
ghost use Rattle.cif_stimulus.specs.StimulusView.{line_seen};
ghost use Rattle.cif_augment.specs.Stimuli.{is_marked as is_marked_by};

use cif_bits::{Bits, NoMemory};
use cif_defs::{NetBit, Src};
use cif_stimulus::StimLine;
use std::alloc::{AllocError, Global};

/// Makes a table long enough for a net bit.
fn grow(marks: &mut Vec<bool>, net: NetBit) -> Result<(), AllocError>
    ensures long { OnOk result (net < vec_len marks.new) }
    ensures same { OnOk result ((b : ℕ) → bit marks.new.items b ≡ bit marks.old.items b) }
{
    while marks.len() <= net as usize {
        marks.push(false)?;
    }
    Ok(())
}

/// Marks a net bit.
fn mark(marks: &mut Vec<bool>, net: NetBit) -> Result<(), AllocError>
    ensures { OnOk result ((b : ℕ) → bit marks.new.items b ≡ (b == net || bit marks.old.items b)) }
{
    grow(marks, net)?;
    marks[net as usize] = true;
    Ok(())
}

/// Marks the net bits among some sources.
fn mark_sources(marks: &mut Vec<bool>, sources: &[Src]) -> Result<(), AllocError>
    ensures { OnOk result ((b : ℕ) → bit marks.new.items b
        ≡ (list_any (is_bit b) sources.now || bit marks.old.items b)) }
{
    for source in sources {
        if let Src::Bit(net) = *source {
            mark(marks, net)?;
        }
    }
    Ok(())
}

/// The net bits that lines release, as marks.
pub fn released_marks(alloc: Global, lines: &[StimLine]) -> Result<Vec<bool>, AllocError>
    ensures { IfOk result (λ marks. (b : ℕ) → bit marks.items b
        ≡ is_released (map line_seen lines.now) b) }
{
    let mut marks = Vec::new(alloc);
    for line in lines {
        if let StimLine::Release { wire, .. } = line {
            mark_sources(&mut marks, wire.items())?;
        }
    }
    Ok(marks)
}

/// Whether a source is a net bit that is marked.
fn is_marked(marks: &[bool], source: Src) -> bool
    ensures { result ≡ is_marked_by marks.now source }
{
    match source {
        Src::Bit(net) => (net as usize) < marks.len() && marks[net as usize],
        Src::Zero | Src::One => false,
    }
}

/// A source by its place; a 0 past the end.
fn source_at(sources: &[Src], place: usize) -> Src
    ensures { result ≡ get_or sources.now place Zero }
{
    if place < sources.len() {
        sources[place]
    } else {
        Src::Zero
    }
}

/// The taint of some sources, without that of marked bits.
pub fn unmarked(
    alloc: Global,
    marks: &[bool],
    sources: &[Src],
    taint: &Bits,
) -> Result<Bits, NoMemory>
    ensures { IfOk result (λ w. w ≡ word (length taint.now)
        (λ i. bit taint.now i && not (is_marked_by marks.now (get_or sources.now i Zero)))) }
{
    let mut kept = Vec::new(alloc);
    let bits = taint.bits();
    for i in 0..bits.len() {
        let is_dropped = is_marked(marks, source_at(sources, i));
        kept.push(bits[i] & !is_dropped)?;
    }
    Ok(Bits::of(kept))
}
