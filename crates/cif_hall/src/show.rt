// What a session shows of its pinned frame, without the lock.
ghost use Rattle.std.specs.Prelude.{◌≡◌, ◌≤◌, false, length, Ok, IfErr, IfOk, IsErr, MatchOption, ⊤};
ghost use Rattle.cif_defs.specs.Agreement.{AgreesUpTo};
ghost use Rattle.cif_defs.specs.Run.{src_bit, src_word, value};
ghost use Rattle.cif_defs.specs.Stimulus.{Stimulus};
ghost use Rattle.cif_defs.specs.TaintRun.{src_taint, taint, taint_word};
ghost use Rattle.cif_seq.specs.Cases.{net_of};
ghost use Rattle.cif_hall.specs.Shown.{IsShowFault, pair_at, shown_at};

use crate::session::Session;
use crate::told::{NotPinned, ShowFault, Shown};
use cif_bits::{Bits, NoMemory};
use cif_core::Run;
use cif_defs::{NetBit, Src, Wire};
use cif_seq::Frame;
use cif_stimulus::Pair;
use std::alloc::{AllocError, Global};

/// The value and the taint of a bit that is read. A constant is untainted.
fn source_pair(frame: &Frame, source: Src) -> Pair
    ensures value { result.value
        ≡ src_bit (value (net_of frame.now.case) frame.now.case.stimulus frame.now.cycle) source }
    ensures taint { result.taint
        ≡ src_taint (taint (net_of frame.now.case) frame.now.case.stimulus frame.now.cycle) source }
{
    match source {
        Src::Bit(net) => frame.bit(net),
        Src::Zero => Pair {
            value: false,
            taint: false,
        },
        Src::One => Pair {
            value: true,
            taint: false,
        },
    }
}

/// The values of bits that are read.
fn source_values(alloc: Global, frame: &Frame, bits: &[Src]) -> Result<Vec<bool>, AllocError>
    ensures { IfOk result (λ w. w.items
        ≡ src_word (value (net_of frame.now.case) frame.now.case.stimulus frame.now.cycle) bits.now) }
{
    let mut word = Vec::with_capacity(alloc, bits.len())?;
    for source in bits {
        word.push(source_pair(frame, *source).value)?;
    }
    Ok(word)
}

/// The taints of bits that are read.
fn source_taints(alloc: Global, frame: &Frame, bits: &[Src]) -> Result<Vec<bool>, AllocError>
    ensures { IfOk result (λ w. w.items
        ≡ taint_word (taint (net_of frame.now.case) frame.now.case.stimulus frame.now.cycle) bits.now) }
{
    let mut word = Vec::with_capacity(alloc, bits.len())?;
    for source in bits {
        word.push(source_pair(frame, *source).taint)?;
    }
    Ok(word)
}

/// The word of a wire in a frame, and its taint.
fn shown(alloc: Global, frame: &Frame, wire: &Wire) -> Result<Shown, NoMemory>
    requires { length wire.now.bits ≤ 65536 }
    ensures { IfOk result (λ s. s ≡ shown_at frame.now.case frame.now.cycle wire.now) }
{
    let value = Bits::of(source_values(alloc, frame, wire.items())?);
    let taint = Bits::of(source_taints(alloc, frame, wire.items())?);
    Ok(Shown { value, taint })
}

/// What a session shows. It takes no lock, and nothing that workers do changes it.
impl<N: Run> Session<N> {
    /// The value and the taint of a net bit in the pinned frame. `NotPinned` comes exactly where none is pinned.
    ///
    /// A bit that is untainted has this value under each stimulus that agrees up to the pinned cycle.
    pub fn bit(&self, net: NetBit) -> Result<Pair, NotPinned>
        ensures is { MatchOption self.now.pin (IsErr result) (λ k. result ≡ Ok (pair_at N.case k net)) }
        ensures independent { IfOk result (λ pair. MatchOption self.now.pin ⊥ (λ k. (other : Stimulus)
            → AgreesUpTo (net_of N.case) k N.case.stimulus other
            → pair.taint ≡ false → value (net_of N.case) other k net ≡ pair.value)) }
    {
        match &self.pin {
            Some(frame) => Ok(frame.bit(net)),
            None => Err(NotPinned),
        }
    }

    /// The word of a wire of at most 65,536 bits in the pinned frame, and its taint. `NotPinned` comes exactly where none
    /// is pinned; the other fault is want of memory.
    pub fn show(&self, alloc: Global, wire: &Wire) -> Result<Shown, ShowFault>
        requires { length wire.now.bits ≤ 65536 }
        ensures ok { IfOk result (λ s. MatchOption self.now.pin ⊥ (λ k. s ≡ shown_at N.case k wire.now)) }
        ensures err { IfErr result (IsShowFault self.now.pin) }
    {
        match &self.pin {
            Some(frame) => match shown(alloc, &**frame, wire) {
                Ok(shown) => Ok(shown),
                Err(_) => Err(ShowFault::Memory),
            },
            None => Err(ShowFault::NotPinned),
        }
    }
}
