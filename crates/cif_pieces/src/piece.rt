// Pieces: what one part owns of the frame of a cycle.
ghost use Rattle.std.specs.Prelude.{◌≡◌, ◌<◌, false, [], get_or};
ghost use Rattle.cif_defs.specs.Words.{bit};
ghost use Rattle.cif_defs.specs.Run.{value};
ghost use Rattle.cif_defs.specs.TaintRun.{taint, taint_state, state_value, state_taint};
ghost use Rattle.cif_seq.specs.Cases.{net_of};
ghost use Rattle.cif_pieces.specs.Parts.{OwnsCell, OwnsNet};
ghost use Rattle.cif_pieces.specs.Pieces.{HoldsPiece, IsPiece, piece_of};

use cif_cells::NetBit;
use cif_cycle::{StateWord, StoredWords, bit_of};
use cif_inputs::Inputs;
use cif_seq::Case;
use cif_stimulus::Pair;
use std::marker::Model;
use std::sync::Arc;

/// Tables with a place for each net bit and for each cell, of which only the places that a part owns count, and the cursor
/// over the stimulus.
#[derive(Drop)]
pub struct OwnedBits {
    /// The values of the net bits.
    pub values: Vec<bool>,
    /// Their taints.
    pub taints: Vec<bool>,
    /// What the cells store.
    pub stored: StoredWords,
    /// For each cell whether it may store something else next.
    pub due: Vec<bool>,
    /// The cursor over the stimulus, at the cycle.
    pub inputs: Inputs,
}

/// What one part owns of the frame of a cycle. Contracts see it as the case, the cycle, the part and the number of parts:
/// that its content is the defined one is kept by the type.
#[derive(Drop)]
pub struct PartDone {
    case: Arc<Case>,
    cycle: u64,
    part: u32,
    parts: u32,
    bits: OwnedBits,
}

impl Model for PartDone {
    ghost use Rattle.cif_pieces.specs.Pieces.{PieceOf};

    ghost Value = { PieceOf };

    ghost use Rattle.cif_pieces.specs.PieceView.{piece_seen, HoldsPart};

    ghost view = { piece_seen };

    ghost invariant = { HoldsPart };
}

/// Bit `index` of the word of a cell; 0 past the end of the word, and where there is no such cell.
fn word_bit(words: &[StateWord], cell: u32, index: u64) -> bool
    ensures { result ≡ bit (get_or words.now cell []) index }
{
    match words.get(cell as usize) {
        Some(word) => word.bit(index),
        None => false,
    }
}

impl PartDone {
    /// The piece of a part at a cycle, among 1 to 64 parts, from what the part owns of that frame. It takes no memory.
    pub fn of(case: Arc<Case>, cycle: u64, part: u32, parts: u32, bits: OwnedBits) -> PartDone
        requires is { IsPiece (piece_of case.value cycle part parts) }
        requires holds { HoldsPiece (piece_of case.value cycle part parts) bits }
        ensures { result ≡ piece_of case.value cycle part parts }
    {
        PartDone {
            case,
            cycle,
            part,
            parts,
            bits,
        }
    }

    /// Its cycle, which is one of the case.
    pub fn cycle(&self) -> u64
        ensures is { result ≡ self.now.cycle }
        ensures piece { IsPiece self.now }
    {
        self.cycle
    }

    /// Its part, which is below the number of parts.
    pub fn part(&self) -> u32
        ensures is { result ≡ self.now.part }
        ensures piece { IsPiece self.now }
    {
        self.part
    }

    /// The number of parts, from 1 to 64.
    pub fn parts(&self) -> u32
        ensures is { result ≡ self.now.parts }
        ensures piece { IsPiece self.now }
    {
        self.parts
    }

    /// What it holds of the frame, lent.
    pub fn bits(&self) -> &OwnedBits
        ensures { HoldsPiece self.now result.now }
    {
        &self.bits
    }

    /// What it holds of the frame.
    pub fn into_bits(self) -> OwnedBits
        ensures { HoldsPiece self result }
    {
        self.bits
    }

    /// The value and the taint of a net bit that the part owns.
    pub fn bit(&self, net: NetBit) -> Pair
        requires { OwnsNet (net_of self.now.case) self.now.parts self.now.part net }
        ensures value { result.value
            ≡ value (net_of self.now.case) self.now.case.stimulus self.now.cycle net }
        ensures taint { result.taint
            ≡ taint (net_of self.now.case) self.now.case.stimulus self.now.cycle net }
    {
        Pair {
            value: bit_of(&self.bits.values, net as usize),
            taint: bit_of(&self.bits.taints, net as usize),
        }
    }

    /// The value and the taint of bit `index` of the word that a cell of the part stores; of a memory, bit
    /// `word * WIDTH + bit`, which is tainted too where the memory's flag is set.
    pub fn state(&self, cell: u32, index: u64) -> Pair
        requires { OwnsCell (net_of self.now.case) self.now.parts self.now.part cell }
        ensures value { result.value
            ≡ state_value (net_of self.now.case) self.now.case.stimulus self.now.cycle cell index }
        ensures taint { result.taint
            ≡ state_taint (net_of self.now.case) self.now.case.stimulus self.now.cycle cell index }
    {
        Pair {
            value: word_bit(&self.bits.stored.values, cell, index),
            taint: self.stored(cell, index) | self.flag(cell),
        }
    }

    /// The stored taint alone of bit `index` of the word that a cell of the part stores.
    pub fn stored(&self, cell: u32, index: u64) -> bool
        requires { OwnsCell (net_of self.now.case) self.now.parts self.now.part cell }
        ensures { result ≡ bit (get_or (taint_state (net_of self.now.case)
            self.now.case.stimulus self.now.cycle).stored cell []) index }
    {
        word_bit(&self.bits.stored.taints, cell, index)
    }

    /// The sticky flag of a memory of the part; off for any other cell.
    pub fn flag(&self, cell: u32) -> bool
        requires { OwnsCell (net_of self.now.case) self.now.parts self.now.part cell }
        ensures { result ≡ get_or (taint_state (net_of self.now.case)
            self.now.case.stimulus self.now.cycle).flags cell false }
    {
        bit_of(&self.bits.stored.flags, cell as usize)
    }
}
