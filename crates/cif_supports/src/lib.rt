//! The way a taint takes: the places that hold a bit, the support of a place, which are the places that can taint it, and
//! chains of tainted places from an input or a first state to a net bit.
//!
//! Each tainted place but those at which a taint begins has a tainted place in its support, so each tainted net bit has a
//! chain. It has types and laws, and no code: `cif_witness` makes and checks chains by them.
#![tactic(auto)]

ghost use Rattle.std.specs.Prelude.{◌≡◌, ℕ, Bool, true, false, List};
ghost use Rattle.std.specs.List.{list_any};
ghost use Rattle.cif_defs.specs.Cells.{Cell as CellData};
ghost use Rattle.cif_defs.specs.Netlist.{IsWired, Netlist};
ghost use Rattle.cif_defs.specs.Stimulus.{Stimulus};
ghost use Rattle.cif_defs.specs.Taint.{output_bit};
ghost use Rattle.cif_defs.specs.TaintRun.{taint};
ghost use Rattle.cif_defs.specs.Words.{Word};
ghost use Rattle.cif_supports.specs.declared.places.Member.{Member as MemberData};
ghost use Rattle.cif_supports.specs.declared.places.Place.{Place as PlaceData};
ghost use Rattle.cif_supports.specs.Chains.{IsChain, IsFirstChain, IsRunnable, is_beginning, is_tainted_member, support};
ghost use Rattle.cif_supports.specs.Dependence.{AgreeAt, AreAsLong};
ghost use Rattle.cif_supports.specs.Places.{is_tainted};
ghost use Rattle.cif_supports.specs.Supports.{bits_read};

mod places;

pub use places::{Member, Place};

/// A law without a body: an output bit of a combinational cell depends on the operand bits that it reads alone.
pub fn outputs_depend_on_what_they_read()
    ensures { (c : CellData) (p i : ℕ) (us ws : List Word) → AreAsLong c us → AreAsLong c ws → AgreeAt (bits_read c.kind c i) us ws
        → output_bit c p i us ≡ output_bit c p i ws }
{}

/// A law without a body: a tainted place has a tainted place in its support, but where a taint begins.
pub fn taints_come_from_supports()
    ensures { (n : Netlist) (order : List ℕ) (s : Stimulus) (k : ℕ) (place : PlaceData) → IsRunnable n order → is_tainted n s k place ≡ true
        → is_beginning k place ≡ false → list_any (is_tainted_member n s) (support n s k place) ≡ true }
{}

/// A law without a body: each tainted net bit has a chain, of which one takes the first tainted place of each support, and no
/// other net bit has one.
pub fn tainted_bits_have_chains()
    ensures exists { (n : Netlist) (order : List ℕ) (s : Stimulus) (b k : ℕ) → IsRunnable n order → taint n s k b ≡ true
        → (chain : List MemberData) × IsFirstChain n s b k chain }
    ensures one { (n : Netlist) (s : Stimulus) (b k : ℕ) (chain other : List MemberData) → IsFirstChain n s b k chain → IsFirstChain n s b k other
        → chain ≡ other }
    ensures only { (n : Netlist) (s : Stimulus) (b k : ℕ) (chain : List MemberData) → IsWired n → IsChain n s b k chain → taint n s k b ≡ true }
{}
