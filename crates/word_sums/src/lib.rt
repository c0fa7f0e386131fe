//! Values and taints of sums, products, divisions and comparisons, of at most 128 bits a port, without memory.
//!
//! A cell is made ready once, as a `SumForm` or, with its carries, as an `AluForm`: its kind and widths. From numbers that
//! hold the words and taints of its operands a form gives the words of its outputs, which are the cell's meaning, and
//! their taint: exact for `$add $sub $neg $alu`, `$lt $le $ge $gt` and `$eq $ne $eqx $nex`, coarse for `$mul $div $mod
//! $divfloor $modfloor`. Kinds, meanings and widths are those of the Yosys cell library; the taint is CellIFT's. No call
//! takes memory, and none refuses.
#![tactic(auto)]

mod alu;
mod bounds;
mod coarse;
mod form;
mod kinds;
mod orders;
mod shape;
mod sum_taints;
mod sums;
mod values;

pub use alu::AluForm;
pub use form::{SumForm, covers};
pub use shape::Shape;
