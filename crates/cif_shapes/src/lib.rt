//! The rules of taint, made once for each shape of cell.
//!
//! What a combinational cell gives, and the terms of its taint, depend on its kind and parameters alone: its shape. A
//! `TaintRule` holds the terms of one shape, and `Rules` those of a list of cells. Operands without taint give outputs
//! without taint, and so no term is evaluated for them.
#![tactic(auto)]

mod key;
mod laws;
mod rule;
mod rules;
mod shape;
mod untainted;

pub use laws::{shape_decides, untainted_stay_untainted};
pub use rule::TaintRule;
pub use rules::Rules;
pub use shape::Shape;
pub use untainted::{is_tainted, untainted_words};
