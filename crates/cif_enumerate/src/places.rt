// The places of tainted bits.

ghost use Rattle.std.specs.Prelude.{◌≡◌, ◌++◌, ◌≤◌, length, IfOk};
ghost use Rattle.cif_enumerate.specs.TaintedPlaces.{places_in, places_from};

use cif_bits::{Bits, NoMemory};
use std::alloc::Global;

/// The place of a bit among operand words: its operand, and its place there.
#[derive(Clone, Copy, Debug, Drop)]
pub struct Place {
    /// The operand.
    pub port: usize,
    /// The place in its word.
    pub index: u32,
}

/// Adds the places of the bits of one operand's taint word that are 1.
fn push_places(places: &mut Vec<Place>, port: usize, taint: &Bits) -> Result<(), NoMemory>
    ensures { IfOk result (λ _. places.new.items ≡ places.old.items ++ places_in port 0 taint.now) }
{
    for index in 0..taint.width() {
        if taint.get(index) {
            places.push(Place { port, index })?;
        }
    }
    Ok(())
}

/// The places of the tainted bits, in order.
pub fn tainted_places(alloc: Global, taints: &[Bits]) -> Result<Vec<Place>, NoMemory>
    ensures { IfOk result (λ places. places.items ≡ places_from 0 taints.now) }
{
    let mut places = Vec::new(alloc);
    for (port, taint) in taints.iter().enumerate() {
        push_places(&mut places, port, taint)?;
    }
    Ok(places)
}
