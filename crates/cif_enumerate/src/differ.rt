// Whether a bit differs over completions.

ghost use Rattle.std.specs.Prelude.{◌≡◌, ◌<◌, length, map, IfOk};
ghost use Rattle.cif_defs.specs.Words.{operand};
ghost use Rattle.cif_defs.specs.Completions.{can_differ, some_words};
ghost use Rattle.cif_enumerate.specs.TaintedPlaces.{AreWithin, is_wanted, some_filling, with_bit};

use crate::function::Function;
use crate::places::{Place, tainted_places};
use cif_bits::{Bits, NoMemory};
use std::alloc::Global;

/// Another list of the same words.
fn copies(alloc: Global, words: &[Bits]) -> Result<Vec<Bits>, NoMemory>
    ensures { IfOk result (λ v. v.items ≡ words.now) }
{
    let mut copied = Vec::new(alloc);
    for word in words {
        copied.push(word.copy(alloc)?)?;
    }
    Ok(copied)
}

/// Writes one bit of the words.
fn write_bit(words: &mut [Bits], place: Place, bit: bool)
    requires port { place.port < length words.old }
    requires index { place.index < length (operand words.old place.port) }
    ensures { words.new ≡ with_bit words.old place bit }
{
    let word = &mut words[place.port];
    word.set(place.index, bit);
}

/// Whether a bit is the wanted one.
fn is_wanted(wanted: bool, bit: bool) -> bool
    ensures { result ≡ is_wanted wanted bit }
{
    if wanted { bit } else { !bit }
}

/// Whether the function gives `wanted` for some way to write the bits at the places. The words are the same after it.
fn gives_by<F: Function>(
    alloc: Global,
    function: &F,
    places: &[Place],
    words: &mut [Bits],
    wanted: bool,
) -> Result<bool, NoMemory>
    requires within { AreWithin (map length words.old) places.now }
    requires takes { F.takes function.now (map length words.old) }
    ensures found { IfOk result (λ b. b ≡ some_filling places.now words.old (λ us. is_wanted wanted (F.gives function.now us))) }
    ensures kept { IfOk result (λ _. words.new ≡ words.old) }
{
    match places.split_first() {
        None => {
            let bit = function.bit(alloc, words)?;
            Ok(is_wanted(wanted, bit))
        }
        Some((place, rest)) => {
            let was = words[place.port].get(place.index);
            write_bit(words, *place, false);
            let low = gives_by(alloc, function, rest, words, wanted)?;
            write_bit(words, *place, true);
            let high = gives_by(alloc, function, rest, words, wanted)?;
            write_bit(words, *place, was);
            Ok(low | high)
        }
    }
}

/// Whether the function gives `wanted` for some completion of the values.
fn some_completion_gives<F: Function>(
    alloc: Global,
    function: &F,
    values: &[Bits],
    taints: &[Bits],
    wanted: bool,
) -> Result<bool, NoMemory>
    requires shape { map length taints.now ≡ map length values.now }
    requires takes { F.takes function.now (map length values.now) }
    ensures { IfOk result
        (λ b. b ≡ some_words values.now taints.now (λ us. is_wanted wanted (F.gives function.now us))) }
{
    let places = tainted_places(alloc, taints)?;
    let mut words = copies(alloc, values)?;
    let found = gives_by(alloc, function, &places, &mut words, wanted)?;
    Ok(found)
}

/// Whether the function gives both bits over the completions of values under taints: whether its bit is tainted, exactly.
pub fn can_differ<F: Function>(
    alloc: Global,
    function: &F,
    values: &[Bits],
    taints: &[Bits],
) -> Result<bool, NoMemory>
    requires shape { map length taints.now ≡ map length values.now }
    requires takes { F.takes function.now (map length values.now) }
    ensures { IfOk result (λ b. b ≡ can_differ (F.gives function.now) values.now taints.now) }
{
    let gives_one = some_completion_gives(alloc, function, values, taints, true)?;
    let gives_zero = some_completion_gives(alloc, function, values, taints, false)?;
    Ok(gives_one & gives_zero)
}
