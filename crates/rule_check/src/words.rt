// Words of texts, highest bit first.

ghost use Rattle.std.specs.Prelude.{◌≡◌, length, map, IfOk};

use cif_bits::Bits;
use cif_term::Term;
use std::alloc::{AllocError, Global};
use std::process::Abort;
use std::test::Fail;

/// A word and its taint.
pub type Marked = (&'static str, &'static str);

/// The words of texts, and their taints.
#[derive(Drop)]
pub struct Words {
    pub values: Vec<Bits>,
    pub taints: Vec<Bits>,
}

/// The word of a text of digits.
pub fn word(rt: &impl Abort, alloc: Global, text: &str) -> Result<Bits, Fail> {
    let digits = text.as_bytes();
    assert!(rt; 0 < digits.len());
    assert!(rt; digits.len() <= 128);
    Ok(Bits::from_text(alloc, digits)?)
}

/// The words of these texts.
pub fn read_words(rt: &impl Abort, alloc: Global, texts: &[Marked]) -> Result<Words, Fail> {
    let mut values = Vec::new(alloc);
    let mut taints = Vec::new(alloc);
    for (value, taint) in texts {
        values
            .push(word(rt, alloc, value)?)
            .map_err(AllocError::from)?;
        taints
            .push(word(rt, alloc, taint)?)
            .map_err(AllocError::from)?;
    }
    Ok(Words { values, taints })
}

/// How many bits each of some words has.
fn widths_of(alloc: Global, words: &[Bits]) -> Result<Vec<u32>, Fail>
    ensures { IfOk result (λ v. v.items ≡ map length words.now) }
{
    Ok(words.iter().map(|word| word.width()).collect(alloc)?)
}

/// A term has a word over others with their taints, and costs no more than this.
pub fn assert_term(
    rt: &impl Abort,
    alloc: Global,
    name: &str,
    term: &Term,
    words: &Words,
    wanted: &str,
    limit: u64,
) -> Result<(), Fail> {
    let widths = widths_of(alloc, &words.values)?;
    let taint_widths = widths_of(alloc, &words.taints)?;
    assert!(rt; widths.as_slice() == taint_widths.as_slice());
    let width = term
        .width(&widths)
        .expect(rt, "a term that isn't well formed");
    assert!(rt; term.cost(&widths) <= limit, "{name}");
    let found = term.eval(alloc, &words.values, &words.taints)?;
    assert_eq!(rt; found.width(), width, "{name}");
    let wanted = word(rt, alloc, wanted)?;
    assert!(rt; found.equals(&wanted), "{name}");
    Ok(())
}
