// Operands cut or extended to the width of an output.
ghost use Rattle.std.specs.Prelude.{◌≡◌, ◌^◌, ◌<◌};
ghost use Rattle.cif_defs.specs.Words.{extend, word_of};
ghost use Rattle.word_logic.specs.Extensions.{IsNarrowExtension};

use word_numbers::extend;

/// How an operand is shown in an output: widths in bits, and whether it is extended with its sign.
#[derive(Clone, Copy, Debug, PartialEq, Eq, Drop)]
pub struct Extension {
    /// The width of the operand.
    pub from: u32,
    /// The width of the output.
    pub to: u32,
    /// Whether the highest bit goes on past the operand's end; else zeros do.
    pub signed: bool,
}

impl Extension {
    /// A word of the operand's width, cut or extended to the output's.
    pub fn shown(&self, number: u128) -> u128
        requires narrow { IsNarrowExtension self.now }
        requires fits { number < 2 ^ self.now.from }
        ensures word { word_of self.now.to result
            ≡ extend self.now.to self.now.signed (word_of self.now.from number) }
        ensures fits { result < 2 ^ self.now.to }
    {
        extend(self.from, self.to, self.signed, number)
    }
}
