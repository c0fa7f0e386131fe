// The word at one port.
ghost use Rattle.std.specs.Prelude.{◌≡◌, ◌<◌, ◌≤◌, ◌^◌, length};
ghost use Rattle.cif_defs.specs.Words.{bit, word_of};
ghost use Rattle.cif_defs.specs.Run.{src_word};
ghost use Rattle.cif_defs.specs.TaintRun.{taint_word};
ghost use Rattle.cif_ports.specs.ReadBits.{read_bit, read_word};

use cif_kinds::Src;

/// One bit that is read, where a constant 1 reads as `one`.
fn source_bit(bits: &[bool], source: Src, one: bool) -> bool
    ensures { result ≡ read_bit one (bit bits.now) source }
{
    match source {
        Src::Bit(net) => bits.get(net as usize).copied().unwrap_or(false),
        Src::Zero => false,
        Src::One => one,
    }
}

/// The number whose binary digits are the bits that are read, lowest first, where a constant 1 reads as `one`.
fn gathered(bits: &[bool], sources: &[Src], one: bool) -> u128
    requires { length sources.now ≤ 128 }
    ensures word { word_of (length sources.now) result ≡ read_word one (bit bits.now) sources.now }
    ensures fits { result < 2 ^ length sources.now }
{
    let mut total = 0u128;
    for i in 0..sources.len() {
        if source_bit(bits, sources[i], one) {
            total += 1 << i;
        }
    }
    total
}

/// The word of some bits that are read, at most 128, where `values` are those of the net bits.
pub fn port_value(values: &[bool], sources: &[Src]) -> u128
    requires { length sources.now ≤ 128 }
    ensures word { word_of (length sources.now) result ≡ src_word (bit values.now) sources.now }
    ensures fits { result < 2 ^ length sources.now }
{
    gathered(values, sources, true)
}

/// The taint of the word of some bits that are read, at most 128, where `taints` are those of the net bits. A constant is
/// untainted.
pub fn port_taint(taints: &[bool], sources: &[Src]) -> u128
    requires { length sources.now ≤ 128 }
    ensures word { word_of (length sources.now) result ≡ taint_word (bit taints.now) sources.now }
    ensures fits { result < 2 ^ length sources.now }
{
    gathered(taints, sources, false)
}
