// Functions that were worked by hand.

ghost use Rattle.std.specs.Prelude.{◌≡◌, ℕ, ◌&&◌, List, [], ◌∷◌, length, map};
ghost use Rattle.cif_defs.specs.Words.{bit, operand, xor, Word};

use super::{Function, can_differ};
use cif_bits::{Bits, NoMemory};
use std::alloc::Global;
use std::process::Abort;

/// The conjunction of two bits.
#[derive(Drop)]
struct And;

impl Function for And {
    ghost takes = { λ _ widths. widths ≡ 1 ∷ 1 ∷ [] };

    ghost gives = { λ _ us. bit (operand us 0) 0 && bit (operand us 1) 0 };

    fn bit(&self, _alloc: Global, operands: &[Bits]) -> Result<bool, NoMemory> {
        Ok(operands[0].get(0) & operands[1].get(0))
    }
}

/// Whether exactly one of two bits of one net, which is read twice, is 1.
#[derive(Drop)]
struct XorOfOne;

impl Function for XorOfOne {
    ghost takes = { λ _ widths. widths ≡ 1 ∷ [] };

    ghost gives = { λ _ us. xor (bit (operand us 0) 0) (bit (operand us 0) 0) };

    fn bit(&self, _alloc: Global, operands: &[Bits]) -> Result<bool, NoMemory> {
        Ok(operands[0].get(0) ^ operands[0].get(0))
    }
}

// The word of one bit.
fn single(rt: &(impl Abort + AllocGlobal), bit: bool) -> Bits
    ensures { length result ≡ 1 }
{
    let mut word = Bits::zeros(rt.alloc(), 1).expect(rt, "memory");
    word.set(0, bit);
    word
}

// Whether the conjunction of two bits can differ, for each a value and a taint.
fn conjunction_differs(
    rt: &(impl Abort + AllocGlobal),
    values: (bool, bool),
    taints: (bool, bool),
) -> bool {
    let operands = [single(rt, values.0), single(rt, values.1)];
    let tainted = [single(rt, taints.0), single(rt, taints.1)];
    can_differ(rt.alloc(), &And, &operands, &tainted).expect(rt, "memory")
}

#[test]
fn conjunction(rt: HostRuntime) {
    let table = [
        ((false, false), (true, false), false),
        ((false, true), (true, false), true),
        ((true, true), (false, false), false),
        ((true, false), (false, true), true),
        ((true, false), (true, false), false),
        ((true, true), (true, true), true),
    ];
    for (values, taints, want) in table {
        assert_eq!(rt;
            conjunction_differs(&rt, values, taints),
            want,
            "{values:?} {taints:?}"
        );
    }
}

#[test]
fn one_net_twice(rt: HostRuntime) {
    let values = [single(&rt, false)];
    let taints = [single(&rt, true)];
    let differs = can_differ(rt.alloc(), &XorOfOne, &values, &taints).expect(&rt, "memory");
    assert!(rt; !differs);
}
