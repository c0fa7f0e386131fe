// Forms at chosen numbers. Expected words and taints were worked by hand.
use super::{Extension, LogicForm};
use cif_kinds::Kind;
use word_numbers::Words;

#[test]
fn and_of_four_bits(rt: HostRuntime) {
    let form = LogicForm::Binary(
        Kind::And,
        Extension {
            from: 4,
            to: 4,
            signed: false,
        },
        4,
    );
    let values = Words {
        a: 0b1100,
        b: 0b1010,
        c: 0,
        d: 0,
    };
    let taints = Words {
        a: 0b0110,
        b: 0b0011,
        c: 0,
        d: 0,
    };
    assert_eq!(rt; form.value(&values).a, 0b1000);
    assert_eq!(rt; form.taint(&values, &taints).a, 0b0010);
}

#[test]
fn tainted_sign_of_not(rt: HostRuntime) {
    let form = LogicForm::Unary(
        Kind::Not,
        Extension {
            from: 2,
            to: 4,
            signed: true,
        },
    );
    let values = Words {
        a: 0b10,
        b: 0,
        c: 0,
        d: 0,
    };
    assert_eq!(rt; form.value(&values).a, 0b0001);
    assert_eq!(rt; form.taint(&values, &values).a, 0b1110);
}
