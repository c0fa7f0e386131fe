// A term of every form, over an operand of two bits, and the cells that stand for it, worked out by hand.

ghost use Rattle.std.specs.Prelude.{◌≡◌, ◌∷◌, [], IsSome, IfOk};
ghost use Rattle.cif_emit.specs.Emitted.{value_bits, taint_bits, widths};

use crate::{NameMaker, NetNumbers, OperandBits, OperandPair, emit};
use cif_bits::{Bits, NoMemory};
use cif_defs::{Listed, Name, RawBit, RawBits, RawCell};
use cif_term::{Op1, Op2, Term};
use std::alloc::{AllocError, Global};
use std::test::Fail;

/// One operand of two bits, on the nets 2 and 3, whose taint is on 4 and 5.
fn operand(alloc: Global) -> Result<OperandBits, AllocError>
    ensures values { IfOk result (λ ports. widths (value_bits ports) ≡ 2 ∷ []) }
    ensures taints { IfOk result (λ ports. widths (taint_bits ports) ≡ 2 ∷ []) }
{
    let values = vec![in alloc; RawBit::Net(2), RawBit::Net(3)]?;
    let taints = vec![in alloc; RawBit::Net(4), RawBit::Net(5)]?;
    let pair = OperandPair {
        values: Listed::of(values),
        taints: Listed::of(taints),
    };
    Ok(Listed::of(vec![in alloc; pair]?))
}

/// What is emitted of a term that is well formed over that operand.
fn emitted(
    alloc: Global,
    term: &Term,
    names: &mut NameMaker,
    cells: &mut Vec<RawCell>,
) -> Result<RawBits, NoMemory>
    requires { IsSome names.old.cell }
{
    let ports = operand(alloc)?;
    match term.width(&[2]) {
        Some(_) => emit(alloc, term, &ports, names, cells),
        None => Err(NoMemory),
    }
}

/// The second bit of the operand chooses between the parity of its taint, with a 1 above it, and twice its complement.
fn sample(alloc: Global) -> Result<Term, NoMemory> {
    let select = Term::pick(alloc, Term::Value(0), vec![in alloc; 1]?)?;
    let parity = Term::one(alloc, Op1::ReduceXor, Term::Taint(0))?;
    let above = Term::Const(Bits::of(vec![in alloc; true]?));
    let zero = Term::join(alloc, parity, above)?;
    let complement = Term::one(alloc, Op1::Not, Term::Value(0))?;
    let twice = Term::two(alloc, Op2::Add, Term::Bound(0), Term::Bound(0))?;
    let one = Term::name(alloc, complement, twice)?;
    Term::choose(alloc, select, zero, one)
}

/// Adds the bits, each after a space.
fn push_bits(text: &mut String, bits: &[RawBit]) -> Result<(), Fail> {
    for bit in bits {
        match *bit {
            RawBit::Net(number) => write!(text, " n{number}")?,
            RawBit::One => write!(text, " 1")?,
            _ => write!(text, " ?")?,
        }
    }
    Ok(())
}

/// Adds a name.
fn push_name(text: &mut String, name: &[u8]) -> Result<(), Fail> {
    for byte in name {
        text.push(char::from(*byte))?;
    }
    Ok(())
}

/// Adds a cell in a line: its name, its type, and what its ports are connected to.
fn push_cell(text: &mut String, cell: &RawCell) -> Result<(), Fail> {
    push_name(text, cell.name.items())?;
    write!(text, " ")?;
    push_name(text, cell.kind.items())?;
    for connection in cell.connections.items() {
        write!(text, " ")?;
        push_name(text, connection.name().items())?;
        push_bits(text, connection.items())?;
    }
    write!(text, "\n")?;
    Ok(())
}

#[test]
fn every_form_is_emitted(rt: HostRuntime) -> Result<(), Fail> {
    let alloc = rt.alloc();
    let used = vec![in alloc; 2, 3, 4, 5]?;
    let mut names = NameMaker::new(NetNumbers::of(used));
    names.begin(Name::of(Vec::from_slice(alloc, b"c")?));
    let mut cells = Vec::new(alloc);
    let term = sample(alloc)?;
    let bits = emitted(alloc, &term, &mut names, &mut cells)?;
    let mut text = String::new(alloc);
    for cell in &cells {
        push_cell(&mut text, cell)?;
    }
    push_bits(&mut text, bits.items())?;
    let expected = "c__t0 $reduce_xor A n4 n5 Y n6
c__t1 $not A n2 n3 Y n7 n8
c__t2 $add A n7 n8 B n7 n8 Y n9 n10
c__t3 $mux A n6 1 B n9 n10 S n3 Y n11 n12
 n11 n12";
    assert_eq!(rt; text.as_str(), expected);
    Ok(())
}
