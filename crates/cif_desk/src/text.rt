// Texts and the pieces that they are made of.
ghost use Rattle.std.specs.Prelude.{◌≡◌, ◌++◌, map, IfOk, OnOk};
ghost use Rattle.cif_desk.specs.Pieces.{piece_text};
ghost use Rattle.cif_desk.specs.Refusals.{refusal, line_of, joined};

use cif_text::{push_name, push_number};
use std::alloc::{AllocError, Global};

/// A piece of a text.
#[derive(Clone, Copy, Debug)]
pub(crate) enum Piece<'a> {
    /// It stands as it is.
    Plain(&'a str),
    /// A name: a byte outside 0x21 to 0x7E, and `%`, is written as `%` and two hexadecimal digits.
    Name(&'a [u8]),
    /// A number in decimal digits.
    Number(u64),
}

fn push_piece(alloc: Global, text: &mut Vec<u8>, piece: &Piece) -> Result<(), AllocError>
    ensures { OnOk result (text.new.items ≡ text.old.items ++ piece_text piece.now) }
{
    match *piece {
        Piece::Plain(plain) => text.extend_from_slice(plain.as_bytes()),
        Piece::Name(name) => push_name(text, name),
        Piece::Number(number) => push_number(alloc, text, number),
    }
}

/// Adds pieces, one after another.
pub(crate) fn push_all(
    alloc: Global,
    text: &mut Vec<u8>,
    pieces: &[Piece],
) -> Result<(), AllocError>
    ensures { OnOk result (text.new.items ≡ text.old.items ++ joined (map piece_text pieces.now)) }
{
    for piece in pieces {
        push_piece(alloc, text, piece)?;
    }
    Ok(())
}

/// The line of a refusal.
pub(crate) fn refusal_line(
    alloc: Global,
    number: u64,
    words: &[Piece],
) -> Result<Vec<u8>, AllocError>
    ensures { IfOk result (λ line. line.items ≡ line_of (refusal number (map piece_text words.now))) }
{
    let mut line = Vec::from_slice(alloc, b"refused ")?;
    push_number(alloc, &mut line, number)?;
    line.extend_from_slice(b": ")?;
    push_all(alloc, &mut line, words)?;
    line.push(b'\n')?;
    Ok(line)
}
