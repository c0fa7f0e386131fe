// Slots: a place for the piece of each part.
ghost use Rattle.std.specs.Prelude.{◌≡◌, ◌<◌, length, slice_set, Some, None, IfOk, option_copied};
ghost use Rattle.cif_pieces.specs.Filled.{AllEmpty, place};

use crate::piece::PartDone;
use cif_bits::NoMemory;
use std::alloc::Global;
use std::marker::Model;

/// A place for each part, which is empty or holds a piece.
#[derive(Drop)]
pub struct Slots {
    places: Vec<Option<PartDone>>,
}

impl Model for Slots {
    ghost use Rattle.std.specs.Prelude.{◌<◌, List, Option, length};
    ghost use Rattle.cif_pieces.specs.Pieces.{PieceOf};

    ghost Value = { List (Option PieceOf) };

    ghost view = { λ s. s.places.items };

    ghost invariant = { λ s. length s.places.items < 4294967296 };
}

/// So many empty places.
fn empty_places(alloc: Global, parts: u32) -> Result<Vec<Option<PartDone>>, NoMemory>
    ensures len { IfOk result (λ places. length places.items ≡ parts) }
    ensures empty { IfOk result (λ places. AllEmpty places.items) }
{
    let mut places = Vec::new(alloc);
    for _part in 0..parts {
        places.push(None)?;
    }
    Ok(places)
}

impl Slots {
    /// A place for each of so many parts, every one empty.
    pub fn empty(alloc: Global, parts: u32) -> Result<Slots, NoMemory>
        ensures len { IfOk result (λ s. length s ≡ parts) }
        ensures empty { IfOk result AllEmpty }
    {
        let places = empty_places(alloc, parts)?;
        Ok(Slots { places })
    }

    /// The number of places.
    pub fn len(&self) -> u32
        ensures { result ≡ length self.now }
    {
        self.places.len() as u32
    }

    /// What the place of a part holds; `None` exactly where it is empty.
    pub fn piece(&self, part: u32) -> Option<&PartDone>
        requires { part < length self.now }
        ensures { option_copied result ≡ place self.now part }
    {
        self.places[part as usize].as_ref()
    }

    /// Empties the place of a part, and gives what it held; `None` exactly where it was empty.
    pub fn take(&mut self, part: u32) -> Option<PartDone>
        requires { part < length self.old }
        ensures piece { result ≡ place self.old part }
        ensures empty { self.new ≡ slice_set self.old part None }
    {
        self.places[part as usize].take()
    }

    /// Fills the place of a part, which is empty.
    pub fn put(&mut self, part: u32, piece: PartDone)
        requires inside { part < length self.old }
        requires empty { place self.old part ≡ None }
        ensures { self.new ≡ slice_set self.old part (Some piece) }
    {
        self.places[part as usize] = Some(piece);
    }
}
