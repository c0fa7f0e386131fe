// Where a part of a module has a wrong shape.
ghost use Rattle.std.specs.Prelude.{◌≡◌, ◌∷◌, ◌++◌, [], ℕ, List, Result, IfOk};
ghost use Rattle.cif_json.specs.WrongPlace.{slash, within as below, needed as needed_here};
ghost use Rattle.cif_json.specs.Answers.{Answers, IsBelow};

use cif_defs::{Listed, Name};
use std::alloc::{AllocError, AllocFailed, Global};

/// Why a part of a module wasn't read.
#[derive(Debug, Drop)]
pub enum Misfit {
    /// The first wrong place below the part: the names that lead there, a slash before each.
    At(Name),
    NoMemory,
}

impl From<AllocError> for Misfit {
    ghost use Rattle.std.specs.Prelude.{◌≡◌};
    ghost use Rattle.cif_json.specs.declared.misfit.Misfit.TheVariants.{NoMemory};

    ghost from_gives = { λ _ e. e ≡ NoMemory };

    fn from(_refused: AllocError) -> Misfit {
        Misfit::NoMemory
    }
}

impl<T: Drop> From<AllocFailed<T>> for Misfit {
    ghost use Rattle.std.specs.Prelude.{◌≡◌};
    ghost use Rattle.cif_json.specs.declared.misfit.Misfit.TheVariants.{NoMemory};

    ghost from_gives = { λ _ e. e ≡ NoMemory };

    fn from(_refused: AllocFailed<T>) -> Misfit {
        Misfit::NoMemory
    }
}

/// A place below a name.
#[cold]
fn place_below(alloc: Global, name: &str, place: &[u8]) -> Result<Vec<u8>, AllocError>
    ensures { IfOk result (λ path. path.items ≡ slash ∷ name.now ++ place.now) }
{
    let mut path = Vec::new(alloc);
    path.push(b'/')?;
    path.extend_from_slice(name.as_bytes())?;
    path.extend_from_slice(place)?;
    Ok(path)
}

impl Misfit {
    /// The misfit of the value itself. It takes no memory.
    pub fn here(alloc: Global) -> Misfit
        ensures { result ≡ Misfit.At [] }
    {
        Misfit::At(Listed::of(Vec::new(alloc)))
    }

    /// The misfit of a value that has this one under a name.
    #[cold]
    fn below(self, alloc: Global, name: &str) -> Misfit
        ensures { IsBelow name.now self result }
    {
        match self {
            Misfit::At(place) => match place_below(alloc, name, place.items()) {
                Ok(path) => Misfit::At(Listed::of(path)),
                Err(_) => Misfit::NoMemory,
            },
            Misfit::NoMemory => Misfit::NoMemory,
        }
    }
}

/// What was read under a name, where a wrong place lies one name further down.
pub fn within<T: Drop>(alloc: Global, name: &str, answer: Result<T, Misfit>) -> Result<T, Misfit>
    ensures { (reading : Result T (List ℕ)) → Answers answer reading
        → Answers result (below name.now reading) }
{
    match answer {
        Ok(x) => Ok(x),
        Err(misfit) => Err(misfit.below(alloc, name)),
    }
}

/// What is there, or else this very place is wrong. It takes no memory.
pub fn needed<T: Drop>(alloc: Global, found: Option<T>) -> Result<T, Misfit>
    ensures { Answers result (needed_here found) }
{
    match found {
        Some(x) => Ok(x),
        None => Err(Misfit::here(alloc)),
    }
}
