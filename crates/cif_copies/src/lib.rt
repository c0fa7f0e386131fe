//! Copies of what a module holds: its ports, its cells and its netnames, with all that is in them.
#![tactic(auto)]

ghost use Rattle.std.specs.Prelude.{◌≡◌, IfOk};

use cif_defs::{Connection, Listed, ParamValue, RawBit, RawCell, RawName, RawParam, RawPort};
use std::alloc::{AllocError, Global};

/// Something that can be copied, with all that it holds.
pub trait Copied: Drop {
    /// A copy. The only error is want of memory.
    fn copied(&self, alloc: Global) -> Result<Self, AllocError>
        ensures { IfOk result (λ copy. copy ≡ self.now) };
}

/// Copies of these things, in their order. The only error is want of memory.
pub fn copies<T: Copied>(alloc: Global, things: &[T]) -> Result<Vec<T>, AllocError>
    ensures { IfOk result (λ found. found.items ≡ things.now) }
{
    let mut found = Vec::with_capacity(alloc, things.len())?;
    for thing in things {
        found.push(thing.copied(alloc)?)?;
    }
    Ok(found)
}

impl Copied for u8 {
    fn copied(&self, _alloc: Global) -> Result<u8, AllocError> {
        Ok(*self)
    }
}

impl Copied for RawBit {
    fn copied(&self, _alloc: Global) -> Result<RawBit, AllocError> {
        Ok(*self)
    }
}

impl<T: Copied> Copied for Listed<T> {
    fn copied(&self, alloc: Global) -> Result<Listed<T>, AllocError> {
        Ok(Listed::of(copies(alloc, self.items())?))
    }
}

impl Copied for ParamValue {
    fn copied(&self, alloc: Global) -> Result<ParamValue, AllocError> {
        match self {
            ParamValue::Text(text) => Ok(ParamValue::Text(text.copied(alloc)?)),
            ParamValue::Number(number) => Ok(ParamValue::Number(*number)),
        }
    }
}

impl Copied for RawParam {
    fn copied(&self, alloc: Global) -> Result<RawParam, AllocError> {
        Ok(RawParam {
            name: self.name.copied(alloc)?,
            value: self.value.copied(alloc)?,
        })
    }
}

impl Copied for Connection {
    fn copied(&self, alloc: Global) -> Result<Connection, AllocError> {
        let name = self.name().copied(alloc)?;
        Ok(Connection::of(name, copies(alloc, self.items())?))
    }
}

impl Copied for RawPort {
    fn copied(&self, alloc: Global) -> Result<RawPort, AllocError> {
        Ok(RawPort {
            name: self.name.copied(alloc)?,
            direction: self.direction,
            bits: self.bits.copied(alloc)?,
        })
    }
}

impl Copied for RawCell {
    fn copied(&self, alloc: Global) -> Result<RawCell, AllocError> {
        Ok(RawCell {
            name: self.name.copied(alloc)?,
            hide: self.hide,
            kind: self.kind.copied(alloc)?,
            parameters: self.parameters.copied(alloc)?,
            attributes: self.attributes.copied(alloc)?,
            connections: self.connections.copied(alloc)?,
        })
    }
}

impl Copied for RawName {
    fn copied(&self, alloc: Global) -> Result<RawName, AllocError> {
        Ok(RawName {
            name: self.name.copied(alloc)?,
            hide: self.hide,
            bits: self.bits.copied(alloc)?,
            attributes: self.attributes.copied(alloc)?,
        })
    }
}
