// The names of what an augmented module has beside the original one.
ghost use Rattle.std.specs.Prelude.{◌≡◌, ◌++◌, IfOk};
ghost use Rattle.cif_augment.specs.Names.{taint_name as taint_name_of, flag_name as flag_name_of, stored_name as stored_name_of};

use cif_bits::NoMemory;
use cif_defs::Name;
use std::alloc::Global;

/// A name with a suffix.
pub(crate) fn suffixed(alloc: Global, name: &[u8], suffix: &[u8]) -> Result<Name, NoMemory>
    ensures { IfOk result (λ n. n ≡ name.now ++ suffix.now) }
{
    let mut bytes = Vec::from_slice(alloc, name)?;
    bytes.extend_from_slice(suffix)?;
    Ok(Name::of(bytes))
}

/// The name of the taint of a port, a register or a memory: `__t` stands behind the name.
pub fn taint_name(alloc: Global, name: &[u8]) -> Result<Name, NoMemory>
    ensures { IfOk result (λ n. n ≡ taint_name_of name.now) }
{
    suffixed(alloc, name, b"__t")
}

/// The name of the flag of a memory: `__flag` stands behind the name.
pub fn flag_name(alloc: Global, name: &[u8]) -> Result<Name, NoMemory>
    ensures { IfOk result (λ n. n ≡ flag_name_of name.now) }
{
    suffixed(alloc, name, b"__flag")
}

/// The name of the stored word of a register with asynchronous reset: `__v` stands behind the name.
pub fn stored_name(alloc: Global, name: &[u8]) -> Result<Name, NoMemory>
    ensures { IfOk result (λ n. n ≡ stored_name_of name.now) }
{
    suffixed(alloc, name, b"__v")
}

/// Another name of the same bytes.
pub(crate) fn copied(alloc: Global, name: &[u8]) -> Result<Name, NoMemory>
    ensures { IfOk result (λ n. n ≡ name.now) }
{
    Ok(Name::of(Vec::from_slice(alloc, name)?))
}
