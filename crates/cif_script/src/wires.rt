// The wires that lines show, by name.
ghost use Rattle.std.specs.Prelude.{◌≡◌, IfOk, OnOk, []};
ghost use Rattle.cif_script.specs.ScriptText.{wires_with, wire_number};
ghost use Rattle.cif_script.specs.Seen.{IsTable, number_under};

use cif_bits::NoMemory;
use cif_checks::raw_access::name_copy;
use cif_defs::Wire;
use std::alloc::Global;
use std::collections::BTreeMap;

/// The wires that are shown, each once, and their numbers by name.
#[derive(Drop)]
pub struct WireTable<'a> {
    pub wires: Vec<Wire>,
    numbers: BTreeMap<&'a [u8], u32>,
}

/// Another wire of the same name and bits.
fn copied(alloc: Global, wire: &Wire) -> Result<Wire, NoMemory>
    ensures { IfOk result (λ w. w ≡ wire.now) }
{
    let name = name_copy(alloc, wire.name().items())?;
    let bits = Vec::from_slice(alloc, wire.items())?;
    Ok(Wire::of(name, bits))
}

impl<'a> WireTable<'a> {
    /// No wires.
    pub fn new(alloc: Global) -> WireTable<'a>
        ensures table { IsTable result }
        ensures empty { result.wires.items ≡ [] }
    {
        WireTable {
            wires: Vec::new(alloc),
            numbers: BTreeMap::new(alloc),
        }
    }

    /// The number of the wire of a name.
    fn find(&self, name: &[u8]) -> Option<u32>
        ensures { result ≡ number_under self.now name.now }
    {
        self.numbers.get(name).copied()
    }

    /// The number of a wire, which is added where it has none. There are no more numbers than a `u32` holds: beyond that,
    /// memory is said to be wanting.
    pub fn add(&mut self, alloc: Global, wire: &'a Wire) -> Result<u32, NoMemory>
        requires { IsTable self.old }
        ensures table { OnOk result (IsTable self.new) }
        ensures number { IfOk result (λ n. n ≡ wire_number self.old.wires.items wire.now) }
        ensures wires { OnOk result (self.new.wires.items ≡ wires_with self.old.wires.items wire.now) }
    {
        if let Some(number) = self.find(wire.name().items()) {
            return Ok(number);
        }
        let number = self.wires.len();
        if number >= u32::MAX as usize {
            return Err(NoMemory);
        }
        let number = number as u32;
        self.wires.push(copied(alloc, wire)?)?;
        self.numbers.insert(wire.name().items(), number)?;
        Ok(number)
    }
}
