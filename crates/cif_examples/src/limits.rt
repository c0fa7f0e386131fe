// Limits that a file would be too long for: the most cells of a module, and the most bits of its memories.

use cif_cells::{BuildFault, Listed, Name, Netlist, Raw, RawCell};
use cif_json::read_netlist;
use std::alloc::{AllocError, Global};
use std::test::Fail;

/// A memory of 1,048,576 words of 16 bits without ports, which has 16,777,216 bits.
const MEMORY: &str = r#"{"modules":{"m":{"cells":{"a":{"type":"$mem_v2",
 "parameters":{"ABITS":"1","INIT":"","OFFSET":"0","RD_CLK_ENABLE":"","RD_PORTS":"0","RD_WIDE_CONTINUATION":"",
  "SIZE":"100000000000000000000","WIDTH":"10000","WR_CLK_ENABLE":"","WR_CLK_POLARITY":"","WR_PORTS":"0","WR_WIDE_CONTINUATION":""},
 "connections":{"RD_ADDR":[],"RD_DATA":[],"WR_ADDR":[],"WR_CLK":[],"WR_DATA":[],"WR_EN":[]}}}}}}"#;

/// A cell that says nothing, with six digits as its name.
fn scope(alloc: Global, number: u64) -> Result<RawCell, AllocError> {
    Ok(RawCell {
        name: Name::of(format!(in alloc; "{number:06}")?.into_bytes()),
        hide: false,
        kind: Name::of(Vec::from_slice(alloc, b"$scopeinfo")?),
        parameters: Listed::of(Vec::new(alloc)),
        attributes: Listed::of(Vec::new(alloc)),
        connections: Listed::of(Vec::new(alloc)),
    })
}

/// A module of so many such cells.
fn scopes(alloc: Global, count: u64) -> Result<Raw, AllocError> {
    let mut cells = Vec::new(alloc);
    for number in 0..count {
        cells.push(scope(alloc, number)?)?;
    }
    Ok(Raw {
        module: Name::of(Vec::from_slice(alloc, b"m")?),
        attributes: Listed::of(Vec::new(alloc)),
        ports: Listed::of(Vec::new(alloc)),
        cells: Listed::of(cells),
        names: Listed::of(Vec::new(alloc)),
    })
}

/// The example `cell-count`: 400,000 cells are the most.
#[test]
fn cell_count(rt: HostRuntime) -> Result<(), Fail> {
    for (count, is_accepted) in [(400_000, true), (400_001, false)] {
        let module = scopes(rt.alloc(), count)?;
        assert!(rt; module.is_in_order());
        match Netlist::build(rt.alloc(), module) {
            Ok(netlist) => {
                assert!(rt; is_accepted);
                assert_eq!(rt; netlist.cells().len() as u64, count);
                assert!(rt; netlist.bits() == 0 && netlist.state_bits() == 0);
            }
            Err(BuildFault::TooManyCells(found)) => {
                assert!(rt; !is_accepted);
                assert_eq!(rt; found, count);
            }
            Err(_other) => panic!(rt; "another refusal"),
        }
    }
    Ok(())
}

/// The other side of this limit is a row of `memories`.
#[test]
fn memory_bits(rt: HostRuntime) -> Result<(), Fail> {
    let module = read_netlist(rt.alloc(), MEMORY.as_bytes())?;
    let netlist = Netlist::build(rt.alloc(), module)?;
    assert_eq!(rt; netlist.state_bits(), 16_777_216);
    Ok(())
}
