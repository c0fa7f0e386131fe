// Loops, least cell first.
ghost use Rattle.std.specs.Prelude.{◌≡◌, ℕ, ◌<◌, ◌≤◌, length, drop, get_or, IfOk};
ghost use Rattle.cif_level.specs.Rings.{IsUnwound, IsClosedBy};

use crate::fault::Places;
use cif_defs::Listed;
use std::alloc::{AllocError, Global};

/// The place of the least of some numbers.
fn least_place(numbers: &[u32]) -> usize
    requires { 0 < length numbers.now }
    ensures in_range { result < length numbers.now }
    ensures least { (j : ℕ) → j < length numbers.now → get_or numbers.now result 0 ≤ get_or numbers.now j 0 }
{
    let mut least = 0;
    for (place, number) in numbers.iter().enumerate() {
        if *number < numbers[least] {
            least = place;
        }
    }
    least
}

/// The part of a path from a cell on.
fn from_cell(path: &[u32], cell: u32) -> &[u32]
    requires { (i : ℕ) × (i < length path.now) × (get_or path.now i 0 ≡ cell) }
    ensures { (i : ℕ) × (i < length path.now) × (get_or path.now i 0 ≡ cell) × (result.now ≡ drop i path.now) }
{
    for (place, entry) in path.iter().enumerate() {
        if *entry == cell {
            return &path[place..];
        }
    }
    unreachable!()
}

/// The cells of a ring, in which each cell is driven by the next and the last by the first: from the least on, each
/// before the one that it drives.
fn unwound(alloc: Global, ring: &[u32]) -> Result<Places, AllocError>
    requires { 0 < length ring.now }
    ensures { IfOk result (IsUnwound ring.now) }
{
    let least = least_place(ring);
    let mut cells = Vec::from_slice(alloc, ring)?;
    cells.rotate_left(least + 1);
    cells.reverse();
    Ok(Listed::of(cells))
}

/// The loop that a cell of a path closes, where it drives the path's last cell.
pub(crate) fn closed_loop(alloc: Global, path: &[u32], cell: u32) -> Result<Places, AllocError>
    requires { (i : ℕ) × (i < length path.now) × (get_or path.now i 0 ≡ cell) }
    ensures { IfOk result (λ cells. IsClosedBy path.now cell cells) }
{
    unwound(alloc, from_cell(path, cell))
}
