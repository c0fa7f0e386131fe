// Marks of cells.
ghost use Rattle.std.specs.Prelude.{◌≡◌, ◌<◌, ◌⊎◌, ℕ, true, false, length, slice_set};
ghost use Rattle.cif_defs.specs.Words.{bit};
ghost use Rattle.cif_readers.specs.Places.{IsAmong};

/// Marks a cell, where the marks have a place for it.
fn mark_cell(marks: &mut [bool], cell: u32)
    ensures { marks.new ≡ slice_set marks.old cell true }
{
    let place = cell as usize;
    if place < marks.len() {
        marks[place] = true;
    }
}

/// Marks some cells; those past the end of the marks have none.
pub(crate) fn mark_cells(marks: &mut [bool], cells: &[u32])
    ensures kept { (c : ℕ) → bit marks.old c ≡ true → bit marks.new c ≡ true }
    ensures marked { (c : ℕ) → IsAmong cells.now c → c < length marks.old → bit marks.new c ≡ true }
    ensures only { (c : ℕ) → bit marks.new c ≡ true → (bit marks.old c ≡ true) ⊎ IsAmong cells.now c }
{
    for cell in cells {
        mark_cell(marks, *cell);
    }
}

/// Writes a bit and its taint, and says whether either was another one.
pub(crate) fn write_bit(
    values: &mut [bool],
    taints: &mut [bool],
    place: usize,
    value: bool,
    taint: bool,
) -> bool
    requires value_stands { place < length values.old }
    requires taint_stands { place < length taints.old }
    ensures values { values.new ≡ slice_set values.old place value }
    ensures taints { taints.new ≡ slice_set taints.old place taint }
    ensures same_values { result ≡ false → values.new ≡ values.old }
    ensures same_taints { result ≡ false → taints.new ≡ taints.old }
{
    let is_changed = values[place] != value || taints[place] != taint;
    values[place] = value;
    taints[place] = taint;
    is_changed
}
