// Walks over wants and marks.
ghost use Rattle.std.specs.Prelude.{◌≡◌, ◌-◌, ◌≤◌, ◌∷◌, ◌↔◌, [], IfOk, IsTrue, count_by, position, replicate, Some};
ghost use Rattle.cif_core.specs.Frames.{first_kept};
ghost use Rattle.cif_core.specs.Machine.{floor_of, freed, is_deposited, is_free};
ghost use Rattle.cif_core.specs.declared.mark.Mark.TheVariants.{Claimed, Free};

use crate::mark::Mark;
use cif_bits::NoMemory;
use std::alloc::Global;

/// The lower of a number and a want, where it is there.
fn lower_of(low: u64, want: &Option<u64>) -> u64
    ensures value { result ≡ floor_of low (want.now ∷ []) }
    ensures within { result ≤ low }
{
    match want {
        Some(cycle) => low.min(*cycle),
        None => low,
    }
}

/// The least of a number and of the wants that are there.
pub fn lowest(low: u64, wants: &[Option<u64>]) -> u64
    ensures value { result ≡ floor_of low wants.now }
    ensures within { result ≤ low }
{
    let mut least = low;
    for want in wants {
        least = lower_of(least, want);
    }
    least
}

/// How many frames are kept where so many cycles are done and the floor is `low`.
pub fn kept_count(done: u64, low: u64) -> u64
    ensures { result ≡ done - first_kept done low }
{
    done - low.min(done.saturating_sub(1))
}

fn marks_free(mark: &Mark) -> bool
    ensures { result ≡ is_free mark.now }
{
    match mark {
        Mark::Free => true,
        Mark::Claimed | Mark::Deposited => false,
    }
}

fn marks_deposited(mark: &Mark) -> bool
    ensures { result ≡ is_deposited mark.now }
{
    match mark {
        Mark::Deposited => true,
        Mark::Free | Mark::Claimed => false,
    }
}

/// Whether a part is claimed.
pub fn marks_claimed(mark: &Mark) -> bool
    ensures { IsTrue result ↔ (mark.now ≡ Claimed) }
{
    match mark {
        Mark::Claimed => true,
        Mark::Free | Mark::Deposited => false,
    }
}

/// The least part that is free.
pub fn first_free(marks: &[Mark]) -> Option<usize>
    ensures { result ≡ position is_free marks.now }
{
    marks.iter().position(|mark| marks_free(mark))
}

/// How many parts are deposited.
pub fn count_deposited(marks: &[Mark]) -> usize
    ensures { result ≡ count_by is_deposited marks.now }
{
    marks.iter().filter(|mark| marks_deposited(*mark)).count()
}

/// So many free parts.
pub fn free_marks(alloc: Global, parts: u32) -> Result<Vec<Mark>, NoMemory>
    ensures { IfOk result (λ marks. marks.items ≡ replicate parts Free) }
{
    let mut marks = Vec::new(alloc);
    for _part in 0..parts {
        marks.push(Mark::Free)?;
    }
    Ok(marks)
}

/// So many sessions that want cycle 0.
pub fn first_wants(alloc: Global, sessions: u32) -> Result<Vec<Option<u64>>, NoMemory>
    ensures { IfOk result (λ wants. wants.items ≡ replicate sessions (Some 0)) }
{
    let mut wants = Vec::new(alloc);
    for _session in 0..sessions {
        wants.push(Some(0))?;
    }
    Ok(wants)
}

/// Frees every part.
pub fn free_all(marks: &mut Vec<Mark>)
    ensures { marks.new.items ≡ freed marks.old.items }
{
    for i in 0..marks.len() {
        marks[i] = Mark::Free;
    }
}
