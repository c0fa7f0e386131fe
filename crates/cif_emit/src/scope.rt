// What enclosing `Let`s name.

ghost use Rattle.std.specs.Prelude.{◌≡◌, slice_get, MatchOption, None, Some};
ghost use Rattle.cif_emit.specs.Scopes.{named_in};

use cif_defs::RawBit;

/// The bits that enclosing `Let`s name, the nearest first. It takes no memory: each `Let` adds a frame of its own to what
/// encloses it.
#[derive(Drop)]
pub(crate) enum Scope<'a> {
    /// Outside all of them.
    Outside,
    /// Inside one that names these bits, and inside those of the other scope.
    Inside(&'a [RawBit], &'a Scope<'a>),
}

impl<'a> Scope<'a> {
    /// What is named at this depth. The nearest is at depth 0.
    pub(crate) fn get(&self, depth: u32) -> Option<&[RawBit]>
        ensures { MatchOption result (slice_get (named_in self.now) depth ≡ None) (λ r. slice_get (named_in self.now) depth ≡ Some r.now) }
    {
        match self {
            Scope::Outside => None,
            Scope::Inside(named, outer) => {
                if depth == 0 {
                    Some(named)
                } else {
                    outer.get(depth - 1)
                }
            }
        }
    }
}
