// Marks of parts.

/// How far a part of the open cycle is.
#[derive(Clone, Copy, Debug, Drop, PartialEq, Eq)]
pub enum Mark {
    /// No one has begun it.
    Free,
    /// Someone computes it.
    Claimed,
    /// Its piece was taken.
    Deposited,
}
