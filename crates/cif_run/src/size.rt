// How a run is cut.

/// How a run is cut, and how far it may run ahead of its sessions.
#[derive(Clone, Copy, Debug, Drop, PartialEq, Eq)]
pub struct RunSize {
    /// How many workers there are, from 1 to 32.
    pub workers: u32,
    /// Into how many parts each cycle is cut, from 1 to 64.
    pub parts: u32,
    /// How many cycles may be complete beyond the least one that a session still wants, from 2 to 64.
    pub window: u32,
}
