// The version of a text.
ghost use Rattle.std.specs.Prelude.{◌≡◌, ◌==◌};
ghost use Rattle.cif_stimulus.specs.Versions.{version_number};

/// The version of the text of a stimulus, which its first line names.
#[derive(Clone, Copy, Debug, PartialEq, Eq)]
pub enum Version {
    /// No net is released.
    First,
    /// Nets may be released.
    Second,
}

impl Version {
    /// The number that the first line gives.
    pub fn number(self) -> u64
        ensures { result ≡ version_number self }
    {
        match self {
            Version::First => 1,
            Version::Second => 2,
        }
    }

    /// Whether nets may be released.
    pub fn may_release(self) -> bool
        ensures { result ≡ (version_number self == 2) }
    {
        match self {
            Version::First => false,
            Version::Second => true,
        }
    }
}
