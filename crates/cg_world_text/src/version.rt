//! The versions of world texts.
ghost use Rattle.std.specs.Prelude.{◌≡◌};
ghost use Rattle.cg_world_text.specs.Version.{last_cpu, version_word};

/// A version of world texts.
#[derive(Clone, Copy, Debug, PartialEq, Eq)]
pub enum Version {
    /// CPU numbers up to 127, and no limits on groups.
    One,
    /// CPU numbers up to 1,023, and two limits on each group.
    Two,
}

impl Version {
    /// The word that names the version, behind `world`.
    pub fn word(self) -> &'static str
        ensures { result.now ≡ version_word self }
    {
        match self {
            Version::One => "1",
            Version::Two => "2",
        }
    }

    /// The greatest CPU number.
    pub fn last_cpu(self) -> u16
        ensures { result ≡ last_cpu self }
    {
        match self {
            Version::One => 127,
            Version::Two => 1023,
        }
    }
}
