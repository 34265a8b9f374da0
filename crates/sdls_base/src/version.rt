ghost use Rattle.std.specs.Prelude.{◌≡◌};
ghost use Rattle.sdls_base.specs.Version.{most_keys_of, most_associations_of, content_length_of};

use crate::{MOST_ASSOCIATIONS, MOST_KEYS};

/// The octets of a content of version 1 (profile).
pub const CONTENT_LENGTH_ONE: usize = 51_703;

/// The octets of a content of version 2 (profile).
pub const CONTENT_LENGTH_TWO: usize = 401_911;

/// The version of an image: how many rows its contents have room for (profile).
#[derive(Clone, Copy, Debug, PartialEq, Eq)]
pub enum Version {
    /// Room for the smaller books of an earlier program.
    One,
    /// Room for all that a unit holds.
    Two,
}

impl Version {
    /// The most keys that a content of this version has room for.
    pub fn most_keys(self) -> usize
        ensures { result ≡ most_keys_of self }
    {
        match self {
            Version::One => 512,
            Version::Two => MOST_KEYS,
        }
    }

    /// The most security associations that a content of this version has room for.
    pub fn most_associations(self) -> usize
        ensures { result ≡ most_associations_of self }
    {
        match self {
            Version::One => 64,
            Version::Two => MOST_ASSOCIATIONS,
        }
    }

    /// The octets of a content of this version.
    pub fn content_length(self) -> usize
        ensures { result ≡ content_length_of self }
    {
        match self {
            Version::One => CONTENT_LENGTH_ONE,
            Version::Two => CONTENT_LENGTH_TWO,
        }
    }
}
