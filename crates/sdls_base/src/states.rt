ghost use Rattle.std.specs.Prelude.{◌≡◌, ◌≤◌};
ghost use Rattle.std.specs.Option.{SomeIff};
ghost use Rattle.sdls_base.specs.Code.{key_state_of, sa_state_of, direction_of, suite_of};
ghost use Rattle.sdls_base.specs.Suite.{overhead_of, class_of_suite};

use crate::key_id::KeyClass;

/// The life of a key, each state after the one before (CCSDS 355.1-B-1). `as u8` gives its number in the formats.
#[derive(Clone, Copy, Debug, PartialEq, Eq)]
pub enum KeyState {
    PreActive = 1,
    Active = 2,
    Deactivated = 3,
    Destroyed = 4,
}

impl KeyState {
    /// The state with this number.
    pub fn from_code(code: u8) -> Option<KeyState>
        ensures { SomeIff result ((1 ≤ code) × (code ≤ 4)) (key_state_of code) }
    {
        match code {
            1 => Some(KeyState::PreActive),
            2 => Some(KeyState::Active),
            3 => Some(KeyState::Deactivated),
            4 => Some(KeyState::Destroyed),
            _ => None,
        }
    }
}

/// The state of a security association (CCSDS 355.1-B-1). `as u8` gives its number in the formats.
#[derive(Clone, Copy, Debug, PartialEq, Eq)]
pub enum SaState {
    Unkeyed = 1,
    Keyed = 2,
    Operational = 3,
}

impl SaState {
    /// The state with this number.
    pub fn from_code(code: u8) -> Option<SaState>
        ensures { SomeIff result ((1 ≤ code) × (code ≤ 3)) (sa_state_of code) }
    {
        match code {
            1 => Some(SaState::Unkeyed),
            2 => Some(SaState::Keyed),
            3 => Some(SaState::Operational),
            _ => None,
        }
    }
}

/// Whether a security association protects frames or opens them. `as u8` gives its number in the formats.
#[derive(Clone, Copy, Debug, PartialEq, Eq)]
pub enum Direction {
    Send = 1,
    Receive = 2,
}

impl Direction {
    /// The direction with this number.
    pub fn from_code(code: u8) -> Option<Direction>
        ensures { SomeIff result ((1 ≤ code) × (code ≤ 2)) (direction_of code) }
    {
        match code {
            1 => Some(Direction::Send),
            2 => Some(Direction::Receive),
            _ => None,
        }
    }
}

/// The cipher suite of a security association (profile). `as u8` gives its number in the formats.
#[derive(Clone, Copy, Debug, PartialEq, Eq)]
pub enum Suite {
    /// Authentication alone, AES-CMAC (SP 800-38B): the data stay in clear.
    Cmac = 1,
    /// Authenticated encryption, AES-GCM (SP 800-38D).
    Gcm = 2,
}

impl Suite {
    /// The suite with this number.
    pub fn from_code(code: u8) -> Option<Suite>
        ensures { SomeIff result ((1 ≤ code) × (code ≤ 2)) (suite_of code) }
    {
        match code {
            1 => Some(Suite::Cmac),
            2 => Some(Suite::Gcm),
            _ => None,
        }
    }

    /// The octets that security header and trailer add to a frame.
    pub fn overhead(&self) -> usize
        ensures { result ≡ overhead_of self.now }
    {
        match self {
            Suite::Cmac => 22,
            Suite::Gcm => 30,
        }
    }

    /// The class of the session keys that serve the suite.
    pub fn class(&self) -> KeyClass
        ensures { result ≡ class_of_suite self.now }
    {
        match self {
            Suite::Cmac => KeyClass::Cmac,
            Suite::Gcm => KeyClass::Gcm,
        }
    }
}
