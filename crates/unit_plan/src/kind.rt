ghost use Rattle.std.specs.Prelude.{◌≡◌};
ghost use Rattle.unit_plan.specs.Kind.{first_kind_of, later_kind_of, kind_of};

/// The kinds of lines, by their first word.
#[derive(Clone, Copy, Debug, PartialEq, Eq)]
pub(crate) enum Kind {
    Version,
    Device,
    Slots,
    Block,
    Accept,
    Link,
    Channel,
    Key,
    Association,
}

fn first_kind_of(word: &[u8]) -> Option<Kind>
    ensures { result ≡ first_kind_of word.now }
{
    if word == b"sdls".as_slice() {
        return Some(Kind::Version);
    }
    if word == b"device".as_slice() {
        return Some(Kind::Device);
    }
    if word == b"slots".as_slice() {
        return Some(Kind::Slots);
    }
    if word == b"block".as_slice() {
        return Some(Kind::Block);
    }
    if word == b"accept".as_slice() {
        return Some(Kind::Accept);
    }
    None
}

fn later_kind_of(word: &[u8]) -> Option<Kind>
    ensures { result ≡ later_kind_of word.now }
{
    if word == b"link".as_slice() {
        return Some(Kind::Link);
    }
    if word == b"channel".as_slice() {
        return Some(Kind::Channel);
    }
    if word == b"key".as_slice() {
        return Some(Kind::Key);
    }
    if word == b"sa".as_slice() {
        return Some(Kind::Association);
    }
    None
}

impl Kind {
    /// The place among the first five lines, from 0; 5 for the kinds of the others.
    pub(crate) fn place(self) -> u8 {
        match self {
            Kind::Version => 0,
            Kind::Device => 1,
            Kind::Slots => 2,
            Kind::Block => 3,
            Kind::Accept => 4,
            Kind::Link | Kind::Channel | Kind::Key | Kind::Association => 5,
        }
    }
}

pub(crate) fn kind_of(word: &[u8]) -> Option<Kind>
    ensures { result ≡ kind_of word.now }
{
    match first_kind_of(word) {
        Some(kind) => Some(kind),
        None => later_kind_of(word),
    }
}
