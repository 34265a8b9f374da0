ghost use Rattle.std.specs.Prelude.{◌≡◌, ◌≤◌};
ghost use Rattle.sdls_base.specs.Link.{has_fecf, mask_octets, usual_tc, usual_tm, usual_aos};

use crate::layout::{AosLayout, TcLayout, TmLayout};

/// The layout of a link's protected frames, of one of three kinds.
#[derive(Clone, Copy, Debug, PartialEq, Eq)]
pub enum AnyLayout {
    Tc(TcLayout),
    Tm(TmLayout),
    Aos(AosLayout),
}

/// The authentication bit mask of a link (CCSDS 355.0-B-2): the first `length` octets. Past them the mask is 00.
#[derive(Clone, Copy, Debug, PartialEq, Eq)]
pub struct Mask {
    pub octets: [u8; 6],
    pub length: u8,
}

/// A physical channel, as both ends of it know it.
#[derive(Clone, Copy, Debug, PartialEq, Eq)]
pub struct Link {
    pub layout: AnyLayout,
    pub mask: Mask,
}

impl AnyLayout {
    /// Whether frames end with a frame error control field.
    pub fn has_fecf(&self) -> bool
        ensures { result ≡ has_fecf self.now }
    {
        match self {
            AnyLayout::Tc(layout) => layout.fecf,
            AnyLayout::Tm(layout) => layout.fecf,
            AnyLayout::Aos(layout) => layout.fecf,
        }
    }
}

impl Mask {
    /// The usual mask of TC frames (profile): version, spacecraft and virtual channel, and the segment header whole if
    /// there is one. Bypass flag, control command flag, spare bits, length and sequence number are not covered.
    pub fn usual_tc(segment: bool) -> Mask
        ensures { result ≡ usual_tc segment }
    {
        if segment {
            Mask {
                octets: [0xC3, 0xFF, 0xFC, 0, 0, 0xFF],
                length: 6,
            }
        } else {
            Mask {
                octets: [0xC3, 0xFF, 0xFC, 0, 0, 0],
                length: 5,
            }
        }
    }

    /// The usual mask of TM frames (profile): version, spacecraft and virtual channel.
    pub fn usual_tm() -> Mask
        ensures { result ≡ usual_tm }
    {
        Mask {
            octets: [0xFF, 0xFE, 0, 0, 0, 0],
            length: 6,
        }
    }

    /// The usual mask of AOS frames (profile): version, spacecraft and virtual channel.
    pub fn usual_aos() -> Mask
        ensures { result ≡ usual_aos }
    {
        Mask {
            octets: [0xFF, 0xFF, 0, 0, 0, 0],
            length: 6,
        }
    }

    pub fn as_slice(&self) -> &[u8]
        requires { self.now.length ≤ 6 }
        ensures { result.now ≡ mask_octets self.now }
    {
        &self.octets[..usize::from(self.length)]
    }
}
