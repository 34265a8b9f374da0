ghost use Rattle.std.specs.Prelude.{◌≡◌, ℕ, ◌↔◌, List, length, IfSome, IsNone};
ghost use Rattle.frame_shield.specs.Binding.{IsBinding};
ghost use Rattle.frame_shield.specs.Found.{IsFound};
ghost use Rattle.frame_shield.specs.Opens.{CarriesIndex, Opens, OpensInPlace, OnField};

use crate::binding::Binding;
use crate::protecting_frames::{Covered, body_of, number_of, open};
use sdls_header::{Vector, split};
use std::simd::u8x16;

/// What came of opening a frame.
#[derive(Clone, Copy, Debug, PartialEq, Eq)]
pub enum Opened {
    /// The frame's number, and where its data field lies in clear: from the octet `from` to before the octet `to`.
    Field { number: u64, from: usize, to: usize },
    /// The MAC is not the frame's, or there is no room for one.
    BadMac,
}

/// A protected frame whose MAC is still to be judged: the text from `start` to `end`, and what goes with it.
#[derive(Drop)]
struct Found {
    vector: Vector,
    covered: Covered,
    mac: [u8; 16],
    start: usize,
    end: usize,
}

fn mac_of(octets: &[u8]) -> [u8; 16]
    requires { length octets.now ≡ 16 }
    ensures { result ≡ octets.now }
{
    u8x16::from_slice(octets).to_array()
}

/// Finds text and MAC in a frame of the link. There are none exactly where the room is too short for them.
fn find(binding: &Binding, frame: &[u8]) -> Option<Found>
    requires binding { IsBinding binding.now }
    requires frame { CarriesIndex binding.now frame.now }
    ensures none { IsNone result → (n : ℕ) (field : List ℕ) → ¬ Opens binding.now frame.now n field }
    ensures found { IfSome result (IsFound binding.now frame.now) }
{
    let body = body_of(frame, &binding.link.layout);
    let Some(pieces) = split(body.room, binding.suite) else {
        return None;
    };
    let start = body.prefix.len() + pieces.header.len();
    Some(Found {
        vector: pieces.vector,
        covered: Covered::new(body.prefix, binding.link.mask.as_slice(), pieces.header),
        mac: mac_of(pieces.mac),
        start,
        end: start + pieces.field.len(),
    })
}

/// Opens a frame of the link: where its MAC is right, the data field is left in clear at its place. The device field
/// of a vector is not compared with the binding's.
pub fn unshield(binding: &Binding, frame: &mut [u8]) -> Opened
    requires binding { IsBinding binding.now }
    requires frame { CarriesIndex binding.now frame.old }
    ensures field { OnField result (OpensInPlace binding.now frame.old frame.new) }

    // The MAC differs, or the room is below the overhead: the frame opens to nothing.
    ensures bad_mac { (result ≡ Opened.BadMac) ↔ ((n : ℕ) (field : List ℕ) → ¬ Opens binding.now frame.old n field) }
    ensures unchanged { result ≡ Opened.BadMac → frame.new ≡ frame.old }
{
    let Some(found) = find(binding, frame) else {
        return Opened::BadMac;
    };
    let (from, to) = (found.start, found.end);
    let text = &mut frame[from..to];
    if !open(
        &binding.schedule,
        found.vector,
        found.covered.as_slice(),
        text,
        &found.mac,
    ) {
        return Opened::BadMac;
    }
    let number = number_of(found.vector);
    Opened::Field { number, from, to }
}
