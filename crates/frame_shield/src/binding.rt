ghost use Rattle.std.specs.Prelude.{◌≡◌, ℕ, List};
ghost use Rattle.sdls_base.specs.Link.{IsInBounds};
ghost use Rattle.frame_shield.specs.Binding.{gain_of, clear_layout};
ghost use Rattle.frame_shield.specs.declared.binding.Binding.{Binding};
ghost use Rattle.frame_shield.specs.AnyFrame.{room_of};
ghost use Rattle.frame_shield.specs.Protects.{Protects};
ghost use Rattle.frame_shield.specs.Opens.{Opens};

use aes_block::Schedule;
use gcm::opens_what_was_sealed;
use sdls_base::{AnyLayout, AosLayout, KeyId, Link, Spi, Suite, TcLayout, TmLayout};

/// A security association with its key, on a link: what protects a frame, or opens it.
#[derive(Drop)]
pub struct Binding {
    pub spi: Spi,
    pub suite: Suite,
    pub key: KeyId,
    /// The octets of the key, expanded.
    pub schedule: Schedule,
    /// The device field of the unit, which begins the vectors that it makes.
    pub device: [u8; 4],
    pub link: Link,
}

/// The octets that a protected frame has more than the clear one.
pub fn gain_of(suite: Suite, layout: &AnyLayout) -> usize
    ensures { result ≡ gain_of suite layout.now }
{
    let fecf = if layout.has_fecf() { 2 } else { 0 };
    suite.overhead() + fecf
}

/// The layout of the clear frames of a link.
pub fn clear_layout(suite: Suite, layout: &AnyLayout) -> AnyLayout
    requires { IsInBounds layout.now }
    ensures { result ≡ clear_layout suite layout.now }
{
    let gain = gain_of(suite, layout) as u16;
    match *layout {
        AnyLayout::Tc(tc) => AnyLayout::Tc(TcLayout {
            fecf: false,
            most: tc.most - gain,
            ..tc
        }),
        AnyLayout::Tm(tm) => AnyLayout::Tm(TmLayout {
            fecf: false,
            length: tm.length - gain,
        }),
        AnyLayout::Aos(aos) => AnyLayout::Aos(AosLayout {
            fecf: false,
            length: aos.length - gain,
            ..aos
        }),
    }
}

/// Law: a protected frame opens, with the number and the data field that were protected.
pub fn protected_opens()
    ensures { (b : Binding) (n : ℕ) (clear out : List ℕ) → (protects : Protects b n clear out)
        → Opens b out n (room_of protects.parts) }
{}

/// Law: a frame opens to at most one number and data field.
pub fn opens_once()
    ensures { (b : Binding) (frame : List ℕ) (n m : ℕ) (field other : List ℕ)
        → Opens b frame n field → Opens b frame m other → (n ≡ m) × (field ≡ other) }
{
    opens_what_was_sealed();
}

/// Law: a clear frame under a number of a binding has one protected frame.
pub fn protected_once()
    ensures { (b : Binding) (n : ℕ) (clear out other : List ℕ)
        → Protects b n clear out → Protects b n clear other → out ≡ other }
{}
