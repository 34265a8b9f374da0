// Bindings on links, and frames protected and opened under them, with each bit of their headers turned too.
ghost use Rattle.std.specs.Prelude.{◌≡◌, ◌≤◌, true, take, IfSome};
ghost use Rattle.std.specs.Int.{w16, to_be_bytes};
ghost use Rattle.sdls_base.specs.Link.{IsInBounds, IsLink};
ghost use Rattle.frame_shield.specs.Binding.{IsBinding};
ghost use Rattle.frame_shield.specs.Opens.{CarriesIndex};

use aes_block::Schedule;
use case_lines::{Digits, Page, Words};
use frame_shield::{
    AnyLayout, Binding, FRAME_ROOM, Link, Mask, Opened, ShieldFault, body_of, fault_of, fits,
    shield, unshield,
};
use sdls_base::{AosLayout, KeyId, Spi, Suite, TcLayout, TmLayout, fecf};
use sdls_header::read_spi;

/// The key of the examples of SP 800-38B.
const CMAC_KEY: [u8; 16] = *b"\x2b\x7e\x15\x16\x28\xae\xd2\xa6\xab\xf7\x15\x88\x09\xcf\x4f\x3c";

const GCM_KEY: [u8; 16] = *b"\x00\x01\x02\x03\x04\x05\x06\x07\x08\x09\x0a\x0b\x0c\x0d\x0e\x0f";

/// The layout of TM frames that the words say: `LENGTH FECF`.
fn tm_layout(words: &mut Words<'_>) -> TmLayout {
    let (length, fecf) = (case_lines::short(words), case_lines::flag(words));
    let length = length.unwrap_or(0);
    TmLayout { length, fecf }
}

/// The layout of AOS frames that the words say: `LENGTH INSERT OCF FECF`.
fn aos_layout(words: &mut Words<'_>) -> AosLayout {
    AosLayout {
        length: case_lines::short(words).unwrap_or(0),
        insert: case_lines::octet(words).unwrap_or(0),
        ocf: case_lines::flag(words),
        fecf: case_lines::flag(words),
    }
}

/// The layout that the words say of frames of a kind, none if the kind is none of frames. A TC frame has 1,024 octets
/// at most.
pub fn layout_of(kind: &str, words: &mut Words<'_>) -> Option<AnyLayout> {
    match kind {
        "tc" => Some(AnyLayout::Tc(TcLayout {
            segment: case_lines::flag(words),
            fecf: case_lines::flag(words),
            most: 1024,
        })),
        "tm" => Some(AnyLayout::Tm(tm_layout(words))),
        "aos" => Some(AnyLayout::Aos(aos_layout(words))),
        _ => None,
    }
}

/// The usual mask of such frames. Of AOS frames a word says it, or `whole` one that has each bit.
fn mask_of(layout: &AnyLayout, words: &mut Words<'_>) -> Mask
    ensures { result.length ≤ 6 }
{
    match layout {
        AnyLayout::Tc(layout) => Mask::usual_tc(layout.segment),
        AnyLayout::Tm(_) => Mask::usual_tm(),
        AnyLayout::Aos(_) if words.next() == Some("whole") => Mask {
            octets: [0xFF; 6],
            length: 6,
        },
        AnyLayout::Aos(_) => Mask::usual_aos(),
    }
}

fn is_in_bounds(layout: &AnyLayout) -> bool
    ensures { result ≡ true → IsInBounds layout.now }
{
    match layout {
        AnyLayout::Tc(layout) => layout.most == 1024,
        AnyLayout::Tm(layout) => layout.length >= 48 && layout.length <= 2048,
        AnyLayout::Aos(layout) => {
            let least = 48 + u16::from(layout.insert);
            layout.insert <= 64 && layout.length >= least && layout.length <= 2048
        }
    }
}

/// The link that the words say, none where it lies outside the bounds.
fn link(words: &mut Words<'_>) -> Option<Link>
    ensures { IfSome result IsLink }
{
    let layout = layout_of(words.next()?, words)?;
    let mask = mask_of(&layout, words);
    if is_in_bounds(&layout) {
        Some(Link { layout, mask })
    } else {
        None
    }
}

/// The binding that the words say: suite, index and link.
fn binding(words: &mut Words<'_>, device: [u8; 4]) -> Option<Binding>
    ensures { IfSome result IsBinding }
{
    let suite = case_lines::suite(words).unwrap_or(Suite::Cmac);
    let spi = Spi::new(case_lines::short(words).unwrap_or(0))?;
    let link = link(words)?;
    let (key, octets) = match suite {
        Suite::Cmac => (32_769, CMAC_KEY),
        Suite::Gcm => (256, GCM_KEY),
    };
    let key = KeyId::new(key)?;
    if key.class() != suite.class() {
        return None;
    }
    Some(Binding {
        spi,
        suite,
        key,
        schedule: Schedule::new(&octets).ok()?,
        device,
        link,
    })
}

/// The clear frame protected under the number, none if the number is none of the key.
pub fn protected(
    binding: &Binding,
    number: u64,
    clear: &[u8],
    page: &mut Page,
) -> Result<Option<Vec<u8>>, ShieldFault>
    requires { IsBinding binding.now }
{
    fits(binding, clear)?;
    if number == 0 || number >= binding.key.end() {
        return Ok(None);
    }
    let mut out = [0; FRAME_ROOM];
    let count = shield(binding, number, clear, &mut out);
    Ok(Some(page.copy(out.get(..count).unwrap_or(&[]))))
}

/// Whether the room begins with the index.
fn has_index(room: &[u8], spi: Spi) -> bool
    ensures { result ≡ true → take 2 room.now ≡ to_be_bytes w16 spi }
{
    match read_spi(room) {
        Some(found) => found == spi.get(),
        None => false,
    }
}

/// Whether the octets are a frame of the binding's link, with its index.
fn carries_index(binding: &Binding, frame: &[u8]) -> bool
    requires { IsBinding binding.now }
    ensures { result ≡ true → CarriesIndex binding.now frame.now }
{
    match fault_of(frame, &binding.link.layout) {
        Some(_) => false,
        None => has_index(body_of(frame, &binding.link.layout).room, binding.spi),
    }
}

/// What opening answers, none where the frame has not its layout, or another index.
fn opened(binding: &Binding, frame: &mut [u8]) -> Option<Opened>
    requires { IsBinding binding.now }
{
    if carries_index(binding, frame) {
        Some(unshield(binding, frame))
    } else {
        None
    }
}

/// Turns a bit of the frame, counted from the most significant, and makes its frame error control field anew.
fn turn(frame: &mut [u8], bit: usize, has_fecf: bool) {
    if let Some(octet) = frame.get_mut(bit / 8) {
        *octet ^= 0x80 >> (bit % 8);
    }
    if has_fecf && frame.len() >= 2 {
        let (front, field) = frame.split_at_mut(frame.len() - 2);
        field.copy_from_slice(&fecf(front).to_be_bytes());
    }
}

/// What opening answers to the frame with a bit turned.
fn opened_turned(binding: &Binding, frame: &mut [u8], bit: usize) -> &'static str
    requires { IsBinding binding.now }
{
    turn(frame, bit, binding.link.layout.has_fecf());
    match opened(binding, frame) {
        Some(Opened::Field { .. }) => "o",
        Some(Opened::BadMac) => "x",
        None => "-",
    }
}

/// Writes what opening answers to each bit of the first six octets turned.
fn write_bits(binding: &Binding, frame: &[u8], page: &mut Page)
    requires { IsBinding binding.now }
{
    for bit in 0..48usize {
        let mut turned = page.copy(frame);
        page.push_str(opened_turned(binding, turned.as_mut_slice(), bit));
        if bit % 8 == 7 && bit < 47 {
            page.push_str(" ");
        }
    }
}

/// Protects a clear frame, and writes what opening answers to each bit of its first six octets turned.
fn turn_bits(binding: &Binding, clear: &[u8], page: &mut Page)
    requires { IsBinding binding.now }
{
    match protected(binding, 1, clear, page) {
        Ok(Some(frame)) => write_bits(binding, &frame, page),
        Ok(None) | Err(_) => page.push_str("does not fit"),
    }
}

/// Writes the protected frame of a clear one, or why it does not fit.
fn protect(binding: &Binding, number: u64, clear: &[u8], page: &mut Page)
    requires { IsBinding binding.now }
{
    match protected(binding, number, clear, page) {
        Ok(Some(frame)) => page.push_digits(&frame),
        Ok(None) => page.push_str("no number"),
        Err(fault) => write!(page, "{fault:?}"),
    }
}

/// Writes number, place and octets of the data field of a protected frame.
fn open(binding: &Binding, frame: &mut [u8], page: &mut Page)
    requires { IsBinding binding.now }
{
    match opened(binding, frame) {
        Some(Opened::Field { number, from, to }) => {
            let field = Digits(frame.get(from..to).unwrap_or(&[]));
            write!(page, "number {number} from {from} to {to} field {field}");
        }
        Some(Opened::BadMac) => page.push_str("bad MAC"),
        None => page.push_str("no frame with the index"),
    }
}

/// Writes what a case of this kind answers under the binding.
fn answer_under(binding: &Binding, kind: &str, words: &mut Words<'_>, page: &mut Page)
    requires { IsBinding binding.now }
{
    match kind {
        "protect" => {
            let number = case_lines::number(words).unwrap_or(0);
            protect(binding, number, &page.octets(words), page);
        }
        "open" => open(binding, page.octets(words).as_mut_slice(), page),
        _ => turn_bits(binding, &page.octets(words), page),
    }
}

/// Writes what a case of this kind answers: `protect`, `bits`, or `open`, which is on a unit of another device.
pub fn answer(kind: &str, words: &mut Words<'_>, page: &mut Page) {
    let device: u32 = if kind == "open" { 0 } else { 0xD000_0001 };
    match binding(words, device.to_be_bytes()) {
        Some(binding) => answer_under(&binding, kind, words, page),
        None => page.push_str("no binding"),
    }
}
