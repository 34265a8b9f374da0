ghost use Rattle.std.specs.Prelude.{◌≡◌, ◌+◌, ◌<◌, ◌≤◌, ◌↔◌, ◌++◌, length, take, drop, IsNone, IfSome, IsSomeAnd};
ghost use Rattle.std.specs.Int.{w16, w64, to_be_bytes};
ghost use Rattle.sdls_base.specs.Suite.{overhead_of};
ghost use Rattle.sdls_header.specs.declared.header.Vector.TheVariants.{Wide};
ghost use Rattle.sdls_header.specs.SecurityHeader.{Pieces, SplitsInto, IsVectorOf, view, header_octets, vector_octets};

use crate::header::{SecurityHeader, Split, Vector};
use sdls_base::{Suite, put};

/// The octets of the MAC.
const MAC: usize = 16;

/// Reads the security parameter index at the front of a room.
pub fn read_spi(room: &[u8]) -> Option<u16>
    ensures none { IsNone result ↔ (length room.now < 2) }
    ensures found { IfSome result (λ spi. to_be_bytes w16 spi ≡ take 2 room.now) }
{
    match room {
        [high, low, ..] => Some(u16::from_be_bytes([*high, *low])),
        _ => None,
    }
}

fn vector_of(header: &[u8], suite: Suite) -> Vector
    requires { length header.now + 16 ≡ overhead_of suite }
    ensures kind { IsVectorOf suite result }
    ensures spelled { vector_octets result ≡ drop 2 header.now }
{
    match suite {
        Suite::Cmac => Vector::Sequence(u32::from_be_bytes([
            header[2], header[3], header[4], header[5],
        ])),
        Suite::Gcm => Vector::Wide {
            device: [header[2], header[3], header[4], header[5]],
            number: number_of(&header[6..]),
        },
    }
}

fn number_of(octets: &[u8]) -> u64
    requires { length octets.now ≡ 8 }
    ensures { to_be_bytes w64 result ≡ octets.now }
{
    u64::from_be_bytes([
        octets[0], octets[1], octets[2], octets[3], octets[4], octets[5], octets[6], octets[7],
    ])
}

/// Takes a room apart for the suite. The header begins with the security parameter index, which is not looked at.
pub fn split<'a>(room: &'a [u8], suite: Suite) -> Option<Split<'a>>
    ensures none { IsNone result ↔ (length room.now < overhead_of suite) }
    ensures found { IfSome result (λ pieces. SplitsInto suite room.now (view pieces)) }

    // The room splits in one way.
    ensures only { (pieces : Pieces) → SplitsInto suite room.now pieces
        → IsSomeAnd result (λ found. view found ≡ pieces) }
{
    if room.len() < suite.overhead() {
        return None;
    }
    let (header, after) = room.split_at(suite.overhead() - MAC);
    let (field, mac) = after.split_at(after.len() - MAC);
    Some(Split {
        header,
        vector: vector_of(header, suite),
        field,
        mac,
    })
}

/// The octets of the GCM suite's vector.
pub fn wide_octets(device: [u8; 4], number: u64) -> [u8; 12]
    ensures { result ≡ vector_octets (Wide device number) }
{
    let [a, b, c, d] = device;
    let [e, f, g, h, i, j, k, l] = number.to_be_bytes();
    [a, b, c, d, e, f, g, h, i, j, k, l]
}

/// Writes the header into the front of `out`, and answers its octets: 6 or 14.
pub fn write_header(header: &SecurityHeader, out: &mut [u8]) -> usize
    requires { 14 ≤ length out.old }
    ensures count { result ≡ length (header_octets header.now) }
    ensures written { out.new ≡ header_octets header.now ++ drop result out.old }
{
    let spi_end = put(out, 0, &header.spi.get().to_be_bytes());
    match header.vector {
        Vector::Sequence(number) => put(out, spi_end, &number.to_be_bytes()),
        Vector::Wide { device, number } => put(out, spi_end, &wide_octets(device, number)),
    }
}
