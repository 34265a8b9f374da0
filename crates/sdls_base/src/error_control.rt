ghost use Rattle.std.specs.Prelude.{◌≡◌, ℕ, ◌∷◌, [], fold};
ghost use Rattle.sdls_base.specs.ErrorControl.{IsRemainder, dividend, after_octet, frame_error_control};

// The table of all sums of eight registers, those after octets of one bit, the lowest first. At each place stands the
// sum of those whose bits the place has.
macro_rules! sums {
    ([$($sum:expr),*]) => {
        [$($sum),*]
    };
    ([$($sum:expr),*] $register:literal $($rest:literal)*) => {
        sums!([$($sum,)* $($sum ^ $register),*] $($rest)*)
    };
}

// The register after each octet, from zeros.
const AFTER_ZEROS: [u16; 256] = sums!([0] 0x1021 0x2042 0x4084 0x8108 0x1231 0x2462 0x48c4 0x9188);

// The register after each octet and one octet of zeros, from zeros.
const AND_ONE_OF_ZEROS: [u16; 256] =
    sums!([0] 0x3331 0x6662 0xccc4 0x89a9 0x0373 0x06e6 0x0dcc 0x1b98);

// The register after each octet and two octets of zeros, from zeros.
const AND_TWO_OF_ZEROS: [u16; 256] =
    sums!([0] 0x3730 0x6e60 0xdcc0 0xa9a1 0x4363 0x86c6 0x1dad 0x3b5a);

// The register after each octet and three octets of zeros, from zeros.
const AND_THREE_OF_ZEROS: [u16; 256] =
    sums!([0] 0x76b4 0xed68 0xcaf1 0x85c3 0x1ba7 0x374e 0x6e9c 0xdd38);

// The register after each octet and four octets of zeros, from zeros.
const AND_FOUR_OF_ZEROS: [u16; 256] =
    sums!([0] 0xaa51 0x4483 0x8906 0x022d 0x045a 0x08b4 0x1168 0x22d0);

// The register after each octet and five octets of zeros, from zeros.
const AND_FIVE_OF_ZEROS: [u16; 256] =
    sums!([0] 0x45a0 0x8b40 0x06a1 0x0d42 0x1a84 0x3508 0x6a10 0xd420);

// The register after each octet and six octets of zeros, from zeros.
const AND_SIX_OF_ZEROS: [u16; 256] =
    sums!([0] 0xb861 0x60e3 0xc1c6 0x93ad 0x377b 0x6ef6 0xddec 0xabf9);

// The register after each octet and seven octets of zeros, from zeros.
const AND_SEVEN_OF_ZEROS: [u16; 256] =
    sums!([0] 0x47d3 0x8fa6 0x0f6d 0x1eda 0x3db4 0x7b68 0xf6d0 0xfd81);

fn from_zeros(octet: u8) -> u16
    ensures { result ≡ after_octet 0 octet }
{
    AFTER_ZEROS[octet as usize]
}

fn and_one_of_zeros(octet: u8) -> u16
    ensures { result ≡ fold after_octet 0 (octet ∷ 0 ∷ []) }
{
    AND_ONE_OF_ZEROS[octet as usize]
}

fn and_two_of_zeros(octet: u8) -> u16
    ensures { result ≡ fold after_octet 0 (octet ∷ 0 ∷ 0 ∷ []) }
{
    AND_TWO_OF_ZEROS[octet as usize]
}

fn and_three_of_zeros(octet: u8) -> u16
    ensures { result ≡ fold after_octet 0 (octet ∷ 0 ∷ 0 ∷ 0 ∷ []) }
{
    AND_THREE_OF_ZEROS[octet as usize]
}

fn and_four_of_zeros(octet: u8) -> u16
    ensures { result ≡ fold after_octet 0 (octet ∷ 0 ∷ 0 ∷ 0 ∷ 0 ∷ []) }
{
    AND_FOUR_OF_ZEROS[octet as usize]
}

fn and_five_of_zeros(octet: u8) -> u16
    ensures { result ≡ fold after_octet 0 (octet ∷ 0 ∷ 0 ∷ 0 ∷ 0 ∷ 0 ∷ []) }
{
    AND_FIVE_OF_ZEROS[octet as usize]
}

fn and_six_of_zeros(octet: u8) -> u16
    ensures { result ≡ fold after_octet 0 (octet ∷ 0 ∷ 0 ∷ 0 ∷ 0 ∷ 0 ∷ 0 ∷ []) }
{
    AND_SIX_OF_ZEROS[octet as usize]
}

fn and_seven_of_zeros(octet: u8) -> u16
    ensures { result ≡ fold after_octet 0 (octet ∷ 0 ∷ 0 ∷ 0 ∷ 0 ∷ 0 ∷ 0 ∷ 0 ∷ []) }
{
    AND_SEVEN_OF_ZEROS[octet as usize]
}

// The upper octet of the register leaves it, and the table says what that leaves.
fn with_octet(register: u16, octet: u8) -> u16
    ensures { result ≡ after_octet register octet }
{
    let [upper, _] = register.to_be_bytes();
    from_zeros(upper ^ octet) ^ (register << 8)
}

// Both octets of the register leave it. The four look-ups do not wait for one another.
fn with_four(register: u16, a: u8, b: u8, c: u8, d: u8) -> u16
    ensures { result ≡ fold after_octet register (a ∷ b ∷ c ∷ d ∷ []) }
{
    let [upper, lower] = register.to_be_bytes();
    and_three_of_zeros(upper ^ a)
        ^ and_two_of_zeros(lower ^ b)
        ^ and_one_of_zeros(c)
        ^ from_zeros(d)
}

// The same of eight octets.
fn with_eight(register: u16, a: u8, b: u8, c: u8, d: u8, e: u8, f: u8, g: u8, h: u8) -> u16
    ensures { result ≡ fold after_octet register (a ∷ b ∷ c ∷ d ∷ e ∷ f ∷ g ∷ h ∷ []) }
{
    let [upper, lower] = register.to_be_bytes();
    let first = and_seven_of_zeros(upper ^ a)
        ^ and_six_of_zeros(lower ^ b)
        ^ and_five_of_zeros(c)
        ^ and_four_of_zeros(d);
    let last = and_three_of_zeros(e) ^ and_two_of_zeros(f) ^ and_one_of_zeros(g) ^ from_zeros(h);
    first ^ last
}

/// The frame error control field over `octets` (CCSDS 232.0-B-4, 132.0-B-3 and 732.0-B-4, Frame Error Control Field):
/// generator x^16 + x^12 + x^5 + 1, register preset to ones, most significant bit first.
pub fn fecf(octets: &[u8]) -> u16
    ensures register { result ≡ frame_error_control octets.now }
    // It is the remainder, and nothing else is.
    ensures remainder { IsRemainder (dividend octets.now) result }
    ensures only { (r : ℕ) → IsRemainder (dividend octets.now) r → r ≡ result }
{
    let mut register = 0xFFFF;
    let mut rest = octets;
    'eights: while let [a, b, c, d, e, f, g, h, others @ ..] = rest {
        register = with_eight(register, *a, *b, *c, *d, *e, *f, *g, *h);
        rest = others;
    }
    'fours: while let [a, b, c, d, others @ ..] = rest {
        register = with_four(register, *a, *b, *c, *d);
        rest = others;
    }
    rest.iter()
        .fold(register, |register, octet| with_octet(register, *octet))
}
