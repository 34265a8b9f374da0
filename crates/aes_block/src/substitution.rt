// The S-box by look-ups in tables of sixteen octets (FIPS 197, 5.1.1; M. Hamburg, Accelerating AES with Vector Permute
// Instructions, 2009). A look-up is a shuffle within a vector, so no address depends on an octet.

// Octets as elements of GF(2^8) (FIPS 197, 4.2 and 5.1.1).
ghost use Rattle.std.specs.Prelude.{◌≡◌, ℕ, T, map, bit_xor, ◌<◌};
ghost use Rattle.std.specs.Simd.Lanes.{Each1};
ghost use Rattle.aes_block.specs.Aes.{sub_byte, inverse, octet_product};
ghost use Rattle.aes_block.specs.Basis.{element, first_place, is_place, look, second_place, sub_linear};
ghost use Rattle.aes_block.specs.Basis.{sub_linear_doubled};

use std::simd::u8x16;

// The octet's number on the basis is the sum of what its lower four bits give and what its upper four give.
const BY_LOWER: [u8; 16] = [
    0, 1, 39, 38, 192, 193, 231, 230, 195, 194, 228, 229, 3, 2, 36, 37,
];

const BY_UPPER: [u8; 16] = [
    0, 170, 122, 208, 175, 5, 213, 127, 216, 114, 162, 8, 119, 221, 13, 167,
];

// 1 and a over each number of GF(16), and over 0 a place at which nothing is found.
const ONE_OVER: [u8; 16] = [128, 1, 12, 8, 6, 15, 4, 14, 3, 13, 11, 10, 2, 9, 7, 5];

const A_OVER: [u8; 16] = [128, 3, 13, 1, 10, 8, 12, 11, 5, 14, 4, 7, 6, 2, 9, 15];

// The S-box without its constant is the sum of two look-ups: as an octet, as a number on the basis, and that doubled.
const OCTET_FIRST: [u8; 16] = [
    0, 250, 53, 106, 43, 187, 95, 65, 142, 207, 228, 30, 116, 144, 209, 165,
];

const OCTET_SECOND: [u8; 16] = [
    0, 129, 153, 118, 10, 253, 239, 124, 100, 24, 18, 147, 229, 247, 139, 110,
];

const ONCE_FIRST: [u8; 16] = [
    0, 67, 17, 49, 159, 237, 32, 174, 252, 82, 205, 142, 191, 114, 220, 99,
];

const ONCE_SECOND: [u8; 16] = [
    0, 217, 176, 152, 228, 165, 40, 124, 21, 105, 141, 84, 204, 65, 61, 241,
];

const TWICE_FIRST: [u8; 16] = [
    0, 40, 49, 29, 226, 215, 44, 255, 230, 25, 251, 211, 206, 53, 202, 4,
];

const TWICE_SECOND: [u8; 16] = [
    0, 104, 184, 14, 106, 12, 182, 100, 180, 208, 186, 210, 220, 102, 2, 222,
];

#[inline(always)]
fn look_up(table: [u8; 16], places: u8x16) -> u8x16
    requires { Each1 (λ place. T (is_place place)) places }
    ensures { result ≡ map (look table) places }
{
    u8x16::from_array(table).swizzle_dyn_within::<16>(places)
}

// The sum of what two tables give at the two places of each number.
#[inline(always)]
fn summed(first: [u8; 16], second: [u8; 16], numbers: u8x16) -> u8x16
    ensures { result ≡ map (λ y. bit_xor (look first (first_place ONE_OVER A_OVER y))
        (look second (second_place ONE_OVER A_OVER y))) numbers }
{
    let k = numbers & u8x16::splat(15);
    let i = numbers >> u8x16::splat(4);
    let sum = i ^ k;
    let over_k = look_up(A_OVER, k);
    let first_place = look_up(ONE_OVER, look_up(ONE_OVER, i) ^ over_k) ^ sum;
    let second_place = look_up(ONE_OVER, look_up(ONE_OVER, sum) ^ over_k) ^ i;
    look_up(first, first_place) ^ look_up(second, second_place)
}

// The numbers of octets on the basis.
#[inline(always)]
pub fn on_basis(octets: u8x16) -> u8x16
    ensures { map element result ≡ octets }
{
    let lower = look_up(BY_LOWER, octets & u8x16::splat(15));
    let upper = look_up(BY_UPPER, octets >> u8x16::splat(4));
    lower ^ upper
}

// The S-box without its constant, from the basis.
#[inline(always)]
pub fn sub_octets(numbers: u8x16) -> u8x16
    ensures { result ≡ map (λ y. sub_linear (element y)) numbers }
{
    summed(OCTET_FIRST, OCTET_SECOND, numbers)
}

// The same, on the basis.
#[inline(always)]
pub fn sub_once(numbers: u8x16) -> u8x16
    ensures { map element result ≡ map (λ y. sub_linear (element y)) numbers }
{
    summed(ONCE_FIRST, ONCE_SECOND, numbers)
}

// The same, doubled.
#[inline(always)]
pub fn sub_twice(numbers: u8x16) -> u8x16
    ensures { map element result ≡ map (λ y. sub_linear_doubled (element y)) numbers }
{
    summed(TWICE_FIRST, TWICE_SECOND, numbers)
}

// `SubBytes`.
pub fn sub_bytes(octets: u8x16) -> u8x16
    ensures { result ≡ map sub_byte octets }
{
    sub_octets(on_basis(octets)) ^ u8x16::splat(0x63)
}

/// Law: each octet but 0 times its inverse is 1.
pub fn inverse_is_inverse()
    ensures { (a : ℕ) → 0 < a → a < 256 → octet_product a (inverse a) ≡ 1 }
{}
