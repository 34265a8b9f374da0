// The multiples of a hash subkey, laid out by octets (SP 800-38D, 6.3). Row i has octet i, counted from the lowest, of
// each of sixteen multiples. So a shuffle looks a row up for the sixteen numbers of four bits in a vector, and no
// address depends on them.
ghost use Rattle.std.specs.Prelude.{◌≡◌, ◌*◌, ◌<◌, ◌^◌, slice_index, ℕ, List, T, map};
ghost use Rattle.std.specs.Int.{w128, from_be_bytes, to_be_bytes};
ghost use Rattle.std.specs.Simd.Lanes.{Each1, digits_l};
ghost use Rattle.aes_block.specs.Basis.{is_place, look};
ghost use Rattle.gcm.specs.Field.{block_product, times_low, by_x};
ghost use Rattle.gcm.specs.Rows.{octet_at, pair, xor_sum, AreRows, IsRow};

use crate::hash::{by_x, octets_of, reduced, with_rows};
use std::marker::Model;
use std::simd::{u8x16, u64x2};

/// What multiplies blocks by a hash subkey. It has no `Debug`, so that no log shows the subkey.
#[derive(Drop)]
pub struct Table {
    pub(crate) subkey: u128,
    // The rows of the subkey, and of the subkey times x^4.
    upper: [[u8; 16]; 16],
    lower: [[u8; 16]; 16],
}

impl Model for Table {
    ghost use Rattle.std.specs.Prelude.{ℕ};
    ghost use Rattle.gcm.specs.Rows.{IsTable};

    // The subkey, as an element of the field.
    ghost Value = { ℕ };

    ghost view = { λ s. s.subkey };

    ghost invariant = { λ s. IsTable s.subkey s.upper s.lower };
}

impl Table {
    /// The multiples of the hash subkey `h`.
    pub fn new(h: [u8; 16]) -> Table
        ensures { result ≡ from_be_bytes w128 h }
    {
        let subkey = u128::from_be_bytes(h);
        Table {
            subkey,
            upper: rows_of(subkey),
            lower: rows_of(by_x(by_x(by_x(by_x(subkey))))),
        }
    }

    // The octets at `place` of the products of the octets, whose lowest bit is the coefficient of x^7, and the subkey.
    #[inline(always)]
    fn row_by(&self, place: usize, octets: u8x16) -> u64x2
        requires { place < 16 }
        ensures { pair result
            ≡ xor_sum (λ p. octet_at (times_low 8 (slice_index octets p) self.now) place * 2 ^ (8 * p)) 16 }
    {
        let upper = look_up(
            u8x16::from_array(self.upper[place]),
            octets >> u8x16::splat(4),
        );
        let lower = look_up(
            u8x16::from_array(self.lower[place]),
            octets & u8x16::splat(15),
        );
        u64x2::from_le_bytes(upper ^ lower)
    }

    pub(crate) fn product(&self, a: u128) -> u128
        ensures { result ≡ block_product a self.now }
    {
        let octets = octets_of(a);
        let mut high = self.row_by(15, octets);
        let mut middle = self.row_by(7, octets);
        let mut low = u64x2::splat(0);
        'rows: for i in 1..8usize {
            let (upper, lower) = (self.row_by(15 - i, octets), self.row_by(7 - i, octets));
            (high, middle, low) = with_rows(high, middle, low, upper, lower, 8 * i as u64);
        }
        // For contracts alone.
        let _ = &self.subkey;
        reduced(high, middle, low)
    }

    /// The product of a block and the hash subkey.
    pub fn times(&self, block: [u8; 16]) -> [u8; 16]
        ensures { result ≡ to_be_bytes w128 (block_product (from_be_bytes w128 block) self.now) }
    {
        self.product(u128::from_be_bytes(block)).to_be_bytes()
    }
}

// 128 for each number of four bits that lacks the coefficient of 1, and of x, x^2 and x^3.
const WITHOUT_1: [u8; 16] = [
    128, 128, 128, 128, 128, 128, 128, 128, 0, 0, 0, 0, 0, 0, 0, 0,
];

const WITHOUT_X: [u8; 16] = [
    128, 128, 128, 128, 0, 0, 0, 0, 128, 128, 128, 128, 0, 0, 0, 0,
];

const WITHOUT_X2: [u8; 16] = [
    128, 128, 0, 0, 128, 128, 0, 0, 128, 128, 0, 0, 128, 128, 0, 0,
];

const WITHOUT_X3: [u8; 16] = [
    128, 0, 128, 0, 128, 0, 128, 0, 128, 0, 128, 0, 128, 0, 128, 0,
];

#[inline(always)]
pub fn look_up(row: u8x16, places: u8x16) -> u8x16
    requires { Each1 (λ place. T (is_place place)) places }
    ensures { result ≡ map (look row) places }
{
    row.swizzle_dyn_within::<16>(places)
}

// The octets at `place` of the multiples of a number by the sums of 1, x, x^2 and x^3: that by 1 in lane 8, by x^3 in
// lane 1. Given are the octets of the number, and of it times x, x^2 and x^3.
#[inline(always)]
fn row(v0: u8x16, v1: u8x16, v2: u8x16, v3: u8x16, place: u8) -> u8x16
    requires { place < 16 }
    ensures { (v : ℕ) → v0 ≡ digits_l 256 16 v → v1 ≡ digits_l 256 16 (by_x v)
        → v2 ≡ digits_l 256 16 (by_x (by_x v)) → v3 ≡ digits_l 256 16 (by_x (by_x (by_x v)))
        → IsRow v place result }
{
    let place = u8x16::splat(place);
    let with_1 = look_up(v0, place | u8x16::from_array(WITHOUT_1));
    let with_x = look_up(v1, place | u8x16::from_array(WITHOUT_X));
    let with_x2 = look_up(v2, place | u8x16::from_array(WITHOUT_X2));
    let with_x3 = look_up(v3, place | u8x16::from_array(WITHOUT_X3));
    (with_1 ^ with_x) ^ (with_x2 ^ with_x3)
}

pub fn rows_of(v: u128) -> [[u8; 16]; 16]
    ensures { AreRows v result }
{
    let v1 = by_x(v);
    let v2 = by_x(v1);
    let v3 = by_x(v2);
    let (v0, v1, v2, v3) = (octets_of(v), octets_of(v1), octets_of(v2), octets_of(v3));
    let mut rows = [[0u8; 16]; 16];
    'rows: for place in 0..16u8 {
        rows[place as usize] = row(v0, v1, v2, v3, place).to_array();
    }
    rows
}
