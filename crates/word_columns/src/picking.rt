// Numbers to coded bits. In go planes of numbers, each doubled, and for each of the 72 columns the place at which it starts there; out
// come the 2,160 numbers in the order of the coded bits, and then the 15,120 bits, by the masks.
//
//     number of line n, column b   =  number start(b) + 9 n of the planes
//     coded bit of row i, place x  =  whether number x has the bit of mask i
ghost use Rattle.std.specs.Prelude.{◌≡◌, ◌+◌, ◌*◌, ◌<◌, length};
ghost use Rattle.sizes.specs.Sizes.{word_bits};
ghost use Rattle.bits.specs.Inner.{Filled};
ghost use Rattle.word_columns.specs.Inner.{row_bits, lines, two_lines, mask_bytes, Starts, picked_at, Picked, has_bit, split_at};

use crate::{COLUMNS, LINE_BYTES, LINES, ROW_TWOS, TWO_LINES, WORD_TWOS};

// Eight numbers of line n, those of the eight columns from 8 k on: column b starts at at[b], and each further line stands nine places on.
fn eight(v: &[u8], at: &[usize], k: usize, n: usize, seen: &mut [u8])
    requires v_len { (length v.now ≡ 2 * row_bits) × Starts at.now × (k < 9) × (n < lines) }
    requires seen_len { (length seen.old ≡ row_bits) × Picked v.now at.now (lines * k + n) seen.old }
    ensures { Picked v.now at.now (lines * k + n + 1) seen.new }
{
    for t in 0..8 {
        seen[COLUMNS * n + 8 * k + t] = v[LINE_BYTES * n + at[8 * k + t]];
    }
}

// The eight columns from 8 k on.
fn eight_columns(v: &[u8], at: &[usize], k: usize, seen: &mut [u8])
    requires v_len { (length v.now ≡ 2 * row_bits) × Starts at.now × (k < 9) }
    requires seen_len { (length seen.old ≡ row_bits) × Picked v.now at.now (lines * k) seen.old }
    ensures { Picked v.now at.now (lines * k + lines) seen.new }
{
    for n in 0..LINES {
        eight(v, at, k, n, seen);
    }
}

// All 72 of them. By eights: so few starts the compiler keeps at hand over all 30 lines.
pub fn all_columns(v: &[u8], at: &[usize], seen: &mut [u8])
    requires { (length v.now ≡ 2 * row_bits) × Starts at.now × (length seen.old ≡ row_bits) }
    ensures { Filled (picked_at v.now at.now) seen.new row_bits }
{
    for k in 0..LINE_BYTES {
        eight_columns(v, at, k, seen);
    }
}

// Whether x has the bit of m.
fn has_bit(x: u8, m: u8) -> u8
    ensures { result ≡ has_bit x m }
{
    u8::from(x & m != 0)
}

// The coded bits of two lines, from bit 144 k on: of the seven rows each has fifteen times so many.
fn two_lines(seen: &[u8], mask: &[u8], k: usize, coded: &mut [u8])
    requires { (length seen.now ≡ row_bits) × (length mask.now ≡ mask_bytes) × (k < 105) × (length coded.old ≡ word_bits) × Filled (split_at seen.now mask.now) coded.old (two_lines * k) }
    ensures { Filled (split_at seen.now mask.now) coded.new (two_lines * k + two_lines) }
{
    let from = TWO_LINES * (k % ROW_TWOS);
    let by = TWO_LINES * (k / ROW_TWOS);
    for y in 0..TWO_LINES {
        coded[TWO_LINES * k + y] = has_bit(seen[from + y], mask[by + y]);
    }
}

// All 210 of them.
pub fn split(seen: &[u8], mask: &[u8], coded: &mut [u8])
    requires { (length seen.now ≡ row_bits) × (length mask.now ≡ mask_bytes) × (length coded.old ≡ word_bits) }
    ensures { Filled (split_at seen.now mask.now) coded.new word_bits }
{
    for k in 0..WORD_TWOS {
        two_lines(seen, mask, k, coded);
    }
}
