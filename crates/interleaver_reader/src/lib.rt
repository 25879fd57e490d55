// Step 5, reading: coded bit x is the word's bit at the place that took it. It goes by columns, as writing does (see `word_columns`).
//
//     word     1,890 bytes: 210 lines of nine
//       | lines in the order of the coded bits
//     ordered  1,890 bytes, and 270 unused after them
//       | rows and bits change places
//     ordered  8 planes of 270 numbers
//       | each plane once more a row on
//     v        8 planes of 540 numbers
//       | numbers by columns, and split into bits
//     coded    15,120 bits, one to a byte
#![tactic(auto)]

ghost use Rattle.std.specs.Prelude.{◌≡◌, length};
ghost use Rattle.bits.specs.Basics.{tab};
ghost use Rattle.bits.specs.Pack.{bit_at};
ghost use Rattle.sizes.specs.Sizes.{word_bits, word_bytes};
ghost use Rattle.interleaver.specs.Interleaver as step;

mod back;

use interleaver_line::first_line;
use word_columns::{COLUMNS, DOUBLE_ROW, PLANE, ROW};

// Lines back: 11 · 191 is 1 mod 210.
const FACTOR_BACK: usize = 191;

// Back: coded bit x is word bit placeBack x.
pub fn deinterleave(word: &[u8], coded: &mut [u8])
    requires { (length word.now ≡ word_bytes) × (length coded.old ≡ word_bits) }
    ensures { coded.new ≡ tab word_bits (step.deinterleave (bit_at word.now)) }
{
    let mut off = [0u16; COLUMNS];
    first_line(&mut off);
    let mut ordered = [0u8; ROW];
    word_columns::rows::nines(word, FACTOR_BACK, &mut ordered);
    transpose::transposed(&mut ordered, PLANE);
    let mut v = [0u8; DOUBLE_ROW];
    word_columns::rows::doubled(&ordered, &mut v);
    // `ordered` is done with, and is the room.
    back::given(&v, &off, &mut ordered, coded);
}
