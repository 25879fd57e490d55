// Step 5, writing: word place j takes coded bit 11 j + 210 j² mod 15,120. Coded bits are one to a byte, a word's are packed. It goes by
// columns (see `word_columns`): each of the 72 columns of the word takes one column of the coded bits, from some place on.
//
//     coded    15,120 bits, one to a byte
//       | numbers of seven bits, and once more a row on
//     v        2 · 2,160 numbers
//       | the word's columns side by side, by planes
//     seen     8 planes of 30 lines of nine numbers
//       | rows and bits change places
//     seen     7 times 270 bytes
//       | lines in the order of the word
//     word     1,890 bytes: 210 lines of nine
#![tactic(auto)]

ghost use Rattle.std.specs.Prelude.{◌≡◌, ℕ, ◌<◌, length, get_or};
ghost use Rattle.bits.specs.Pack.{bytes_of};
ghost use Rattle.sizes.specs.Sizes.{word_bits, word_bytes};
ghost use Rattle.word_columns.specs.Inner.{columns};
ghost use Rattle.interleaver.specs.Interleaver as step;

mod out;

use interleaver_line::{FACTOR, first_line};
use word_columns::{COLUMNS, DOUBLE_ROW, PLANE, ROW};

// Step 5, and packing: word place j takes coded bit place j.
pub fn interleave(coded: &[u8], word: &mut [u8])
    requires { (length coded.now ≡ word_bits) × ((i : ℕ) → get_or coded.now i 0 < 2) × (length word.old ≡ word_bytes) }
    ensures { word.new ≡ bytes_of word_bytes (step.interleave (λ j. get_or coded.now j 0)) }
{
    let mut off = [0u16; COLUMNS];
    first_line(&mut off);
    let mut v = [0u8; DOUBLE_ROW];
    out::taken(coded, &off, &mut v);
    let mut seen = [0u8; ROW];
    out::columns(&v, &off, &mut seen);
    transpose::transposed(&mut seen, PLANE);
    word_columns::rows::nines(&seen, FACTOR, word);
}
