// For each of the seven rows and each column of two lines a byte with one bit: the bit of a number that this row fills in this column.
// In goes that bit for the first row, column by column; each further row's is one up, and after the seventh comes the first again.
//
//     row 0   2^e(b)              for each column b of two lines: 144 bytes
//     row 1   2^(e(b) + 1 mod 7)
//      ..
//     row 6   2^(e(b) + 6 mod 7)
ghost use Rattle.std.specs.Prelude.{◌≡◌, ℕ, ◌*◌, ◌%◌, ◌^◌, ◌<◌, eqb, length, get_or};
ghost use Rattle.bits.specs.Basics.{pick};
ghost use Rattle.word_columns.specs.Inner.{columns, two_lines, mask_bytes, Rolled};

use crate::{COLUMNS, FURTHER_MASKS, TWO_LINES};

// In column b the first row fills bit e.
pub fn put(mask: &mut [u8], b: usize, e: usize)
    requires { (length mask.old ≡ mask_bytes) × (b < columns) × (e < 7) }
    ensures { (y : ℕ) → y < two_lines → get_or mask.new y 0 ≡ pick (eqb (y % columns) b) (2 ^ e) (get_or mask.old y 0) }
{
    mask[b] = 1u8 << e;
    mask[b + COLUMNS] = 1u8 << e;
}

// The masks of the further rows, each from those of the row before it.
pub fn rolled(mask: &mut [u8])
    requires { length mask.old ≡ mask_bytes }
    ensures { Rolled (6 * two_lines) mask.old mask.new }
{
    for x in 0..FURTHER_MASKS {
        let b = mask[x];
        mask[x + TWO_LINES] = (b >> 6) + ((b & 63) << 1);
    }
}
