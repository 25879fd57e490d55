// The columns in writing: what column c of the word takes, and where that begins among the numbers.
ghost use Rattle.std.specs.Prelude.{◌≡◌, ◌+◌, ◌*◌, ◌%◌, ◌<◌, length};
ghost use Rattle.bits.specs.Inner.{Filled};
ghost use Rattle.word_columns.specs.Inner.{row_bits, columns};
ghost use Rattle.interleaver.specs.Interleaver.{source_bit};
ghost use Rattle.interleaver_columns.specs.Inner.{Each, taken_by, up_out, from_out};

use crate::short;
use word_columns::{COLUMNS, LINE_BYTES};

// For each column of the word the one that it takes, and the rows by which its bits go up. As in reading, in 16 bits and in order.
pub fn taken_columns(off: &[u16], column: &mut [u16], up: &mut [u16])
    requires { Each source_bit off.now × (length column.old ≡ columns) × (length up.old ≡ columns) }
    ensures filled { Filled taken_by column.new columns }
    ensures filled_2 { Filled (λ c. up_out (taken_by c)) up.new columns }
{
    for c in 0..COLUMNS {
        let p = off[c];
        column[c] = p % short::COLUMNS;
        up[c] = (short::ROWS - p / short::ROW) % short::ROWS;
    }
}

// Where the word's columns begin among these numbers.
pub fn begins(off: &[u16], start: &mut [u16])
    requires { Each source_bit off.now × (length start.old ≡ columns) }
    ensures { Filled (λ c. source_bit c % row_bits) start.new columns }
{
    for (c, begin) in start.iter_mut().enumerate() {
        *begin = off[c] % short::ROW;
    }
}

// The same in the order of the planes.
pub fn by_plane(start: &[u16], from: &mut [usize])
    requires { Each (λ c. source_bit c % row_bits) start.now × (length from.old ≡ columns) }
    ensures { Filled from_out from.new columns }
{
    for c in 0..COLUMNS {
        from[LINE_BYTES * (7 - c % 8) + c / 8] = start[c] as usize;
    }
}
