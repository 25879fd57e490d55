// The columns in reading: what column c of the word takes, and where that starts among the planes.
ghost use Rattle.std.specs.Prelude.{◌≡◌, ◌*◌, length};
ghost use Rattle.bits.specs.Inner.{Filled};
ghost use Rattle.word_columns.specs.Inner.{columns};
ghost use Rattle.interleaver.specs.Interleaver.{source_bit};
ghost use Rattle.interleaver_columns.specs.Inner.{Each, taken_by, start_in, up_in};

use crate::short;
use word_columns::COLUMNS;

// For each column of the word the one that it takes, where this one starts among the planes, and the rows by which its bits go up. In 16 bits and
// in order, so that many columns are divided at once: for that each has an array of its own, and a loop over its index.
pub fn taken_columns(off: &[u16], column: &mut [u16], start: &mut [u16], up: &mut [u16])
    requires { Each source_bit off.now × (length column.old ≡ columns) × (length start.old ≡ columns) × (length up.old ≡ columns) }
    ensures filled { Filled taken_by column.new columns }
    ensures filled_2 { Filled (λ c. start_in (taken_by c)) start.new columns }
    ensures filled_3 { Filled (λ c. up_in (taken_by c)) up.new columns }
{
    for c in 0..COLUMNS {
        let p = off[c];
        let a = short::WORD_LINES - p / short::COLUMNS;
        column[c] = p % short::COLUMNS;
        start[c] = short::DOUBLE_PLANE * (7 - (c % 8) as u16)
            + short::LINE_BYTES * (a % short::LINES)
            + (c / 8) as u16;
        up[c] = a / short::LINES % short::ROWS;
    }
}

// The starts by the columns that are taken.
pub fn put_starts(column: &[u16], start: &[u16], at: &mut [usize])
    requires { Each taken_by column.now × Each (λ c. start_in (taken_by c)) start.now × (length at.old ≡ columns) }
    ensures { Filled start_in at.new columns }
{
    for c in 0..COLUMNS {
        at[column[c] as usize] = start[c] as usize;
    }
}
