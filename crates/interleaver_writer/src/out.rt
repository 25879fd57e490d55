// Step 5, writing. In go the coded bits; out come planes of numbers, in which the word's columns lie side by side.
//
//     v      2,160 numbers, and once more a row on: column b goes up by as many rows as its taker asks for
//     seen   plane m: 30 lines of nine numbers, of which number k of line n is that of line n in the word's column 8 k + 7 - m
ghost use Rattle.std.specs.Prelude.{◌≡◌, ◌+◌, ◌*◌, ◌<◌, length, get_or};
ghost use Rattle.bits.specs.Inner.{Filled};
ghost use Rattle.word_columns.specs.Inner.{row_bits, columns, line_bytes, lines, plane_bytes, mask_bytes, Coded};
ghost use Rattle.interleaver.specs.Interleaver.{source_bit};
ghost use Rattle.interleaver_columns.specs.Inner.{Each, First, up_out, number_out, from_out};
ghost use Rattle.interleaver_writer.specs.Inner.{seen_out};

use interleaver_columns::masks::put_masks;
use interleaver_columns::out::{begins, by_plane, taken_columns};
use word_columns::{COLUMNS, LINE_BYTES, LINES, MASKS, PLANE, ROW, masks};

// The masks of the first row.
fn first_masks(off: &[u16], mask: &mut [u8])
    requires { Each source_bit off.now × (length mask.old ≡ mask_bytes) }
    ensures { First up_out mask.new }
{
    let mut column = [0u16; COLUMNS];
    let mut up = [0u16; COLUMNS];
    taken_columns(off, &mut column, &mut up);
    put_masks(&column, &up, mask);
}

// The coded bits, seven as one number, and once more after themselves a row on.
pub fn taken(coded: &[u8], off: &[u16], v: &mut [u8])
    requires { Coded coded.now × Each source_bit off.now × (length v.old ≡ 2 * row_bits) }
    ensures { Filled (number_out (λ j. get_or coded.now j 0)) v.new (2 * row_bits) }
{
    let mut mask = [0u8; MASKS];
    first_masks(off, &mut mask);
    masks::rolled(&mut mask);
    word_columns::mixing::all_lines(coded, &mask, v);
    word_columns::rows::turned(v, ROW);
}

// All planes, in which the word's columns lie side by side: in line n of plane m nine columns.
fn planes(v: &[u8], from: &[usize], seen: &mut [u8])
    requires { (length v.now ≡ 2 * row_bits) × Each from_out from.now × (length seen.old ≡ row_bits) }
    ensures { Filled (seen_out v.now) seen.new row_bits }
{
    for m in 0..8 {
        for n in 0..LINES {
            for k in 0..LINE_BYTES {
                seen[PLANE * m + LINE_BYTES * n + k] = v[from[LINE_BYTES * m + k] + COLUMNS * n];
            }
        }
    }
}

// Each column of the word takes the numbers from its place on.
pub fn columns(v: &[u8], off: &[u16], seen: &mut [u8])
    requires { (length v.now ≡ 2 * row_bits) × Each source_bit off.now × (length seen.old ≡ row_bits) }
    ensures { Filled (seen_out v.now) seen.new row_bits }
{
    let mut start = [0u16; COLUMNS];
    let mut from = [0usize; COLUMNS];
    begins(off, &mut start);
    by_plane(&start, &mut from);
    planes(v, &from, seen);
}
