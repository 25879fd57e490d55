// Step 5 back. In go the planes of a word, each with its numbers once more a row on after it; out come the coded bits.
//
//     plane m    30 lines of nine numbers: bit 7 - m of the bytes of the word, for seven rows at once; then the same, turned
//     column c of the word is column c / 8 of plane 7 - c % 8, and column b = takenBy c of the coded bits
ghost use Rattle.std.specs.Prelude.{◌≡◌, ◌*◌, length};
ghost use Rattle.sizes.specs.Sizes.{word_bits};
ghost use Rattle.bits.specs.Inner.{Filled};
ghost use Rattle.word_columns.specs.Inner.{row_bits, columns, mask_bytes};
ghost use Rattle.interleaver.specs.Interleaver.{source_bit};
ghost use Rattle.interleaver_columns.specs.Inner.{Each, First, start_in, up_in};
ghost use Rattle.interleaver_reader.specs.Inner.{bit_back};

use interleaver_columns::back::{put_starts, taken_columns};
use interleaver_columns::masks::put_masks;
use word_columns::{COLUMNS, MASKS, masks, picking};

// Where the columns start among the planes, and the masks of the first row.
fn starts(off: &[u16], at: &mut [usize], mask: &mut [u8])
    requires { Each source_bit off.now × (length at.old ≡ columns) × (length mask.old ≡ mask_bytes) }
    ensures filled { Filled start_in at.new columns }
    ensures first { First up_in mask.new }
{
    let mut column = [0u16; COLUMNS];
    let mut start = [0u16; COLUMNS];
    let mut up = [0u16; COLUMNS];
    taken_columns(off, &mut column, &mut start, &mut up);
    put_starts(&column, &start, at);
    put_masks(&column, &up, mask);
}

// The coded bits out of the planes, each of which has its numbers turned after it. `seen` is room for a number of each column and line.
pub fn given(v: &[u8], off: &[u16], seen: &mut [u8], coded: &mut [u8])
    requires { (length v.now ≡ 2 * row_bits) × Each source_bit off.now × (length seen.old ≡ row_bits) × (length coded.old ≡ word_bits) }
    ensures { Filled (bit_back v.now) coded.new word_bits }
{
    let mut at = [0usize; COLUMNS];
    let mut mask = [0u8; MASKS];
    starts(off, &mut at, &mut mask);
    masks::rolled(&mut mask);
    picking::all_columns(v, &at, seen);
    picking::split(seen, &mask, coded);
}
