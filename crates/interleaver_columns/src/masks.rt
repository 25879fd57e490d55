// What writing and reading ask alike of the 72 columns. In goes, for each column of the word, the column of the coded bits that it takes
// and the rows by which its bits go up; out come the masks of the first row, by the columns of the coded bits.
ghost use Rattle.std.specs.Prelude.{◌≡◌, ℕ, ◌<◌, length, get_or};
ghost use Rattle.word_columns.specs.Inner.{columns, mask_bytes};
ghost use Rattle.interleaver_columns.specs.Inner.{Each, taken_by, column_of, First};

use word_columns::{COLUMNS, masks};

// The masks of the first row: where column c of the word takes a column, its bits go up by up[c] rows.
pub fn put_masks(column: &[u16], up: &[u16], mask: &mut [u8])
    requires { Each taken_by column.now × (length up.now ≡ columns) × ((c : ℕ) → c < columns → get_or up.now c 0 < 7) × (length mask.old ≡ mask_bytes) }
    ensures { First (λ b. get_or up.now (column_of b) 0) mask.new }
{
    for c in 0..COLUMNS {
        masks::put(mask, column[c] as usize, up[c] as usize);
    }
}
