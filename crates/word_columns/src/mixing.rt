// Coded bits to numbers: of the seven that stand at one place of the rows each goes to the bit that its mask has. In go the 15,120 coded
// bits, a bit to a byte; out come 2,160 numbers.
//
//     number x  =  coded x · mask 0  +  coded (x + 2,160) · mask 1  +  ..  +  coded (x + 12,960) · mask 6
ghost use Rattle.std.specs.Prelude.{◌≡◌, ◌+◌, ◌*◌, ◌<◌, length, get_or};
ghost use Rattle.bits.specs.Inner.{Filled};
ghost use Rattle.word_columns.specs.Inner.{row_bits, two_lines, Coded, Light, mix_sum, mixed_at};

use crate::{ROW, ROW_TWOS, ROWS, TWO_LINES};

// m where the bit is 1.
fn chosen(b: u8, m: u8) -> u8
    requires { b < 2 }
    ensures { result ≡ b * m }
{
    if b < 1 { 0 } else { m }
}

// The seven bits at place x of the rows, which is column y of two lines.
fn mixed(coded: &[u8], mask: &[u8], x: usize, y: usize) -> u8
    requires { Coded coded.now × Light mask.now × (x < row_bits) × (y < two_lines) }
    ensures { result ≡ mix_sum (λ i. get_or coded.now (x + row_bits * i) 0) (λ i. get_or mask.now (two_lines * i + y) 0) 7 }
{
    let mut v: u8 = 0;
    for i in 0..ROWS {
        v += chosen(coded[x + ROW * i], mask[TWO_LINES * i + y]);
    }
    v
}

// Lines 2 n and 2 n + 1.
fn two_lines(coded: &[u8], mask: &[u8], n: usize, v: &mut [u8])
    requires { Coded coded.now × Light mask.now × (n < 15) × (length v.old ≡ 2 * row_bits) × Filled (mixed_at coded.now mask.now) v.old (two_lines * n) }
    ensures { Filled (mixed_at coded.now mask.now) v.new (two_lines * n + two_lines) }
{
    let at = TWO_LINES * n;
    for y in 0..TWO_LINES {
        v[at + y] = mixed(coded, mask, at + y, y);
    }
}

// All 30 of them. `picking` has such a loop twice; one for the three would take the step and its law as a closure, which is longer.
pub fn all_lines(coded: &[u8], mask: &[u8], v: &mut [u8])
    requires { Coded coded.now × Light mask.now × (length v.old ≡ 2 * row_bits) }
    ensures { Filled (mixed_at coded.now mask.now) v.new row_bits }
{
    for n in 0..ROW_TWOS {
        two_lines(coded, mask, n, v);
    }
}
