// Numbers from the next row on, after those that there are; and the lines of a packed word in another order.
//
//     in    n(0)  n(1)  ..  n(last)
//     out   n(0)  n(1)  ..  n(last)  t(0)  t(1)  ..  t(last)        t: the seven bits of n from the next row on
ghost use Rattle.std.specs.Prelude.{◌≡◌, ℕ, ◌+◌, ◌*◌, ◌≤◌, ◌<◌, length, get_or};
ghost use Rattle.sizes.specs.Sizes.{word_bytes};
ghost use Rattle.bits.specs.Inner.{Filled};
ghost use Rattle.word_columns.specs.Inner.{row_bits, plane_bytes, word_lines, turn_of, Turned, nine_of, doubled_at};

use crate::{DOUBLE_PLANE, LINE_BYTES, PLANE, WORD_LINES};

// Seven bits from the next row on: the first row's is the last.
fn turn(b: u8) -> u8
    ensures { result ≡ turn_of b }
{
    (b >> 1) + ((b & 1) << 6)
}

// The first n numbers once more after themselves, turned.
pub fn turned(v: &mut [u8], n: usize)
    requires { n + n ≤ length v.old }
    ensures { Turned n n v.old v.new }
{
    for x in 0..n {
        v[n + x] = turn(v[x]);
    }
}

// Plane m, and after it its numbers turned.
fn plane(planes: &[u8], m: usize, v: &mut [u8])
    requires { (length planes.now ≡ row_bits) × (m < 8) × (length v.old ≡ 2 * row_bits) × Filled (doubled_at planes.now) v.old (2 * plane_bytes * m) }
    ensures { Filled (doubled_at planes.now) v.new (2 * plane_bytes * m + 2 * plane_bytes) }
{
    let at = DOUBLE_PLANE * m;
    v[at..at + PLANE].copy_from_slice(&planes[PLANE * m..PLANE * m + PLANE]);
    turned(&mut v[at..at + DOUBLE_PLANE], PLANE);
}

// All eight of them.
pub fn doubled(planes: &[u8], v: &mut [u8])
    requires { (length planes.now ≡ row_bits) × (length v.old ≡ 2 * row_bits) }
    ensures { Filled (doubled_at planes.now) v.new (2 * row_bits) }
{
    for m in 0..8 {
        plane(planes, m, v);
    }
}

// The 210 lines of a word, nine bytes each, in another order: line r is line `by` times r of those given.
pub fn nines(from: &[u8], by: usize, out: &mut [u8])
    requires { (word_bytes ≤ length from.now) × (by ≤ word_lines) × (word_bytes ≤ length out.old) }
    ensures by_index { (k : ℕ) → k < word_bytes → get_or out.new k 0 ≡ get_or from.now (nine_of by k) 0 }
    ensures by_index_2 { (k : ℕ) → word_bytes ≤ k → get_or out.new k 0 ≡ get_or out.old k 0 }
{
    for r in 0..WORD_LINES {
        bits::change::copy_part(
            from,
            LINE_BYTES * (by * r % WORD_LINES),
            out,
            LINE_BYTES * r,
            LINE_BYTES,
        );
    }
}
