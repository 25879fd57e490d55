// Columns turned into rows again. In go columns, of which each has an input bit of seven rows; out come the input bits, packed, row after
// row. Eight columns that follow one another in the input make a byte of each row: they are dealt to eight rows of bytes, the first to
// the last row, and then rows and bits change places.
//
//     in      c0 c1 .. c7 | c8 c9 .. c15 | ..
//
//     dealt   row 7   c0  c8   ..           out   row 0   the bits 0 of c0 .. c7 | of c8 .. c15 | ..
//             row 6   c1  c9   ..     ->          row 1   the bits 1 of c0 .. c7 | of c8 .. c15 | ..
//              ..                                  ..
//             row 0   c7  c15  ..                 row 6   the bits 6 of c0 .. c7 | of c8 .. c15 | ..
#![tactic(auto)]

ghost use Rattle.std.specs.Prelude.{◌≡◌, ℕ, ◌+◌, ◌*◌, ◌≤◌, ◌<◌, length};
ghost use Rattle.decoder_bytes.specs.Inner.{room_bytes, Dealt, Takes, Stacked, Taken};

use word_columns::{ROW, ROWS};

// Which columns have the input bits: those of two lists in turn, from `x` on in the one and from `y` on in the other, `step` places
// apart, in so many groups of eight.
#[derive(Clone, Copy)]
pub struct Turns {
    pub x: usize,
    pub y: usize,
    pub step: usize,
    pub groups: usize,
}

// The bytes of the input bits of a row at rate 2/3, which has the most, and eight rows of so many groups.
pub const TWO_THIRDS_BYTES: usize = 2 * ROW / 3 / 8;

const ROOM: usize = 8 * TWO_THIRDS_BYTES;

// n bytes, `step` places apart from x on, to place `at` and after it.
fn deal(from: &[u8], x: usize, step: usize, n: usize, out: &mut [u8], at: usize)
    requires { ((g : ℕ) → g < n → x + step * g < length from.now) × (at + n ≤ length out.old) }
    ensures { Dealt from.now x step n at out.old out.new }
{
    for g in 0..n {
        out[at + g] = from[x + step * g];
    }
}

// The columns of a and of b in turn as eight rows, the first of them in the last row: from there it becomes a byte's highest bit.
fn stack(a: &[u8], b: &[u8], t: Turns, room: &mut [u8])
    requires { Takes a.now b.now t.x t.y t.step t.groups × (length room.old ≡ room_bytes) }
    ensures { Stacked a.now b.now t.x t.y t.step t.groups 8 room.new }
{
    for j in 0..4 {
        deal(
            a,
            t.x + t.step * j,
            4 * t.step,
            t.groups,
            room,
            t.groups * (7 - 2 * j),
        );
        deal(
            b,
            t.y + t.step * j,
            4 * t.step,
            t.groups,
            room,
            t.groups * (6 - 2 * j),
        );
    }
}

// The bytes of seven rows from the columns of a and of b in turn.
pub fn take(a: &[u8], b: &[u8], t: Turns, out: &mut [u8])
    requires { Takes a.now b.now t.x t.y t.step t.groups × (length out.old ≡ 7 * t.groups) }
    ensures { Taken a.now b.now t.x t.y t.step t.groups out.new }
{
    let mut room = [0u8; ROOM];
    stack(a, b, t, &mut room);
    transpose::transposed(&mut room, t.groups);
    bits::change::copy_part(&room, 0, out, 0, ROWS * t.groups);
}
