// Places that are all hit where N is 1: symbol t is at place t, and symbols of two or four bits fill whole bytes.
#![tactic(auto)]

ghost use Rattle.std.specs.Prelude.{◌≡◌, ℕ, ◌+◌, ◌-◌, ◌*◌, ◌/◌, ◌%◌, ◌^◌, ◌≤◌, ◌<◌};
ghost use Rattle.slots_residues.specs.Inner.{Room, Scatters, Scattered, Hit, Shown, Laid, before};

use slots_residues::{InByte, Lane};

// Symbols of M bits, where some make a byte, from symbol `from` of the row on, to n bytes of the words from byte `at` on.
fn pack<const M: usize>(row: &[u8], from: usize, n: usize, at: usize, words: &mut [u8])
    requires { Scatters row.now from (from + 8 / M * n) 1 M (8 / M * at) words.old × (8 % M ≡ 0) }
    ensures { Scattered row.now from (8 / M * n) 1 M (8 / M * at) words.old words.new }
{
    for k in 0..n {
        let i = from + 8 / M * k;
        let mut byte = words[at + k];
        for q in 0..8 / M {
            byte ^= row[i + q] << (8 - M - M * q);
        }
        words[at + k] = byte;
    }
}

// The symbols of the row from `from` on up to `to`, of M bits each, to the words from symbol t on: at both ends one by one, between
// a byte at a time.
fn take<const M: usize>(row: &[u8], from: usize, to: usize, t: usize, words: &mut [u8])
    requires { Scatters row.now from to 1 M t words.old × (8 % M ≡ 0) × (from ≤ to) × (t + (to - from) < 2 ^ 32) }
    ensures { Scattered row.now from (to - from) 1 M t words.old words.new }
{
    let all = Lane {
        from,
        to,
        n: 1,
        m: M,
        t,
    };
    if to < from + 8 {
        slots_residues::scatter_each::<InByte>(row, all, words);
        return;
    }
    let per = 8 / M;
    let at = t.div_ceil(per);
    let head = from + (per * at - t);
    let n = (to - head) / per;
    let tail = head + per * n;
    slots_residues::scatter_each::<InByte>(row, Lane { to: head, ..all }, words);
    pack::<M>(row, head, n, at, words);
    let last = Lane {
        from: tail,
        t: per * (at + n),
        ..all
    };
    slots_residues::scatter_each::<InByte>(row, last, words);
}

// The places from x on, all of which are hit, to the words: their symbols are in a row, from `from` on up to `to`.
pub fn take_full(p: plan::Plan, row: &[u8], from: usize, to: usize, x: usize, words: &mut [u8])
    requires { Hit p from to x row.now × Room p words.old }
    ensures { (at : ℕ → ℕ) → Shown at row.now from (to - from) x → Laid p at (before x) words.old → Laid p at (before (x + (to - from))) words.new }
{
    match (p.layout.rows, p.bits) {
        (1, 2) => take::<2>(row, from, to, x, words),
        (1, 4) => take::<4>(row, from, to, x, words),
        _ => slots_residues::take_full(p, row, from, to, x, words),
    }
}
