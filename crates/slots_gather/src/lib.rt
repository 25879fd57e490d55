// Step 8 of many symbols: those of packed words that are n apart, one to a byte of a row.
#![tactic(auto)]

ghost use Rattle.std.specs.Prelude.{◌≡◌, true, ℕ, ◌+◌, ◌-◌, ◌*◌, ◌/◌, ◌%◌, ◌≤◌, ◌<◌, length};
ghost use Rattle.slots_gather.specs.Inner.{symbol_in, Column, Places, Gather, Strides, cut_from, Bytewise};

// Bytes of a row: `count` of them, n apart, from byte `from` on.
#[derive(Clone, Copy)]
pub struct Stride {
    pub from: usize,
    pub n: usize,
    pub count: usize,
}

// Bits of bytes that are `step` apart, from byte `at` on: what is left of each after a shift and a mask.
#[derive(Clone, Copy)]
struct Cut {
    at: usize,
    step: usize,
    shift: usize,
    mask: usize,
}

// How many of the places from x on, n apart, are before `end`.
pub fn places(x: usize, end: usize, n: usize) -> usize
    requires { 1 ≤ n }
    ensures { Places x end n result }
{
    end.saturating_sub(x).div_ceil(n)
}

// Symbols of m bits from symbol t on, as far apart as their bytes of the row: each from one byte or two.
fn gather_fields(words: &[u8], t: usize, m: usize, row: &mut [u8], to: Stride)
    requires { Gather m t to.n to.count words.now to.from row.old }
    ensures { Column row.old to.from to.n to.count (λ j. symbol_in m words.now (t + j * to.n)) row.new }
{
    for j in 0..to.count {
        let y = m * (t + j * to.n);
        row[to.from + j * to.n] = bits::packing::field(words, y, m) as u8;
    }
}

// The cut bits, to a row.
fn gather_some(words: &[u8], cut: Cut, row: &mut [u8], to: Stride)
    requires { Strides cut.at cut.step cut.shift cut.mask words.now to.from to.n to.count row.old }
    ensures { Column row.old to.from to.n to.count (cut_from words.now cut.at cut.step cut.shift cut.mask) row.new }
{
    for j in 0..to.count {
        row[to.from + j * to.n] = (((words[cut.at + j * cut.step] as usize) >> cut.shift)
            & cut.mask) as u8;
    }
}

// `few` of them, from the j-th on.
fn gather_part(words: &[u8], cut: Cut, row: &mut [u8], to: Stride, j: usize, few: usize)
    requires { Strides cut.at cut.step cut.shift cut.mask words.now to.from to.n to.count row.old × (j + few ≤ to.count) }
    ensures { Column row.old (to.from + j * to.n) to.n few (cut_from words.now (cut.at + j * cut.step) cut.step cut.shift cut.mask) row.new }
{
    gather_some(
        words,
        Cut {
            at: cut.at + j * cut.step,
            ..cut
        },
        row,
        Stride {
            from: to.from + j * to.n,
            n: to.n,
            count: few,
        },
    );
}

// All of them, four at a turn.
fn gather_bytes(words: &[u8], cut: Cut, row: &mut [u8], to: Stride)
    requires { Strides cut.at cut.step cut.shift cut.mask words.now to.from to.n to.count row.old }
    ensures { Column row.old to.from to.n to.count (cut_from words.now cut.at cut.step cut.shift cut.mask) row.new }
{
    for k in 0..to.count / 4 {
        gather_part(words, cut, row, to, 4 * k, 4);
    }
    let rest = to.count % 4;
    gather_part(words, cut, row, to, to.count - rest, rest);
}

// Where M bits divide a byte, every symbol a byte's number of them · n further on has its bits at the same place of a byte, n bytes further on.
fn gather_turns<const M: usize>(words: &[u8], t: usize, row: &mut [u8], to: Stride)
    requires { Gather M t to.n to.count words.now to.from row.old × (8 % M ≡ 0) }
    ensures { Column row.old to.from to.n to.count (λ j. symbol_in M words.now (t + j * to.n)) row.new }
{
    let turn = 8 / M;
    for u in 0..turn {
        let y = M * (t + u * to.n);
        gather_bytes(
            words,
            Cut {
                at: y / 8,
                step: to.n,
                shift: 8 - M - y % 8,
                mask: (1usize << M) - 1,
            },
            row,
            Stride {
                from: to.from + u * to.n,
                n: turn * to.n,
                count: places(u, to.count, turn),
            },
        );
    }
}

// The symbols of one byte.
fn unpack_byte<const M: usize>(words: &[u8], b: usize, row: &mut [u8], at: usize)
    requires { (8 % M ≡ 0) × (b < length words.now) × (at + 8 / M ≤ length row.old) }
    ensures { Column row.old at 1 (8 / M) (λ q. symbol_in M words.now (b * (8 / M) + q)) row.new }
{
    let w = words[b] as usize;
    for q in 0..8 / M {
        row[at + q] = ((w >> (8 - M - M * q)) & ((1usize << M) - 1)) as u8;
    }
}

// The symbols of n bytes from byte b on, one after the other.
fn unpack<const M: usize>(words: &[u8], b: usize, row: &mut [u8], at: usize, n: usize)
    requires { (8 % M ≡ 0) × (b + n ≤ length words.now) × (at + 8 / M * n ≤ length row.old) }
    ensures { Column row.old at 1 (8 / M * n) (λ j. symbol_in M words.now (b * (8 / M) + j)) row.new }
{
    for i in 0..n {
        unpack_byte::<M>(words, b + i, row, at + 8 / M * i);
    }
}

// Whether the symbols follow one another and are whole bytes of `turn` symbols.
fn packed(t: usize, n: usize, count: usize, turn: usize) -> bool
    requires { 1 ≤ turn }
    ensures { result ≡ true → (n ≡ 1) × (4 ≤ count) × (t % turn ≡ 0) × (count % turn ≡ 0) }
{
    n == 1 && count >= 4 && t % turn == 0 && count % turn == 0
}

// Symbols of M bits, of which some make a byte.
fn gather_whole<const M: usize>(words: &[u8], t: usize, row: &mut [u8], to: Stride)
    requires { Gather M t to.n to.count words.now to.from row.old × (8 % M ≡ 0) }
    ensures { Column row.old to.from to.n to.count (λ j. symbol_in M words.now (t + j * to.n)) row.new }
{
    let turn = 8 / M;
    if packed(t, to.n, to.count, turn) {
        unpack::<M>(words, t / turn, row, to.from, to.count / turn);
    } else {
        gather_turns::<M>(words, t, row, to);
    }
}

// Symbols of m bits from symbol t on, as far apart as their bytes of the row.
pub fn gather(words: &[u8], t: usize, m: usize, row: &mut [u8], to: Stride)
    requires { Gather m t to.n to.count words.now to.from row.old }
    ensures { Column row.old to.from to.n to.count (λ j. symbol_in m words.now (t + j * to.n)) row.new }
{
    match m {
        2 => gather_whole::<2>(words, t, row, to),
        4 => gather_whole::<4>(words, t, row, to),
        _ => gather_fields(words, t, m, row, to),
    }
}
