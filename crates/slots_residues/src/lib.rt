// Places that are all hit, residue by residue modulo N: places N apart have one delay, so that their symbols are N apart too.
#![tactic(auto)]

ghost use Rattle.std.specs.Prelude.{◌≡◌, true, ℕ, ◌+◌, ◌-◌, ◌*◌, ◌%◌, ◌^◌, ◌≤◌, ◌<◌, length, get_or, set};
ghost use Rattle.std.specs.Int.Bits.{bit_xor};
ghost use Rattle.channel.specs.Inner.{Puts, Put};
ghost use Rattle.slots_residues.specs.Inner.{Room, Scatters, Scattered, Hit, Shown, Laid, before};

// The delay of the next place: `back` more than this one, and none again after the last of N.
pub fn next_delay(delay: usize, back: usize, wrap: usize) -> usize
    requires { (delay < 2 ^ 32) × (back < 2 ^ 32) }
    ensures { (x n : ℕ) → 1 ≤ n → wrap ≡ n * back → delay ≡ x % n * back → result ≡ (x + 1) % n * back }
{
    let next = delay + back;
    if next == wrap { 0 } else { next }
}

// Adds the bits of q, shifted up by k, to a byte.
fn add_at(words: &mut [u8], at: usize, q: usize, k: usize)
    requires { (at < length words.old) × (k < 8) × (q * 2 ^ k < 256) }
    ensures { words.new ≡ set words.old at (bit_xor (get_or words.old at 0) (q * 2 ^ k)) }
{
    words[at] ^= (q << k) as u8;
}

// Step 8 undone as by `channel::put_symbol`, where m divides 8: the symbol's bits are in one byte. `y % 8` is a multiple of m
// then, and to add it to the bits of `last` is to subtract it.
fn put_in_byte(words: &mut [u8], t: usize, m: usize, q: usize)
    requires { Puts t m q words.old × (8 % m ≡ 0) }
    ensures { Put t m q words.old words.new }
{
    let y = m * t;
    let last = 8 - m;
    add_at(words, y / 8, q, last ^ (y % 8));
}

// Every n-th symbol of a row, of m bits, from place `from` on before `to`, and where it goes: to every n-th of the words, from symbol t on.
#[derive(Clone, Copy)]
pub struct Lane {
    pub from: usize,
    pub to: usize,
    pub n: usize,
    pub m: usize,
    pub t: usize,
}

// A way to add a symbol to words in which its bits are 0.
pub trait PutSymbol {
    // the widths that it is for
    ghost fits: { ℕ → Type 0 };

    fn put(words: &mut [u8], t: usize, m: usize, q: usize)
        requires { Puts t m q words.old × fits m }
        ensures { Put t m q words.old words.new };
}

// Where a symbol is in one byte, and where it may be in two.
pub struct InByte;

pub struct InTwo;

impl PutSymbol for InByte {
    ghost fits = { λ m. 8 % m ≡ 0 };

    fn put(words: &mut [u8], t: usize, m: usize, q: usize) {
        put_in_byte(words, t, m, q);
    }
}

impl PutSymbol for InTwo {
    ghost fits = { λ m. m ≤ 8 };

    fn put(words: &mut [u8], t: usize, m: usize, q: usize) {
        channel::put_symbol(words, t, m, q);
    }
}

// The symbols of a lane to the words, one after the other.
pub fn scatter_each<P: PutSymbol>(row: &[u8], lane: Lane, words: &mut [u8])
    requires { Scatters row.now lane.from lane.to lane.n lane.m lane.t words.old × P.fits lane.m }
    ensures { Scattered row.now lane.from (lane.to - lane.from) lane.n lane.m lane.t words.old words.new }
{
    for i in (lane.from..lane.to).step_by(lane.n) {
        P::put(words, lane.t + (i - lane.from), lane.m, row[i] as usize);
    }
}

// n symbols are whole bytes, and symbol t is in one: then so is every n-th after it, at the same bits.
fn steady(n: usize, m: usize, t: usize) -> bool
    requires { (n ≤ 128) × (m ≤ 8) × (t < 2 ^ 32) }
    ensures { result ≡ true → (m * n % 8 ≡ 0) × (m + m * t % 8 ≤ 8) }
{
    m * n % 8 == 0 && m + m * t % 8 <= 8
}

// The same there: byte after byte, without a product.
fn scatter_steady(row: &[u8], lane: Lane, words: &mut [u8])
    requires { Scatters row.now lane.from lane.to lane.n lane.m lane.t words.old × (lane.m * lane.n % 8 ≡ 0) × (lane.m + lane.m * lane.t % 8 ≤ 8) }
    ensures { Scattered row.now lane.from (lane.to - lane.from) lane.n lane.m lane.t words.old words.new }
{
    let y = lane.m * lane.t;
    let k = 8 - lane.m - y % 8;
    let turn = lane.m * lane.n / 8;
    let mut at = y / 8;
    for i in (lane.from..lane.to).step_by(lane.n) {
        add_at(words, at, row[i] as usize, k);
        at += turn;
    }
}

fn scatter(row: &[u8], lane: Lane, words: &mut [u8])
    requires { Scatters row.now lane.from lane.to lane.n lane.m lane.t words.old }
    ensures { Scattered row.now lane.from (lane.to - lane.from) lane.n lane.m lane.t words.old words.new }
{
    if steady(lane.n, lane.m, lane.t) {
        scatter_steady(row, lane, words);
    } else if 8 % lane.m == 0 {
        scatter_each::<InByte>(row, lane, words);
    } else {
        scatter_each::<InTwo>(row, lane, words);
    }
}

// Where N is 1, every eighth place is taken, as neighbours share a byte. `slots_lines` has the same: no crate lies below both that knows of
// strides.
fn stride_of(rows: usize) -> usize
    requires { (1 ≤ rows) × (rows ≤ 128) }
    ensures { (1 ≤ result) × (result ≤ 128) × (result % rows ≡ 0) }
{
    if rows == 1 { 8 } else { rows }
}

// The places from x on, all of which are hit, to the words: their symbols are in a row, from `from` on up to `to`.
pub fn take_full(p: plan::Plan, row: &[u8], from: usize, to: usize, x: usize, words: &mut [u8])
    requires { Hit p from to x row.now × Room p words.old }
    ensures { (at : ℕ → ℕ) → Shown at row.now from (to - from) x → Laid p at (before x) words.old → Laid p at (before (x + (to - from))) words.new }
{
    let rows = p.layout.rows;
    let back = p.layout.step * rows;
    let wrap = rows * back;
    let n = stride_of(rows);
    let c = x % n;
    let mut delay = 0usize;
    for r in 0..n {
        let first = channel::first_place(x, c, r, n);
        let lane = Lane {
            from: from + (first - x),
            to,
            n,
            m: p.bits,
            t: first - delay,
        };
        scatter(row, lane, words);
        delay = next_delay(delay, back, wrap);
    }
}
