// Where the symbols of a run are. Step 8 and its inverse: symbols read from words and written into
// them. Step 9, the channel interleaver: which symbol goes to a place, and how to walk the places
// without a division.
#![tactic(auto)]

ghost use Rattle.std.specs.Prelude.{◌≡◌, ◌+◌, ◌*◌, ◌^◌, ◌%◌, ◌≤◌, ◌<◌};
ghost use Rattle.bits.specs.Pack.{piece};
ghost use Rattle.sizes.specs.Sizes.{word_bytes, word_bits};
ghost use Rattle.channel.specs.declared.Layout as layouts;
ghost use Rattle.channel.specs.Channel.{data_at, hit_by};
ghost use Rattle.channel.specs.Inner.{Placing, Numbers, Takes, Puts, Put};

// What steps 8 to 10 go by.
#[derive(Clone, Copy)]
pub struct Layout {
    // N, the rows of the channel interleaver
    pub rows: usize,
    // B, by which each row is longer than the one before
    pub step: usize,
    // S, the symbols of a word
    pub symbols: usize,
    // C, the words
    pub words: usize,
    // W, the marker symbols before each line
    pub markers: usize,
    // R, the lines of S that the places of step 9 make
    pub lines: usize,
}

// The symbol, of `total`, that goes to place x, which is r modulo N; `total` where none does, and no Option, since the definition and its theorems have it so.
pub fn hit_by(rows: usize, step: usize, total: usize, x: usize, r: usize) -> usize
    requires { Placing rows step total x r }
    ensures { (g : layouts.Layout) → Numbers g rows step total → result ≡ hit_by g x }
{
    let delay = r * (step * rows);
    if x < delay {
        return total;
    }
    (x - delay).min(total)
}

// Step 8: symbol t, of m bits, of words that lie back to back.
pub fn data_at(words: &[u8], t: usize, m: usize) -> usize
    requires { Takes t m words.now }
    ensures { (g : layouts.Layout) → g.symbols * m ≡ word_bits → result ≡ data_at m g (piece word_bytes words.now) t }
{
    bits::packing::field(words, m * t, m)
}

// Step 8 undone: writes symbol t, of m bits, into packed words in which its bits are 0. They are in
// two bytes.
pub fn put_symbol(words: &mut [u8], t: usize, m: usize, q: usize)
    requires { Puts t m q words.old }
    ensures { Put t m q words.old words.new }
{
    let y = m * t;
    let i = y / 8;
    let v = q << (16 - m - y % 8);
    words[i] ^= (v >> 8) as u8;
    words[i + 1] ^= (v & 255) as u8;
}

// The remainder modulo N one place further on.
pub fn next(r: usize, rows: usize) -> usize
    requires { (r < rows) × (rows ≤ 128) }
    ensures { result ≡ (r + 1) % rows }
{
    let n = r + 1;
    if n < rows { n } else { 0 }
}

// The first place from `start` on that is r modulo n, where `start` is c.
pub fn first_place(start: usize, c: usize, r: usize, n: usize) -> usize
    requires { (c ≡ start % n) × (r < n) × (n ≤ 128) × (start < 2 ^ 32) }
    ensures { (result % n ≡ r) × (start ≤ result) × (result < start + n) }
{
    if r < c {
        return start + (r + n - c);
    }
    start + (r - c)
}
