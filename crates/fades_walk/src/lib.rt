// The walk over a run, symbol by symbol. A symbol that no fade covers costs no division.
#![tactic(auto)]

ghost use Rattle.std.specs.Prelude.{◌≡◌, ◌+◌, ◌^◌, ◌<◌, get_or};
ghost use Rattle.fades.specs.Fades.{counts_of};
ghost use Rattle.fades.specs.Inner.{Small};
ghost use Rattle.fades_walk.specs.Inner.{Stands, word_at, Open, Plus, Added, Walks};
ghost use Rattle.fades_list.specs.Inner.{Left};

use channel::Layout;

// A symbol of the run, with its number in its line, its place of step 9, and that modulo N.
#[derive(Clone, Copy)]
pub struct Spot {
    pub symbol: usize,
    pub column: usize,
    pub place: usize,
    pub residue: usize,
}

// The next symbol. A marker symbol has the place of the first symbol after it.
fn next(g: Layout, a: Spot) -> Spot
    requires { Small g × Stands g a × (a.symbol < 2 ^ 23) }
    ensures { Stands g result × (result.symbol ≡ a.symbol + 1) }
{
    let markers = g.markers;
    let symbol = a.symbol + 1;
    let column = a.column + 1;
    if column <= markers {
        return Spot {
            symbol,
            column,
            place: a.place,
            residue: a.residue,
        };
    }
    let place = a.place + 1;
    let residue = channel::next(a.residue, g.rows);
    if column < g.symbols + markers {
        return Spot {
            symbol,
            column,
            place,
            residue,
        };
    }
    Spot {
        symbol,
        column: 0,
        place,
        residue,
    }
}

// The word that a symbol belongs to; C for a marker symbol, and for a filler, which comes from "symbol" C·S.
fn word_at(g: Layout, a: Spot) -> usize
    requires { Small g × Stands g a }
    ensures { result ≡ word_at g a.symbol }
{
    let symbols = g.symbols;
    let words = g.words;
    if a.column < g.markers {
        return words;
    }
    channel::hit_by(g.rows, g.step, words * symbols, a.place, a.residue) / symbols
}

fn add_one(counts: &mut [u32], j: usize)
    requires { get_or counts.old j 0 < 2 ^ 31 }
    ensures { Plus j counts.old counts.new }
{
    if j < counts.len() {
        counts[j] = counts[j] + 1;
    }
}

// Adds one for the word of a symbol, if it is covered.
fn count_one(g: Layout, fades: &[u32], i: usize, a: Spot, counts: &mut [u32])
    requires { Small g × Stands g a × Left fades.now i a.symbol × Open g counts.old }
    ensures { Added g fades.now a.symbol counts.old counts.new }
{
    if !fades_list::reached(fades, i, a.symbol) {
        return;
    }
    add_one(counts, word_at(g, a));
}

// The counts, which are 0 at first.
pub fn walk(g: Layout, fades: &[u32], counts: &mut [u32])
    requires { Walks g fades.now counts.old }
    ensures { counts.new ≡ counts_of g fades.now }
{
    let n = g.lines * (g.symbols + g.markers);
    let mut a = Spot {
        symbol: 0,
        column: 0,
        place: 0,
        residue: 0,
    };
    let mut i = 0usize;
    // A `while`, since `next` moves a symbol's four numbers together.
    while a.symbol < n {
        count_one(g, fades, i, a, counts);
        i = fades_list::past(fades, i, a.symbol);
        a = next(g, a);
    }
}
