// The rows of the delay lines, over an area in which each row overwrites its oldest byte.
#![tactic(auto)]

ghost use Rattle.std.specs.Prelude.{◌≡◌, ◌+◌, ◌%◌, ◌≤◌, eqb, length, get_or, set};
ghost use Rattle.bits.specs.Basics.{pick};
ghost use Rattle.delay_rows.specs.Inner.{Rows, RowOf};

use delay::Side;

// Where a row begins, and its bytes.
#[derive(Clone, Copy)]
pub struct Row {
    pub begin: usize,
    pub lag: usize,
}

// Row i of N, from the sum of the rows before it. What is halved is even.
pub fn row_of(side: Side, rows: usize, step: usize, i: usize) -> Row
    requires { Rows rows step i }
    ensures { RowOf side rows step i result.begin result.lag }
{
    match side {
        Side::Writing => Row {
            begin: step * (i * i - i) / 2,
            lag: i * step,
        },
        Side::Reading => Row {
            begin: step * (i * (2 * rows - 1 - i)) / 2,
            lag: (rows - 1 - i) * step,
        },
    }
}

// A turn of a row: gives its oldest byte, and stores the symbol in its place.
pub fn exchange(area: &mut [u8], begin: usize, lag: usize, turn: usize, symbol: u8) -> u8
    requires { begin + lag ≤ length area.old }
    ensures value { result ≡ pick (eqb lag 0) symbol (get_or area.old (begin + turn % lag) 0) }
    ensures area_after { area.new ≡ pick (eqb lag 0) area.old (set area.old (begin + turn % lag) symbol) }
{
    if lag == 0 {
        return symbol;
    }
    let at = begin + turn % lag;
    let oldest = area[at];
    area[at] = symbol;
    oldest
}
