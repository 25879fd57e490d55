// The first line of a word: the coded bits that its 72 places take, by 36 constants in place of the square.
#![tactic(auto)]

ghost use Rattle.std.specs.Prelude.{◌≡◌, ◌<◌, length};
ghost use Rattle.bits.specs.Basics.{tab};
ghost use Rattle.word_columns.specs.Inner.{columns};
ghost use Rattle.interleaver.specs.Interleaver.{source_bit, Squares};

mod table;

use table::SQUARES;

// The first coefficient of step 5: a place on is so many coded bits on, except for the square, and a line on so many lines.
pub const FACTOR: usize = 11;

// The places after which the squares repeat.
const PERIOD: usize = 36;

// The coded bit that place j of the word's first line takes; the square term is the table's.
fn source_bit(squares: &[usize], j: usize) -> usize
    requires { Squares squares.now × (j < columns) }
    ensures { result ≡ source_bit j }
{
    let p = FACTOR * j + squares[j % PERIOD];
    if p < sizes::WORD_BITS {
        p
    } else {
        p - sizes::WORD_BITS
    }
}

// Those of the first line; each further line stands 792 coded bits on, which are 11 lines.
pub fn first_line(off: &mut [u16])
    requires { length off.old ≡ columns }
    ensures { off.new ≡ tab columns source_bit }
{
    let squares = SQUARES;
    for (c, bit) in off.iter_mut().enumerate() {
        *bit = source_bit(&squares, c) as u16;
    }
}
