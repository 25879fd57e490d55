// What is seen in the joined blocks: the number where a marker should be, and the first bit of the fill that is not zero.
ghost use Rattle.std.specs.Prelude.{◌≡◌, ◌+◌, ◌*◌, ◌≤◌};
ghost use Rattle.bits.specs.Basics.{up_to};
ghost use Rattle.bits.specs.Pack.{val, piece};
ghost use Rattle.sizes.specs.Sizes.{marker_bits, info_bits, block_bytes};
ghost use Rattle.stream_reader.specs.Frames.{joined as Frames·joined, zero_at};
ghost use Rattle.stream_reader.specs.Inner.{Blocks, Held, HeldAt, Zeros};

use crate::joined;
use bits::pieces;
use bits::pieces::Position;

// The number where a marker should be, from bit x on.
pub fn marker_at(rate: u64, blocks: &[u8], x: usize) -> u64
    requires { Held rate blocks.now x marker_bits }
    ensures { result ≡ val (λ t. Frames·joined rate (piece (block_bytes rate) blocks.now) (x + t)) marker_bits }
{
    let k = sizes::info_bits(rate);
    let start = pieces::position_of(x, k);
    let mut v = 0u64;
    for i in 0..sizes::MARKER_BITS / 8 {
        let at = pieces::position_after(start, 8 * i, k);
        v = (v << 8) | u64::from(joined::joined_byte(rate, blocks, at));
    }
    v
}

// How many zeros follow from a place on, as far as one look goes: eight, one or none.
fn zeros_at(rate: u64, blocks: &[u8], at: Position) -> usize
    requires { HeldAt rate blocks.now at 1 }
    ensures { Zeros rate (Frames·joined rate (piece (block_bytes rate) blocks.now)) at result }
{
    if joined::eight_zeros(rate, blocks, at) {
        return 8;
    }
    if joined::joined_bit(rate, blocks, at) == 0 {
        return 1;
    }
    0
}

// Question 18: the first bit from `from` on that is not zero, the end of the `pieces` blocks where there is none.
pub fn first_fill(rate: u64, blocks: &[u8], pieces: usize, from: usize) -> usize
    requires { Blocks rate pieces blocks.now × (from ≤ pieces * info_bits rate) }
    ensures { result ≡ up_to (zero_at (Frames·joined rate (piece (block_bytes rate) blocks.now))) from (pieces * info_bits rate) }
{
    let k = sizes::info_bits(rate);
    let end = pieces * k;
    let mut at = pieces::position_of(from, k);
    // A `while`, since each look passes as many zeros as it saw.
    let mut x = from;
    while x < end {
        let n = zeros_at(rate, blocks, at);
        if n == 0 {
            return x;
        }
        at = pieces::position_after(at, n, k);
        x += n;
    }
    x
}
