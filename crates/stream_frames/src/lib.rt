// The frames, out of the stream that blocks hold.
#![tactic(auto)]

ghost use Rattle.std.specs.Prelude.{◌≡◌, ◌+◌, ◌*◌, ◌≤◌, ◌<◌, length};
ghost use Rattle.bits.specs.Pack.{piece};
ghost use Rattle.bits.specs.Inner.{Laid, Made};
ghost use Rattle.sizes.specs.Sizes.{marker_bits, span, info_bits, block_bytes};
ghost use Rattle.stream_reader.specs.Frames.{joined as Frames·joined, frames_in};
ghost use Rattle.stream_reader.specs.Inner.{bit_of, HeldAt, Judged};

use bits::pieces::Position;
use bits::{pieces, stretch};
use stream_joined::joined;

// How many whole bytes of a block are left from one of its bits on, at most `most`.
fn whole_bytes(rate: u64, bit: usize, most: usize) -> usize
    requires { (rate < 3) × (bit < info_bits rate) }
    ensures { (result ≤ most) × (bit + 8 * result ≤ info_bits rate) }
{
    ((sizes::info_bits(rate) - bit) / 8).min(most)
}

// Copies bytes of the stream from a place on into the frames from byte i on, at most `most`: those that are together in a block, otherwise one. Returns how many.
fn some_bytes(
    rate: u64,
    blocks: &[u8],
    at: Position,
    most: usize,
    frames: &mut [u8],
    i: usize,
) -> usize
    requires { HeldAt rate blocks.now at (8 * most) × (1 ≤ most) × (i + most ≤ length frames.old) }
    ensures { Made (info_bits rate) most frames.old i result (λ t. Frames·joined rate (piece (block_bytes rate) blocks.now) (bit_of rate at + t)) frames.new }
{
    let bit = at.bit;
    let n = whole_bytes(rate, bit, most);
    if n == 0 {
        frames[i] = joined::joined_byte(rate, blocks, at);
        return 1;
    }
    stretch::bytes_from(blocks, joined::packed_bit(rate, at), n, frames, i);
    n
}

// Frame j, from the end of its marker on.
fn frame_out(
    rate: u64,
    blocks: &[u8],
    pieces: usize,
    size: usize,
    count: usize,
    j: usize,
    frames: &mut [u8],
)
    requires { Judged rate pieces size count blocks.now × (j < count) × (length frames.old ≡ count * size) }
    ensures { Laid frames.old (j * size) size (λ t. Frames·joined rate (piece (block_bytes rate) blocks.now) (j * span size + marker_bits + t)) frames.new }
{
    let k = sizes::info_bits(rate);
    let start = j * size;
    let mut at = pieces::position_of(j * sizes::span(size) + sizes::MARKER_BITS, k);
    // A `while`, since each turn copies as many bytes as lie together.
    let mut u = 0;
    while u < size {
        let n = some_bytes(rate, blocks, at, size - u, frames, start + u);
        at = pieces::position_after(at, 8 * n, k);
        u += n;
    }
}

// The frames, out of the first `pieces` blocks.
pub fn frames_out(
    rate: u64,
    blocks: &[u8],
    pieces: usize,
    size: usize,
    count: usize,
    frames: &mut [u8],
)
    requires judged { Judged rate pieces size count blocks.now }
    requires frames_len { length frames.old ≡ count * size }
    ensures { frames.new ≡ frames_in size count (Frames·joined rate (piece (block_bytes rate) blocks.now)) }
{
    for j in 0..count {
        frame_out(rate, blocks, pieces, size, count, j, frames);
    }
}
