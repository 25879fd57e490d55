// The stream cut into blocks of k bits, each packed with two spare zero bits.
#![tactic(auto)]

ghost use Rattle.std.specs.Prelude.{◌≡◌, ◌+◌, ◌-◌, ◌*◌, ◌^◌, ◌≤◌, ◌<◌, length};
ghost use Rattle.bits.specs.Pack.{val, bytes_of};
ghost use Rattle.bits.specs.Inner.{Made};
ghost use Rattle.sizes.specs.Sizes.{span, block_bytes};
ghost use Rattle.stream_writer.specs.Stream.{stream_bit, block_at};
ghost use Rattle.stream_writer.specs.Inner.{Frames, Placed, Together};

use bits::pieces::Position;
use bits::{pieces, stretch};
use stream_bits::{marked, reader};

// How many bytes of one frame follow from a place of the stream on, at most `most`; the byte after them is in the frame too.
fn together(size: usize, count: usize, at: Position, most: usize) -> usize
    requires { (size ≤ 2048) × (at.bit < span size) }
    ensures { Together size count at most result }
{
    let frame = at.piece;
    let bit = at.bit;
    let span = sizes::span(size);
    if frame >= count || bit < sizes::MARKER_BITS || bit + 16 > span {
        return 0;
    }
    ((span - bit) / 8 - 1).min(most)
}

// The byte of the stream from a place on: of the marker, of the zeros after the last frame, or as a reader hands out its bits.
fn stream_byte(frames: &[u8], size: usize, count: usize, at: Position) -> u8
    requires { Frames size count frames.now × Placed size at }
    ensures { result ≡ val (λ t. stream_bit size count frames.now (at.piece * span size + at.bit + t)) 8 }
{
    let frame = at.piece;
    let bit = at.bit;
    if frame >= count {
        return 0;
    }
    if bit + 8 <= sizes::MARKER_BITS {
        return marked::marker_byte(bit);
    }
    (reader::eight_bits(frames, size, count, frame * sizes::span(size) + bit) & 255) as u8
}

// Copies bytes of the stream from a place on into the block from byte i on: those that are together in a frame, otherwise one. Returns how many.
fn some_bytes(
    frames: &[u8],
    size: usize,
    count: usize,
    at: Position,
    block: &mut [u8],
    i: usize,
) -> usize
    requires { Frames size count frames.now × Placed size at × (i < length block.old) }
    ensures { Made (span size) (length block.old - i) block.old i result (λ t. stream_bit size count frames.now (at.piece * span size + at.bit + t)) block.new }
{
    let frame = at.piece;
    let bit = at.bit;
    let n = together(size, count, at, block.len() - i);
    if n == 0 {
        block[i] = stream_byte(frames, size, count, at);
        return 1;
    }
    let start = frame * (8 * size) + (bit - sizes::MARKER_BITS);
    stretch::bytes_from(frames, start, n, block, i);
    n
}

// The stream from bit x on, as whole bytes.
fn fill_bytes(frames: &[u8], size: usize, count: usize, x: usize, block: &mut [u8])
    requires { Frames size count frames.now × (x + 8 * length block.old < 2 ^ 32) }
    ensures { block.new ≡ bytes_of (length block.old) (λ t. stream_bit size count frames.now (x + t)) }
{
    let span = sizes::span(size);
    let mut at = pieces::position_of(x, span);
    // A `while`, since each turn copies as many bytes as lie together.
    let mut i = 0;
    while i < block.len() {
        let n = some_bytes(frames, size, count, at, block, i);
        at = pieces::position_after(at, 8 * n, span);
        i += n;
    }
}

// Block j of the stream, packed. The last byte's two spare bits are cleared.
pub fn fill_block(rate: u64, frames: &[u8], size: usize, count: usize, j: usize, block: &mut [u8])
    requires frames { Frames size count frames.now }
    requires rate_bound { (rate < 3) × (j < 256) × (length block.old ≡ block_bytes rate) }
    ensures { block.new ≡ block_at rate (stream_bit size count frames.now) j }
{
    fill_bytes(frames, size, count, j * sizes::info_bits(rate), block);
    let last = block.len() - 1;
    block[last] &= 252;
}
