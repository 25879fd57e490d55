// Questions 16 and 18, of the stream that blocks hold.
#![tactic(auto)]

ghost use Rattle.std.specs.Prelude.{◌≡◌, ◌+◌, ◌*◌};
ghost use Rattle.bits.specs.Pack.{piece};
ghost use Rattle.answers.specs.Inner.{answer_of};
ghost use Rattle.sizes.specs.Sizes.{info_bits, block_bytes};
ghost use Rattle.stream_reader.specs.Frames.{joined as Frames·joined, first_unmarked, frames_say};
ghost use Rattle.stream_reader.specs.Inner.{Judged};

use answers::{Fault, Refusal, ask};
use stream_joined::looks;

// Question 16: the first frame that has no marker before it, or `count`.
fn first_unmarked(rate: u64, blocks: &[u8], pieces: usize, size: usize, count: usize) -> usize
    requires { Judged rate pieces size count blocks.now }
    ensures { result ≡ first_unmarked size count (Frames·joined rate (piece (block_bytes rate) blocks.now)) }
{
    let span = sizes::span(size);
    for j in 0..count {
        if looks::marker_at(rate, blocks, j * span) != sizes::FRAME_MARKER {
            return j;
        }
    }
    count
}

// Questions 16 and 18, of the first `pieces` blocks.
#[tactic(auto, using(stream_joined::proofs::Rooms::pieces_room), unfolding(stream_reader::specs::Frames::frames_say, stream_reader::specs::Frames::fill_zero))]
pub fn frames_say(
    rate: u64,
    blocks: &[u8],
    pieces: usize,
    size: usize,
    count: usize,
) -> Result<(), Refusal>
    requires { Judged rate pieces size count blocks.now }
    ensures { answer_of result ≡ frames_say size count (pieces * info_bits rate) (Frames·joined rate (piece (block_bytes rate) blocks.now)) }
{
    let j = first_unmarked(rate, blocks, pieces, size, count);
    if j != count {
        return Err(Fault::BadFrameMarker.at(j));
    }
    let end = pieces * sizes::info_bits(rate);
    ask(
        looks::first_fill(rate, blocks, pieces, count * sizes::span(size)) == end,
        Fault::BadFill,
    )
}
