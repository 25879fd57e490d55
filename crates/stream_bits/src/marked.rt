// The stream of the marked frames: a function of the frames and a place.
ghost use Rattle.std.specs.Prelude.{◌≡◌, ◌+◌, ◌^◌, ◌≤◌, ◌<◌};
ghost use Rattle.bits.specs.Pack.{val};
ghost use Rattle.sizes.specs.Sizes.{marker_bits};
ghost use Rattle.stream_writer.specs.Stream.{marker_bit, stream_bit};
ghost use Rattle.stream_writer.specs.Inner.{Frames};

use bits::packing;

// Bit r of the frame marker.
fn marker_bit(r: usize) -> u8
    requires { r < marker_bits }
    ensures { result ≡ marker_bit r }
{
    ((sizes::FRAME_MARKER >> (sizes::MARKER_BITS - 1 - r)) & 1) as u8
}

// Its eight bits from bit r on. One function over the width would take the width's bound and mask, which is no shorter.
pub fn marker_byte(r: usize) -> u8
    requires { r + 8 ≤ marker_bits }
    ensures { result ≡ val (λ t. marker_bit (r + t)) 8 }
{
    ((sizes::FRAME_MARKER >> (sizes::MARKER_BITS - 8 - r)) & 255) as u8
}

// Bit x of the stream of `count` marked frames of `size` bytes; 0 after the last.
pub fn stream_bit(frames: &[u8], size: usize, count: usize, x: usize) -> u8
    requires { Frames size count frames.now × (x < 2 ^ 32) }
    ensures { result ≡ stream_bit size count frames.now x }
{
    let span = sizes::span(size);
    if count * span <= x {
        return 0;
    }
    let r = x % span;
    if r < sizes::MARKER_BITS {
        return marker_bit(r);
    }
    packing::bit_at(frames, x / span * (8 * size) + (r - sizes::MARKER_BITS))
}
