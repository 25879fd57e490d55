// A reader over the frames, which hands out the stream bit by bit.
ghost use Rattle.std.specs.Prelude.{◌≡◌, ◌+◌, ◌*◌, ◌%◌, ◌^◌, ◌<◌};
ghost use Rattle.std.specs.Int.Bits.{bit_or};
ghost use Rattle.bits.specs.Pack.{val};
ghost use Rattle.stream_writer.specs.Stream.{stream_bit};
ghost use Rattle.stream_writer.specs.Inner.{Frames};

use crate::marked::stream_bit;

// The frames, and the place in their stream of the bit that comes next.
#[derive(Drop)]
pub struct Stream<'a> {
    pub frames: &'a [u8],
    pub at: usize,
}

pub fn new<'a>(frames: &'a [u8], at: usize) -> Stream<'a>
    ensures { (result.frames ≡ frames.entry) × (result.at ≡ at) }
{
    Stream { frames, at }
}

// The next bit. The reader moves on by one.
pub fn next<'s, 'a>(stream: &'s mut Stream<'a>, size: usize, count: usize) -> u8
    requires { Frames size count stream.old.frames.now × (stream.old.at < 2 ^ 32) }
    ensures { (result ≡ stream_bit size count stream.old.frames.now stream.old.at) × (stream.new.frames ≡ stream.old.frames) × (stream.new.at ≡ stream.old.at + 1) }
{
    let at = stream.at;
    stream.at = at + 1;
    stream_bit(stream.frames, size, count, at)
}

// A number with one more bit appended.
fn pushed(v: u64, b: u8) -> u64
    ensures { result ≡ bit_or (v * 2 % 2 ^ 64) b }
{
    (v << 1) | (b as u64)
}

// The number of the eight bits that a reader hands out from bit x on.
pub fn eight_bits(frames: &[u8], size: usize, count: usize, x: usize) -> u64
    requires { Frames size count frames.now × (x + 8 < 2 ^ 32) }
    ensures { result ≡ val (λ t. stream_bit size count frames.now (x + t)) 8 }
{
    let mut stream = new(frames, x);
    let mut v = 0u64;
    for _t in 0..8usize {
        v = pushed(v, next(&mut stream, size, count));
    }
    v
}
