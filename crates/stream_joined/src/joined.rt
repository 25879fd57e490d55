// The blocks joined: one stream of bits, whose place is a block and a bit of it.
ghost use Rattle.std.specs.Prelude.{◌≡◌, true, ◌+◌, ◌*◌, ◌≤◌, ◌<◌};
ghost use Rattle.bits.specs.Pack.{val, piece};
ghost use Rattle.sizes.specs.Sizes.{info_bits, block_bytes};
ghost use Rattle.stream_reader.specs.Frames.{joined};
ghost use Rattle.stream_reader.specs.Inner.{bit_of, HeldAt, Zeros};

use bits::pieces::Position;
use bits::{packing, pieces, stretch};

// The bit of the packed blocks that a place is.
pub fn packed_bit(rate: u64, at: Position) -> usize
    requires { (rate < 3) × (at.piece ≤ 210) × (at.bit < info_bits rate) }
    ensures { result ≡ at.piece * (8 * block_bytes rate) + at.bit }
{
    let block = at.piece;
    let bit = at.bit;
    block * (8 * sizes::block_bytes(rate)) + bit
}

// The bit at a place.
pub fn joined_bit(rate: u64, blocks: &[u8], at: Position) -> u8
    requires { HeldAt rate blocks.now at 1 }
    ensures { result ≡ joined rate (piece (block_bytes rate) blocks.now) (bit_of rate at) }
{
    packing::bit_at(blocks, packed_bit(rate, at))
}

// The number of the eight bits from a place on, bit by bit.
pub fn joined_eight(rate: u64, blocks: &[u8], at: Position) -> u64
    requires { HeldAt rate blocks.now at 8 }
    ensures { result ≡ val (λ t. joined rate (piece (block_bytes rate) blocks.now) (bit_of rate at + t)) 8 }
{
    let k = sizes::info_bits(rate);
    let mut v = 0u64;
    for t in 0..8 {
        let bit = joined_bit(rate, blocks, pieces::position_after(at, t, k));
        v = (v << 1) | u64::from(bit);
    }
    v
}

// The byte of the eight bits from a place on: in one go, unless they are in two blocks.
pub fn joined_byte(rate: u64, blocks: &[u8], at: Position) -> u8
    requires { HeldAt rate blocks.now at 8 }
    ensures { result ≡ val (λ t. joined rate (piece (block_bytes rate) blocks.now) (bit_of rate at + t)) 8 }
{
    let bit = at.bit;
    if bit + 8 <= sizes::info_bits(rate) {
        return stretch::byte_from(blocks, packed_bit(rate, at));
    }
    (joined_eight(rate, blocks, at) & 255) as u8
}

// Whether the eight bits from a place on are in one block and zero.
pub fn eight_zeros(rate: u64, blocks: &[u8], at: Position) -> bool
    requires { HeldAt rate blocks.now at 1 }
    ensures { result ≡ true → Zeros rate (joined rate (piece (block_bytes rate) blocks.now)) at 8 }
{
    let bit = at.bit;
    if bit + 8 > sizes::info_bits(rate) {
        return false;
    }
    stretch::byte_from(blocks, packed_bit(rate, at)) == 0
}
