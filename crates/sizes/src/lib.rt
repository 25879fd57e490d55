// The sizes that several crates share: those of a word, of a marked frame, and of a block at each code rate (0 for 1/3, 1 for 1/2, 2 for 2/3).
// A rate is a number and no enum: the C calls take it so, and the definitions and theorems speak of that number, which an enum would need in each clause.
#![tactic(auto)]

ghost use Rattle.std.specs.Prelude.{◌≡◌, ◌^◌, ◌<◌};
ghost use Rattle.sizes.specs.Sizes.{span as Sizes·span, info_bits, block_bytes};
ghost use Rattle.sizes.specs.Inner.{input_bits};

// The coded bits of a word, and its bytes.
pub const WORD_BITS: usize = 15120;

pub const WORD_BYTES: usize = 1890;

// The frame marker, and its bits.
pub const FRAME_MARKER: u64 = 0x1ACFFC1D;

pub const MARKER_BITS: usize = 32;

// The bits of a marked frame of `size` bytes.
pub fn span(size: usize) -> usize
    requires { size < 2 ^ 32 }
    ensures { result ≡ Sizes·span size }
{
    MARKER_BITS + 8 * size
}

const THIRD: usize = 5006;

const HALF: usize = 7526;

const TWO_THIRDS: usize = 10046;

// The check bits and the termination bits after a block.
const ADDED: usize = 34;

// k, the bits of an information block.
pub fn info_bits(rate: u64) -> usize
    requires { rate < 3 }
    ensures { result ≡ info_bits rate }
{
    match rate {
        0 => THIRD,
        1 => HALF,
        _ => TWO_THIRDS,
    }
}

// n, the input bits of the code.
pub fn input_bits(rate: u64) -> usize
    requires { rate < 3 }
    ensures { result ≡ input_bits rate }
{
    info_bits(rate) + ADDED
}

// The bytes of a packed block.
pub fn block_bytes(rate: u64) -> usize
    requires { rate < 3 }
    ensures { result ≡ block_bytes rate }
{
    info_bits(rate).div_ceil(8)
}
