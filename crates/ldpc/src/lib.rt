// The (128, 64) LDPC code: the parity bits of a frame.
#![tactic(auto)]

ghost use Rattle.std.specs.Prelude.{◌≡◌};
ghost use Rattle.bits.specs.Pack.{val, bit_of};
ghost use Rattle.ldpc.specs.Code.{parity_bit};

mod table;

use table::PARITY;

// The parity bits of a frame of 64 bits, the first highest: the sum of the rows of its ones.
pub fn parity(frame: u64) -> u64
    ensures { result ≡ val (parity_bit (bit_of frame)) 64 }
{
    let table = PARITY;
    let mut p = 0u64;
    for (i, row) in table.iter().enumerate() {
        p ^= *row * ((frame >> (63 - i)) & 1);
    }
    p
}
