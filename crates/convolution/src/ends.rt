// The last input bits: the check of step 2, and the two zeros of step 3.
ghost use Rattle.std.specs.Prelude.{◌≡◌, ◌+◌, ◌-◌, ◌*◌, ◌≤◌, length};
ghost use Rattle.bits.specs.Pack.{val, bit_at};
ghost use Rattle.convolution.specs.Inner.{Ended};

// The 32 bits of the check, the highest first, and two zeros, in the place of the last 34 bits.
pub fn put_end(input: &mut [u8], check: u32)
    requires { 8 ≤ length input.old }
    ensures { Ended input.old check input.new }
{
    let at = input.len() - 8;
    let front = bits::packing::eight(input, at) >> 34;
    bits::packing::put_eight(input, at, (front << 34) | ((check as u64) << 2));
}

// The last 34 bits as a number.
pub fn end_of(input: &[u8]) -> u64
    requires { 8 ≤ length input.now }
    ensures { result ≡ val (λ t. bit_at input.now (8 * (length input.now - 8) + 30 + t)) 34 }
{
    bits::packing::eight(input, input.len() - 8) & 0x3_FFFF_FFFF
}
