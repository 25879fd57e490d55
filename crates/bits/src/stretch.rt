// Consecutive bits, from any bit of packed bytes on, as whole bytes.
ghost use Rattle.std.specs.Prelude.{◌≡◌, ◌+◌, ◌/◌, ◌≤◌, ◌<◌, length};
ghost use Rattle.bits.specs.Pack.{val, bit_at};
ghost use Rattle.bits.specs.Inner.{Laid, eight_of};

// The eight bits from bit r of two bytes on.
fn eight_of(hi: u8, lo: u8, r: usize) -> u8
    requires { r < 8 }
    ensures { result ≡ eight_of hi lo r }
{
    let v = ((hi as u16) << 8) | (lo as u16);
    ((v >> (8 - r)) & 255) as u8
}

// The eight bits from bit y on.
pub fn byte_from(packed: &[u8], y: usize) -> u8
    requires { y / 8 + 1 < length packed.now }
    ensures { result ≡ val (λ t. bit_at packed.now (y + t)) 8 }
{
    let i = y / 8;
    eight_of(packed[i], packed[i + 1], y % 8)
}

// Writes the bits from bit y on as n bytes to `out`, from byte `at` on.
pub fn bytes_from(packed: &[u8], y: usize, n: usize, out: &mut [u8], at: usize)
    requires { (y / 8 + n < length packed.now) × (at + n ≤ length out.old) }
    ensures { Laid out.old at n (λ t. bit_at packed.now (y + t)) out.new }
{
    let i = y / 8;
    let r = y % 8;
    for t in 0..n {
        out[at + t] = eight_of(packed[i + t], packed[i + t + 1], r);
    }
}
