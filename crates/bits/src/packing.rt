// Bits of packed bytes, fields and numbers made of them, and unpacked bits, one to a place, packed.
ghost use Rattle.std.specs.Prelude.{◌≡◌, ℕ, ◌+◌, ◌*◌, ◌^◌, ◌≤◌, ◌<◌, length, get_or};
ghost use Rattle.bits.specs.Pack.{val, bit_at, bit_of, bytes_of};
ghost use Rattle.bits.specs.Inner.{put_bit, Laid};

// Bit j of packed bytes.
pub fn bit_at(packed: &[u8], j: usize) -> u8
    requires { j < 8 * length packed.now }
    ensures { result ≡ bit_at packed.now j }
{
    (packed[j / 8] >> (7 - j % 8)) & 1
}

// Sets bit x.
pub fn put_bit(packed: &mut [u8], x: usize)
    requires { x < 8 * length packed.old }
    ensures { packed.new ≡ put_bit packed.old x }
{
    packed[x / 8] |= 128u8 >> (x % 8);
}

// The number of n bits from bit `at` on, which are in one byte or in two.
pub fn field(packed: &[u8], at: usize, n: usize) -> usize
    requires { (at + n ≤ 8 * length packed.now) × (at < 2 ^ 32) × (1 ≤ n) × (n ≤ 8) }
    ensures { result ≡ val (λ i. bit_at packed.now (at + i)) n }
{
    let first = packed[at / 8] as usize;
    let last = packed[(at + n - 1) / 8] as usize;
    (((first << 8) | last) >> (16 - n - at % 8)) & ((1usize << n) - 1)
}

// Eight bytes from byte `at` on as one number, the first highest. Named one by one they are a single load.
pub fn eight(packed: &[u8], at: usize) -> u64
    requires { at + 8 ≤ length packed.now }
    ensures { result ≡ val (λ t. bit_at packed.now (8 * at + t)) 64 }
{
    u64::from_be_bytes([
        packed[at],
        packed[at + 1],
        packed[at + 2],
        packed[at + 3],
        packed[at + 4],
        packed[at + 5],
        packed[at + 6],
        packed[at + 7],
    ])
}

// The eight bytes of a number, the highest first, from byte `at` on.
pub fn put_eight(out: &mut [u8], at: usize, v: u64)
    requires { at + 8 ≤ length out.old }
    ensures { Laid out.old at 8 (bit_of v) out.new }
{
    out[at..at + 8].copy_from_slice(&v.to_be_bytes());
}

// The byte of the eight bits from `at` on, which are all there: no bit's place is tested.
fn whole_byte(bits: &[u8], at: usize) -> u8
    requires { (at + 8 ≤ length bits.now) × ((k : ℕ) → get_or bits.now k 0 < 2) }
    ensures { result ≡ val (λ t. get_or bits.now (at + t) 0) 8 }
{
    let mut byte = 0;
    for t in 0..8 {
        byte = (byte << 1) | bits[at + t];
    }
    byte
}

// The byte of the eight bits from `at` on, zeros past the end.
fn byte_from(bits: &[u8], at: usize) -> u8
    requires { (at + 8 < 2 ^ 64) × ((k : ℕ) → get_or bits.now k 0 < 2) }
    ensures { result ≡ val (λ t. get_or bits.now (at + t) 0) 8 }
{
    let mut byte = 0;
    for t in 0..8 {
        byte = (byte << 1) | bits.get(at + t).copied().unwrap_or(0);
    }
    byte
}

// Packs bits, followed by zeros, into all of `out`.
pub fn pack(bits: &[u8], out: &mut [u8])
    requires { (length out.old < 2 ^ 32) × ((i : ℕ) → get_or bits.now i 0 < 2) }
    ensures { out.new ≡ bytes_of (length out.old) (λ i. get_or bits.now i 0) }
{
    for (i, byte) in out.iter_mut().enumerate() {
        let at = 8 * i;
        *byte = if at + 8 <= bits.len() {
            whole_byte(bits, at)
        } else {
            byte_from(bits, at)
        };
    }
}
