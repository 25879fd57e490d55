// Ones among packed bits, 64 at a time.
ghost use Rattle.std.specs.Prelude.{◌≡◌, ◌*◌, ◌/◌, ◌≤◌, ◌<◌, max, length};
ghost use Rattle.bits.specs.Inner.{Leads, Within, lesser, shown, reach, bits_from};
ghost use Rattle.bits.specs.Pack.{val, cut, first_set};

// How many zeros come before the first one of 64 bits. It stands beside `leading_zeros` since the laws of all layers go by `Leads`.
pub fn leading(v: u64) -> usize
    requires { 1 ≤ v }
    ensures { Leads 64 v result }
{
    v.leading_zeros() as usize
}

// The bits from byte i on as the first bits of a number: those of eight bytes, or of a single byte near the end.
fn window(b: &[u8], i: usize) -> u64
    requires { i < length b.now }
    ensures { result ≡ val (cut (shown (length b.now) i) (bits_from b.now (8 * i))) 64 }
{
    if b.len() - i >= 8 {
        return crate::packing::eight(b, i);
    }
    (b[i] as u64) << 56
}

// The same from bit x on.
pub fn ahead(b: &[u8], x: usize) -> u64
    requires { x < 8 * length b.now }
    ensures { result ≡ val (cut (reach (length b.now) x) (bits_from b.now x)) 64 }
{
    window(b, x / 8) << (x % 8)
}

// How many bits that number holds.
pub fn reach_of(b: &[u8], x: usize) -> usize
    requires { x < 8 * length b.now }
    ensures { result ≡ reach (length b.now) x }
{
    if b.len() - x / 8 >= 8 {
        64 - x % 8
    } else {
        8 - x % 8
    }
}

// The first one from bit x on, or the end.
pub fn first_one(b: &[u8], x: usize, end: usize) -> usize
    requires { Within b.now x end }
    ensures { result ≡ first_set b.now x end }
{
    // A `while`, since each look passes as many bits as it saw.
    let mut at = x;
    while at < end {
        let v = ahead(b, at);
        if v != 0 {
            return at + leading(v).min(end - at);
        }
        at += reach_of(b, at).min(end - at);
    }
    at
}
