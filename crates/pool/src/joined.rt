// The copies of a symbol joined, as numbers of 64 bits.
ghost use Rattle.std.specs.Prelude.{◌≡◌, true, ◌+◌, ◌-◌, ◌*◌, ◌/◌, ◌%◌, ◌^◌, ◌≤◌, ◌<◌, length};
ghost use Rattle.bits.specs.Pack.{val, cut};
ghost use Rattle.bits.specs.Inner.{lesser, bits_from};
ghost use Rattle.pool.specs.Inner.{some, lit, Held, Open};

// At least eight bytes follow the copies of symbol s.
pub fn open(b: &[u8], copies: usize, group: usize, s: usize) -> bool
    requires { Held group copies b.now s }
    ensures { result ≡ true → Open group copies b.now s }
{
    (s * copies + copies) * group / 8 + 8 < b.len()
}

// Slot r of copy c of symbol s.
pub fn slot(copies: usize, group: usize, s: usize, c: usize, r: usize) -> usize
    requires { (1 ≤ group) × (c < copies) × (r < group) × ((s * copies + copies) * group < 2 ^ 36) }
    ensures { result ≡ (s * copies + c) * group + r }
{
    (s * copies + c) * group + r
}

// The bits from y on as the first of a number, at least 57 of them.
fn window(b: &[u8], y: usize) -> u64
    requires { y + 64 ≤ 8 * length b.now }
    ensures { result ≡ val (cut (64 - y % 8) (bits_from b.now y)) 64 }
{
    bits::packing::eight(b, y / 8) << (y % 8)
}

// The slots from `at` on, up to 57 of them, as the first bits of a number.
pub fn slots_from(b: &[u8], copies: usize, group: usize, s: usize, at: usize, width: usize) -> u64
    requires { Open group copies b.now s × (at < group) × (1 ≤ width) × (width ≤ 57) }
    ensures { result ≡ val (cut width (λ t. lit b.now copies group s (at + t))) 64 }
{
    let rest = 64 - width;
    let mut any = 0u64;
    for c in 0..copies {
        any = any | window(b, slot(copies, group, s, c, at));
    }
    (any >> rest) << rest
}

// The first `width` bits of eight bytes. Since they are cut here and not once for all copies, the bytes stay a single load.
fn front(b: &[u8], at: usize, width: usize) -> u64
    requires { (at + 8 ≤ length b.now) × (1 ≤ width) × (width ≤ 64) }
    ensures { result ≡ val (cut width (bits_from b.now (8 * at))) 64 }
{
    let rest = 64 - width;
    (bits::packing::eight(b, at) >> rest) << rest
}

// Those of the eight bytes from `at` on and of the other copies, each `bytes` bytes after the one before, joined.
fn fronts(b: &[u8], copies: usize, bytes: usize, at: usize, width: usize) -> u64
    requires { (copies ≤ 32) × (bytes ≤ 40) × (at + copies * bytes + 8 ≤ length b.now + bytes) × (1 ≤ width) × (width ≤ 64) }
    ensures { result ≡ val (λ t. some (λ c. cut width (bits_from b.now (8 * (at + c * bytes))) t) copies) 64 }
{
    let mut any = 0u64;
    for c in 0..copies {
        any = any | front(b, at + c * bytes, width);
    }
    any
}

// The k-th number of a group that fills whole bytes, with zeros after the group.
pub fn number(b: &[u8], copies: usize, group: usize, s: usize, k: usize) -> u64
    requires { Open group copies b.now s × (group ≡ 8 * (group / 8)) × (64 * k < group) }
    ensures { result ≡ val (cut (lesser 64 (group - 64 * k)) (λ t. lit b.now copies group s (64 * k + t))) 64 }
{
    let bytes = group / 8;
    let width = (group - 64 * k).min(64);
    fronts(b, copies, bytes, s * copies * bytes + 8 * k, width)
}
