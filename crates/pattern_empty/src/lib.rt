// Slots without a pulse, passed many at a time.
#![tactic(auto)]

ghost use Rattle.std.specs.Prelude.{◌≡◌, ℕ, ◌+◌, ◌≤◌, ◌<◌, length, get_or};
ghost use Rattle.bits.specs.Pack.{bit_at};
ghost use Rattle.pattern_empty.specs.Inner.{Scans};

// 0 only where 128 bytes from byte `at` on are 0.
fn any_of(b: &[u8], at: usize) -> u8
    requires { at + 128 ≤ length b.now }
    ensures { result ≡ 0 → (k : ℕ) → k < 128 → get_or b.now (at + k) 0 ≡ 0 }
{
    let mut d = 0u8;
    for k in 0..128 {
        d = d | b[at + k];
    }
    d
}

// A byte from byte i on, with no pulse in those between.
fn empty_end(b: &[u8], i: usize) -> usize
    requires { i ≤ length b.now }
    ensures { (i ≤ result) × (result ≤ length b.now) × ((k : ℕ) → i ≤ k → k < result → get_or b.now k 0 ≡ 0) }
{
    let n = (b.len() - i) / 128;
    for k in 0..n {
        if any_of(b, i + 128 * k) != 0 {
            return i + 128 * k;
        }
    }
    i + 128 * n
}

// A slot from slot `at` on, up to `end`, with no pulse in those between.
pub fn past_empty(b: &[u8], at: usize, end: usize) -> usize
    requires { Scans b.now at end }
    ensures { (at ≤ result) × (result ≤ end) × ((k : ℕ) → at ≤ k → k < result → bit_at b.now k ≡ 0) }
{
    let e = empty_end(b, at / 8).min(end / 8);
    at.max(8 * e)
}
