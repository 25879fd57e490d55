// Question 10. Most places of a long run hold 0, and forty bytes hold whole groups at every pulse order: where they show nothing but zeros, nothing has to be asked of those groups.
ghost use Rattle.std.specs.Prelude.{◌≡◌, ℕ, ◌+◌, ◌*◌, ◌≤◌, ◌<◌, length, get_or};
ghost use Rattle.pulses.specs.Inner.{Forties, Zeros, Same};

// Forty bytes of zeros' slots.
pub fn zeros(group: usize) -> [u8; 40]
    requires { (1 ≤ group) × (group ≤ 320) }
    ensures { Zeros group result }
{
    let mut slots = [0u8; 40];
    for x in (0..320).step_by(group) {
        bits::packing::put_bit(&mut slots, x);
    }
    slots
}

// 0 only where forty bytes from byte `at` on are those given.
pub fn difference(b: &[u8], at: usize, given: &[u8]) -> u8
    requires { (at + 40 ≤ length b.now) × (length given.now ≡ 40) }
    ensures { result ≡ 0 → (k : ℕ) → k < 40 → get_or b.now (at + k) 0 ≡ get_or given.now k 0 }
{
    let mut d = 0u8;
    for k in 0..40 {
        d = d | (b[at + k] ^ given[k]);
    }
    d
}

// The first forty bytes, from the c-th forty on, that are not those given; or n.
pub fn past_zeros(b: &[u8], given: &[u8], c: usize, n: usize) -> usize
    requires { Forties b.now given.now c n }
    ensures { (c ≤ result) × (result ≤ n) × ((k : ℕ) → c ≤ k → k < result → Same b.now (40 * k) given.now 40) }
{
    (c..n)
        .find(|k| difference(b, 40 * *k, given) != 0)
        .unwrap_or(n)
}

// The first that are, or n; only the bounds are promised.
pub fn past_others(b: &[u8], given: &[u8], c: usize, n: usize) -> usize
    requires { Forties b.now given.now c n }
    ensures { (c ≤ result) × (result ≤ n) }
{
    (c..n)
        .find(|k| difference(b, 40 * *k, given) == 0)
        .unwrap_or(n)
}
