// Groups as numbers of 64 bits. A group is good only if its number has a single one, and no branch depends on where that is.
// A function here that finds no symbol decides nothing: the group is then examined slot by slot.
ghost use Rattle.std.specs.Prelude.{◌≡◌, true, ℕ, ◌+◌, ◌*◌, ◌/◌, ◌-◌, ◌^◌, ◌≤◌, ◌<◌, eqb, length};
ghost use Rattle.bits.specs.Basics.{bool};
ghost use Rattle.pulses.specs.Inner.{Near, Far, Slots, Sole};
ghost use Rattle.pulses.specs.Pulses.{symbol_in};

// How many zeros come before the only one of 64 bits; 64 if there is no single one.
pub fn lone(v: u64) -> usize
    ensures { result < 64 → v ≡ 2 ^ (63 - result) }
{
    if v == 0 {
        return 64;
    }
    let r = bits::scan::leading(v);
    if v << r == 0x8000_0000_0000_0000u64 {
        return r;
    }
    64
}

// 1 if v is 0, and otherwise 0.
pub fn none(v: u64) -> usize
    ensures { result ≡ bool (eqb v 0) }
{
    if v == 0 { 1 } else { 0 }
}

// The symbol of group s where M is at most 32: its slots are within eight bytes.
fn near(order: usize, group: usize, b: &[u8], s: usize) -> usize
    requires { Near order group b.now s }
    ensures { result < order → symbol_in order group b.now s ≡ result }
{
    let x = s * group;
    let rest = 64 - group;
    let v = bits::packing::eight(b, x / 8) << (x % 8);
    lone((v >> rest) << rest)
}

// The place of the only one among the bits of n numbers; 64·n where there is no single one.
pub fn only<F: Fn(usize) -> u64>(number: F, n: usize) -> usize
    requires callable { (k : ℕ) → k < n → F.pre number k }
    requires few { n < 2 ^ 32 }
    ensures { result < 64 * n → (f : ℕ → ℕ) → ((k v : ℕ) → k < n → F.post number k v → v ≡ f k) → Sole f n result }
{
    let mut any = 0u64;
    let mut empty = 0usize;
    let mut zeros = 0usize;
    for k in 0..n {
        let v = number(k);
        any = any | v;
        empty += none(v);
        zeros += none(any);
    }
    if empty + 1 != n {
        return 64 * n;
    }
    let r = lone(any);
    if r >= 64 {
        return 64 * n;
    }
    64 * zeros + r
}

// The symbol of group s where M is at least 64: it fills whole bytes, and the last eight of them hold the guard slots.
fn far(order: usize, group: usize, b: &[u8], s: usize) -> usize
    requires { Far order group b.now s }
    ensures { result < order → symbol_in order group b.now s ≡ result }
{
    let at = s * group / 8;
    let guard = bits::packing::eight(b, at + group / 8 - 8) << (64 - (group - order));
    if guard != 0 {
        return order;
    }
    only(|k| bits::packing::eight(b, at + 8 * k), order / 64)
}

// Whether the groups from `from` up to `to` all have a symbol.
pub fn all_good(order: usize, group: usize, b: &[u8], from: usize, to: usize) -> bool
    requires { Slots order group to b.now × (to * group + 64 ≤ 8 * length b.now) }
    ensures { result ≡ true → (s : ℕ) → from ≤ s → s < to → symbol_in order group b.now s < order }
{
    (from..to).all(|s| symbol(order, group, b, s) < order)
}

// The symbol of group s.
fn symbol(order: usize, group: usize, b: &[u8], s: usize) -> usize
    requires { Slots order group (s + 1) b.now × (s * group + group + 64 ≤ 8 * length b.now) }
    ensures { result < order → symbol_in order group b.now s ≡ result }
{
    if order < 64 {
        return near(order, group, b, s);
    }
    far(order, group, b, s)
}

// The symbol of group s, given that it has one, where M is at most 32.
fn seen_near(order: usize, group: usize, b: &[u8], s: usize) -> usize
    requires { Near order group b.now s × (symbol_in order group b.now s < order) }
    ensures { result ≡ symbol_in order group b.now s }
{
    let x = s * group;
    bits::scan::leading(bits::packing::eight(b, x / 8) << (x % 8))
}

// The same where M is at least 64: the numbers before the first that is not 0, and the zeros before its one.
fn seen_far(order: usize, group: usize, b: &[u8], s: usize) -> usize
    requires { Far order group b.now s × (symbol_in order group b.now s < order) }
    ensures { result ≡ symbol_in order group b.now s }
{
    let at = s * group / 8;
    let n = order / 64;
    let mut any = 0u64;
    let mut zeros = 0usize;
    for k in 0..n {
        any += bits::packing::eight(b, at + 8 * k);
        zeros += none(any);
    }
    64 * zeros + bits::scan::leading(any)
}

// The symbol of group s, given that it has one. No branch depends on where it is, so that none waits for a fetch.
pub fn seen(order: usize, group: usize, b: &[u8], s: usize) -> usize
    requires { Slots order group (s + 1) b.now × (symbol_in order group b.now s < order) }
    ensures { result ≡ symbol_in order group b.now s }
{
    if s * group / 8 + 9 > b.len() {
        return crate::symbol_there(order, group, b, s);
    }
    if order < 64 {
        return seen_near(order, group, b, s);
    }
    seen_far(order, group, b, s)
}
