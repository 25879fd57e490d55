// Pulses counted slot by slot.
ghost use Rattle.std.specs.Prelude.{◌≡◌, ℕ, ◌≤◌, ◌<◌, ltb, eqb};
ghost use Rattle.bits.specs.Basics.{pick};
ghost use Rattle.pool.specs.Inner.{Held, Open};
ghost use Rattle.pool.specs.Pooled.{count, peak};

// The first slot from `from` on that has a pulse in a copy, or the group's end.
fn next_lit(b: &[u8], copies: usize, group: usize, s: usize, from: usize) -> usize
    requires { Open group copies b.now s × (from ≤ group) }
    ensures { (from ≤ result) × (result ≤ group) × ((i : ℕ) → from ≤ i → i < result → count b.now copies group s i ≡ 0) }
{
    for at in (from..group).step_by(57) {
        let width = (group - at).min(57);
        let v = crate::joined::slots_from(b, copies, group, s, at, width);
        if v != 0 {
            return at + bits::scan::leading(v);
        }
    }
    group
}

// A slot from `from` on, or the group's end; no copy has a pulse between `from` and there.
fn skip(b: &[u8], copies: usize, group: usize, s: usize, from: usize) -> usize
    requires { Held group copies b.now s × (from ≤ group) }
    ensures { (from ≤ result) × (result ≤ group) × ((i : ℕ) → from ≤ i → i < result → count b.now copies group s i ≡ 0) }
{
    if crate::joined::open(b, copies, group, s) {
        return next_lit(b, copies, group, s, from);
    }
    from
}

// The pulses in slot r.
fn count_at(b: &[u8], copies: usize, group: usize, s: usize, r: usize) -> usize
    requires { Held group copies b.now s × (r < group) }
    ensures { result ≡ count b.now copies group s r }
{
    let mut v = 0usize;
    for c in 0..copies {
        v += usize::from(bits::packing::bit_at(b, crate::joined::slot(copies, group, s, c, r)));
    }
    v
}

// Which of n slots leads once slot r, with v pulses, joins those before it, of which q led with `top`; n if none does.
fn in_front(v: usize, top: usize, r: usize, q: usize, n: usize) -> usize
    ensures { result ≡ pick (ltb top v) r (pick (eqb v top) n q) }
{
    if top < v {
        return r;
    }
    if v == top {
        return n;
    }
    q
}

// The slot with more pulses than every other, or the group's size.
pub fn counted(b: &[u8], copies: usize, group: usize, s: usize) -> usize
    requires { Held group copies b.now s }
    ensures { result ≡ peak (count b.now copies group s) group }
{
    let mut top = 0usize;
    let mut q = group;
    let mut r = skip(b, copies, group, s, 0);
    // Not a `for`: r goes on to the next slot that has a pulse.
    while r < group {
        let v = count_at(b, copies, group, s, r);
        q = in_front(v, top, r, q, group);
        top = v.max(top);
        r = skip(b, copies, group, s, r + 1);
    }
    q
}
