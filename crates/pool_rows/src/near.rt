// Symbols whose copies have at most forty slots each: the copies are joined as numbers, one with the slots that have
// a pulse in some copy and one with those that have several. A single slot with several pulses leads, and so does a
// single slot with any if none has several.
ghost use Rattle.std.specs.Prelude.{◌≡◌, ℕ, ◌+◌, ◌-◌, ◌*◌, ◌≤◌, ◌<◌, eqb, length};
ghost use Rattle.bits.specs.Basics.{pick};
ghost use Rattle.bits.specs.Pack.{bit_at, bit_of};
ghost use Rattle.pool.specs.Inner.{Sent};
ghost use Rattle.pool.specs.Pooled.{peak, pooled};
ghost use Rattle.pulses_rows.specs.Inner.{Known, Reached};
ghost use Rattle.pool_rows.specs.Inner.{pulses_at, pulses_of, Near, worth, Ahead};

// The bits from x on as the first of a number: 57 at the least. `pool::joined` has the same with a promise on the number, where this is on
// each bit; one function with both would carry the longer proof.
fn window(b: &[u8], x: usize) -> u64
    requires { x + 64 ≤ 8 * length b.now }
    ensures { (i : ℕ) → i < 57 → bit_of result i ≡ bit_at b.now (x + i) }
{
    bits::packing::eight(b, x / 8) << (x % 8)
}

// The second number, unless it is 0.
fn either(any: u64, several: u64) -> u64
    ensures { result ≡ pick (eqb several 0) any several }
{
    if several == 0 { any } else { several }
}

// Which of the first `group` slots is worth more than each other; or 64, where that is not seen.
fn settled(any: u64, several: u64, group: usize) -> usize
    requires { (1 ≤ group) × (group ≤ 64) }
    ensures { result < group → (i : ℕ) → i < group → (i ≡ result → ⊥) → worth any several i < worth any several result }
{
    let rest = 64 - group;
    pulses_rows::forties::single(either((any >> rest) << rest, (several >> rest) << rest))
}

// The slot with more pulses than each other, where number c begins with the slots of copy c; or 64, where that is not seen.
fn leader<F: Fn(usize) -> u64>(number: F, copies: usize, group: usize) -> usize
    requires callable { (c : ℕ) → c < copies → F.pre number c }
    requires size { (1 ≤ group) × (group ≤ 64) }
    ensures { result < group → (f : ℕ → ℕ → ℕ) → ((c v i : ℕ) → c < copies → i < group → F.post number c v → bit_of v i ≡ f c i) → peak (pulses_of f copies) group ≡ result }
{
    let mut any = 0u64;
    let mut several = 0u64;
    for c in 0..copies {
        let v = number(c);
        several = several | (any & v);
        any = any | v;
    }
    settled(any, several, group)
}

// That of the symbol whose slots begin at y: one number shows all copies, or each copy has one.
fn decisive(b: &[u8], copies: usize, group: usize, y: usize) -> usize
    requires { Near group copies b.now y }
    ensures { result < group → peak (pulses_at b.now group y copies) group ≡ result }
{
    if copies * group <= 57 {
        let all = window(b, y);
        return leader(|c| all << (c * group), copies, group);
    }
    leader(|c| window(b, y + c * group), copies, group)
}

// The symbols from s on, up to the first for which no slot is seen to lead, or `to`; those from `from` on up to s are
// in the row already.
pub fn near_row(
    b: &[u8],
    copies: usize,
    group: usize,
    order: usize,
    from: usize,
    s: usize,
    to: usize,
    row: &mut [u8],
) -> usize
    requires { Sent order group copies to b.now × Ahead group copies b.now to × (from ≤ s) × (s ≤ to) × (to ≤ from + length row.old) × Known order (pooled b.now copies group order) from (s - from) row.old }
    ensures { Reached order (pooled b.now copies group order) row.old from to result row.new × (s ≤ result) }
{
    let size = copies * group;
    pulses_rows::fill(
        order,
        |k| decisive(b, copies, group, k * size),
        from,
        s,
        to,
        row,
    )
}
