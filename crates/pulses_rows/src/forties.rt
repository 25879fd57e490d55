// Groups of up to forty slots, from a group on that begins on a byte: forty slots hold several, and are read as one
// number.
ghost use Rattle.std.specs.Prelude.{◌≡◌, ℕ, ◌+◌, ◌-◌, ◌*◌, ◌/◌, ◌^◌, ◌≤◌, ◌<◌, eqb, length};
ghost use Rattle.bits.specs.Basics.{bool};
ghost use Rattle.bits.specs.Pack.{bit_of};
ghost use Rattle.pulses.specs.Pulses.{symbol_in};
ghost use Rattle.pulses_rows.specs.Inner.{Known, Reached, Forty, Clear};

// The zeros in front of the only one of 64 bits, or 64. On many processors the zeros after it are counted faster.
pub fn single(v: u64) -> usize
    ensures { result < 64 → v ≡ 2 ^ (63 - result) }
{
    let t = u64::trailing_zeros(v) as usize;
    if t < 64 {
        if v == 1u64 << t {
            return 63 - t;
        }
    }
    64
}

// Which of the `group` bits from bit `skip` on is the only one; or 64.
fn lone_at(v: u64, skip: usize, group: usize) -> usize
    requires { (1 ≤ group) × (skip + group ≤ 64) }
    ensures { result < group → (i : ℕ) → i < group → bit_of v (skip + i) ≡ bool (eqb i result) }
{
    let rest = 64 - group;
    single(((v << skip) >> rest) << rest)
}

// The forty slots from group s on, `per` groups: the symbols of those before the first that may be bad.
fn forty(
    order: usize,
    group: usize,
    per: usize,
    b: &[u8],
    from: usize,
    s: usize,
    row: &mut [u8],
) -> usize
    requires { Forty order group per b.now s × (from ≤ s) × (s + per ≤ from + length row.old) × Known order (symbol_in order group b.now) from (s - from) row.old }
    ensures { Reached order (symbol_in order group b.now) row.old from (s + per) result row.new }
{
    let v = bits::packing::eight(b, s * group / 8);
    crate::fill(
        order,
        |k| lone_at(v, (k - s) * group, group),
        from,
        s,
        s + per,
        row,
    )
}

// The groups from `from` on up to `to`, forty slots at a time: the symbols of those before the first that may be bad.
pub fn forties(
    order: usize,
    group: usize,
    per: usize,
    b: &[u8],
    from: usize,
    to: usize,
    row: &mut [u8],
) -> usize
    requires { Clear order group b.now from to × (per * group ≡ 40) × (to ≤ from + length row.old) }
    ensures { Reached order (symbol_in order group b.now) row.old from to result row.new }
{
    if from * group % 8 != 0 {
        return from;
    }
    let whole = (to - from) / per;
    for k in 0..whole {
        let s = from + per * k;
        let end = forty(order, group, per, b, from, s, row);
        if end < s + per {
            return end;
        }
    }
    from + per * whole
}
