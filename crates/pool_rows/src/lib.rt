// Question 10 of a stretch of symbols that are sent several times in a row, and the symbols in it, a byte to a
// symbol.
#![tactic(auto)]

mod near;

ghost use Rattle.std.specs.Prelude.{◌≡◌, ℕ, ◌+◌, ◌-◌, ◌*◌, ◌^◌, ◌≤◌, ◌<◌, length};
ghost use Rattle.bits.specs.Basics.{up_to};
ghost use Rattle.bits.specs.Inner.{Filled};
ghost use Rattle.pool.specs.Inner.{Sent};
ghost use Rattle.pool.specs.Pooled.{pooled, decided};
ghost use Rattle.pulses_rows.specs.Inner.{Known, Reached};
ghost use Rattle.pool_rows.specs.Inner.{Ahead};

// The first symbol from s on whose copies do not decide on one, or `to`, where those from `from` on up to s are in
// the row already; and where there is none, the symbols. Symbol after symbol.
fn singly(
    b: &[u8],
    copies: usize,
    group: usize,
    order: usize,
    from: usize,
    s: usize,
    to: usize,
    row: &mut [u8],
) -> usize
    requires { Sent order group copies to b.now × (from ≤ s) × (s ≤ to) × (to ≤ from + length row.old) × Known order (pooled b.now copies group order) from (s - from) row.old }
    ensures value { result ≡ up_to (decided b.now copies group order) from to }
    ensures filled { to ≤ result → Filled (λ i. pooled b.now copies group order (from + i)) row.new (to - from) }
    ensures row_len_unchanged { length row.new ≡ length row.old }
{
    pulses_rows::fill(
        order,
        |k| pool::pooled(b, copies, group, order, k),
        from,
        s,
        to,
        row,
    )
}

// Symbol s too, if its copies decide on one and it is before `to`.
fn exact(
    b: &[u8],
    copies: usize,
    group: usize,
    order: usize,
    from: usize,
    s: usize,
    to: usize,
    row: &mut [u8],
) -> usize
    requires { Sent order group copies to b.now × (from ≤ s) × (s ≤ to) × (to ≤ from + length row.old) × Known order (pooled b.now copies group order) from (s - from) row.old }
    ensures { Reached order (pooled b.now copies group order) row.old from to result row.new }
{
    pulses_rows::fill(
        order,
        |k| pool::pooled(b, copies, group, order, k),
        from,
        s,
        s + (to - s).min(1),
        row,
    )
}

// The symbols from `from` on, up to the first whose copies do not decide on one, or `to`. Pulses are counted only
// where no slot is seen to lead.
fn ahead(
    b: &[u8],
    copies: usize,
    group: usize,
    order: usize,
    from: usize,
    to: usize,
    row: &mut [u8],
) -> usize
    requires { Sent order group copies to b.now × (from < to → Ahead group copies b.now to) × (from ≤ to) × (to ≤ from + length row.old) }
    ensures { Reached order (pooled b.now copies group order) row.old from to result row.new }
{
    let mut s = from;
    // Not a `for`: s goes on to where the symbols that are seen at once stop.
    while s < to {
        let k = near::near_row(b, copies, group, order, from, s, to, row);
        s = exact(b, copies, group, order, from, k, to, row);
        if s <= k {
            return s;
        }
    }
    s
}

// Up to which of the symbols from `from` on at least eight bytes follow; `from` where a copy has more than forty
// slots.
fn near_end(b: &[u8], copies: usize, group: usize, from: usize, to: usize) -> usize
    requires { (4 ≤ group) × (copies ≤ 32) × (from ≤ to) × (to * (copies * group) ≤ 8 * length b.now) × (to * (copies * group) < 2 ^ 36) }
    ensures { (from ≤ result) × (result ≤ to) × (from < result → Ahead group copies b.now result) }
{
    if group > 40 {
        return from;
    }
    if copies == 0 {
        return from;
    }
    pulses_rows::clear_end(copies * group, b, from, to)
}

// Question 10: the first symbol from `from` on whose copies do not decide on one, or `to`; and where there is none,
// the symbols.
pub fn row_out(
    b: &[u8],
    copies: usize,
    group: usize,
    order: usize,
    from: usize,
    to: usize,
    row: &mut [u8],
) -> usize
    requires { Sent order group copies to b.now × (from ≤ to) × (to ≤ from + length row.old) }
    ensures value { result ≡ up_to (decided b.now copies group order) from to }
    ensures filled { to ≤ result → Filled (λ i. pooled b.now copies group order (from + i)) row.new (to - from) }
    ensures row_len_unchanged { length row.new ≡ length row.old }
{
    let end = near_end(b, copies, group, from, to);
    let s = ahead(b, copies, group, order, from, end, row);
    singly(b, copies, group, order, from, s, to, row)
}
