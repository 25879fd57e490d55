// Question 10 of a stretch of groups, and the symbols in it, a byte to a symbol. Up to M = 64 each group is read
// once.
#![tactic(auto)]

mod eighties;
mod fives;
pub mod forties;

ghost use Rattle.std.specs.Prelude.{◌≡◌, ℕ, ◌+◌, ◌-◌, ◌*◌, ◌^◌, ◌≤◌, ◌<◌, length};
ghost use Rattle.bits.specs.Basics.{up_to};
ghost use Rattle.bits.specs.Inner.{Filled};
ghost use Rattle.pulses.specs.Inner.{Slots};
ghost use Rattle.pulses.specs.Pulses.{symbol_in, grouped};
ghost use Rattle.pulses_rows.specs.Inner.{Known, Reached, Clear};

// Symbols asked for one after another: where those from `from` on up to s are in the row, those from s on go into it too, up to the first
// that is not below M, or `to`.
pub fn fill<F: Fn(usize) -> usize>(
    order: usize,
    symbol: F,
    from: usize,
    s: usize,
    to: usize,
    row: &mut [u8],
) -> usize
    requires callable { (k : ℕ) → s ≤ k → k < to → F.pre symbol k }
    requires room { (order ≤ 256) × (from ≤ s) × (s ≤ to) × (to ≤ from + length row.old) }
    ensures reached { (f : ℕ → ℕ) → ((k q : ℕ) → s ≤ k → k < to → F.post symbol k q → q < order → f k ≡ q) → Known order f from (s - from) row.old → Reached order f row.old from to result row.new }
    ensures within { (s ≤ result) × (result ≤ to) }
    ensures stops { result < to → (q : ℕ) × F.post symbol result q × (order ≤ q) }
    ensures row_len_unchanged { length row.new ≡ length row.old }
{
    for k in s..to {
        let q = symbol(k);
        if q >= order {
            return k;
        }
        row[k - from] = (q & 255) as u8;
    }
    to
}

// The first bad group from s on, or `to`, where those from `from` on up to s are in the row already; and where
// there is none, the symbols. Group after group, slot by slot.
fn singly(
    order: usize,
    group: usize,
    b: &[u8],
    from: usize,
    s: usize,
    to: usize,
    row: &mut [u8],
) -> usize
    requires { Slots order group to b.now × (from ≤ s) × (s ≤ to) × (to ≤ from + length row.old) × Known order (symbol_in order group b.now) from (s - from) row.old }
    ensures value { result ≡ up_to (grouped order group b.now) from to }
    ensures filled { to ≤ result → Filled (λ i. symbol_in order group b.now (from + i)) row.new (to - from) }
    ensures row_len_unchanged { length row.new ≡ length row.old }
{
    fill(
        order,
        |k| pulses::symbol_in(order, group, b, k),
        from,
        s,
        to,
        row,
    )
}

// Up to which of the groups, or symbols, from `from` on at least eight bytes follow; `from` where that is not known.
pub fn clear_end(size: usize, b: &[u8], from: usize, to: usize) -> usize
    requires { (4 ≤ size) × (from ≤ to) × (to * size ≤ 8 * length b.now) × (to * size < 2 ^ 36) }
    ensures { (from ≤ result) × (result ≤ to) × (from < result → result * size + 64 ≤ 8 * length b.now) }
{
    if to * size / 8 + 8 < b.len() {
        return to;
    }
    to - (to - from).min(16)
}

// The symbols of groups that all have one. Not by `fill`, whose test would make each step wait for the symbol.
fn seen_row(order: usize, group: usize, b: &[u8], from: usize, to: usize, row: &mut [u8]) -> usize
    requires { Slots order group to b.now × (from ≤ to) × (to ≤ from + length row.old) × ((s : ℕ) → from ≤ s → s < to → symbol_in order group b.now s < order) }
    ensures { Reached order (symbol_in order group b.now) row.old from to result row.new }
{
    for s in from..to {
        row[s - from] = (pulses::numbers::seen(order, group, b, s) & 255) as u8;
    }
    to
}

// The symbols of the groups from `from` on up to `to`, or none.
fn good_row(order: usize, group: usize, b: &[u8], from: usize, to: usize, row: &mut [u8]) -> usize
    requires { Slots order group to b.now × Clear order group b.now from to × (to ≤ from + length row.old) }
    ensures { Reached order (symbol_in order group b.now) row.old from to result row.new }
{
    if from >= to {
        return from;
    }
    if pulses::numbers::all_good(order, group, b, from, to) {
        return seen_row(order, group, b, from, to, row);
    }
    from
}

// The symbols of groups from `from` on: of none that may be bad, and not necessarily of all before it.
fn ahead(order: usize, group: usize, b: &[u8], from: usize, to: usize, row: &mut [u8]) -> usize
    requires { Slots order group to b.now × Clear order group b.now from to × (to ≤ from + length row.old) }
    ensures { Reached order (symbol_in order group b.now) row.old from to result row.new }
{
    if group == 5 {
        return fives::fives(b, from, to, row);
    }
    if group == 10 {
        return forties::forties(8, 10, 4, b, from, to, row);
    }
    if group == 20 {
        return forties::forties(16, 20, 2, b, from, to, row);
    }
    if group == 40 {
        return forties::forties(32, 40, 1, b, from, to, row);
    }
    if group == 80 {
        return eighties::eighties(b, from, to, row);
    }
    good_row(order, group, b, from, to, row)
}

// Question 10: the first bad group from `from` on, or `to`; and where there is none, the symbols.
pub fn row_out(
    order: usize,
    group: usize,
    b: &[u8],
    from: usize,
    to: usize,
    row: &mut [u8],
) -> usize
    requires { Slots order group to b.now × (from ≤ to) × (to ≤ from + length row.old) }
    ensures value { result ≡ up_to (grouped order group b.now) from to }
    ensures filled { to ≤ result → Filled (λ i. symbol_in order group b.now (from + i)) row.new (to - from) }
    ensures row_len_unchanged { length row.new ≡ length row.old }
{
    let end = clear_end(group, b, from, to);
    let s = ahead(order, group, b, from, end, row);
    singly(order, group, b, from, s, to, row)
}
