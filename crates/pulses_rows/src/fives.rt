// Groups of five slots, eight of them in forty: every fifth bit of a number is one slot of each, and no branch
// depends on a symbol.
ghost use Rattle.std.specs.Prelude.{◌≡◌, ℕ, ◌+◌, ◌-◌, ◌*◌, ◌≤◌, ◌<◌, length};
ghost use Rattle.std.specs.Int.Bits.{bit_or};
ghost use Rattle.pulses.specs.Pulses.{symbol_in};
ghost use Rattle.pulses_rows.specs.Inner.{Known, Reached, Forty, Clear, digit, Single, five_of, Fives};

// 0 only where each of eight groups has one pulse, and that not in the guard slot: an odd number of pulses in its
// first four slots, and not both of the first two, nor both of the others.
fn bad_fives(v: u64) -> u64
    ensures { result ≡ 0 → (k : ℕ) → k < 8 → Single (digit v (5 * k + 4)) (digit v (5 * k + 3)) (digit v (5 * k + 2)) (digit v (5 * k + 1)) (digit v (5 * k)) }
{
    (((v >> 4) ^ (v >> 3) ^ (v >> 2) ^ (v >> 1) ^ 0x08_4210_8421u64)
        | ((v >> 4) & (v >> 3))
        | ((v >> 2) & (v >> 1))
        | v)
        & 0x08_4210_8421u64
}

// The symbols of eight groups that have one each, as every fifth two bits of a number.
fn in_fives(v: u64) -> u64
    ensures { (k : ℕ) → k < 8 → five_of result k ≡ 2 * bit_or (digit v (5 * k + 2)) (digit v (5 * k + 1)) + bit_or (digit v (5 * k + 3)) (digit v (5 * k + 1)) }
{
    (((v >> 1) | v) & 0x10_8421_0842u64) | (((v >> 3) | (v >> 1)) & 0x08_4210_8421u64)
}

// Eight symbols from place `at` on.
fn put_fives(row: &mut [u8], at: usize, w: u64)
    requires { at + 8 ≤ length row.old }
    ensures { Fives row.old at 8 w row.new }
{
    for k in 0..8 {
        row[at + k] = ((w >> (35 - 5 * k)) & 3) as u8;
    }
}

// The eight groups from s on: their symbols, if all have one.
fn eight_fives(b: &[u8], from: usize, s: usize, row: &mut [u8]) -> usize
    requires { Forty 4 5 8 b.now s × (from ≤ s) × (s + 8 ≤ from + length row.old) × Known 4 (symbol_in 4 5 b.now) from (s - from) row.old }
    ensures { Reached 4 (symbol_in 4 5 b.now) row.old from (s + 8) result row.new }
{
    let v = bits::packing::eight(b, s * 5 / 8) >> 24;
    put_fives(row, s - from, in_fives(v));
    if bad_fives(v) == 0 {
        return s + 8;
    }
    s
}

// The groups from `from` on up to `to`, eight at a time: the symbols of those before eight of which one is bad.
pub fn fives(b: &[u8], from: usize, to: usize, row: &mut [u8]) -> usize
    requires { Clear 4 5 b.now from to × (to ≤ from + length row.old) }
    ensures { Reached 4 (symbol_in 4 5 b.now) row.old from to result row.new }
{
    if from * 5 % 8 != 0 {
        return from;
    }
    let eights = (to - from) / 8;
    for k in 0..eights {
        let s = from + 8 * k;
        let end = eight_fives(b, from, s, row);
        if end < s + 8 {
            return end;
        }
    }
    from + 8 * eights
}
