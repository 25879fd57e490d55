// Groups of eighty slots, ten bytes each: 64 slots as one number, and two bytes of guard slots.
ghost use Rattle.std.specs.Prelude.{◌≡◌, ℕ, ◌+◌, ◌*◌, ◌≤◌, ◌<◌, length};
ghost use Rattle.pulses.specs.Pulses.{symbol_in};
ghost use Rattle.pulses_rows.specs.Inner.{Reached, Clear};

// The symbol of group s; or 64, where it may have none.
fn eighty(b: &[u8], s: usize) -> usize
    requires { 10 * s + 10 ≤ length b.now }
    ensures { result < 64 → symbol_in 64 80 b.now s ≡ result }
{
    let at = 10 * s;
    if (b[at + 8] | b[at + 9]) != 0 {
        return 64;
    }
    crate::forties::single(bits::packing::eight(b, at))
}

// The groups from `from` on up to `to`: the symbols of those before the first that may be bad.
pub fn eighties(b: &[u8], from: usize, to: usize, row: &mut [u8]) -> usize
    requires { Clear 64 80 b.now from to × (to ≤ from + length row.old) }
    ensures { Reached 64 (symbol_in 64 80 b.now) row.old from to result row.new }
{
    crate::fill(64, |s| eighty(b, s), from, from, to, row)
}
