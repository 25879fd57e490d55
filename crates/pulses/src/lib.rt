// The pulses of symbols: slots back to symbols, with question 10. A symbol below M is M slots with one pulse, followed by M/4 guard slots.
#![tactic(auto)]

pub mod groups;
pub mod numbers;

ghost use Rattle.std.specs.Prelude.{◌≡◌, ◌<◌};
ghost use Rattle.pulses.specs.Inner.{Held};
ghost use Rattle.pulses.specs.Pulses.{symbol_in};

// The symbol of group s, or M where it has none.
pub fn symbol_in(order: usize, group: usize, b: &[u8], s: usize) -> usize
    requires { Held order group b.now s }
    ensures { result ≡ symbol_in order group b.now s }
{
    let x = s * group;
    let end = x + group;
    let guard = x + order;
    let q = bits::scan::first_one(b, x, end);
    if q < guard {
        if bits::scan::first_one(b, q + 1, end) == end {
            return q - x;
        }
    }
    order
}

// The symbol of group s, given that it has one.
pub fn symbol_there(order: usize, group: usize, b: &[u8], s: usize) -> usize
    requires { Held order group b.now s × (symbol_in order group b.now s < order) }
    ensures { result ≡ symbol_in order group b.now s }
{
    let x = s * group;
    bits::scan::first_one(b, x, x + order) - x
}
