// Symbols that are sent several times in a row, pooled: question 10 over the copies.
#![tactic(auto)]

mod alone;
mod counts;
mod joined;

ghost use Rattle.std.specs.Prelude.{◌≡◌, ◌+◌};
ghost use Rattle.pool.specs.Inner.{Sent};
ghost use Rattle.pool.specs.Pooled.{pooled};

// Symbol s, or M where the copies do not decide on one.
pub fn pooled(b: &[u8], copies: usize, group: usize, order: usize, s: usize) -> usize
    requires { Sent order group copies (s + 1) b.now }
    ensures { result ≡ pooled b.now copies group order s }
{
    let q = alone::alone(b, copies, group, s);
    if q < order {
        return q;
    }
    counts::counted(b, copies, group, s).min(order)
}
