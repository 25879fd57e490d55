// A list of fades: pairs of a first symbol and a length.
#![tactic(auto)]

ghost use Rattle.std.specs.Prelude.{◌≡◌, ◌+◌, ◌^◌, ◌<◌, leb};
ghost use Rattle.bits.specs.Basics.{both};
ghost use Rattle.fades.specs.Fades.{covered, list_good};
ghost use Rattle.fades_list.specs.Inner.{Left};

fn wide(x: u32) -> usize
    ensures { (result ≡ x) × (result < 2 ^ 32) }
{
    x as usize
}

// Whether a fade has a symbol, begins at `end` or after it, and lies in a run of n symbols.
fn fits(n: usize, end: usize, first: usize, size: usize) -> bool
    requires { (first < 2 ^ 32) × (size < 2 ^ 32) }
    ensures { result ≡ both (leb 1 size) (both (leb end first) (leb (first + size) n)) }
{
    size != 0 && end <= first && first + size <= n
}

// Question 22: whether the fades of a list are in order in a run of n symbols.
pub fn good(n: usize, fades: &[u32]) -> bool
    ensures { result ≡ list_good n fades.now }
{
    let mut end = 0;
    let mut rest = fades;
    while let [first, size, after @ ..] = rest {
        let first = wide(*first);
        let size = wide(*size);
        if !fits(n, end, first, size) {
            return false;
        }
        end = first + size;
        rest = after;
    }
    rest.is_empty()
}

// Whether symbol s is in a fade, given that those before number i of the list have ended.
pub fn reached(fades: &[u32], i: usize, s: usize) -> bool
    requires { Left fades.now i s }
    ensures { result ≡ covered fades.now s }
{
    i < fades.len() && wide(fades[i]) <= s
}

// The number in the list of the first fade that has not ended before symbol s + 1.
pub fn past(fades: &[u32], i: usize, s: usize) -> usize
    requires { Left fades.now i s × (s < 2 ^ 32) }
    ensures { Left fades.now result (s + 1) }
{
    if i >= fades.len() {
        return i;
    }
    if wide(fades[i]) + wide(fades[i + 1]) > s + 1 {
        return i;
    }
    i + 2
}
