// A marker looked for among packed bits: one starting slot after another.
#![tactic(auto)]

ghost use Rattle.std.specs.Prelude.{◌≡◌};
ghost use Rattle.bits.specs.Basics.{up_to};
ghost use Rattle.bits.specs.Pack.{bit_at};
ghost use Rattle.pattern_search.specs.Starts.{missed};
ghost use Rattle.pattern_search.specs.Inner.{Passes, Next, Begins, Candidates};

// A marker has n slots, with pulses at `first` and at `last`.
#[derive(Clone, Copy)]
pub struct Marker {
    pub n: usize,
    pub first: usize,
    pub last: usize,
}

// The next start from x on that has pulses where the marker has its first and its last; or `end`. Those that are passed are wrong there.
fn next_start(b: &[u8], m: Marker, x: usize, end: usize) -> usize
    requires { Passes b.now x m.first m.last end }
    ensures { Next b.now m.first m.last x end result }
{
    let mut at = pattern_look::pulse_from(b, x + m.first, end + m.first) - m.first;
    // Not a `for`: a start goes on to the next one that a pulse allows.
    while at < end {
        if bits::packing::bit_at(b, at + m.last) != 0 {
            return at;
        }
        at = pattern_look::pulse_from(b, at + 1 + m.first, end + m.first) - m.first;
    }
    at
}

// The earliest start, of those from `from` to below `end`, at which the marker's n slots stand; or `end`. A start is left at its first wrong slot.
fn first_start(b: &[u8], slots: &[u8], m: Marker, from: usize, end: usize) -> usize
    requires { Candidates b.now slots.now m.n m.first m.last from end }
    ensures { result ≡ up_to (missed (bit_at slots.now) m.n b.now) from end }
{
    let mut x = next_start(b, m, from, end);
    // Nor here, and i goes on by as many slots as were compared.
    'start: while x < end {
        let mut i = 0usize;
        while i < m.n {
            let right = pattern_look::right_from(b, x + i, slots, i, m.n);
            if right == 0 {
                x = next_start(b, m, x + 1, end);
                continue 'start;
            }
            i += right;
        }
        return x;
    }
    end
}

// The same of any capture: one of less than eight bytes is looked at with zeros after it.
pub fn first_any(b: &[u8], slots: &[u8], m: Marker, from: usize, end: usize) -> usize
    requires { Begins b.now slots.now m.n m.first m.last from end }
    ensures { result ≡ up_to (missed (bit_at slots.now) m.n b.now) from end }
{
    if b.len() < 8 {
        let mut room = [0u8; 8];
        room[..b.len()].copy_from_slice(b);
        return first_start(&room, slots, m, from, end);
    }
    first_start(b, slots, m, from, end)
}
