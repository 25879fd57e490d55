// The marker's slots, and the search for them.
#![tactic(auto)]

ghost use Rattle.std.specs.Prelude.{◌≡◌, ℕ, ◌+◌, ◌*◌, ◌<◌, get_or};
ghost use Rattle.bits.specs.Pack.{bit_at};
ghost use Rattle.plan.specs.Inner.{Fine};
ghost use Rattle.capture_search.specs.Search.{marker_slots, marker_slot, first_fit_from};
ghost use Rattle.capture_marker.specs.Inner.{Room, Seeks};

use pattern_search::Marker;
use plan::Plan;

// The slot of marker symbol w that has a pulse (step 10).
fn pulse_of(p: Plan, w: usize) -> usize
    requires { Fine p × (w < p.layout.markers) }
    ensures { result ≡ w * p.group + get_or p.marks w 0 }
{
    let group = p.group;
    w * group + p.marks[w] as usize
}

// Writes the slots of all marker symbols into empty ones.
fn put_marker(p: Plan, slots: &mut [u8])
    requires { Room p slots.old }
    ensures { (i : ℕ) → i < marker_slots p → bit_at slots.new i ≡ marker_slot p i }
{
    let markers = p.layout.markers;
    for w in 0..markers {
        bits::packing::put_bit(slots, pulse_of(p, w));
    }
}

// The earliest slot of a capture, from `from` to below `end`, at which the n slots of the marker begin, or `end`. The buffer holds 32 symbols of 320
// slots and eight more bytes, so that one look sees at least 57 slots.
pub fn first_fit(p: Plan, b: &[u8], n: usize, from: usize, end: usize) -> usize
    requires { Seeks p b.now n from end }
    ensures { result ≡ first_fit_from p b.now from }
{
    let first = pulse_of(p, 0);
    let last = pulse_of(p, p.layout.markers - 1);
    let mut slots = [0u8; 1288];
    put_marker(p, &mut slots);
    pattern_search::first_any(b, &slots, Marker { n, first, last }, from, end)
}
