// Slots as numbers of 64 bits: the next pulse, and how far two rows of slots agree.
#![tactic(auto)]

ghost use Rattle.std.specs.Prelude.{◌≡◌, ◌+◌, ◌<◌, length};
ghost use Rattle.bits.specs.Pack.{val, cut, first_set};
ghost use Rattle.bits.specs.Inner.{bits_from};
ghost use Rattle.pattern_look.specs.Inner.{shows, Sees, Looks, Agrees};
ghost use Rattle.pattern_empty.specs.Inner.{Scans};

use pattern_empty::past_empty;

// The slots from slot y on as the first bits of a number: those of eight bytes, near the end of the last eight.
fn look(b: &[u8], y: usize) -> u64
    requires { Sees b.now y }
    ensures { result ≡ val (cut (shows (length b.now) y) (bits_from b.now y)) 64 }
{
    let i = (y / 8).min(b.len() - 8);
    bits::packing::eight(b, i) << (y - 8 * i)
}

// How many of them it shows.
fn shown(b: &[u8], y: usize) -> usize
    requires { Sees b.now y }
    ensures { result ≡ shows (length b.now) y }
{
    let i = (y / 8).min(b.len() - 8);
    64 - (y - 8 * i)
}

// The first pulse from slot x on, or the end. From the start of a byte it takes eight whole bytes at a time, which needs no shift; and where 128 of
// them are empty, it passes empty bytes 128 at a time.
fn further(b: &[u8], x: usize, end: usize) -> usize
    requires { Scans b.now x end }
    ensures { result ≡ first_set b.now x end }
{
    if x % 8 != 0 {
        return bits::scan::first_one(b, x, end);
    }
    let from = x / 8;
    let eights = (end / 8 - from).min(128) / 8;
    for k in 0..eights {
        let i = from + 8 * k;
        let v = bits::packing::eight(b, i);
        if v != 0 {
            return 8 * i + bits::scan::leading(v);
        }
    }
    let rest = past_empty(b, 8 * (from + 8 * eights), end);
    bits::scan::first_one(b, rest, end)
}

// The same. The first look is taken here, since where pulses are dense it shows one.
pub fn pulse_from(b: &[u8], x: usize, end: usize) -> usize
    requires { Scans b.now x end }
    ensures { result ≡ first_set b.now x end }
{
    if x >= end {
        return x;
    }
    let v = look(b, x);
    if v != 0 {
        return x + bits::scan::leading(v).min(end - x);
    }
    further(b, x + shown(b, x).min(end - x), end)
}

// How many slots from y on are as the marker's from slot i on: as far as one look goes, and not past its n slots.
pub fn right_from(b: &[u8], y: usize, marker: &[u8], i: usize, n: usize) -> usize
    requires { Looks b.now y marker.now i n }
    ensures { Agrees b.now y marker.now i n result }
{
    let seen = shown(b, y).min(shown(marker, i));
    let most = seen.min(n - i);
    let v = look(b, y) ^ look(marker, i);
    if v != 0 {
        return bits::scan::leading(v).min(most);
    }
    most
}
