// Symbols, pooled over their copies, and question 11 of the marker symbols. A symbol that is sent once is the only pulse of its group, and there are
// faster ways to that.
#![tactic(auto)]

ghost use Rattle.std.specs.Prelude.{◌≡◌, ◌≤◌, ◌<◌, ◌+◌, ◌*◌, eqb, length};
ghost use Rattle.bits.specs.Basics.{up_to};
ghost use Rattle.channel.specs.Channel.{layout_symbols, unit, mark_right};
ghost use Rattle.slots.specs.Inner.{RunSlots, decided_in};
ghost use Rattle.slots_symbols.specs.Inner.{Decided, Grouped, Row};
ghost use Rattle.slots.specs.Reading.{pooled_in, first_bad_mark};

// Question 10: the first symbol from `from` on that is not decided, or `to`; and where there is none, the symbols, each read once, into a byte of
// the row.
pub fn row_out(p: plan::Plan, b: &[u8], from: usize, to: usize, row: &mut [u8]) -> usize
    requires { RunSlots p b.now × (from ≤ to) × (to ≤ layout_symbols p.layout) × (to ≤ from + length row.old) }
    ensures value { result ≡ up_to (decided_in p b.now) from to }
    ensures row { to ≤ result → Row p b.now from to row.new }
{
    if p.copies == 1 {
        return pulses_rows::row_out(p.order, p.group, b, from, to, row);
    }
    pool_rows::row_out(b, p.copies, p.group, p.order, from, to, row)
}

// Whether symbol s is q. Of a symbol that is sent once, the slot of q tells.
pub fn is_symbol(p: plan::Plan, b: &[u8], s: usize, q: usize) -> bool
    requires { Decided p b.now s × (q < p.group) }
    ensures { result ≡ eqb q (pooled_in p b.now s) }
{
    if p.copies == 1 {
        return bits::packing::bit_at(b, s * p.group + q) == 1;
    }
    q == pool::pooled(b, p.copies, p.group, p.order, s)
}

// ---- question 11

// Whether marker symbol w of a line is right.
fn mark_right(p: plan::Plan, b: &[u8], line: usize, w: usize) -> bool
    requires { Grouped p b.now × (line < p.layout.lines) × (w < p.layout.markers) }
    ensures { result ≡ mark_right p.layout p.marks (pooled_in p b.now) (line * unit p.layout + w) }
{
    let s = line * (p.layout.symbols + p.layout.markers) + w;
    let q = p.marks[w] as usize;
    is_symbol(p, b, s, q)
}

// The first wrong marker symbol of a line, or the symbol after them.
fn bad_mark_in(p: plan::Plan, b: &[u8], line: usize) -> usize
    requires { Grouped p b.now × (line < p.layout.lines) }
    ensures { result ≡ up_to (mark_right p.layout p.marks (pooled_in p b.now)) (line * unit p.layout) (line * unit p.layout + p.layout.markers) }
{
    let first = line * (p.layout.symbols + p.layout.markers);
    let markers = p.layout.markers;
    for w in 0..markers {
        if !mark_right(p, b, line, w) {
            return first + w;
        }
    }
    first + markers
}

// Question 11.
pub fn first_bad_mark(p: plan::Plan, b: &[u8]) -> usize
    requires { Grouped p b.now }
    ensures { result ≡ first_bad_mark p b.now }
{
    let unit = p.layout.symbols + p.layout.markers;
    let markers = p.layout.markers;
    let lines = p.layout.lines;
    for line in 0..lines {
        let s = bad_mark_in(p, b, line);
        if s < line * unit + markers {
            return s;
        }
    }
    lines * unit
}
