// Question 12, and the words: a place that is hit has a symbol of theirs, and the others hold 0. The symbols are in a row of bytes.
#![tactic(auto)]

ghost use Rattle.std.specs.Prelude.{◌≡◌, true, List, ℕ, ◌+◌, ◌-◌, ◌*◌, ◌≤◌, ◌<◌};
ghost use Rattle.bits.specs.Basics.{bool};
ghost use Rattle.channel.specs.Channel.{unit, total};
ghost use Rattle.channel.specs.Inner.{Puts, delay};
ghost use Rattle.plan.specs.Inner.{Fine};
ghost use Rattle.slots_residues.specs.Inner.{Room};
ghost use Rattle.slots_symbols.specs.Inner.{Row};
ghost use Rattle.slots_places.specs.Inner.{Stretch, Placed, Tells, Known};

// Takes symbol q, of m bits, at place x, which a symbol delayed by `delay` would hit: puts it into the words if it is one of theirs, and returns
// whether it is right.
fn take_place(total: usize, m: usize, x: usize, delay: usize, q: usize, words: &mut [u8]) -> bool
    requires { (t : ℕ) → t < total → Puts t m q words.old }
    ensures { Placed total m x delay q words.old (bool result) words.new }
{
    if x < delay || total <= x - delay {
        return q == 0;
    }
    channel::put_symbol(words, x - delay, m, q);
    true
}

// Symbols of a line, from `from` on up to `to`, in a row that has the symbols from `base` on.
#[derive(Clone, Copy)]
struct Part {
    base: usize,
    line: usize,
    from: usize,
    to: usize,
}

// The first symbol of the part that is at a place that is not hit and is not 0; or `to`.
fn take_in(p: plan::Plan, row: &[u8], part: Part, words: &mut [u8]) -> usize
    requires { Stretch p part.base part.from part.to row.now × (part.line < p.layout.lines) × (part.line * unit p.layout ≤ part.from) × (part.to ≤ part.line * unit p.layout + unit p.layout) × Room p words.old }
    ensures { Tells p row.now part.base part.from part.to words.old result words.new }
{
    let symbols = p.layout.symbols;
    let markers = p.layout.markers;
    let rows = p.layout.rows;
    let total = p.layout.words * symbols;
    let back = p.layout.step * rows;
    let wrap = rows * back;
    let skip = part.line * markers + markers;
    let first = part.from.max(part.line * symbols + skip);
    let mut delay = (first - skip) % rows * back;
    for s in first..part.to {
        let q = row[s - part.base] as usize;
        if !take_place(total, p.bits, s - skip, delay, q, words) {
            return s;
        }
        delay = slots_residues::next_delay(delay, back, wrap);
    }
    part.to
}

// Whether all places from x up to y are hit, and there are at least two of each residue.
fn full(p: plan::Plan, x: usize, y: usize) -> bool
    requires { Fine p × (x ≤ y) }
    ensures { result ≡ true → (x < y) × (delay p.layout (p.layout.rows - 1) ≤ x) × (y ≤ total p.layout) }
{
    let rows = p.layout.rows;
    y - x >= 2 * rows
        && x >= (rows - 1) * (p.layout.step * rows)
        && y <= p.layout.words * p.layout.symbols
}

// As `take_in`; where all places are hit, none is wrong.
fn take_line(p: plan::Plan, row: &[u8], part: Part, words: &mut [u8]) -> usize
    requires { Stretch p part.base part.from part.to row.now × (part.line < p.layout.lines) × (part.line * unit p.layout ≤ part.from) × (part.to ≤ part.line * unit p.layout + unit p.layout) × Room p words.old }
    ensures { Tells p row.now part.base part.from part.to words.old result words.new }
{
    let markers = p.layout.markers;
    let skip = part.line * markers + markers;
    let s = part.from.max(part.line * p.layout.symbols + skip);
    let end = s.max(part.to);
    if full(p, s - skip, end - skip) {
        slots_flat::take_full(p, row, s - part.base, end - part.base, s - skip, words);
        return part.to;
    }
    take_in(p, row, part, words)
}

// The same for symbols of one line or two.
fn take(p: plan::Plan, row: &[u8], from: usize, to: usize, words: &mut [u8]) -> usize
    requires { Stretch p from from to row.now × (from < to) × Room p words.old }
    ensures { Tells p row.now from from to words.old result words.new }
{
    let unit = p.layout.symbols + p.layout.markers;
    let line = from / unit;
    let end = line * unit + unit;
    let mid = to.min(end);
    let first = Part {
        base: from,
        line,
        from,
        to: mid,
    };
    let r = take_line(p, row, first, words);
    if r < mid {
        return r;
    }
    if mid < to {
        let second = Part {
            base: from,
            line: line + 1,
            from: mid,
            to,
        };
        return take_line(p, row, second, words);
    }
    to
}

// The first wrong place, as known once these symbols have been looked at too. Where one is wrong, the words no longer matter.
pub fn rest_after(
    p: plan::Plan,
    row: &[u8],
    from: usize,
    to: usize,
    rest: usize,
    words: &mut [u8],
) -> usize
    requires { Stretch p from from to row.now × (from < to) × Room p words.old }
    ensures { (b : List ℕ) → Row p b from to row.now → Known p b from rest words.old → Known p b to result words.new }
{
    let n = p.layout.lines * (p.layout.symbols + p.layout.markers);
    if rest < n {
        return rest;
    }
    let r = take(p, row, from, to, words);
    if r < to {
        return r;
    }
    n
}
