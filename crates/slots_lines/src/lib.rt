// Steps 8 and 9, the symbols of a line and the markers before it: their pulses are moved, residue by residue modulo N.
#![tactic(auto)]

ghost use Rattle.std.specs.Prelude.{◌≡◌, ℕ, ◌+◌, ◌*◌, ◌%◌, ◌^◌, ◌≤◌, ◌<◌, List, length};
ghost use Rattle.plan.specs.Inner.{Fine, slot_bytes};
ghost use Rattle.bits.specs.Pack.{piece};
ghost use Rattle.channel.specs.Channel.{unit};
ghost use Rattle.sizes.specs.Sizes.{word_bytes};
ghost use Rattle.slots.specs.Inner.{Lent};
ghost use Rattle.slots_moves.specs.Inner.{Holds, front};
ghost use Rattle.slots_lines.specs.Inner.{LinePut, Residue, stride, so_far};

use plan::Plan;

// The pulses of the marker symbols before a line.
pub fn put_marks(p: Plan, line: usize, slots: &mut [u8])
    requires { Fine p × (line < p.layout.lines) × (length slots.old ≡ slot_bytes p) }
    ensures { (word : ℕ → List ℕ) (end : ℕ) → Holds p (front p word (line * unit p.layout)) end slots.old → Holds p (front p word (line * unit p.layout + p.layout.markers)) end slots.new }
{
    let copies = p.copies;
    let group = p.group;
    let markers = p.layout.markers;
    let first = line * (p.layout.symbols + markers);
    for k in 0..markers {
        let mark = p.marks[k] as usize;
        slots_moves::move_symbol(copies, group, first + k, mark, slots);
    }
}

// Places N apart have one delay. Where N is 1, every eighth place is taken, as neighbours share a byte.
fn stride_of(rows: usize) -> usize
    ensures { result ≡ stride rows }
{
    if rows == 1 { 8 } else { rows }
}

// Step 9, the places of a line that are r modulo the stride: from the first that is hit, symbol after symbol. They are counted with markers,
// which `skip` stand in front of.
fn put_residue(p: Plan, words: &[u8], line: usize, c: usize, r: usize, slots: &mut [u8])
    requires { Lent p words.now slots.old × Residue p line c r }
    ensures { (end : ℕ) → Holds p (so_far p (piece word_bytes words.now) line r 0) end slots.old → Holds p (so_far p (piece word_bytes words.now) line (r + 1) 0) end slots.new }
{
    let rows = p.layout.rows;
    let symbols = p.layout.symbols;
    let copies = p.copies;
    let group = p.group;
    let markers = p.layout.markers;
    let step = p.layout.step;
    let all = p.layout.words * symbols;
    let start = line * symbols;
    let skip = line * markers + markers;
    let delay = r % rows * (step * rows);
    let end = (start + symbols).min(delay + all);
    let n = stride_of(rows);
    let back = skip + delay;
    let last = skip + end;
    let first = skip + channel::first_place(start, c, r, n).max(delay + r);
    for s in (first..last).step_by(n) {
        let q = channel::data_at(words, s - back, p.bits);
        slots_moves::move_symbol(copies, group, s, q, slots);
    }
}

// Residues below this one have had all their symbols before place `start`.
pub fn residues_from(rows: usize, step: usize, total: usize, start: usize) -> usize
    requires { (rows ≤ 128) × (step ≤ 256) × (start < 2 ^ 32) }
    ensures { (r : ℕ) → r < result → r % rows * (step * rows) + total ≤ start }
{
    if start < total {
        return 0;
    }
    (start - total) / (step * rows).max(1) + 1
}

// Residues from this one on, below n, have none before place `end`.
pub fn residues_to(rows: usize, step: usize, end: usize, n: usize) -> usize
    requires { (rows ≤ 128) × (step ≤ 256) × (1 ≤ end) }
    ensures { (result ≤ n) × ((r : ℕ) → result ≤ r → r < n → end ≤ r % rows * (step * rows)) }
{
    let back = step * rows;
    if n != rows || back == 0 {
        return n;
    }
    n.min((end - 1) / back + 1)
}

// The pulses of a line's symbols. Most residues of a long run have none in it.
pub fn put_residues(p: Plan, words: &[u8], line: usize, slots: &mut [u8])
    requires { Lent p words.now slots.old × (line < p.layout.lines) }
    ensures { LinePut p (piece word_bytes words.now) line slots.old slots.new }
{
    let rows = p.layout.rows;
    let step = p.layout.step;
    let symbols = p.layout.symbols;
    let n = stride_of(rows);
    let start = line * symbols;
    let c = start % n;
    let to = residues_to(rows, step, start + symbols, n);
    let from = residues_from(rows, step, p.layout.words * symbols, start);
    for r in from.min(to)..to {
        put_residue(p, words, line, c, r, slots);
    }
}
