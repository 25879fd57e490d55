// Steps 8 to 10 of a line whose symbols are short: they are gathered in a row, one to a byte, residue by residue modulo N, and laid forty slots at a time.
#![tactic(auto)]

ghost use Rattle.std.specs.Prelude.{◌≡◌, true, ℕ, ◌+◌, ◌-◌, ◌*◌, ◌%◌, ◌≤◌, ◌<◌};
ghost use Rattle.plan.specs.Inner.{Fine};
ghost use Rattle.bits.specs.Pack.{piece};
ghost use Rattle.channel.specs.Channel.{unit};
ghost use Rattle.channel.specs.Inner.{delay};
ghost use Rattle.sizes.specs.Sizes.{word_bytes};
ghost use Rattle.slots.specs.Inner.{Given, Lent};
ghost use Rattle.slots_units.specs.Inner.{per_forty};
ghost use Rattle.slots_lines.specs.Inner.{LinePut};
ghost use Rattle.slots_rows.specs.Inner.{RowTo};

use plan::Plan;
use slots_gather::Stride;

// Step 9, the places of a line that are r modulo N: from the first that is hit, symbol after symbol.
fn row_residue(p: Plan, words: &[u8], line: usize, c: usize, r: usize, row: &mut [u8])
    requires { Given p words.now × (line < p.layout.lines) × (c ≡ line * p.layout.symbols % p.layout.rows) × (r < p.layout.rows) × RowTo p (piece word_bytes words.now) line r row.old }
    ensures { RowTo p (piece word_bytes words.now) line (r + 1) row.new }
{
    let rows = p.layout.rows;
    let symbols = p.layout.symbols;
    let all = p.layout.words * symbols;
    let start = line * symbols;
    let delay = r * (p.layout.step * rows);
    let end = (start + symbols).min(delay + all);
    let x = channel::first_place(start, c, r, rows).max(delay + r);
    let to = Stride {
        from: x - start,
        n: rows,
        count: slots_gather::places(x, end, rows),
    };
    slots_gather::gather(words, x - delay, p.bits, row, to);
}

// The residues from `from` on up to `to`.
fn row_residues(p: Plan, words: &[u8], line: usize, from: usize, to: usize, row: &mut [u8])
    requires { Given p words.now × (line < p.layout.lines) × (from ≤ to) × (to ≤ p.layout.rows) × RowTo p (piece word_bytes words.now) line from row.old }
    ensures { RowTo p (piece word_bytes words.now) line to row.new }
{
    let c = line * p.layout.symbols % p.layout.rows;
    for r in from..to {
        row_residue(p, words, line, c, r, row);
    }
}

// The slots of a line, of whose residues those from `from` on up to `to` have places in it, by a row of zeros.
fn put_gathered(
    p: Plan,
    words: &[u8],
    line: usize,
    from: usize,
    to: usize,
    row: &mut [u8],
    slots: &mut [u8],
)
    requires { Lent p words.now slots.old × (line < p.layout.lines) × (from ≤ to) × (to ≤ p.layout.rows) × RowTo p (piece word_bytes words.now) line from row.old × ((r : ℕ) → to ≤ r → r < p.layout.rows → line * p.layout.symbols + p.layout.symbols ≤ delay p.layout (r % p.layout.rows)) × (1 ≤ per_forty (p.copies * p.group)) }
    ensures { LinePut p (piece word_bytes words.now) line slots.old slots.new }
{
    let symbols = p.layout.symbols;
    let markers = p.layout.markers;
    row_residues(p, words, line, from, to, row);
    slots_units::lay_row(p, row, symbols, line * (symbols + markers) + markers, slots);
}

fn put_row(p: Plan, words: &[u8], line: usize, from: usize, to: usize, slots: &mut [u8])
    requires { Lent p words.now slots.old × (line < p.layout.lines) × (from ≤ to) × (to ≤ p.layout.rows) × ((r : ℕ) → r < from → delay p.layout (r % p.layout.rows) + p.layout.words * p.layout.symbols ≤ line * p.layout.symbols) × ((r : ℕ) → to ≤ r → r < p.layout.rows → line * p.layout.symbols + p.layout.symbols ≤ delay p.layout (r % p.layout.rows)) × (1 ≤ per_forty (p.copies * p.group)) }
    ensures { LinePut p (piece word_bytes words.now) line slots.old slots.new }
{
    let mut row = [0u8; 7560];
    put_gathered(p, words, line, from, to, &mut row, slots);
}

// Whether forty slots are whole symbols, and half of a line's places are hit. Of its residues, those from `from` on up to `to` have places in it, and those from
// `full_from` on up to `full_to` all of theirs.
fn dense(p: Plan, from: usize, to: usize, full_from: usize, full_to: usize) -> bool
    requires { Fine p × (to ≤ p.layout.rows) × (full_to ≤ p.layout.rows) }
    ensures { result ≡ true → 1 ≤ per_forty (p.copies * p.group) }
{
    let copies = p.copies;
    let group = p.group;
    if to <= from {
        return false;
    }
    if slots_units::per_forty(copies * group) == 0 {
        return false;
    }
    to - from + full_to.saturating_sub(full_from) >= p.layout.rows
}

// Whether a line is worth a row. Symbols of more than twenty slots are not; and where two of three places of all lines are not hit, no line has half of its own hit.
fn worth(p: Plan, line: usize) -> bool
    requires { Fine p × (line < p.layout.lines) }
    ensures { result ≡ true → 1 ≤ per_forty (p.copies * p.group) }
{
    if p.group > 20 {
        return false;
    }
    if p.layout.words * 3 < p.layout.lines {
        return false;
    }
    let rows = p.layout.rows;
    let step = p.layout.step;
    let symbols = p.layout.symbols;
    let start = line * symbols;
    let all = p.layout.words * symbols;
    let end = start + symbols;
    let to = slots_lines::residues_to(rows, step, end, rows);
    let from = slots_lines::residues_from(rows, step, all, start);
    let full_to = slots_lines::residues_to(rows, step, start + 1, rows);
    let full_from = slots_lines::residues_from(rows, step, all, end);
    dense(p, from, to, full_from, full_to)
}

// The slots of a line by a row. It is called in two places, so that the compiler keeps `put_row` apart from lines that are written otherwise.
fn put_dense(p: Plan, words: &[u8], line: usize, slots: &mut [u8])
    requires { Lent p words.now slots.old × (line < p.layout.lines) × (1 ≤ per_forty (p.copies * p.group)) }
    ensures { LinePut p (piece word_bytes words.now) line slots.old slots.new }
{
    let rows = p.layout.rows;
    let step = p.layout.step;
    let symbols = p.layout.symbols;
    let start = line * symbols;
    if rows == 1 {
        put_row(p, words, line, 0, 1, slots);
        return;
    }
    let to = slots_lines::residues_to(rows, step, start + symbols, rows);
    let from = slots_lines::residues_from(rows, step, p.layout.words * symbols, start);
    put_row(p, words, line, from.min(to), to, slots);
}

// The slots of a line's symbols.
pub fn put_symbols(p: Plan, words: &[u8], line: usize, slots: &mut [u8])
    requires { Lent p words.now slots.old × (line < p.layout.lines) }
    ensures { LinePut p (piece word_bytes words.now) line slots.old slots.new }
{
    if worth(p, line) {
        put_dense(p, words, line, slots);
    } else {
        slots_lines::put_residues(p, words, line, slots);
    }
}
