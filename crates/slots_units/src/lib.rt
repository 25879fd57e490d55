// Step 10, the slots of symbols that lie in a row, one to a byte: forty at a time, as one number. A symbol's pulses are those of a zero moved on.
#![tactic(auto)]

ghost use Rattle.std.specs.Prelude.{◌≡◌, List, ℕ, ◌+◌, ◌-◌, ◌*◌, ◌/◌, ◌%◌, ◌^◌, ◌≤◌, ◌<◌, length};
ghost use Rattle.bits.specs.Inner.{Laid};
ghost use Rattle.bits.specs.Pack.{val};
ghost use Rattle.plan.specs.Inner.{slot_bytes};
ghost use Rattle.slots_moves.specs.Inner.{Holds, front};
ghost use Rattle.slots_units.specs.Inner.{per_forty, row_slot, Zero, Below, Row, Symbols, Split};

use plan::Plan;

// How many symbols of `width` slots are laid at once.
pub fn per_forty(width: usize) -> usize
    ensures { result ≡ per_forty width }
{
    match width {
        5 => 8,
        10 => 4,
        20 => 2,
        40 => 1,
        _ => 0,
    }
}

// The slots of a zero in all its copies, as a number.
fn zero_of(copies: usize, group: usize) -> u64
    requires { (1 ≤ copies) × (1 ≤ group) × (copies * group ≤ 40) }
    ensures { Zero copies group (copies * group) result }
{
    let mut v = 0u64;
    for c in 0..copies {
        v = (v << group) | (1u64 << (group - 1));
    }
    v
}

// The slots of PER symbols of the row from symbol i on, as a number.
fn unit<const PER: usize, const WIDTH: usize>(zero: u64, row: &[u8], i: usize) -> u64
    requires { (i + PER ≤ length row.now) × (WIDTH ≤ 40) × Below 64 row.now }
    ensures { (copies group : ℕ) → Zero copies group WIDTH zero → Below group row.now → PER * WIDTH ≤ 40 → result ≡ val (row_slot group WIDTH row.now i) (PER * WIDTH) }
{
    let mut v = 0u64;
    for j in 0..PER {
        v = (v << WIDTH) | (zero >> row[i + j]);
    }
    v
}

// The five bytes of forty bits, the first highest, from byte `at` on.
fn put_forty(slots: &mut [u8], at: usize, v: u64)
    requires { at + 5 ≤ length slots.old }
    ensures { Laid slots.old at 5 (λ t. v / 2 ^ (39 - t) % 2) slots.new }
{
    slots[at..at + 5].copy_from_slice(&v.to_be_bytes()[3..]);
}

// Forty slots after forty: n times PER symbols of the row from symbol `from` on, in the bytes from `at` on.
fn lay<const PER: usize, const WIDTH: usize>(
    zero: u64,
    row: &[u8],
    from: usize,
    n: usize,
    slots: &mut [u8],
    at: usize,
)
    requires { (from + PER * n ≤ length row.now) × (WIDTH ≤ 40) × Below 64 row.now × (at + 5 * n ≤ length slots.old) }
    ensures { (copies group : ℕ) → Zero copies group WIDTH zero → Below group row.now → PER * WIDTH ≡ 40 → Laid slots.old at (5 * n) (row_slot group WIDTH row.now from) slots.new }
{
    for u in 0..n {
        put_forty(
            slots,
            at + 5 * u,
            unit::<PER, WIDTH>(zero, row, from + PER * u),
        );
    }
}

// The same for each width, so that the compiler knows it.
fn lay_units(
    width: usize,
    zero: u64,
    row: &[u8],
    from: usize,
    n: usize,
    slots: &mut [u8],
    at: usize,
)
    requires { (from + per_forty width * n ≤ length row.now) × (1 ≤ per_forty width) × Below 64 row.now × (at + 5 * n ≤ length slots.old) }
    ensures { (copies group : ℕ) → Zero copies group width zero → Below group row.now → Laid slots.old at (5 * n) (row_slot group width row.now from) slots.new }
{
    match width {
        5 => lay::<8, 5>(zero, row, from, n, slots, at),
        10 => lay::<4, 10>(zero, row, from, n, slots, at),
        20 => lay::<2, 20>(zero, row, from, n, slots, at),
        _ => lay::<1, 40>(zero, row, from, n, slots, at),
    }
}

// The pulses of the symbols of the row from `from` on up to `to`, one by one. The row begins with symbol `first`.
fn move_row(p: Plan, row: &[u8], from: usize, to: usize, first: usize, slots: &mut [u8])
    requires { Row p first to row.now × (from ≤ to) × (length slots.old ≡ slot_bytes p) }
    ensures { (word : ℕ → List ℕ) (end : ℕ) → Symbols p word first to row.now → Holds p (front p word (first + from)) end slots.old → Holds p (front p word (first + to)) end slots.new }
{
    let copies = p.copies;
    let group = p.group;
    for i in from..to {
        slots_moves::move_symbol(copies, group, first + i, row[i] as usize, slots);
    }
}

// How symbols in a row fall into forties: those from `head` up to `last` are `whole` forties, which begin after `units` others.
#[derive(Clone, Copy)]
struct Forties {
    units: usize,
    head: usize,
    whole: usize,
    last: usize,
}

// The slots of n symbols in a row: those before `head` and from `last` on, which share forty slots with others, one by one.
fn lay_split(p: Plan, row: &[u8], n: usize, first: usize, at: Forties, slots: &mut [u8])
    requires { Row p first n row.now × Split p first n at.units at.head at.whole at.last × (length slots.old ≡ slot_bytes p) }
    ensures { (word : ℕ → List ℕ) (end : ℕ) → Symbols p word first n row.now → Holds p (front p word first) end slots.old → Holds p (front p word (first + n)) end slots.new }
{
    let copies = p.copies;
    let group = p.group;
    let zero = zero_of(copies, group);
    move_row(p, row, 0, at.head, first, slots);
    lay_units(
        copies * group,
        zero,
        row,
        at.head,
        at.whole,
        slots,
        5 * at.units,
    );
    move_row(p, row, at.last, n, first, slots);
}

// The slots of n symbols in a row, of which the first is symbol `first` of the run.
pub fn lay_row(p: Plan, row: &[u8], n: usize, first: usize, slots: &mut [u8])
    requires { Row p first n row.now × (8 ≤ n) × (1 ≤ per_forty (p.copies * p.group)) × (length slots.old ≡ slot_bytes p) }
    ensures { (word : ℕ → List ℕ) (end : ℕ) → Symbols p word first n row.now → Holds p (front p word first) end slots.old → Holds p (front p word (first + n)) end slots.new }
{
    let copies = p.copies;
    let group = p.group;
    let per = per_forty(copies * group);
    let units = (first + per - 1) / per;
    let head = units * per - first;
    let whole = (n - head) / per;
    let at = Forties {
        units,
        head,
        whole,
        last: head + whole * per,
    };
    lay_split(p, row, n, first, at, slots);
}
