// Step 10, the slots of zeros, laid many bytes at a time, and the pulses of the other symbols, moved to where they belong.
#![tactic(auto)]

ghost use Rattle.std.specs.Prelude.{◌≡◌, ◌+◌, ◌*◌, ◌^◌, ◌≤◌, ◌<◌, length};
ghost use Rattle.plan.specs.declared.Plan as plans;
ghost use Rattle.bits.specs.Pack.{flip_bit};
ghost use Rattle.slots_moves.specs.Inner.{Copied, Of, Moved, Repeats, Laid, Zeros};

// Zeros' slots in the bytes from `from` up to `to`: they repeat every forty bytes.
pub fn lay_zeros(zeros: &[u8], slots: &mut [u8], from: usize, to: usize)
    requires { Repeats zeros.now × (from ≤ to) × (to ≤ length slots.old) }
    ensures { Laid zeros.now slots.old from to slots.new }
{
    // No range has these steps: each is as long as the zeros that are left from byte i modulo 40 on.
    let mut i = from;
    while i < to {
        let at = i % 40;
        let n = (to - i).min(zeros.len() - at);
        slots[i..i + n].copy_from_slice(&zeros[at..at + n]);
        i += n;
    }
}

// Fills many forties with them, so that a line is laid in few parts.
pub fn fill_zeros(group: usize, zeros: &mut [u8])
    requires { (1 ≤ group) × (group ≤ 320) × (40 ≤ length zeros.old) }
    ensures { Zeros group zeros.new }
{
    let forty = pulses::groups::zeros(group);
    let n = zeros.len();
    lay_zeros(&forty, zeros, 0, n);
}

// Moves a zero's pulse, which is at slot x, q slots further on.
fn move_pulse(slots: &mut [u8], x: usize, q: usize)
    requires { (x + q < 8 * length slots.old) × (x + q < 2 ^ 36) }
    ensures { slots.new ≡ flip_bit (flip_bit slots.old x) (x + q) }
{
    bits::change::flip(slots, x);
    bits::change::flip(slots, x + q);
}

// Moves the pulses of symbol s, which is 0, in all its copies.
fn move_copies(copies: usize, group: usize, s: usize, q: usize, slots: &mut [u8])
    requires { Copied copies group s q slots.old }
    ensures { (p : plans.Plan) → Of p copies group s q → Moved p s q slots.old slots.new }
{
    for c in 0..copies {
        move_pulse(slots, (s * copies + c) * group, q);
    }
}

// The same, without a loop where there is one copy.
pub fn move_symbol(copies: usize, group: usize, s: usize, q: usize, slots: &mut [u8])
    requires { Copied copies group s q slots.old }
    ensures { (p : plans.Plan) → Of p copies group s q → Moved p s q slots.old slots.new }
{
    if copies == 1 {
        move_pulse(slots, s * group, q);
    } else {
        move_copies(copies, group, s, q, slots);
    }
}
