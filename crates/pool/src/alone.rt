// The only slot that has pulses. Nothing is counted, however many copies have lost their pulse.
ghost use Rattle.std.specs.Prelude.{◌≡◌, ℕ, ◌<◌, eqb};
ghost use Rattle.bits.specs.Basics.{bool};
ghost use Rattle.pool.specs.Inner.{lit, Held};

// Its place; or the group's size, or more, where the slots must be counted. No branch depends on where the slot is.
pub fn alone(b: &[u8], copies: usize, group: usize, s: usize) -> usize
    requires { Held group copies b.now s }
    ensures { result < group → (i : ℕ) → i < group → lit b.now copies group s i ≡ bool (eqb i result) }
{
    if crate::joined::open(b, copies, group, s) {
        if group <= 57 {
            return pulses::numbers::lone(crate::joined::slots_from(b, copies, group, s, 0, group));
        }
        if group % 8 == 0 {
            return pulses::numbers::only(
                |k| crate::joined::number(b, copies, group, s, k),
                (group + 63) / 64,
            );
        }
    }
    group
}
