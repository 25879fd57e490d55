// Step 7, the randomizer: the bytes of its sequence are added to those of a slice, one period after another.
#![tactic(auto)]

ghost use Rattle.std.specs.Prelude.{◌≡◌, ◌+◌, ◌%◌, ◌≤◌, length};
ghost use Rattle.bits.specs.Pack.{bit_at, bytes_of};
ghost use Rattle.randomizer.specs.Randomizer.{randomize};
ghost use Rattle.randomizer.specs.Inner.{Added};

mod table;

use table::PERIOD;

// Adds the sequence, from its start, to the n bytes from `start` on, at most one period.
fn add_period(bytes: &mut [u8], start: usize, n: usize)
    requires { (start % 255 ≡ 0) × (n ≤ 255) × (start + n ≤ length bytes.old) }
    ensures { Added bytes.old bytes.new start (start + n) }
{
    let table = PERIOD;
    for i in 0..n {
        bytes[start + i] ^= table[i];
    }
}

// Step 7, which undoes itself. Adds the sequence to the bits of any number of bytes.
pub fn randomize(bytes: &mut [u8])
    ensures { bytes.new ≡ bytes_of (length bytes.old) (randomize (bit_at bytes.old)) }
{
    let n = bytes.len();
    for start in (0..n).step_by(PERIOD.len()) {
        add_period(bytes, start, (n - start).min(PERIOD.len()));
    }
}
