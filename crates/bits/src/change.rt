// Packed bytes changed in place.
ghost use Rattle.std.specs.Prelude.{◌≡◌, ◌+◌, ◌*◌, ◌≤◌, ◌<◌, length};
ghost use Rattle.bits.specs.Pack.{flip_bit};
ghost use Rattle.bits.specs.Inner.{Copied, Ends};

// Flips bit x.
pub fn flip(packed: &mut [u8], x: usize)
    requires { x < 8 * length packed.old }
    ensures { packed.new ≡ flip_bit packed.old x }
{
    packed[x / 8] ^= 128u8 >> (x % 8);
}

// Copies the n bytes from byte `at` on to byte `to`: the library's copy, promised place by place, as the laws above cite it.
pub fn copy_part(from: &[u8], at: usize, out: &mut [u8], to: usize, n: usize)
    requires { (at + n ≤ length from.now) × (to + n ≤ length out.old) }
    ensures { Copied from.now at out.old to n out.new }
{
    out[to..to + n].copy_from_slice(&from[at..at + n]);
}

// Clears the spare bits of the last byte, those from bit `end` on.
pub fn clear_spare(packed: &mut [u8], end: usize)
    requires { (end ≤ 8 * length packed.old) × (8 * length packed.old < end + 8) }
    ensures { Ends packed.old end packed.new }
{
    let used = end % 8;
    if used > 0 {
        let spare = 8 - used;
        packed[end / 8] = (packed[end / 8] >> spare) << spare;
    }
}
