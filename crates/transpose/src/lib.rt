// Eight rows of w bytes, in which rows and bits change places: byte i of the rows is a square of eight times eight bits, and each
// square is turned over its diagonal. In goes bit d of row t, out comes bit t of row d, bits counted from the lowest.
//
//     row 0   a7 .. a1 a0          row 0   h0 .. b0 a0
//     row 1   b7 .. b1 b0    ->    row 1   h1 .. b1 a1
//      ..      ..                   ..      ..
//     row 7   h7 .. h1 h0          row 7   h7 .. b7 a7
//
// By fours, then by twos, then one by one: in a stage of e the upper e of 2 e bits in the first e of 2 e rows change places with the
// lower e bits in the e rows after them. All w squares go through a stage together.
#![tactic(auto)]

ghost use Rattle.std.specs.Prelude.{◌+◌, ◌*◌, ◌≤◌, length};
ghost use Rattle.transpose.specs.Inner.{Mask, Exchanged, Stage, Transposed};

// The d bytes from `at` on and the d after them: e bits of each change places: those outside the mask in the first, those in it in the second.
fn exchanged(s: &mut [u8], at: usize, d: usize, e: usize, m: u8)
    requires { Mask e m × (at + 2 * d ≤ length s.old) }
    ensures { Exchanged e m d at d s.old s.new }
{
    let up = m << e;
    for i in 0..d {
        let x = at + i;
        let y = x + d;
        let a = s[x];
        let b = s[y];
        s[x] = (a & m) | ((b & m) << e);
        s[y] = ((a >> e) & m) | (b & up);
    }
}

// A stage over the first 2 e n rows, e and e in turn.
fn stage(s: &mut [u8], w: usize, n: usize, e: usize, m: u8)
    requires { Mask e m × (1 ≤ w) × (2 * (w * (e * n)) ≤ length s.old) }
    ensures { Stage w e n s.old s.new }
{
    for k in 0..n {
        exchanged(s, 2 * (w * (e * k)), w * e, e, m);
    }
}

pub fn transposed(s: &mut [u8], w: usize)
    requires { (1 ≤ w) × (8 * w ≤ length s.old) }
    ensures { Transposed w s.old s.new }
{
    stage(s, w, 1, 4, 0x0F);
    stage(s, w, 2, 2, 0x33);
    stage(s, w, 4, 1, 0x55);
}
