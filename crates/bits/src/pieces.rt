// Bits counted in pieces of k: which piece, and where in it.
ghost use Rattle.std.specs.Prelude.{◌+◌, ◌*◌, ◌^◌, ◌≤◌, ◌<◌};
ghost use Rattle.bits.specs.Inner.{At};

#[derive(Clone, Copy)]
pub struct Position {
    pub piece: usize,
    pub bit: usize,
}

// The position of bit x.
pub fn position_of(x: usize, k: usize) -> Position
    requires { 1 ≤ k }
    ensures { At k x result }
{
    Position {
        piece: x / k,
        bit: x % k,
    }
}

// The position n bits further on, for n of at most a piece.
pub fn position_after(p: Position, n: usize, k: usize) -> Position
    requires { (p.bit < k) × (n ≤ k) × (k < 2 ^ 32) × (p.piece < 2 ^ 32) }
    ensures { At k (p.piece * k + p.bit + n) result }
{
    let piece = p.piece;
    let bit = p.bit + n;
    if bit < k {
        return Position { piece, bit };
    }
    Position {
        piece: piece + 1,
        bit: bit - k,
    }
}
