// Step 2, the check: eight bytes of the block at a time by tables, then byte by byte, and the last bits one by one.
#![tactic(auto)]

ghost use Rattle.std.specs.Prelude.{◌≡◌, ◌*◌, ◌≤◌, ◌<◌, length};
ghost use Rattle.bits.specs.Pack.{bit_at};
ghost use Rattle.crc.specs.Check.{register};

mod table;

use bits::packing;
use crc_steps::{advance_bit, by_tables};
use table::CHANGES;

fn whole_bytes(block: &[u8], n: usize) -> u32
    requires { n ≤ length block.now }
    ensures { result ≡ register (bit_at block.now) (8 * n) }
{
    let table = CHANGES;
    by_tables(block, &table, n)
}

// Step 2. The check register after the first k bits of a packed block.
pub fn check(block: &[u8], k: usize) -> u32
    requires { k ≤ 8 * length block.now }
    ensures { result ≡ register (bit_at block.now) k }
{
    let n = k / 8;
    let mut r = whole_bytes(block, n);
    for j in 8 * n..k {
        r = advance_bit(r, packing::bit_at(block, j) as u32);
    }
    r
}
