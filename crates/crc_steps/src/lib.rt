// The check register moved on: by a bit, by eight bytes at a time with tables, and by bytes.
#![tactic(auto)]

ghost use Rattle.std.specs.Prelude.{◌≡◌, ◌*◌, ◌≤◌, ◌<◌, length};
ghost use Rattle.bits.specs.Pack.{bit_at, bit_of};
ghost use Rattle.crc.specs.Check.{advance, register};
ghost use Rattle.crc.specs.Inner.{advances};
ghost use Rattle.crc_steps.specs.Inner.{change, Tables};

use bits::packing;

// The register after one more bit.
pub fn advance_bit(r: u32, b: u32) -> u32
    requires { b < 2 }
    ensures { result ≡ advance r b }
{
    (r << 1) ^ (((r >> 31) ^ b) * 0x2004_4009)
}

// What the 64 bits of v make of a register of zeros: the sum of what each six of them and the zeros after them make of it.
fn eleven(table: &[u32], v: u64) -> u32
    requires { Tables table.now }
    ensures { result ≡ advances 0 (bit_of v) 64 }
{
    let mut r: u32 = 0;
    for k in 0..11 {
        r ^= table[64 * k + ((v >> (6 * k)) & 63) as usize];
    }
    r
}

// The same for the eight bits of a byte.
fn two(table: &[u32], b: u32) -> u32
    requires { Tables table.now × (b < 256) }
    ensures { result ≡ change b }
{
    table[(b & 63) as usize] ^ table[(64 + (b >> 6)) as usize]
}

// The register after the first 8 n bytes: it acts as if it were added to the next 32 bits.
fn by_eights(block: &[u8], table: &[u32], n: usize) -> u32
    requires { Tables table.now × (8 * n ≤ length block.now) }
    ensures { result ≡ register (bit_at block.now) (64 * n) }
{
    let mut r: u32 = 0xFFFF_FFFF;
    for j in 0..n {
        r = eleven(table, ((r as u64) << 32) ^ packing::eight(block, 8 * j));
    }
    r
}

// The register after the first n bytes.
pub fn by_tables(block: &[u8], table: &[u32], n: usize) -> u32
    requires { Tables table.now × (n ≤ length block.now) }
    ensures { result ≡ register (bit_at block.now) (8 * n) }
{
    let eights = n / 8;
    let mut r = by_eights(block, table, eights);
    for byte in &block[8 * eights..n] {
        r = (r << 8) ^ two(table, (r >> 24) ^ u32::from(*byte));
    }
    r
}
