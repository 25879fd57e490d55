// What is heard of an uplink: the bits of its slots, and the frame of a codeblock that passes.
#![tactic(auto)]

ghost use Rattle.std.specs.Prelude.{◌≡◌, ◌+◌, ◌-◌, ◌*◌, ◌/◌, ◌%◌, ◌^◌, ◌≤◌, ◌<◌, length};
ghost use Rattle.bits.specs.Pack.{val, bit_at};
ghost use Rattle.ldpc.specs.Code.{is_codeword};
ghost use Rattle.uplink.specs.Uplink.{is_bit, received};

use uplink::sequence;

// Whether the four slots of group g are a bit: 1000 or 0100, which are 8 and 4. 272 has its ones at exactly these places.
pub fn is_bit(slots: &[u8], g: usize) -> bool
    requires { g < 2 * length slots.now }
    ensures { result ≡ is_bit slots.now g }
{
    let group = (slots[g / 2] >> (4 - 4 * (g % 2))) & 15;
    (272u16 >> group) & 1 == 1
}

// The bits of a byte of slots: the second slot of each group.
fn two_bits(b: u8) -> u64
    ensures { result ≡ val (λ t. b / 2 ^ (7 - (4 * t + 1)) % 2) 2 }
{
    let v = b as u64;
    ((v >> 5) & 2) | ((v >> 2) & 1)
}

// The 64 bits of the 32 bytes of slots from `at` on.
fn heard(slots: &[u8], at: usize) -> u64
    requires { at + 32 ≤ length slots.now }
    ensures { result ≡ val (λ j. bit_at slots.now (8 * at + (4 * j + 1))) 64 }
{
    let mut v = 0u64;
    for byte in &slots[at..at + 32] {
        v = (v << 2) | two_bits(*byte);
    }
    v
}

// The frame of codeblock i.
pub fn frame_in(slots: &[u8], i: usize) -> u64
    requires { (i < 64) × (64 * i + 64 ≤ length slots.now) }
    ensures { result ≡ val (received slots.now i) 64 }
{
    heard(slots, 64 * i) ^ sequence::FIRST
}

// Whether codeblock i passes the parity checks: its parity bits are those of its frame.
pub fn passes(slots: &[u8], i: usize) -> bool
    requires { (i < 64) × (64 * i + 64 ≤ length slots.now) }
    ensures { result ≡ is_codeword (received slots.now i) }
{
    let parity = heard(slots, 64 * i + 32) ^ sequence::SECOND;
    ldpc::parity(frame_in(slots, i)) == parity
}
