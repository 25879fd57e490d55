// The uplink's writer: frames to slots.
#![tactic(auto)]

ghost use Rattle.std.specs.Prelude.{◌≡◌, ◌+◌, ◌*◌, ◌≤◌, ◌<◌, length};
ghost use Rattle.bits.specs.Pack.{val, bit_of};
ghost use Rattle.bits.specs.Inner.{Laid};
ghost use Rattle.answers.specs.Answer.{after};
ghost use Rattle.answers.specs.Inner.{answer_of};
ghost use Rattle.uplink.specs.Uplink.{codeblock, slot_of, uplink_slots_of, uplink_write_says};
ghost use Rattle.uplink.specs.Inner.{Framed, Slotted};

use answers::{Fault, Refusal, ask};
use bits::packing;
use uplink::sequence;

// Bits 2q and 2q + 1 of v as eight slots.
fn pair(v: u64, q: usize) -> u8
    requires { q < 32 }
    ensures { result ≡ val (λ u. slot_of (bit_of v) (8 * q + u)) 8 }
{
    let first = (v >> (63 - 2 * q)) & 1;
    let second = (v >> (62 - 2 * q)) & 1;
    (128u8 >> first) | (8u8 >> second)
}

// The slots of the 64 bits of v, into the 32 bytes from `at` on.
fn put_slots(v: u64, slots: &mut [u8], at: usize)
    requires { at + 32 ≤ length slots.old }
    ensures { Laid slots.old at 32 (slot_of (bit_of v)) slots.new }
{
    for q in 0..32 {
        slots[at + q] = pair(v, q);
    }
}

// Codeblock i, of frame i.
fn put_codeblock(frames: &[u8], i: usize, slots: &mut [u8])
    requires { (i < 64) × (8 * i + 8 ≤ length frames.now) × (64 * i + 64 ≤ length slots.old) }
    ensures { Laid slots.old (64 * i) 64 (slot_of (codeblock frames.now i)) slots.new }
{
    let frame = packing::eight(frames, 8 * i);
    put_slots(frame ^ sequence::FIRST, slots, 64 * i);
    put_slots(ldpc::parity(frame) ^ sequence::SECOND, slots, 64 * i + 32);
}

// The codeblocks of all frames, one after another.
fn codeblocks(frames: &[u8], count: usize, slots: &mut [u8])
    requires { Framed count frames.now × Slotted count slots.old }
    ensures { slots.new ≡ uplink_slots_of frames.now }
{
    for i in 0..count {
        put_codeblock(frames, i, slots);
    }
}

// Writes the slots of frames.
pub fn write(frames: &[u8], slots: &mut [u8]) -> Result<(), Refusal>
    ensures value { answer_of result ≡ uplink_write_says frames.now (length slots.old) }
    ensures slots_after { slots.new ≡ after (answer_of result) (uplink_slots_of frames.now) slots.old }
{
    let count = frames.len() / 8;
    let lengths = uplink::uplink_lengths_right(count, frames.len(), slots.len());
    ask(lengths, Fault::BadLength)?;
    codeblocks(frames, count, slots);
    Ok(())
}
