// The slots of a run out of a capture, from any slot on, packed anew, so that they can be read.
#![tactic(auto)]

ghost use Rattle.std.specs.Prelude.{◌≡◌, ◌+◌, ◌*◌, ◌≤◌, ◌<◌, length};
ghost use Rattle.answers.specs.Answer.{after};
ghost use Rattle.answers.specs.Inner.{answer_of};
ghost use Rattle.bits.specs.Pack.{val, bit_at, bytes_of, cut};
ghost use Rattle.header.specs.Header.{fields_of};
ghost use Rattle.header_sizes.specs.Inner.{Valid};
ghost use Rattle.capture_cut.specs.Cut.{cut_of, cut_lengths_right, cut_says};
ghost use Rattle.capture_cut.specs.Inner.{Lies};

use answers::{Fault, Refusal, ask};
use header::{Fields, form};

// The eight slots from slot y on, with zeros after the last slot of the capture.
fn last_byte(b: &[u8], y: usize) -> u8
    requires { y < 8 * length b.now }
    ensures { result ≡ val (λ t. bit_at b.now (y + t)) 8 }
{
    if b.len() - y / 8 > 1 {
        return bits::stretch::byte_from(b, y);
    }
    b[y / 8] << (y % 8)
}

// `count` slots of the capture from slot s on, with zeros in the spare bits.
fn take(b: &[u8], s: usize, count: usize, slots: &mut [u8])
    requires { Lies b.now s count (length slots.old) }
    ensures { slots.new ≡ bytes_of (length slots.old) (cut count (λ i. bit_at b.now (s + i))) }
{
    let last = slots.len() - 1;
    bits::stretch::bytes_from(b, s, last, slots, 0);
    slots[last] = last_byte(b, s + 8 * last);
    bits::change::clear_spare(slots, count);
}

// Question 8. Nothing is added to the slot, which can be any number.
#[tactic(auto, unfolding(crate::specs::Cut::cut_lengths_right))]
fn cut_lengths_right(f: Fields, capture_length: usize, s: usize, slots_length: usize) -> bool
    requires { Valid f × (f.copies ≤ 32) }
    ensures { result ≡ cut_lengths_right f capture_length s slots_length }
{
    let count = header_sizes::slot_count(f);
    capture_length <= capture_find::MOST
        && slots_length == header_sizes::slot_bytes(f)
        && count <= 8 * capture_length
        && s <= 8 * capture_length - count
}

// Cuts a run's slots out of a capture. What they hold is not examined.
pub fn cut_out(header: &[u8], capture: &[u8], slot: u64, slots: &mut [u8]) -> Result<(), Refusal>
    ensures value { answer_of result ≡ cut_says header.now (length capture.now) slot (length slots.old) }
    ensures slots_after { slots.new ≡ after (answer_of result) (cut_of (fields_of header.now) capture.now slot) slots.old }
{
    header_answers::header_says(header)?;
    let f = form::read(header);
    let s = slot as usize;
    let lengths = cut_lengths_right(f, capture.len(), s, slots.len());
    ask(lengths, Fault::BadLength)?;
    take(capture, s, header_sizes::slot_count(f), slots);
    Ok(())
}
