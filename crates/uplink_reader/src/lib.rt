// The uplink's reader: slots to frames. Question 8, then 28 and 29, and the frames once all are answered yes.
#![tactic(auto)]

ghost use Rattle.std.specs.Prelude.{◌≡◌, ◌+◌, ◌*◌, ◌/◌, ◌<◌, length};
ghost use Rattle.answers.specs.Answer.{after};
ghost use Rattle.answers.specs.Inner.{answer_of};
ghost use Rattle.uplink.specs.Uplink.{uplink_frames_of, first_no_bit, first_bad_block, uplink_slots_say, uplink_read_says};
ghost use Rattle.uplink.specs.Inner.{Framed, Slotted};

use answers::{Fault, Refusal, ask};
use bits::packing;
use uplink_heard::{frame_in, is_bit, passes};

// Question 28: the first group that is not a bit, or the number of groups.
fn first_bad_group(slots: &[u8], count: usize) -> usize
    requires { Slotted count slots.now }
    ensures { result ≡ first_no_bit slots.now }
{
    let end = 128 * count;
    for g in 0..end {
        if !is_bit(slots, g) {
            return g;
        }
    }
    end
}

// Question 29: the first codeblock that fails, or their number.
fn first_bad_block(slots: &[u8], count: usize) -> usize
    requires { Slotted count slots.now }
    ensures { result ≡ first_bad_block slots.now }
{
    for i in 0..count {
        if !passes(slots, i) {
            return i;
        }
    }
    count
}

// Questions 28 and 29, each asked of all slots.
fn uplink_slots_say(slots: &[u8], count: usize) -> Result<(), Refusal>
    requires { Slotted count slots.now }
    ensures { answer_of result ≡ uplink_slots_say slots.now }
{
    let g = first_bad_group(slots, count);
    if g != 128 * count {
        return Err(Fault::BadGroup.at(g));
    }
    let i = first_bad_block(slots, count);
    if i != count {
        return Err(Fault::BadParity.at(i));
    }
    Ok(())
}

// The frames of all codeblocks.
fn frames_out(slots: &[u8], count: usize, frames: &mut [u8])
    requires { Slotted count slots.now × Framed count frames.old }
    ensures { frames.new ≡ uplink_frames_of slots.now }
{
    for j in 0..count {
        packing::put_eight(frames, 8 * j, frame_in(slots, j));
    }
}

// Reads the frames of slots. Nothing is written before the last question is answered yes.
pub fn read(slots: &[u8], frames: &mut [u8]) -> Result<(), Refusal>
    ensures value { answer_of result ≡ uplink_read_says slots.now (length frames.old) }
    ensures frames_after { frames.new ≡ after (answer_of result) (uplink_frames_of slots.now) frames.old }
{
    let count = slots.len() / 64;
    let lengths = uplink::uplink_lengths_right(count, frames.len(), slots.len());
    ask(lengths, Fault::BadLength)?;
    uplink_slots_say(slots, count)?;
    frames_out(slots, count, frames);
    Ok(())
}
