// The uplink: what it is, for its writer and its reader. The only code is question 8 and the part of step 7's sequence that a codeblock gets.
#![tactic(auto)]

pub mod sequence;

ghost use Rattle.std.specs.Prelude.{◌≡◌};
ghost use Rattle.uplink.specs.Uplink.{uplink_lengths_right};

// Question 8: 1 to 64 codeblocks, of 8 frame bytes and 64 slot bytes each.
#[tactic(auto, unfolding(crate::specs::Uplink::uplink_lengths_right))]
pub fn uplink_lengths_right(count: usize, frames_length: usize, slots_length: usize) -> bool
    ensures { result ≡ uplink_lengths_right count frames_length slots_length }
{
    1 <= count && count <= 64 && frames_length == 8 * count && slots_length == 64 * count
}
