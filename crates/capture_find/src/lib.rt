// Finding a start in a capture: the earliest slot, from a given one on, at which the whole marker begins, each symbol with its guard slots empty.
#![tactic(auto)]

ghost use Rattle.std.specs.Prelude.{◌≡◌, ◌≤◌, ◌<◌, length, IfOk};
ghost use Rattle.answers.specs.Inner.{answer_of};
ghost use Rattle.plan.specs.Inner.{Fine};
ghost use Rattle.plan.specs.Plan.{plan_in};
ghost use Rattle.capture_search.specs.Search.{find_lengths_right, first_fit_from, capture_most, slot_says, find_from_says};

use answers::{Fault, Refusal, ask};
use header::Fields;
use plan::Plan;

// The longest capture, in bytes: 2 to the power 53.
pub const MOST: usize = 9007199254740992;

// Question 8: whether the marker has its length, and the capture is not too long.
#[tactic(auto, unfolding(capture_search::specs::Search::find_lengths_right))]
fn find_lengths_right(f: Fields, marker_length: usize, capture_length: usize) -> bool
    ensures { result ≡ find_lengths_right f marker_length capture_length }
{
    marker_length == header_sizes::marker_bytes(f) && capture_length <= MOST
}

// Question 19, and the slot. Nothing is added to a slot that leaves no start.
fn seek(p: Plan, b: &[u8], from: usize) -> Result<usize, Refusal>
    requires { Fine p × (length b.now ≤ capture_most) }
    ensures answer_value { answer_of result ≡ slot_says p b.now from }
    ensures slot_value { IfOk result (λ slot. slot ≡ first_fit_from p b.now from) }
{
    let n = p.layout.markers * p.group;
    ask(n <= 8 * b.len(), Fault::NoMarker)?;
    let end = 8 * b.len() + 1 - n;
    ask(from < end, Fault::NoMarker)?;
    let slot = capture_marker::first_fit(p, b, n, from, end);
    ask(slot < end, Fault::NoMarker)?;
    Ok(slot)
}

// Questions 1 to 7, 20, 8 and 19; where all are answered yes, the earliest slot from `from` on at which the marker begins.
pub fn find(header: &[u8], marker: &[u8], capture: &[u8], from: u64) -> Result<usize, Refusal>
    ensures answer_value { answer_of result ≡ find_from_says header.now marker.now capture.now from }
    ensures slot_value { IfOk result (λ slot. slot ≡ first_fit_from (plan_in header.now marker.now) capture.now from) }
{
    let parameters = parameters::check(header, marker)?;
    let lengths = find_lengths_right(parameters.fields, marker.len(), capture.len());
    ask(lengths, Fault::BadLength)?;
    seek(plan::plan_of(parameters), capture, from as usize)
}
