// What a checked header implies for a call: questions 1 to 7, 20 and 8, and the numbers that steps 8 to 10 go by.
#![tactic(auto)]

ghost use Rattle.std.specs.Prelude.{◌≡◌, ◌≤◌, IfOk};
ghost use Rattle.answers.specs.Inner.{answer_of};
ghost use Rattle.header.specs.Header.{fields_of};
ghost use Rattle.parameters.specs.Parameters.{parameters_of};
ghost use Rattle.header_sizes.specs.Inner.{Valid};
ghost use Rattle.plan.specs.Plan.{plan_of};
ghost use Rattle.plan.specs.Lengths.{run_lengths_right, call_says};

use answers::{Fault, Refusal, ask};
use channel::Layout;
use header::Fields;
use parameters::Parameters;

// What steps 8 to 10 need of a run: the header's numbers and those that follow from them.
#[derive(Clone, Copy)]
pub struct Plan {
    // how many times each symbol is sent
    pub copies: usize,
    // m, the bits of a symbol
    pub bits: usize,
    // M, the pulse order
    pub order: usize,
    // the slots of a symbol: M, and M/4 guard slots
    pub group: usize,
    // the layout of the symbols
    pub layout: Layout,
    // the marker symbols, of which the layout has the number; an array, since memory is fixed
    pub marks: [u8; 32],
}

// The plan of checked parameters, computed once.
pub fn plan_of(q: Parameters) -> Plan
    requires { Valid q.fields }
    ensures { result ≡ plan_of q }
{
    let f = q.fields;
    let marks = q.marks;
    let order = header_sizes::pulse_order(f);
    let group = header_sizes::slots_per_symbol(f);
    let layout = header_sizes::layout_of(f);
    Plan {
        copies: f.copies,
        bits: f.bits,
        order,
        group,
        layout,
        marks,
    }
}

// Question 8: whether each slice has the length that the header implies.
#[tactic(auto, unfolding(crate::specs::Lengths::run_lengths_right))]
fn run_lengths_right(
    f: Fields,
    marker_length: usize,
    frames_length: usize,
    slots_length: usize,
) -> bool
    requires { Valid f × (f.copies ≤ 32) }
    ensures { result ≡ run_lengths_right f marker_length frames_length slots_length }
{
    marker_length == header_sizes::marker_bytes(f)
        && frames_length == header_sizes::frame_bytes(f)
        && slots_length == header_sizes::slot_bytes(f)
}

// Questions 1 to 7, 20 and 8 of a call on frames and slots, and the parameters where all are answered yes.
pub fn check(
    header: &[u8],
    marker: &[u8],
    frames_length: usize,
    slots_length: usize,
) -> Result<Parameters, Refusal>
    ensures answer_value { answer_of result ≡ call_says header.now marker.now frames_length slots_length }
    ensures parameters_value { IfOk result (λ q. q ≡ parameters_of (fields_of header.now) marker.now) }
{
    let parameters = parameters::check(header, marker)?;
    let lengths = run_lengths_right(parameters.fields, marker.len(), frames_length, slots_length);
    ask(lengths, Fault::BadLength)?;
    Ok(parameters)
}
