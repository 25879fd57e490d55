// The checked parameters of a run: the header's fields and the marker symbols passed with it. `check` asks questions 1 to 7 and 20.
#![tactic(auto)]

ghost use Rattle.std.specs.Prelude.{◌≡◌, IfOk};
ghost use Rattle.answers.specs.Inner.{answer_of};
ghost use Rattle.header.specs.Header.{fields_of};
ghost use Rattle.header_questions.specs.Questions.{run_says};
ghost use Rattle.header_sizes.specs.Inner.{Valid};
ghost use Rattle.parameters.specs.Parameters.{parameters_of};

use answers::Refusal;
use header::{Fields, form};

// What a run carries along: the fields and up to 32 marker symbols, the first `markers` of `marks`. An array and a count, since memory is
// fixed, and since `parameters_of` has both.
#[derive(Clone, Copy)]
pub struct Parameters {
    pub fields: Fields,
    pub marks: [u8; 32],
    pub markers: usize,
}

// The fields with the symbols, followed by zeros.
fn carry(f: Fields, marker: &[u8]) -> Parameters
    requires { Valid f }
    ensures { result ≡ parameters_of f marker.now }
{
    let markers = header_marks::lent_marks(f, marker);
    let mut marks = [0u8; 32];
    marks[..markers].copy_from_slice(&marker[..markers]);
    Parameters {
        fields: f,
        marks,
        markers,
    }
}

// Questions 1 to 7 and 20, and the parameters where they are answered yes.
pub fn check(header: &[u8], marker: &[u8]) -> Result<Parameters, Refusal>
    ensures answer_value { answer_of result ≡ run_says header.now marker.now }
    ensures parameters_value { IfOk result (λ q. q ≡ parameters_of (fields_of header.now) marker.now) }
{
    header_answers::run_says(header, marker)?;
    Ok(carry(form::read(header), marker))
}
