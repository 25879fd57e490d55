// Questions 1 to 7 and 20, in order; the first no gives the answer. `header_says` asks those that `runsheet` asks.
#![tactic(auto)]

ghost use Rattle.std.specs.Prelude.{◌≡◌};
ghost use Rattle.header_questions.specs.Questions.{fields_say, form_says, header_says, run_says, old_says};
ghost use Rattle.answers.specs.Inner.{answer_of};

use answers::{Fault, Refusal, ask};
use header::{Fields, form};
use header_marks::marks_good;
use header_tests::{
    old_question1, question1, question2, question3, question4, question5, question6, question7,
    question20,
};

// 2 to 7, of the fields.
fn fields_say(f: Fields) -> Result<(), Refusal>
    ensures { answer_of result ≡ fields_say f }
{
    ask(question2(f), Fault::BadRate)?;
    ask(question3(f), Fault::BadOrder)?;
    ask(question4(f), Fault::BadRows)?;
    ask(question5(f), Fault::BadFit)?;
    ask(question6(f), Fault::BadFrames)?;
    ask(question7(f), Fault::BadMarker)
}

// 1 to 7, of a header.
pub fn form_says(header: &[u8]) -> Result<(), Refusal>
    ensures { answer_of result ≡ form_says header.now }
{
    ask(question1(header), Fault::BadHeader)?;
    fields_say(form::read(header))
}

// All questions of a header alone.
pub fn header_says(header: &[u8]) -> Result<(), Refusal>
    ensures { answer_of result ≡ header_says header.now }
{
    form_says(header)?;
    ask(question20(form::read(header)), Fault::BadCopies)
}

// All questions of a header and the marker symbols passed with it.
pub fn run_says(header: &[u8], marker: &[u8]) -> Result<(), Refusal>
    ensures { answer_of result ≡ run_says header.now marker.now }
{
    form_says(header)?;
    let f = form::read(header);
    ask(marks_good(f, marker), Fault::BadMarker)?;
    ask(question20(f), Fault::BadCopies)
}

// Those of an archived header. Beside `form_says` only question 1 and its name differ: one function would be given the test.
pub fn old_says(old: &[u8]) -> Result<(), Refusal>
    ensures { answer_of result ≡ old_says old.now }
{
    ask(old_question1(old), Fault::BadHeader)?;
    fields_say(form::read(old))
}
