// The two trips of a header: an archived one of eight bytes becomes one of ten with factor 1, and one of ten with factor 1 goes back to eight.
#![tactic(auto)]

ghost use Rattle.std.specs.Prelude.{◌≡◌, length};
ghost use Rattle.answers.specs.Answer.{after};
ghost use Rattle.answers.specs.Inner.{answer_of};
ghost use Rattle.header_convert.specs.Convert.{widened, narrowed, widen_says, narrow_says};

use answers::{Fault, Refusal, ask};
use header::form;

// Eight bytes to ten. Byte 6 holds the factor in its six high bits.
pub fn widen(old: &[u8], ten: &mut [u8]) -> Result<(), Refusal>
    ensures value { answer_of result ≡ widen_says old.now (length ten.old) }
    ensures ten_after { ten.new ≡ after (answer_of result) (widened old.now) ten.old }
{
    header_answers::old_says(old)?;
    ask(ten.len() == 10, Fault::BadLength)?;
    ten.copy_from_slice(&[
        old[0],
        old[1],
        old[2],
        old[3],
        old[4],
        old[5],
        1 << 2,
        0,
        0,
        0,
    ]);
    Ok(())
}

// Ten bytes to eight, if the factor is 1.
pub fn narrow(header: &[u8], eight: &mut [u8]) -> Result<(), Refusal>
    ensures value { answer_of result ≡ narrow_says header.now (length eight.old) }
    ensures eight_after { eight.new ≡ after (answer_of result) (narrowed header.now) eight.old }
{
    header_answers::header_says(header)?;
    ask(eight.len() == 8, Fault::BadLength)?;
    ask(form::read(header).copies == 1, Fault::NoOldHeader)?;
    eight.copy_from_slice(&[
        header[0], header[1], header[2], header[3], header[4], header[5], 0, 0,
    ]);
    Ok(())
}
